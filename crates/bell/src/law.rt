//! The rule of the bell's table. Its key is the number of rings.
use crate::view::View;
use atomic_table::TableRule;

/// While the sleeper sleeps, no new tail is missed: see `Ruled`.
pub struct Law;

impl TableRule<u8, View, u64> for Law {
    ghost use Rattle.bell.specs.Rule.{Ruled, opening_view};

    ghost holds = { Ruled };

    ghost first = { opening_view };
}
