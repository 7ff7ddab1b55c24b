//! The rule of the event count's table.
use crate::view::View;
use atomic_table::TableRule;

/// No notice is lost: see `Ruled`.
pub struct Law;

impl TableRule<u8, View, ()> for Law {
    ghost use Rattle.event_count.specs.Rule.{Ruled, opening_view};

    ghost holds = { λ _ s. Ruled s };

    ghost first = { λ _. opening_view };
}
