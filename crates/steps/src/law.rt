//! The rule of the table, and what it is told when the table is made.
use crate::slot::Thing;
use crate::view::View;
use atomic_table::TableRule;
use std::snapshot::Snapshot;

/// The cells of each ring and the capacities of the pipes, as the table was made for them.
#[derive(Drop)]
pub struct About {
    pub cells: Snapshot<Vec<u64>>,
    pub caps: Snapshot<Vec<u32>>,
}

/// One legal history agrees with all words, and each seat has seen a beginning of it.
pub struct Law;

impl TableRule<Option<Thing>, View, About> for Law {
    ghost use Rattle.steps.specs.Rule.{Ruled, opening_view};

    ghost holds = { λ key. Ruled (record { cells = key.cells.value.items; caps = key.caps.value.items }) };

    ghost first = { λ key. opening_view (record { cells = key.cells.value.items; caps = key.caps.value.items }) };
}
