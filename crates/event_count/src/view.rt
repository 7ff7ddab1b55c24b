//! What a seat of the event count's table knows. All of it exists in proofs alone: no value of these types is made.
use std::collections::LinkedList;

/// Whose seat it is.
pub enum Role {
    /// The one who made the event count, and takes no step.
    Maker,
    /// The waiter of this number.
    Waiter(u64),
    /// The notifier of this number.
    Notifier(u64),
}

/// A line of the journal.
pub enum Line {
    /// The waiter of this number entered: from now on notifiers find somebody.
    Entered(u64),
    /// The waiter of this number left.
    Left(u64),
    /// The notifier of this number looked, and no thread had entered.
    Quiet(u64),
    /// The notifier of this number looked, and somebody had entered, so that it owes a notice.
    Found(u64),
    /// The notifier of this number counted the notice that it owed.
    Counted(u64),
}

/// What a seat knows. The counts are the maker's.
pub struct View {
    pub role: Role,
    /// The journal as far as it has seen it, the newest line first.
    pub seen: LinkedList<Line>,
    /// How many waiters were made.
    pub waiters: u64,
    /// How many notifiers were made.
    pub notifiers: u64,
}
