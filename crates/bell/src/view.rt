//! What a seat of the bell's table knows. All of it exists in proofs alone: no value of these types is made.
use std::collections::LinkedList;

/// Whose seat it is.
pub enum Role {
    /// The one who dozes and is woken: the poller.
    Sleeper,
    /// The one who stores the tail of this ring: its submitter.
    Ringer(u64),
}

/// A load of a ring's tail: the ring, and what stood there.
pub struct Load {
    pub ring: u64,
    pub tail: u64,
}

/// A change of the wake word.
pub enum Change {
    /// The sleeper set the bit.
    Asked,
    /// The ringer of this ring found the bit set, and cleared it.
    Found(u64),
    /// The sleeper took the bit back.
    TookBack,
}

/// What a seat knows. The fields from `tail` to `found` are a ringer's, those from `rings` to `checked` the sleeper's.
pub struct View {
    pub role: Role,
    /// The tail that it stored last.
    pub tail: u64,
    /// It has stored a tail, and has not looked at the wake word since.
    pub between: bool,
    /// Whether it found the bit set, look by look, the newest first.
    pub found: LinkedList<bool>,
    /// How many rings have a ringer.
    pub rings: u64,
    /// The tail that it read last of each ring.
    pub tails: LinkedList<u64>,
    /// Its loads of tails, the newest first.
    pub loads: LinkedList<Load>,
    /// It has set the bit, and has not woken since.
    pub armed: bool,
    /// How many tails it has read since it set the bit, from ring 0 on.
    pub checked: u64,
    /// The changes of the wake word as far as it has seen them, the newest first.
    pub wakes: LinkedList<Change>,
}
