//! What a board is made of.

/// One ring.
#[derive(Clone, Copy, PartialEq, Eq, Debug)]
pub struct RingShape {
    /// How many requests it can hold at a time: 1 to 1,024, a power of two.
    pub cells: u32,
    /// How many completions its completion ring has room for: 1 to 2,048. Twice the cells where not given.
    pub posts: Option<u32>,
}

/// The rings, pipes and workers of a board.
#[derive(Drop, PartialEq, Eq, Debug)]
pub struct Shape {
    /// 1 to 16 rings, from ring 0 on.
    pub rings: Vec<RingShape>,
    /// The capacities of 0 to 64 pipes, from pipe 0 on: 1 to 65,536 bytes each.
    pub pipes: Vec<u32>,
    /// 1 to 64 workers.
    pub workers: u32,
}
