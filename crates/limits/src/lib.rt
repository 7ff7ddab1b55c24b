//! The limits of a board and of a script, each in one place.
#![tactic(auto)]

ghost use Rattle.std.specs.Prelude.{◌≡◌};
ghost use Rattle.limits.specs.Limits.{is_capacity, is_cells, is_posts};

/// The most rings; there is at least one.
pub const RINGS: usize = 16;

/// The most cells of a ring.
pub const CELLS: u32 = 1024;

/// The most completions that a completion ring has room for.
pub const POSTS: u32 = 2048;

/// The most pipes; there may be none.
pub const PIPES: usize = 64;

/// The largest capacity of a pipe, in bytes.
pub const CAPACITY: u32 = 65536;

/// The most workers of a board; there is at least one.
pub const WORKERS: u32 = 64;

/// The most states that a search of the program meets.
pub const STATES: u32 = 200_000;

/// The most entries of a script.
pub const ENTRIES: usize = 256;

/// The longest buffer that a script gives to a READ, or to an entry that it writes as bytes, in bytes.
pub const BUFFER: u32 = 1048576;

/// The largest `len` of a READ, WRITE or SPLICE, in bytes.
pub const LENGTH: u32 = 2147483647;

/// The largest number of a file descriptor.
pub const FD: u32 = 2147483647;

/// The largest value of the clock, in ticks.
pub const TICK: u32 = 2147483647;

/// Whether a pipe may have this capacity, in bytes: 1 to 65,536.
pub fn is_capacity(bytes: u32) -> bool
    ensures { result ≡ is_capacity bytes }
{
    0 < bytes && bytes <= CAPACITY
}

/// Whether a ring may have this many cells: a power of two up to 1,024.
pub fn is_cells(cells: u32) -> bool
    ensures { result ≡ is_cells cells }
{
    cells.is_power_of_two() && cells <= CELLS
}

/// Whether a completion ring may have this size: 1 to 2,048, where one is given.
pub fn is_posts(posts: Option<u32>) -> bool
    ensures { result ≡ is_posts posts }
{
    match posts {
        None => true,
        Some(posts) => 0 < posts && posts <= POSTS,
    }
}
