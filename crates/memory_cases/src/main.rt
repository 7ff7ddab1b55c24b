//! Calls that take memory, each on a small setup: it makes each, prints what it gave, and where it was refused memory, that all was as
//! before, and what the same call gave when it was made once more. `.ci/refusals` refuses each of its allocations in turn.
#![tactic(auto)]

mod boards;
mod lines;
mod objects;
mod parts;
mod scripts;
mod threads;
mod turns;

use std::io;

fn main(rt: HostRuntime) -> io::Result<()> {
    let mut lines = lines::Lines::new(rt.alloc())?;
    parts::try_parts(&rt, &mut lines);
    objects::try_objects(&mut lines);
    boards::try_boards(&mut lines);
    turns::try_turns(&rt, &mut lines);
    scripts::try_scripts(&mut lines);
    threads::try_threads(&rt, &mut lines);
    print!(rt; "{}", lines.as_str())
}
