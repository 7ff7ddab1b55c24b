//! Runtimes under the mixed load: one for so long, and one after another, each ended at a moment of its own.
use crate::draws::Draws;
use crate::fleet::{Fleet, round_of};
use crate::load::Counts;
use crate::machine::{Machine, status};
use crate::mix::Mix;
use crate::setup::{Kind, Setup};
use anyhow::Result;
use std::time::{Duration, Instant};

/// Prints what was counted, if this many tenths of this many seconds have passed since the start. The tenths to look for next.
fn look<R: Machine>(
    rt: &R,
    start: Instant,
    seconds: u64,
    part: u64,
    counts: Counts,
) -> Result<u64> {
    let millis = seconds.saturating_mul(100).saturating_mul(part);
    if start.elapsed(rt)? < Duration::from_millis(millis) {
        return Ok(part);
    }
    let memory = status(rt, "VmRSS:").unwrap_or(0);
    let threads = status(rt, "Threads:").unwrap_or(0);
    let (submitted, taken, reported) = (counts.submitted, counts.taken, counts.reported);
    println!(rt;
        "{part}0 %: {submitted} submitted, {taken} taken, {reported} reported; {memory} kB, threads {threads}"
    )?;
    Ok(part.saturating_add(1))
}

/// Keeps the runtime under the load for this many seconds.
fn go_on<R: Machine>(rt: &R, fleet: &mut Fleet<Mix>, seconds: u64) -> Result<()> {
    let (start, mut part) = (Instant::now(rt)?, 1);
    for _ in rt.forever() {
        round_of(rt, fleet, 5_000)?;
        part = look(rt, start, seconds, part, fleet.counts())?;
        if 10 < part {
            break;
        }
    }
    Ok(())
}

/// Puts one runtime, with three workers, under the load for this many seconds, and ends it. Prints ten times what was counted, and at the end.
pub(crate) fn run_mixed<R: Machine>(rt: &R, seconds: u64) -> Result<()> {
    let mut setup = Setup::new(Kind::Mixed { seed: 2_026 }, 0, 3, 2);
    (setup.cells, setup.idle, setup.every) = (256, 8, 4);
    let mut fleet = Fleet::start(rt, &setup)?;
    let (start, gone) = (Instant::now(rt), go_on(rt, &mut fleet, seconds));
    let counts = fleet.end(rt);
    gone?;
    look(rt, start?, 0, 10, counts?)?;
    Ok(())
}

/// The runtime of a round of the soak.
fn setup_of(draws: &mut Draws) -> Setup {
    let (seed, workers) = (draws.number(), draws.below(4) + 1);
    let mut setup = Setup::new(Kind::Mixed { seed }, 0, workers, 2);
    (setup.cells, setup.idle, setup.every) = (8u32 << draws.below(7), draws.below(32) + 1, 4);
    if draws.below(2) == 0 {
        setup.posts = Some(draws.below(16) + 1);
    }
    setup
}

/// Puts one runtime under the load, ends it at a random moment, and gives what was counted.
fn soak_one<R: Machine>(rt: &R, draws: &mut Draws) -> Result<Counts> {
    let (setup, turns) = (setup_of(draws), u64::from(draws.below(10_000)));
    let mut fleet = Fleet::<Mix>::start(rt, &setup)?;
    let gone = round_of(rt, &mut fleet, turns);
    let counts = fleet.end(rt)?;
    gone?;
    Ok(counts)
}

/// Puts runtimes, drawn from this seed, under the load for this many seconds, and ends each at a random moment.
pub(crate) fn run_soak<R: Machine>(rt: &R, seconds: u64, seed: u64) -> Result<()> {
    let (mut draws, mut counts, mut runtimes) = (Draws::new(seed), Counts::default(), 0u64);
    let (start, mut part) = (Instant::now(rt)?, 1);
    for _ in rt.forever() {
        counts = counts.plus(soak_one(rt, &mut draws)?);
        runtimes = runtimes.saturating_add(1);
        part = look(rt, start, seconds, part, counts)?;
        if 10 < part {
            break;
        }
    }
    println!(rt; "{runtimes} runtimes")?;
    Ok(())
}
