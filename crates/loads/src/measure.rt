//! Loads measured, or only tried with a few units.
use crate::board_path::BoardPath;
use crate::fleet::{Fleet, round_of};
use crate::handover::HandOver;
use crate::loops::{LOOPS, Rounds};
use crate::machine::Machine;
use crate::setup::{Kind, Setup};
use crate::units::Units;
use anyhow::Result;
use std::time::{CpuClock, Duration};

/// How many rounds are timed.
const ROUNDS: usize = 15;

/// How many operations of a loop, or NOPs on a board, a round has.
const OPERATIONS: u64 = 20_000;

/// Hand-overs: how many are on their way, whether threads block, and how many a round has.
type Passing = (&'static str, u64, bool, u64);

/// Those that others are compared with.
const HAND_OVERS: [Passing; 3] = [
    ("hand-over, 1 in flight", 1, false, 4_000),
    ("hand-over, 64 in flight", 64, false, 64_000),
    ("blocking hand-over, 1 in flight", 1, true, 500),
];

/// Units of two requests, and under how many workers.
const PAIRS: [(Kind, u32); 5] = [
    (Kind::Pair, 1),
    (Kind::Pair, 2),
    (Kind::ReadCancel, 1),
    (Kind::TimeoutRemove, 1),
    (Kind::TimeoutRemove, 2),
];

/// The median of the times of rounds, after one that isn't timed; or that one's, where they are only tried.
macro_rules! median {
    ($is_timed:expr, $round:expr) => {{
        let mut rounds = [$round?; ROUNDS];
        if $is_timed {
            for nanos in &mut rounds {
                *nanos = $round?;
            }
        }
        rounds.sort_unstable();
        rounds[ROUNDS / 2]
    }};
}

/// How many units a round has, and with what the time of one is compared.
type Plan = (u64, u64);

/// Whether things are timed, or only tried; what must stand in the name of a setup that is; and the times of the hand-overs, in
/// hundredths of a nanosecond.
#[derive(Clone, Copy)]
struct Bench<'a> {
    is_timed: bool,
    only: &'a str,
    others: [u64; 3],
}

impl<'a> Bench<'a> {
    /// How many units a round has: this many, or a few where they are only tried.
    fn units(&self, units: u64) -> u64 {
        if self.is_timed { units } else { 320 }
    }

    /// Prints the time of a unit, by that of a round, and how much of the other time it is; or that it was tried.
    fn show<R: Machine>(&self, rt: &R, name: &str, nanos: u64, plan: Plan) -> Result<u64> {
        let (units, other) = plan;
        if !self.is_timed {
            println!(rt; "{name}: done")?;
            return Ok(0);
        }
        let unit = nanos.saturating_mul(100).checked_div(units).unwrap_or(0);
        let percent = unit.saturating_mul(100).checked_div(other).unwrap_or(100);
        let (whole, part) = (unit / 100, unit % 100);
        println!(rt; "{name}: {whole}.{part:02} ns, {percent} % of a hand-over")?;
        Ok(unit)
    }

    /// The time of a round of this many hand-overs.
    fn passed<R: Machine>(&self, rt: &R, lanes: &HandOver, units: u64) -> Result<u64> {
        Ok(median!(self.is_timed, lanes.round(rt, units)))
    }

    /// The time of a hand-over of this kind.
    fn measure_hand_over<R: Machine>(&self, rt: &R, kind: Passing) -> Result<u64> {
        let (name, depth, is_blocking, units) = kind;
        let plan = (self.units(units), self.others[0]);
        let lanes = HandOver::new(rt.alloc(), depth, is_blocking)?;
        let nanos = self.passed(rt, &lanes, plan.0);
        drop(lanes);
        self.show(rt, name, nanos?, plan)
    }

    /// The time of a turn of each loop.
    fn measure_loops<R: Machine>(&self, rt: &R) -> Result<()> {
        for (kind, name) in LOOPS {
            let timed = Rounds::new(kind);
            let nanos = median!(self.is_timed, timed.round(rt, OPERATIONS));
            self.show(rt, name, nanos, (OPERATIONS, self.others[0]))?;
        }
        Ok(())
    }

    /// The time of a round of NOPs on a board.
    fn served<R: Machine>(&self, rt: &R, path: &mut BoardPath) -> Result<u64> {
        Ok(median!(self.is_timed, path.round(rt, OPERATIONS)))
    }

    /// The time of a NOP on a board.
    fn measure_path<R: Machine>(&self, rt: &R) -> Result<()> {
        let mut path = BoardPath::new(rt.alloc(), 64)?;
        let nanos = self.served(rt, &mut path);
        drop(path);
        self.show(rt, "NOP on a board", nanos?, (OPERATIONS, self.others[0]))?;
        Ok(())
    }

    /// The time of a round of this many units.
    fn rounds<R: Machine>(&self, rt: &R, fleet: &mut Fleet<Units>, units: u64) -> Result<u64> {
        Ok(median!(self.is_timed, round_of(rt, fleet, units)))
    }

    /// The time of a unit of this setup, if its name is one of those.
    fn measure<R: Machine>(&self, rt: &R, setup: Setup) -> Result<()> {
        let name = format!(in rt.alloc(); "{setup}")?;
        if !name.contains(self.only) {
            return Ok(());
        }
        let [single, many, blocking] = self.others;
        let units = self.units(4_000 * u64::from(setup.depth.clamp(1, 16)));
        let plan = match setup.kind {
            Kind::Byte => (10_000, single),
            Kind::Echo => (self.units(500), blocking),
            _ => (units, if setup.depth == 1 { single } else { many }),
        };
        let mut fleet = Fleet::<Units>::start(rt, &setup)?;
        let nanos = self.rounds(rt, &mut fleet, plan.0);
        fleet.end(rt)?;
        self.show(rt, name.as_str(), nanos?, plan)?;
        Ok(())
    }

    /// All setups, in order. With two workers a cancel may find its READ running, which then waits for good.
    fn measure_all<R: Machine>(&self, rt: &R) -> Result<()> {
        for clients in [1u16, 2] {
            for workers in 1..4u32 {
                for depth in [1u32, 8, 64, 256] {
                    self.measure(rt, Setup::new(Kind::Nop, depth, workers, clients))?;
                }
            }
        }
        for (kind, workers) in PAIRS {
            for depth in [1u32, 16] {
                self.measure(rt, Setup::new(kind, depth, workers, 1))?;
            }
        }
        for reads in [0u32, 1_000] {
            let mut setup = Setup::new(Kind::Nop, 64, 1, 1);
            (setup.cells, setup.reads) = (1_024, reads);
            self.measure(rt, setup)?;
        }
        self.measure(rt, Setup::new(Kind::Byte, 1, 4, 2))?;
        for workers in 1..4u32 {
            self.measure(rt, Setup::new(Kind::Echo, 1, workers, 2))?;
        }
        Ok(())
    }
}

/// Measures everything and prints it, or only tries it. Of the runtime's setups only those are measured whose name has this in it.
pub(crate) fn measure<R: Machine>(rt: &R, is_timed: bool, only: &str) -> Result<()> {
    let others = [0; 3];
    let mut bench = Bench {
        is_timed,
        only,
        others,
    };
    for i in 0..3usize {
        bench.others[i] = bench.measure_hand_over(rt, HAND_OVERS[i])?;
    }
    bench.measure_loops(rt)?;
    bench.measure_path(rt)?;
    bench.measure_all(rt)
}

/// How many nanoseconds the fleet's round took, and how many microseconds of processor time all threads had meanwhile.
fn idle_round<R: Machine + CpuClock>(rt: &R, fleet: &mut Fleet<Units>) -> Result<(u64, u128)> {
    let before = rt.process_cpu_time()?;
    let waited = round_of(rt, fleet, 1)?;
    let after = rt.process_cpu_time()?;
    Ok((waited, after.saturating_sub(before).as_micros()))
}

/// A byte there and back between the clients of a runtime with three workers. One of them waits for it, since the other one sleeps first
/// for this many seconds, and so do this many READs. Prints the processor time of all threads meanwhile.
pub(crate) fn run_idle<R: Machine + CpuClock>(rt: &R, seconds: u64, reads: u64) -> Result<()> {
    let mut setup = Setup::new(Kind::Echo, 1, 3, 2);
    (setup.cells, setup.reads) = (1_024, reads.min(1_000) as u32);
    setup.pause = Duration::from_secs(seconds);
    let mut fleet = Fleet::<Units>::start(rt, &setup)?;
    let round = idle_round(rt, &mut fleet);
    fleet.end(rt)?;
    let (waited, used) = round?;
    let (waited, reads) = (waited / 1_000_000, setup.reads);
    println!(rt;
        "a client has waited {waited} ms, beside {reads} READs; {used} us of processor time"
    )?;
    Ok(())
}
