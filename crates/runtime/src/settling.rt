//! The last turns of a runtime that is to come to rest, all by one thread once its own have ended.
ghost use Rattle.std.specs.Prelude.{◌≡◌, ◌≤◌, [], All, length, IsTrue, vec_capacity};
ghost use Rattle.runtime.specs.{shares_in, IsPollSide, IsWorkSide, HasRested};

use crate::shared::{Context, Shared};
use crate::threads::{PollSide, WorkSide, both, poll_round};
use crate::turn::Turn;
use controls::{Clock, Open};
use std::sync::Wait;

/// In how many rounds in a row the workers may do something while the poller does nothing. In each a worker makes `RUNS` turns, so that a
/// board's cells don't need that many: then no memory is found.
const ROUNDS: u32 = 65_536;

/// Serves each of these workers until it finds nothing to do, or for `RUNS` turns. Whether the last turn of each was idle.
fn serve_all<R: Wait>(
    context: Context<'_, R, Open>,
    mut workers: Vec<WorkSide>,
) -> (Vec<WorkSide>, Turn)
    requires workers { All (λ w. IsWorkSide context.shared.now w) workers.items }
    requires room { length workers.items ≤ vec_capacity workers }
    ensures workers { All (λ w. IsWorkSide context.entry.shared.now w) result.0.items × (length result.0.items ≡ length workers.items) }
    ensures shares { shares_in result.0.items ≡ shares_in workers.items }
    ensures idle { result.1 ≡ Turn.Idle → All (λ w. w.desk.kept ≡ []) result.0.items }
    ensures room { vec_capacity result.0 ≡ vec_capacity workers }
{
    let Some(worker) = workers.pop() else {
        return (workers, Turn::Idle);
    };
    let (worker, turn) = worker.serve(context, false);
    let (mut workers, others) = serve_all(context, workers);
    workers.push_reserved(worker);
    (workers, both(turn, others))
}

/// Turns of the poller and of the workers, until one of each did nothing and the clock asks for nothing more. What the workers answered
/// is posted. False where a turn finds no memory.
pub(crate) fn settle<R: Wait, C: Clock>(
    rt: &R,
    shared: &Shared,
    side: PollSide<C>,
    workers: Vec<WorkSide>,
) -> (PollSide<C>, Vec<WorkSide>, bool)
    requires side { IsPollSide C.follows shared.now side }
    requires workers { All (λ w. IsWorkSide shared.now w) workers.items }
    requires room { length workers.items ≤ vec_capacity workers }
    ensures side { IsPollSide C.follows shared.now result.0 × (result.0.own ≡ side.own) }
    ensures workers { All (λ w. IsWorkSide shared.now w) result.1.items × (length result.1.items ≡ length workers.items) }
    ensures shares { (result.0.desk.ready.share ≡ side.desk.ready.share) × (shares_in result.1.items ≡ shares_in workers.items) }
    ensures room { vec_capacity result.1 ≡ vec_capacity workers }
    ensures rest { IsTrue result.2 → HasRested shared.now.board shared.now.queue result.0.desk result.1.items }
{
    let (mut side, mut workers) = (side, workers);
    let turnstile = &Open;
    let context = Context {
        rt,
        shared,
        turnstile,
    };
    let mut rounds = 0u32;
    for _ in rt.forever() {
        let turn = poll_round(context, &mut side);
        let (next, served) = serve_all(context, workers);
        workers = next;
        let Some(turn) = turn else {
            return (side, workers, false);
        };
        if turn == Turn::Moved {
            rounds = 0;
            continue;
        }
        if served == Turn::Idle && side.clock.ask().is_none() {
            return (side, workers, true);
        }
        if served == Turn::Idle {
            rounds = 0;
            continue;
        }
        rounds = rounds.saturating_add(1);
        if ROUNDS <= rounds {
            return (side, workers, false);
        }
    }
    unreachable!()
}
