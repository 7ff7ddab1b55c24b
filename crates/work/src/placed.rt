//! The entry that a worker runs, as it is placed.
ghost use Rattle.std.specs.Prelude.{◌≡◌};
ghost use Rattle.entry.specs.Entry.{fails as fails_with};
ghost use Rattle.work.specs.WorkerRuns.{op_run, run_as};

use entry::{Op, Sqe, fails};

/// The operation as it is placed. Of the LINK_TIMEOUTs a worker runs those alone that have no target, which are Invalid.
pub(crate) fn op_placed(sqe: &Sqe) -> Op
    ensures { result ≡ op_run sqe.now.op }
{
    if sqe.op().is_link_timeout() {
        Op::Invalid
    } else {
        sqe.op()
    }
}

/// Whether this reply to the entry, as it is placed, is a failure.
pub(crate) fn fails_placed(sqe: &Sqe, res: i32) -> bool
    ensures { result ≡ fails_with (run_as sqe.now) res }
{
    if sqe.op().is_link_timeout() {
        res < 0
    } else {
        fails(sqe, res)
    }
}
