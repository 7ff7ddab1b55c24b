//! What the calls give to C.
ghost use Rattle.std.specs.Prelude.{◌≡◌};
ghost use Rattle.ring_c.specs.Results.{counted_as, line_as, looked_as, phase_of, polled_as, reaped_as, value_of};

use crate::code::Code;
use board::Phase;
use entry::Cqe;

/// A code, and a number where the code is 0: the first request of a submission, or how many were copied.
#[repr(C)]
pub struct Counted {
    pub code: u32,
    pub count: u64,
}

/// A code, and where a request stands where the code is 0: unborn 0, held 1, ready 2, running 3, armed 4, done 5 or gone 6; the
/// deadline of an armed timer, the reply of one that is done.
#[repr(C)]
pub struct Looked {
    pub code: u32,
    pub phase: u32,
    pub value: i64,
}

/// A code, and a completion where the code is 0.
#[repr(C)]
pub struct Reaped {
    pub code: u32,
    pub res: i32,
    pub user_data: u64,
    pub length: u64,
}

/// A code, how many requests are to be run and how many were answered, and whether the turn did something.
#[repr(C)]
pub struct Polled {
    pub code: u32,
    pub moved: u32,
    pub ready: u64,
    pub answered: u64,
}

/// A code, and a line of a report where the code is 0: the request, its reply, whether the end cut it off, and its buffer's length.
#[repr(C)]
pub struct Line {
    pub code: u32,
    pub res: i32,
    pub user_data: u64,
    pub k: u64,
    pub length: u64,
    pub ring: u16,
    pub is_cut: u16,
}

/// What a turn of the poller did.
#[derive(Drop)]
pub(crate) struct Turn {
    pub moved: bool,
    pub ready: u64,
    pub answered: u64,
}

impl Polled {
    /// What a turn did.
    pub(crate) fn of(answer: Result<Turn, Code>) -> Polled
        ensures { result ≡ polled_as answer }
    {
        match answer {
            Ok(turn) => Polled {
                code: 0,
                moved: u32::from(turn.moved),
                ready: turn.ready,
                answered: turn.answered,
            },
            Err(code) => Polled {
                code: code.number(),
                moved: 0,
                ready: 0,
                answered: 0,
            },
        }
    }
}

impl Counted {
    /// A code and a number.
    pub(crate) fn of(answer: Result<u64, Code>) -> Counted
        ensures { result ≡ counted_as answer }
    {
        match answer {
            Ok(count) => Counted { code: 0, count },
            Err(code) => Counted {
                code: code.number(),
                count: 0,
            },
        }
    }
}

impl Looked {
    /// Where a request stands.
    pub(crate) fn of(answer: Result<Phase, Code>) -> Looked
        ensures { result ≡ looked_as answer }
    {
        let phase = match answer {
            Ok(phase) => phase,
            Err(code) => {
                return Looked {
                    code: code.number(),
                    phase: 0,
                    value: 0,
                };
            }
        };
        let (phase, value) = phase_numbers(phase);
        Looked {
            code: 0,
            phase,
            value,
        }
    }
}

/// The number of a phase, and its deadline or its reply.
fn phase_numbers(phase: Phase) -> (u32, i64)
    ensures { (result.0 ≡ phase_of phase) × (result.1 ≡ value_of phase) }
{
    match phase {
        Phase::Unborn => (0, 0),
        Phase::Held => (1, 0),
        Phase::Ready => (2, 0),
        Phase::Running => (3, 0),
        Phase::Armed(deadline) => (4, i64::from(deadline)),
        Phase::Done(res) => (5, i64::from(res)),
        Phase::Gone => (6, 0),
    }
}

impl Line {
    /// A line of a report.
    pub(crate) fn of(answer: Result<Line, Code>) -> Line
        ensures { result ≡ line_as answer }
    {
        match answer {
            Ok(line) => line,
            Err(code) => Line {
                code: code.number(),
                res: 0,
                user_data: 0,
                k: 0,
                length: 0,
                ring: 0,
                is_cut: 0,
            },
        }
    }
}

impl Reaped {
    /// A completion, and a number that goes with it.
    pub(crate) fn of(answer: Result<(Cqe, u64), Code>) -> Reaped
        ensures { result ≡ reaped_as answer }
    {
        match answer {
            Ok((cqe, length)) => Reaped {
                code: 0,
                res: cqe.res,
                user_data: cqe.user_data,
                length,
            },
            Err(code) => Reaped {
                code: code.number(),
                res: 0,
                user_data: 0,
                length: 0,
            },
        }
    }
}
