//! What a call answers, as a number.
ghost use Rattle.std.specs.Prelude.{◌≡◌};
ghost use Rattle.ring_c.specs.Codes.{answer_of, code_for, number_of, reap_code_for};

use board::{ReapError, SubmitError};

/// Why a call is refused. A refused call changes nothing.
#[derive(Clone, Copy)]
pub(crate) enum Code {
    /// The handle leads to nothing.
    Closed,
    /// The handle leads to something of another kind.
    WrongKind,
    /// The handle to be opened leads to something.
    InUse,
    /// Memory wasn't found.
    Memory,
    /// A length is wrong, or the caller's array is too short.
    Length,
    /// The ring is full.
    Full,
    /// The bytes handed in are not just the buffers that the entries ask for.
    BufferLength,
    /// The cell has had all its requests.
    Spent,
    /// The request has no reply yet, or wasn't submitted.
    NotYet,
    /// Its completion was taken before.
    Gone,
    /// It is a request of another ring, or a pass of another board.
    Foreign,
    /// The request is not Ready, or there is no such ring.
    NotReady,
    /// The request was put back: there was no answer now.
    Parked,
    /// The request was put back: another worker had its pipe.
    PipeBusy,
    /// The clock doesn't go there.
    ClockEnd,
    /// The shape is outside its limits.
    BadShape,
    /// A pass has not come back.
    Missing,
}

impl Code {
    /// Its number. 0 is none of them.
    pub(crate) fn number(self) -> u32
        ensures { result ≡ number_of self }
    {
        match self {
            Code::Closed => 1,
            Code::WrongKind => 2,
            Code::InUse => 3,
            Code::Memory => 4,
            Code::Length => 5,
            Code::Full => 6,
            Code::BufferLength => 7,
            Code::Spent => 8,
            Code::NotYet => 9,
            Code::Gone => 10,
            Code::Foreign => 11,
            Code::NotReady => 12,
            Code::Parked => 13,
            Code::PipeBusy => 14,
            Code::ClockEnd => 15,
            Code::BadShape => 16,
            Code::Missing => 17,
        }
    }

    /// The code of a refused submission.
    pub(crate) fn of_submit(error: SubmitError) -> Code
        ensures { result ≡ code_for error }
    {
        match error {
            SubmitError::Full => Code::Full,
            SubmitError::BufferLength => Code::BufferLength,
            SubmitError::Spent => Code::Spent,
        }
    }

    /// The code of a refused reaping.
    pub(crate) fn of_reap(error: ReapError) -> Code
        ensures { result ≡ reap_code_for error }
    {
        match error {
            ReapError::NotYet => Code::NotYet,
            ReapError::Gone => Code::Gone,
            ReapError::Foreign => Code::Foreign,
        }
    }
}

/// The number of an answer: 0 for success.
pub(crate) fn answer_number(answer: Result<(), Code>) -> u32
    ensures { result ≡ answer_of answer }
{
    match answer {
        Ok(()) => 0,
        Err(code) => code.number(),
    }
}
