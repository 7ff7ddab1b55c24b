//! What a cell's request is doing, and which event answered it.
ghost use Rattle.std.specs.Prelude.{◌≡◌, ◌<◌, IfSome, IsNone, ◌↔◌, ◌≤◌};
ghost use Rattle.claim.specs.Claim.{cause_number, cause_of, tag_number};

/// What a cell's request is doing.
#[derive(Clone, Copy, PartialEq, Eq, Debug)]
pub enum Tag {
    /// There is none, or it was reaped.
    Empty,
    /// It was submitted, and waits.
    Held,
    /// A worker may begin it.
    Ready,
    /// A worker runs it.
    Running,
    /// Its timer runs until the deadline in the payload.
    Armed,
    /// It has the reply in the payload, and wasn't reaped.
    Done,
}

/// The event that answered a request.
#[derive(Clone, Copy, Debug)]
pub enum Cause {
    /// The worker's own answer.
    Reply,
    /// A cancel took it.
    Take,
    /// Its timer ran out.
    Expire,
    /// Its LINK_TIMEOUT ended it.
    Fire,
    /// It is a LINK_TIMEOUT that ran out in time, or whose target was answered first.
    Settle,
    /// An earlier member of its chain failed.
    Sever,
    /// It is a TIMEOUT, and as many later requests of its ring were answered as it counts.
    Count,
}

impl Tag {
    /// The low four bits of a word with this tag.
    #[inline(always)]
    pub fn number(self) -> u8
        ensures value { result ≡ tag_number self }
        ensures small { result < 6 }
    {
        match self {
            Tag::Empty => 0,
            Tag::Held => 1,
            Tag::Ready => 2,
            Tag::Running => 3,
            Tag::Armed => 4,
            Tag::Done => 5,
        }
    }

    /// The tag with this number, if there is one.
    #[inline(always)]
    pub fn of_number(number: u8) -> Option<Tag>
        ensures some { IfSome result (λ t. tag_number t ≡ number) }
        ensures none { IsNone result ↔ (6 ≤ number) }
    {
        match number {
            0 => Some(Tag::Empty),
            1 => Some(Tag::Held),
            2 => Some(Tag::Ready),
            3 => Some(Tag::Running),
            4 => Some(Tag::Armed),
            5 => Some(Tag::Done),
            _ => None,
        }
    }
}

impl Cause {
    /// The cause of a Done word: 1 to 7 for the event, and 8 more where the reply fails.
    pub fn number(self, fails: bool) -> u8
        ensures { result ≡ cause_of self fails }
    {
        let event = match self {
            Cause::Reply => 1,
            Cause::Take => 2,
            Cause::Expire => 3,
            Cause::Fire => 4,
            Cause::Settle => 5,
            Cause::Sever => 6,
            Cause::Count => 7,
        };
        if fails { event + 8 } else { event }
    }
}
