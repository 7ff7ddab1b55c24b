//! Calls that take memory, and their lines.
use history::Req;
use std::alloc::{AllocError, Global};
use std::fmt::Display;

/// The size of the allocation that `.ci/refusals` takes for a mark. No call asks for exactly that many bytes.
const MARK: usize = 77_777;

/// More bytes than a call tells of what it gave.
const ROOM: usize = 1024;

/// What is told after the reason for which a call was refused: all was as before, and it was made again.
pub(crate) const AGAIN: &str = ", all as before; again";

/// Something wasn't as before, or it was refused again.
const CHANGED: &str = ", and something changed; again";

/// What a call gave, or what can be seen of that on which it is made, as text; and why it was refused.
#[derive(Drop)]
pub(crate) struct Shown {
    text: String,
    error: String,
}

impl Shown {
    fn new(alloc: Global) -> Shown {
        Shown {
            text: String::new(alloc),
            error: String::new(alloc),
        }
    }

    /// Adds a text.
    pub fn text(&mut self, text: &str) {
        let _ = self.text.push_str(text);
    }

    /// Adds a number after its words.
    pub fn count(&mut self, words: &str, number: u64) {
        let _ = write!(self.text, "{words}{number}");
    }

    /// Adds a number after its words, where there is one. Whether there is.
    pub fn count_if(&mut self, words: &str, number: Option<u64>) -> bool {
        if let Some(number) = number {
            self.count(words, number);
        }
        number.is_some()
    }

    /// Notes why the call was refused.
    pub fn refused<E: Display>(&mut self, error: &E) {
        let _ = write!(self.error, " {error}");
    }

    /// What the call gave, unless it was refused.
    pub fn got<T: Drop, E: Display + Drop>(&mut self, made: Result<T, E>) -> Option<T> {
        match made {
            Ok(it) => Some(it),
            Err(error) => {
                self.refused(&error);
                None
            }
        }
    }

    /// Adds a request.
    pub fn req(&mut self, req: Req) {
        self.count(" ", u64::from(req.ring));
        self.count(".", req.k);
    }

    /// Adds a reply.
    pub fn reply(&mut self, res: i32) {
        let sign = if res < 0 { " -" } else { " " };
        self.count(sign, u64::from(res.unsigned_abs()));
    }
}

/// A call, and that on which it is made.
pub(crate) trait Call<R> {
    /// Makes the call, and tells what it gave, or notes why it was refused, and is false.
    fn make(&mut self, rt: &R, alloc: Global, gave: &mut Shown) -> bool;

    /// What can be seen of that on which it is made.
    fn show(&self, _shown: &mut Shown) {}
}

/// What a call takes, and gives back where it is refused.
pub(crate) trait Handed<R> {
    /// Makes the call, and tells what it gave, or notes why it was refused: then it gives back what was handed in.
    fn hand(self, rt: &R, alloc: Global, gave: &mut Shown) -> Option<Self>;

    /// What can be seen of what is handed in.
    fn show_parts(&self, shown: &mut Shown);
}

impl<R, H: Handed<R> + Drop> Call<R> for Option<H> {
    fn make(&mut self, rt: &R, alloc: Global, gave: &mut Shown) -> bool {
        if let Some(handed) = self.take() {
            *self = handed.hand(rt, alloc, gave);
        }
        self.is_none()
    }

    fn show(&self, shown: &mut Shown) {
        if let Some(handed) = self {
            handed.show_parts(shown);
        }
    }
}

/// The lines of the calls that were made, and what is known of the next one. There is room for what it gives before it is made.
#[derive(Drop)]
pub(crate) struct Lines {
    pub alloc: Global,
    pub gave: Shown,
    before: Shown,
    after: Shown,
    lines: Shown,
}

impl Lines {
    pub fn new(alloc: Global) -> Result<Lines, AllocError> {
        let text = String::with_capacity(alloc, ROOM)?;
        let error = String::with_capacity(alloc, ROOM)?;
        Ok(Lines {
            alloc,
            gave: Shown { text, error },
            before: Shown::new(alloc),
            after: Shown::new(alloc),
            lines: Shown::new(alloc),
        })
    }

    /// All lines.
    pub fn as_str(&self) -> &str {
        self.lines.text.as_str()
    }

    /// A mark, just before a call whose allocations may be refused, and just after it.
    pub fn mark(&self) {
        let _ = String::with_capacity(self.alloc, MARK);
    }

    /// Makes a call, once more where it was refused. How it went.
    pub fn make<R, C: Call<R>>(&mut self, rt: &R, call: &mut C) -> &'static str {
        call.show(&mut self.before);
        self.mark();
        let is_made = call.make(rt, self.alloc, &mut self.gave);
        self.mark();
        if is_made {
            return "";
        }
        call.show(&mut self.after);
        let is_same = self.before.text.as_str() == self.after.text.as_str();
        if call.make(rt, self.alloc, &mut self.gave) && is_same {
            AGAIN
        } else {
            CHANGED
        }
    }

    /// Adds the line of the call.
    pub fn add(&mut self, name: &str, went: &str) {
        self.lines.text(name);
        self.lines.text(":");
        self.lines.text(self.gave.error.as_str());
        self.lines.text(went);
        self.lines.text(self.gave.text.as_str());
        self.lines.text("\n");
        self.gave.text.clear();
        self.gave.error.clear();
        self.before.text.clear();
        self.after.text.clear();
    }

    /// Makes a call, and adds its line.
    pub fn try_call<R, C: Call<R>>(&mut self, rt: &R, name: &str, call: &mut C) {
        let went = self.make(rt, call);
        call.show(&mut self.gave);
        self.add(name, went);
    }
}
