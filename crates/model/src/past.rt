//! A list that only clauses see.
ghost use Rattle.std.specs.Prelude.{◌≡◌, List, [], ◌∷◌};
ghost use base.Stored.{coded_list};
ghost use base.Fml.{ftrue};

use std::marker::{Model, PhantomData};

/// The items that were pushed, the last first. It has no bytes.
pub struct Past<T> {
    marker: PhantomData<T>,
    pub ghost events: { List T } by { coded_list T.code },
}

impl<T> Model for Past<T> {
    ghost also_owns = { λ _. ftrue };
}

impl<T> Past<T> {
    /// No items.
    pub fn new() -> Past<T>
        ensures { result.events ≡ [] }
    {
        Past {
            marker: PhantomData,
        }
    }

    /// One item more, in front.
    pub fn push(&mut self, item: &T)
        ensures { self.new.events ≡ item.now ∷ self.old.events }
    {
        let _ = item;
    }

    /// The same items.
    pub fn again(&self) -> Past<T>
        ensures { result.events ≡ self.now.events }
    {
        Past {
            marker: PhantomData,
        }
    }
}

impl<T> Drop for Past<T> {
    fn drop(self) {
        let Self { marker: _ } = self;
    }
}
