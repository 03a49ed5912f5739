//! What was seen of a history that has no name yet, or whose name does not matter.

ghost use Rattle.std.specs.Prelude.{◌≡◌, []};
ghost use Rattle.drm_history.specs.Reached.{IsCounted};

use crate::Front;
use crate::book::{Naming, Sight};
use std::marker::Model;

/// A beginning of the history of some book. Contracts see the book and the beginning.
#[derive(Drop)]
pub struct Reach {
    number: u32,
    seen: Sight,
}

impl Model for Reach {
    ghost use Rattle.drm_history.specs.Reached.{Reached, IsCounted};

    ghost Value = { Reached };

    ghost view = { λ reach. record { book = reach.seen.book; log = reach.seen.log } };

    ghost invariant = { λ reach. IsCounted reach.number reach.seen.log };
}

impl Reach {
    /// Nothing was seen.
    pub(crate) fn begin(seen: &Sight) -> Reach
        requires { seen.now.log ≡ [] }
        ensures book { result.book ≡ seen.now.book }
        ensures log { result.log ≡ [] }
    {
        Reach {
            number: 0,
            seen: seen.again(),
        }
    }

    /// The beginning that was seen, which has so many entries.
    pub(crate) fn of(number: u32, seen: Sight) -> Reach
        requires { IsCounted number seen.log }
        ensures book { result.book ≡ seen.book }
        ensures log { result.log ≡ seen.log }
    {
        Reach { number, seen }
    }

    /// A copy.
    pub fn again(&self) -> Reach
        ensures { result ≡ self.now }
    {
        Reach {
            number: self.number,
            seen: self.seen.again(),
        }
    }

    /// The same beginning, under the name of its book.
    pub fn front<L: Naming>(&self) -> Front<L>
        requires { self.now.book ≡ L.book }
        ensures { result ≡ self.now.log }
    {
        Front::of(self.number, self.seen.again())
    }
}
