//! A beginning of the one history.

ghost use Rattle.std.specs.Prelude.{◌≡◌, ◌<◌, ◌≤◌, MatchBool, length};
ghost use Rattle.drm_talk.specs.Front.{Begins};
ghost use Rattle.drm_talk.specs.Limits.{full};
ghost use Rattle.drm_history.specs.Reached.{IsCounted};

use crate::Reach;
use crate::book::{Naming, Sight};
use std::marker::{Model, PhantomData};

/// A beginning of the history that L names, which was seen. Contracts see it as the list of its entries.
///
/// It has four bytes: the entries are known to the proofs alone.
#[derive(Drop)]
pub struct Front<L: Naming> {
    number: u32,
    seen: Sight,
    of: PhantomData<L>,
}

impl<L: Naming> Model for Front<L> {
    ghost use Rattle.std.specs.Prelude.{◌≡◌, List};
    ghost use Rattle.drm_talk.specs.declared.Entry.{Entry};
    ghost use Rattle.drm_history.specs.Reached.{IsCounted};

    ghost Value = { List Entry };

    ghost view = { λ front. front.seen.log };

    ghost invariant = { λ front. (front.seen.book ≡ L.book) × IsCounted front.number front.seen.log };
}

impl<L: Naming> Front<L> {
    /// The front that was seen, which has so many entries.
    pub(crate) fn of(number: u32, seen: Sight) -> Front<L>
        requires book { seen.book ≡ L.book }
        requires counted { IsCounted number seen.log }
        ensures { result ≡ seen.log }
    {
        Front {
            number,
            seen,
            of: PhantomData,
        }
    }

    /// What the front rests on.
    pub(crate) fn sight(&self) -> &Sight
        ensures book { result.now.book ≡ L.book }
        ensures log { result.now.log ≡ self.now }
    {
        &self.seen
    }

    /// How many entries it has.
    pub fn number(&self) -> u32
        ensures counted { IsCounted result self.now }
        ensures within { result ≤ full }
    {
        self.number
    }

    /// A copy.
    pub fn again(&self) -> Front<L>
        ensures { result ≡ self.now }
    {
        Front::of(self.number, self.seen.again())
    }

    /// The same beginning without its name.
    pub fn reach(&self) -> Reach
        ensures book { result.book ≡ L.book }
        ensures log { result.log ≡ self.now }
    {
        Reach::of(self.number, self.seen.again())
    }

    /// Says whether the other front begins with this one. Of two fronts of one history one begins the other, so where it
    /// does not, the other is shorter and begins this one.
    pub fn begins(&self, other: &Front<L>) -> bool
        ensures { MatchBool result (Begins self.now other.now)
            (Begins other.now self.now × (length other.now < length self.now)) }
    {
        let mut both = self.seen.again();
        both.learn(&other.seen);
        self.number <= other.number
    }
}
