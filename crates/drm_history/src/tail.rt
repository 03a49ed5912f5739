//! The end of the one history, which one value owns.

ghost use Rattle.std.specs.Prelude.{◌≡◌, ◌+◌, ◌≤◌, [], ◌∷◌, ◌++◌, length};
ghost use Rattle.drm_talk.specs.Front.{Begins};
ghost use Rattle.drm_talk.specs.History.{MayFollow};
ghost use Rattle.drm_talk.specs.Limits.{full};
ghost use Rattle.drm_history.specs.Reached.{IsCounted};
ghost use Rattle.drm_history.specs.Rules.{head_of, AreReady};

use crate::Front;
use crate::book::{Add, Asks, BLANK, Head, Look, Naming, Nothing, Sight};
use drm_talk::{Entry, legal_histories_go_on};
use logbook::{Offer, Pen};
use std::marker::{Model, PhantomData};

/// The whole of the history that L names, and the only right to add to it. Contracts see it as the list of its entries.
#[derive(Drop)]
pub struct Tail<L: Naming> {
    head: Head,
    number: u32,
    seen: Sight,
    pens: Vec<Pen>,
    of: PhantomData<L>,
}

impl<L: Naming> Model for Tail<L> {
    ghost use Rattle.std.specs.Prelude.{◌≡◌, ◌+◌, List, length};
    ghost use Rattle.drm_talk.specs.declared.Entry.{Entry};
    ghost use Rattle.drm_history.specs.Reached.{IsCounted};
    ghost use Rattle.drm_talk.specs.Limits.{full};
    ghost use Rattle.drm_history.specs.Rules.{head_of, AreReady};

    ghost Value = { List Entry };

    ghost view = { λ tail. tail.seen.log };

    ghost invariant = { λ tail. (tail.seen.book ≡ L.book)
        × IsCounted tail.number tail.seen.log
        × (tail.head ≡ head_of L.book)
        × (length tail.pens.items ≡ full + 1)
        × AreReady L.book (length tail.seen.log) tail.pens.items };
}

impl<L: Naming> Tail<L> {
    /// The end of a history that has just begun.
    pub(crate) fn begin(head: Head, seen: Sight, pens: Vec<Pen>) -> Tail<L>
        requires book { seen.book ≡ L.book }
        requires log { seen.log ≡ [] }
        requires head { head ≡ head_of seen.book }
        requires long { length pens.items ≡ full + 1 }
        requires ready { AreReady seen.book 0 pens.items }
        ensures { result ≡ [] }
    {
        Tail {
            head,
            number: 0,
            seen,
            pens,
            of: PhantomData,
        }
    }

    /// How many entries the history has.
    pub fn number(&self) -> u32
        ensures counted { IsCounted result self.now }
        ensures within { result ≤ full }
    {
        self.number
    }

    /// All of the history.
    pub fn front(&self) -> Front<L>
        ensures { result ≡ self.now }
    {
        Front::of(self.number, self.seen.again())
    }

    /// Adds the entry. It takes no memory.
    pub fn add(&mut self, entry: Entry)
        requires { MayFollow self.old entry (length self.old) }
        ensures { self.new ≡ self.old ++ entry ∷ [] }
    {
        // The law on which the proof rests.
        legal_histories_go_on();

        let mut offer: Offer<Entry, u64, _, Nothing> = self
            .seen
            .plain::<Nothing, Entry, Asks>(&entry);
        let pen = &mut self.pens[self.number as usize];
        self.head
            .compare_exchange::<Add, Nothing>(0, 0, &mut self.seen, &mut offer, pen);
        self.number += 1;
    }

    /// Shows that the history begins with the front: nobody has seen more than there is.
    pub fn covers(&mut self, front: &Front<L>)
        ensures same { self.new ≡ self.old }
        ensures begins { Begins front.now self.new }
    {
        let mut seen = self.seen.again();
        seen.learn(front.sight());
        let mut offer: Offer<Entry, u64, _, Nothing> = seen.plain::<Nothing, Entry, Asks>(&BLANK);
        let pen = &mut self.pens[self.number as usize];
        self.head
            .compare_exchange::<Look, Nothing>(0, 0, &mut seen, &mut offer, pen);
    }
}
