//! A history that was just begun.

ghost use Rattle.std.specs.Prelude.{◌≡◌, ◌+◌, ◌<◌, ◌^◌, [], IfOk, IfSome, length};
ghost use Rattle.logbook.specs.Pages.{nib, may_write};
ghost use Rattle.drm_talk.specs.Limits.{full};
ghost use Rattle.drm_history.specs.Rules.{head_of, AreReady};

use crate::book::{Asks, BLANK, Head, Make, Naming, Nothing, Sight};
use crate::{Reach, Tail};
use drm_talk::{Entry, FULL};
use logbook::{Offer, Pen, Seen, Start, Word};
use std::alloc::{AllocError, Global};
use std::marker::Model;

/// An empty history that has no name yet. Contracts see the book in which it stands.
#[derive(Drop)]
pub struct Origin {
    head: Head,
    seen: Sight,
    /// One for each entry, in the order in which they will stand, and one more.
    pens: Vec<Pen>,
}

impl Model for Origin {
    ghost use Rattle.std.specs.Prelude.{◌≡◌, ◌+◌, [], length};
    ghost use Rattle.logbook.specs.Pages.{Book, book_coded};
    ghost use Rattle.drm_talk.specs.Limits.{full};
    ghost use Rattle.drm_history.specs.Rules.{head_of, AreReady};

    ghost Value = { Book };

    ghost coded = { book_coded };

    ghost view = { λ origin. origin.seen.book };

    ghost invariant = { λ origin. (origin.seen.log ≡ [])
        × (origin.head ≡ head_of origin.seen.book)
        × (length origin.pens.items ≡ full + 1)
        × AreReady origin.seen.book 0 origin.pens.items };
}

impl Origin {
    /// A new book with an empty history, and with what each entry to come will need. `None` where the book was found to
    /// have words that were not made here, which no run meets; a new call begins another book.
    pub fn new(alloc: Global) -> Result<Option<Origin>, AllocError> {
        let (seen, mut first, _second): (Sight, Pen, Pen) = Seen::open(Start::alone(), 2, 0);
        let head = Word::tracked(2, &mut first);
        let Some(pens) = all_pens(alloc, &head, &seen)? else {
            return Ok(None);
        };
        Ok(Some(Origin { head, seen, pens }))
    }

    /// What was seen of the history so far: nothing.
    pub fn reach(&self) -> Reach
        ensures book { result.book ≡ self.now }
        ensures log { result.log ≡ [] }
    {
        Reach::begin(&self.seen)
    }

    /// The end of the history, under the name of its book.
    pub fn named<L: Naming>(self) -> Tail<L>
        requires { self ≡ L.book }
        ensures { result ≡ [] }
    {
        let Origin { head, seen, pens } = self;
        Tail::begin(head, seen, pens)
    }
}

/// A pen for each entry to come, and one more.
fn all_pens(alloc: Global, head: &Head, seen: &Sight) -> Result<Option<Vec<Pen>>, AllocError>
    requires { head.now ≡ head_of seen.now.book }
    ensures { IfOk result (λ made. IfSome made
        (λ pens. (length pens.items ≡ full + 1) × AreReady seen.now.book 0 pens.items)) }
{
    let mut pens = Vec::new(alloc);
    for i in 0..FULL + 1 {
        let Some(pen) = next_pen(head, seen, u64::from(i) + 2) else {
            return Ok(None);
        };
        pens.push(pen)?;
    }
    Ok(Some(pens))
}

/// Makes one more word, whose key is to be this one, and lets it go: its pen is what counts.
fn next_pen(head: &Head, seen: &Sight, key: u64) -> Option<Pen>
    requires head { head.now ≡ head_of seen.now.book }
    requires room { key < 2 ^ 62 }
    ensures { IfSome result (λ pen. (pen.book ≡ seen.now.book) × (pen.nib ≡ nib may_write key 0)) }
{
    let mut seen = seen.again();
    let mut offer: Offer<Entry, u64, _, Nothing> = seen.plain::<Nothing, Entry, Asks>(&BLANK);
    let mut pen = seen.no_pen();
    let found = head.compare_exchange::<Make, Nothing>(
        key,
        key + 1,
        &mut seen,
        &mut offer,
        &mut pen,
    );
    if found != key {
        return None;
    }
    let _word: Head = Word::tracked(0, &mut pen);
    Some(pen)
}
