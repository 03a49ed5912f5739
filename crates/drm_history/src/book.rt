//! The rule of the book in which a history stands, its steps, and its name.

use drm_talk::Entry;
use logbook::{Gain, Plain, Play, Rule, Seen, Word};
use std::marker::Brand;

/// The rule of the book.
pub struct Law;

/// Word 0 of the book.
pub(crate) type Head = Word<Entry, u64, Law>;

/// A beginning of the history that was seen.
pub(crate) type Sight = Seen<Entry, u64, Law>;

impl Rule<Entry, u64> for Law {
    ghost use Rattle.std.specs.Prelude.{[]};
    ghost use base.Fml.{ftrue};
    ghost use Rattle.drm_history.specs.Rules.{IsKept};

    ghost holds = { IsKept };

    ghost first = { [] };

    ghost hinted = { λ n log. Unit {0} };

    ghost shows = { λ log. [] };

    ghost keeps = { λ names log. ftrue };

    ghost moves = { λ ask before after answer. Unit {0} };
}

/// Callers trade nothing.
pub struct Nothing;

impl Gain<Entry, u64> for Nothing {
    ghost use base.Fml.{ftrue};

    ghost after = { λ names about answer. ftrue };
}

/// A step that may make one more word.
pub struct Make;

impl Play<Entry, u64> for Make {
    ghost use Rattle.drm_history.specs.Rules.{Makes};

    ghost then = { Makes };
}

/// A step that adds an entry.
pub struct Add;

impl Play<Entry, u64> for Add {
    ghost use Rattle.drm_history.specs.Rules.{Adds};

    ghost then = { Adds };
}

/// A step that looks at the history.
pub struct Look;

impl Play<Entry, u64> for Look {
    ghost use Rattle.drm_history.specs.Rules.{Looks};

    ghost then = { Looks };
}

/// What a step asks for: the entry.
pub struct Asks;

impl Plain<Entry, Entry, u64> for Asks {
    ghost use Rattle.std.specs.Prelude.{None};

    ghost ask = { λ entry. entry };

    ghost state = { λ entry. None };
}

/// An entry for a step that adds none.
pub(crate) const BLANK: Entry = Entry {
    caller: 0,
    seq: 0,
    slot: 0,
    shape: None,
};

/// Which history it is. Each call of a program picks it.
pub trait Naming {
    ghost use Rattle.logbook.specs.Pages.{Book};

    ghost book: { Book };
}

impl Naming for Brand {
    ghost book = { record { number = 0; log_name = 0; cells_name = 0 } };
}
