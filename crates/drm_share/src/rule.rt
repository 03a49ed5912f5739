//! The rule under which the value is published, and its steps.

use crate::shown::{Shown, Update};
use atomic_table::{Join, Split};
use crossbeam_utils::rule::{Outcome, Protocol};
use drm_cellmap::Map;
use drm_history::Origin;
use left_right::reader::Reader;
use left_right::writer::Writer;

/// What a reader or the writer knows of the published value: its book and its map. No value of it is ever made.
pub struct Known {
    origin: Origin,
    map: Map,
}

/// The rule: a published state stands for its history, and who knows a book and a map knows those of the published value.
pub struct Published;

impl Protocol<Shown, Option<Known>> for Published {
    ghost use Rattle.std.specs.Prelude.{None};
    ghost use Rattle.drm_share.specs.Published.{Keeps};

    ghost holds = { Keeps };

    ghost first = { None };
}

/// What an enter and a publish tell.
pub struct Marks;

impl Outcome<Shown, Option<Known>> for Marks {
    ghost use Rattle.drm_share.specs.Published.{Marked};

    ghost then = { Marked };
}

/// A note of all that the writer knows.
pub struct Twice;

impl Split<Option<Known>> for Twice {
    ghost left = { λ view. view };

    ghost right = { λ view. view };
}

/// A reader that knows what the note says.
pub struct Latter;

impl Join<Option<Known>> for Latter {
    ghost use Rattle.std.specs.Prelude.{None};

    ghost both = { λ view note. note };

    ghost spent = { None };
}

pub(crate) type ShownWriter = Writer<Shown, Update, Option<Known>, Published>;

pub(crate) type ShownReader = Reader<Shown, Option<Known>, Published>;
