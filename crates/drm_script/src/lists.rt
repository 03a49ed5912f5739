// Values that stand in lists: so many of one kind, one behind another.
ghost use Rattle.std.specs.Prelude.{ℕ, ℤ, ◌≡◌, ◌++◌, [], List as Row, Result, OnOk, flat_map, string_bytes};
ghost use Rattle.drm_script.specs.Words.{spaced};
ghost use Rattle.drm_script.specs.Log.{signed_words};
ghost use Rattle.drm_script.specs.Reader.{Gives, signed_at, many_at};
ghost use Rattle.drm_script.specs.declared.words.WordFault.{WordFault as word_fault};

use crate::fields::take_signed;
use crate::words::{WordFault, Words};
use drm_outside::Memory;
use std::alloc::Global;

/// A value that lists have.
pub trait Field: Drop {
    ghost at: { Row (Row ℕ) → Result (Self × Row (Row ℕ)) word_fault };

    ghost words_of: { Self → Row (Row ℕ) };

    /// Takes one.
    fn take(words: &mut Words) -> Result<Self, WordFault>
        ensures value { Gives (λ value. (value, words.new.words)) result (at words.old.words) }
        ensures behind { words.new.behind ≡ words.old.behind };

    /// Writes its words at the end of the text, with a blank before each.
    fn print(&self, text: &mut String) -> Result<(), Memory>
        ensures { OnOk result (string_bytes text.new ≡ string_bytes text.old ++ spaced (words_of self.now)) };
}

impl Field for i32 {
    ghost at = { signed_at };

    ghost words_of = { signed_words };

    #[inline(always)]
    fn take(words: &mut Words) -> Result<i32, WordFault> {
        take_signed(words)
    }

    #[inline(always)]
    fn print(&self, text: &mut String) -> Result<(), Memory> {
        write!(text, " {self}")?;
        Ok(())
    }
}

/// Takes so many values.
pub fn take_many<T: Field>(
    alloc: Global,
    words: &mut Words,
    count: u64,
) -> Result<Vec<T>, WordFault>
    ensures values { Gives (λ values. (values.items, words.new.words)) result (many_at T.at count [] words.old.words) }
    ensures behind { words.new.behind ≡ words.old.behind }
{
    let mut values = Vec::with_capacity(alloc, count as usize)?;
    for _at in 0..count {
        values.push(T::take(words)?)?;
    }
    Ok(values)
}

/// Writes values at the end of the text, with a blank before each word.
pub fn print_many<T: Field>(text: &mut String, values: &[T]) -> Result<(), Memory>
    ensures { OnOk result (string_bytes text.new ≡ string_bytes text.old ++ spaced (flat_map T.words_of values.now)) }
{
    for value in values {
        value.print(text)?;
    }
    Ok(())
}
