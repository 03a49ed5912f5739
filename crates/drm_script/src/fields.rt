// The fields of a line: known words, numbers, and the end.
ghost use Rattle.std.specs.Prelude.{◌≡◌, if◌then◌else◌, IsTrue, drop};
ghost use Rattle.drm_script.specs.Limits.{slot_limit, number_limit, wide_limit};
ghost use Rattle.drm_script.specs.Words.{is_plain};
ghost use Rattle.drm_script.specs.Reader.{Gives, starts, unsigned_at, signed_at, ended};

use crate::number::{signed, wide};
use crate::words::{WordFault, Words};

/// The numbers of slots are below this.
const SLOT_LIMIT: u64 = 65_536;

/// All other numbers, but for lengths of routes and labels, are below this.
const NUMBER_LIMIT: u64 = 4_294_967_296;

/// Takes the first word, if it is this one.
#[inline(always)]
pub fn take_if(words: &mut Words, word: &[u8]) -> bool
    requires { IsTrue (is_plain word.now) }
    ensures found { result ≡ starts word.now words.old.words }
    ensures words { words.new.words ≡ if result then drop 1 words.old.words else words.old.words }
    ensures behind { words.new.behind ≡ words.old.behind }
{
    let Some(bytes) = words.bytes() else {
        return false;
    };
    let Some(rest) = bytes.strip_prefix(word) else {
        return false;
    };
    let Some(left) = Words::behind_word(rest) else {
        return false;
    };
    *words = left;
    true
}

/// Takes a number below 2^64.
#[inline(always)]
pub fn take_wide(words: &mut Words) -> Result<u64, WordFault>
    ensures number { Gives (λ number. (number, words.new.words)) result (unsigned_at wide_limit words.old.words) }
    ensures behind { words.new.behind ≡ words.old.behind }
{
    let Some(bytes) = words.bytes() else {
        return Err(WordFault::Bad);
    };
    let Some((number, rest)) = wide(bytes) else {
        return Err(WordFault::Bad);
    };
    let Some(left) = Words::behind_word(rest) else {
        return Err(WordFault::Bad);
    };
    *words = left;
    Ok(number)
}

/// Takes a number with a sign, of 32 bits.
#[inline(always)]
pub fn take_signed(words: &mut Words) -> Result<i32, WordFault>
    ensures number { Gives (λ number. (number, words.new.words)) result (signed_at words.old.words) }
    ensures behind { words.new.behind ≡ words.old.behind }
{
    let Some(bytes) = words.bytes() else {
        return Err(WordFault::Bad);
    };
    let Some((number, rest)) = signed(bytes) else {
        return Err(WordFault::Bad);
    };
    let Some(left) = Words::behind_word(rest) else {
        return Err(WordFault::Bad);
    };
    *words = left;
    Ok(number)
}

/// Takes a number below the limit.
#[inline(always)]
pub fn take_below(words: &mut Words, limit: u64) -> Result<u64, WordFault>
    ensures number { Gives (λ number. (number, words.new.words)) result (unsigned_at limit words.old.words) }
    ensures behind { words.new.behind ≡ words.old.behind }
{
    let number = take_wide(words)?;
    if number >= limit {
        return Err(WordFault::Bad);
    }
    Ok(number)
}

/// Takes a number below 2^32.
#[inline(always)]
pub fn take_unsigned(words: &mut Words) -> Result<u32, WordFault>
    ensures number { Gives (λ number. (number, words.new.words)) result (unsigned_at number_limit words.old.words) }
    ensures behind { words.new.behind ≡ words.old.behind }
{
    let number = take_below(words, NUMBER_LIMIT)?;
    Ok(number as u32)
}

/// Takes the number of a slot.
pub fn take_slot(words: &mut Words) -> Result<u16, WordFault>
    ensures slot { Gives (λ slot. (slot, words.new.words)) result (unsigned_at slot_limit words.old.words) }
    ensures behind { words.new.behind ≡ words.old.behind }
{
    let number = take_below(words, SLOT_LIMIT)?;
    Ok(number as u16)
}

/// Gives the value, where no word is left behind it.
pub fn ended<T: Drop>(value: T, words: &Words) -> Result<T, WordFault>
    ensures { Gives (λ value. value) result (ended (value, words.now.words)) }
{
    if !words.is_empty() {
        return Err(WordFault::Bad);
    }
    Ok(value)
}
