// The words of a line, from its front.
ghost use Rattle.std.specs.Prelude.{◌≡◌, ◌↔◌, ◌++◌, ◌∷◌, [], IsTrue, MatchOption, option_map};
ghost use Rattle.drm_script.specs.Words.{Lacks, behind_line, lines_in};
ghost use Rattle.drm_script.specs.Left.{IsEnd, line_left, left_behind};
ghost use Rattle.drm_script.specs.declared.words.WordFault.TheVariants.{Memory as no_memory};

use std::alloc::{AllocError, AllocFailed};
use std::marker::Model;

/// What stands between two words of a line.
const BLANK: u8 = b' ';

/// What stands at the end of a line.
const LINE_FEED: u8 = b'\n';

/// Why no value was read from the words of a line.
#[derive(Clone, Copy, Debug, PartialEq, Eq)]
pub enum WordFault {
    /// They are not in the grammar.
    Bad,
    /// There was no memory for the value.
    Memory,
}

impl<T: Drop> From<AllocFailed<T>> for WordFault {
    ghost from_gives = { λ _ fault. fault ≡ no_memory };

    fn from(_: AllocFailed<T>) -> Self {
        WordFault::Memory
    }
}

impl From<AllocError> for WordFault {
    ghost from_gives = { λ _ fault. fault ≡ no_memory };

    fn from(_: AllocError) -> Self {
        WordFault::Memory
    }
}

/// Where the bytes stand that are not read yet.
#[derive(Clone, Copy, Debug, PartialEq, Eq)]
pub enum Place {
    /// At a word of the line.
    Word,
    /// Behind the line and its line feed.
    Behind,
    /// At the end of all bytes, behind a line that has no line feed.
    End,
}

/// The words of a line that are not read yet, and the bytes behind the line.
#[derive(Drop)]
pub struct Words<'a> {
    place: Place,
    rest: &'a [u8],
}

impl<'a> Model for Words<'a> {
    ghost use Rattle.drm_script.specs.Left.{Left, left_at};

    ghost Value = { Left };

    ghost view = { λ words. left_at words.place words.rest.now };
}

impl<'a> Words<'a> {
    /// The words of the first line of these bytes.
    pub fn of(bytes: &'a [u8]) -> Words<'a>
        ensures { result ≡ line_left bytes.now }
    {
        Words {
            place: Place::Word,
            rest: bytes,
        }
    }

    /// The bytes from the first word on, if a word is left.
    #[inline(always)]
    pub fn bytes(&self) -> Option<&'a [u8]>
        ensures { MatchOption result (self.now.words ≡ []) (λ bytes. self.now ≡ line_left bytes.now) }
    {
        match self.place {
            Place::Word => Some(self.rest),
            Place::Behind | Place::End => None,
        }
    }

    /// What is left behind a word, if it ends before these bytes.
    #[inline(always)]
    pub fn behind_word(bytes: &'a [u8]) -> Option<Words<'a>>
        ensures { MatchOption result (IsEnd bytes.now → ⊥) (λ left. IsEnd bytes.now × (left ≡ left_behind bytes.now)) }
    {
        let Some((byte, rest)) = bytes.split_first() else {
            return Some(Words {
                place: Place::End,
                rest: bytes,
            });
        };
        let place = match *byte {
            BLANK => Place::Word,
            LINE_FEED => Place::Behind,
            _ => return None,
        };
        Some(Words { place, rest })
    }

    /// Says whether no word is left.
    pub fn is_empty(&self) -> bool
        ensures { IsTrue result ↔ (self.now.words ≡ []) }
    {
        self.bytes().is_none()
    }

    /// The bytes behind the line, if it has a line feed.
    pub fn behind(&self) -> Option<&'a [u8]>
        ensures { option_map (λ bytes. bytes.now) result ≡ self.now.behind }
    {
        match self.place {
            Place::Word => behind_first_line(self.rest),
            Place::Behind => Some(self.rest),
            Place::End => None,
        }
    }
}

/// The bytes behind the first line feed, if there is one.
fn behind_first_line(bytes: &[u8]) -> Option<&[u8]>
    ensures { option_map (λ rest. rest.now) result ≡ behind_line bytes.now }
{
    let Some((_, rest)) = split_before(bytes, LINE_FEED) else {
        return None;
    };
    Some(rest)
}

/// The bytes before the first `end`, and those after it.
fn split_before(bytes: &[u8], end: u8) -> Option<(&[u8], &[u8])>
    ensures { MatchOption result (Lacks end bytes.now)
        (λ parts. Lacks end parts.0.now × (bytes.now ≡ parts.0.now ++ end ∷ parts.1.now)) }
{
    let at = bytes.iter().position(|byte| *byte == end)?;
    Some((&bytes[..at], &bytes[at + 1..]))
}

/// How many lines there are. Bytes behind the last line feed are one.
pub fn count_lines(bytes: &[u8]) -> usize
    ensures { result ≡ lines_in bytes.now }
{
    let mut count = 0;
    let mut open = false;
    for byte in bytes {
        open = *byte != LINE_FEED;
        if !open {
            count += 1;
        }
    }
    count + usize::from(open)
}
