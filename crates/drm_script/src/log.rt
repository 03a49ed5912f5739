// Reading a log: one request from each line.
ghost use Rattle.std.specs.Prelude.{ℕ, ◌≡◌, ◌+◌, ◌<◌, ◌≤◌, List as Row, length, Some, Err, IfOk, IfErr, MatchResult};
ghost use Rattle.drm_talk.specs.declared.Line.{Line as line_value};
ghost use Rattle.drm_script.specs.Limits.{line_limit};
ghost use Rattle.drm_script.specs.Front.{BeginsWith, BeginsWithNone};
ghost use Rattle.drm_script.specs.Words.{lines_in};
ghost use Rattle.drm_script.specs.Log.{line_text, IsLogLine, IsLog, AreGoodLines, StopsAtOnce, StopsReading};
ghost use Rattle.drm_script.specs.declared.LinesFault.TheVariants.{Lines as too_many_lines, Memory as no_lines_memory};
ghost use Rattle.drm_script.specs.declared.LogFault.TheVariants.{Lines as too_many, Memory as no_memory};
ghost use Rattle.drm_script.specs.declared.words.WordFault.TheVariants.{Bad as bad};

use crate::acts::{asks_of, has_valid_shape, read_words};
use crate::words::{WordFault, Words, count_lines};
use crate::{GoodLines, LinesFault, LogFault};
use drm_outside::List;
use drm_talk::Line;
use std::alloc::Global;

/// There are no more lines in a log.
const LINE_LIMIT: usize = 200_000;

/// No more lines of a log are asks.
const ASK_LIMIT: u32 = 4_096;

/// The requests of a log, one from each line, for an arm with so many joints.
///
/// A log of over 200,000 lines is refused by their number, before any line is read. Otherwise any other error than
/// memory names the first line that is not in the grammar; so are the 4,097th ask and every later one. Bytes after the
/// last line feed are a line that is none.
pub fn read_log(alloc: Global, bytes: &[u8], joints: u32) -> Result<List<Line>, LogFault>
    // What is read is spelled so.
    ensures lines { IfOk result (λ lines. IsLog joints bytes.now lines) }
    // What is spelled so is read, unless memory runs out.
    ensures again { (lines : Row line_value) → IsLog joints bytes.now lines
        → MatchResult result (λ found. found ≡ lines) (λ fault. fault ≡ no_memory) }
    ensures fault { IfErr result (λ fault. StopsReading joints fault bytes.now) }
    // The number of lines is looked at first.
    ensures first { line_limit < lines_in bytes.now → result ≡ Err (too_many (lines_in bytes.now)) }
{
    let found = match read_good_lines(alloc, bytes, joints) {
        Ok(found) => found,
        Err(LinesFault::Lines(count)) => return Err(LogFault::Lines(count)),
        Err(LinesFault::Memory) => return Err(LogFault::Memory),
    };
    match found.bad {
        Some(line) => Err(LogFault::Line(line)),
        None => Ok(found.lines),
    }
}

/// The requests of a log before the first line that is not in the grammar, for an arm with so many joints, and the
/// number of that line. Where there is none, these are the requests of the log.
///
/// A log of over 200,000 lines is refused by their number, before any line is read. The 4,097th ask and every later one
/// are not in the grammar. Bytes after the last line feed are a line that is none.
pub fn read_good_lines(alloc: Global, bytes: &[u8], joints: u32) -> Result<GoodLines, LinesFault>
    // They are spelled so at the front of the bytes, and what is bad stands right behind them.
    ensures lines { IfOk result (λ found. AreGoodLines joints bytes.now found.lines found.bad) }
    ensures fault { IfErr result (λ fault. StopsAtOnce joints fault bytes.now) }
    // The number of lines is looked at first.
    ensures first { line_limit < lines_in bytes.now → result ≡ Err (too_many_lines (lines_in bytes.now)) }
{
    let count = count_lines(bytes);
    if count > LINE_LIMIT {
        return Err(LinesFault::Lines(count as u64));
    }
    good_lines(alloc, bytes, joints)
}

/// No bytes are the text of two lists of requests.
pub fn logs_read_one_way()
    ensures { (joints : ℕ) (bytes : Row ℕ) (lines others : Row line_value) →
        IsLog joints bytes lines → IsLog joints bytes others → lines ≡ others }
{}

/// The requests before the first bad line of bytes that have no more lines than a log may have.
fn good_lines(alloc: Global, bytes: &[u8], joints: u32) -> Result<GoodLines, LinesFault>
    requires { lines_in bytes.now ≤ line_limit }
    ensures lines { IfOk result (λ found. AreGoodLines joints bytes.now found.lines found.bad) }
    ensures fault { IfErr result (λ fault. fault ≡ no_lines_memory) }
{
    let mut lines = Vec::new(alloc);
    let mut asks = 0;
    let mut rest = bytes;
    while !rest.is_empty() {
        let (line, after) = match read_line(alloc, rest, joints) {
            Ok(found) => found,
            Err(WordFault::Bad) => return Ok(before_bad(lines)),
            Err(WordFault::Memory) => return Err(LinesFault::Memory),
        };
        asks += asks_of(&line.act);
        if asks > ASK_LIMIT {
            return Ok(before_bad(lines));
        }
        lines.push(line)?;
        rest = after;
    }
    Ok(GoodLines {
        lines: List::from_vec(lines),
        bad: None,
    })
}

/// These lines, and the place behind them as that of the first bad line.
fn before_bad(lines: Vec<Line>) -> GoodLines
    requires { length lines.items < line_limit }
    ensures lines { result.lines ≡ lines.items }
    ensures bad { result.bad ≡ Some (length lines.items + 1) }
{
    let bad = lines.len() as u32 + 1;
    GoodLines {
        lines: List::from_vec(lines),
        bad: Some(bad),
    }
}

/// The request on the first line, and the bytes after that line.
fn read_line(alloc: Global, bytes: &[u8], joints: u32) -> Result<(Line, &[u8]), WordFault>
    ensures line { IfOk result (λ found. BeginsWith line_text (IsLogLine joints) bytes.now found.0 found.1.now) }
    ensures none { IfErr result (λ fault. fault ≡ bad → BeginsWithNone line_text (IsLogLine joints) bytes.now) }
{
    let mut words = Words::of(bytes);
    let request = read_words(alloc, &mut words, joints)?;
    let Some(rest) = words.behind() else {
        return Err(WordFault::Bad);
    };
    if !has_valid_shape(&request.act) {
        return Err(WordFault::Bad);
    }
    Ok((request, rest))
}
