// The lines of a report that words spell.
ghost use Rattle.std.specs.Prelude.{◌≡◌, ◌↔◌, IsTrue};
ghost use Rattle.drm_talk.specs.declared.Reply.TheVariants.{Limits as limits};
ghost use Rattle.drm_script.specs.Reader.{Gives, last_of, number_at, pair_at};
ghost use Rattle.drm_script.specs.ReportReading.{side_at, tick_of, reply_of, report_line_in, LineHasValidShape};

use crate::acts::{is_valid, read_shape};
use crate::answers::read_answer;
use crate::fields::{ended, take_if, take_slot, take_unsigned};
use crate::words::{WordFault, Words};
use drm_talk::{Reply, Side};
use std::alloc::Global;

/// A line of a report.
#[derive(Drop)]
pub enum ReportLine {
    /// The reply to a line of the log.
    Reply(Reply),
    /// The end line.
    End { number: u32, nodes: u32, edges: u32 },
}

/// The line of a report that the words spell. Its shape may break a rule.
#[tactic(auto, unfolding(crate::specs::ReportReading::report_line_in))]
pub fn read_report_words(alloc: Global, words: &mut Words) -> Result<ReportLine, WordFault>
    ensures line { Gives (λ line. line) result (report_line_in words.old.words) }
    ensures behind { words.new.behind ≡ words.old.behind }
{
    if take_if(words, b"end") {
        let number = take_unsigned(words)?;
        let nodes = take_unsigned(words)?;
        let edges = take_unsigned(words)?;
        let end = ReportLine::End {
            number,
            nodes,
            edges,
        };
        return ended(end, words);
    }
    let reply = read_reply(alloc, words)?;
    Ok(ReportLine::Reply(reply))
}

/// Says whether the shape of a line, if it has one, is valid.
pub fn shows_valid_shape(line: &ReportLine) -> bool
    ensures { IsTrue result ↔ LineHasValidShape line.now }
{
    match line {
        ReportLine::Reply(Reply::TickPut(_, _, shape)) => is_valid(shape),
        _ => true,
    }
}

/// The reply that the words spell.
#[tactic(auto, unfolding(crate::specs::ReportReading::reply_of))]
fn read_reply(alloc: Global, words: &mut Words) -> Result<Reply, WordFault>
    ensures reply { Gives (λ reply. reply) result (reply_of words.old.words) }
    ensures behind { words.new.behind ≡ words.old.behind }
{
    if take_if(words, b"put") {
        return ended(Reply::Put(take_unsigned(words)?), words);
    }
    if take_if(words, b"del") {
        return ended(Reply::Del(take_unsigned(words)?), words);
    }
    if take_if(words, b"slot") {
        return ended(Reply::Slot, words);
    }
    if take_if(words, b"full") {
        return ended(Reply::Full(take_unsigned(words)?), words);
    }
    if take_if(words, b"empty") {
        return ended(Reply::Empty(take_unsigned(words)?), words);
    }
    if take_if(words, b"count") {
        let count = Reply::Count(take_unsigned(words)?, take_unsigned(words)?);
        return ended(count, words);
    }
    if take_if(words, b"absent") {
        return ended(Reply::Absent, words);
    }
    if take_if(words, b"memory") {
        return ended(Reply::Memory, words);
    }
    if take_if(words, b"sync") {
        return ended(Reply::Sync(take_unsigned(words)?), words);
    }
    if take_if(words, b"limits") {
        return read_limits(words);
    }
    if take_if(words, b"tick") {
        return read_tick(words);
    }
    if take_if(words, b"ask") {
        return Ok(Reply::Ask(take_unsigned(words)?, read_answer(alloc, words)?));
    }
    Err(WordFault::Bad)
}

/// The reply to a tick that the words spell.
#[tactic(auto, unfolding(crate::specs::ReportReading::tick_of))]
fn read_tick(words: &mut Words) -> Result<Reply, WordFault>
    ensures reply { Gives (λ reply. reply) result (tick_of words.old.words) }
    ensures behind { words.new.behind ≡ words.old.behind }
{
    if take_if(words, b"put") {
        let number = take_unsigned(words)?;
        let slot = take_slot(words)?;
        let shape = read_shape(words)?;
        return Ok(Reply::TickPut(number, slot, shape));
    }
    if take_if(words, b"del") {
        let number = take_unsigned(words)?;
        let slot = take_slot(words)?;
        return ended(Reply::TickDel(number, slot), words);
    }
    if take_if(words, b"idle") {
        return ended(Reply::TickIdle, words);
    }
    if take_if(words, b"shape") {
        return ended(Reply::TickShape, words);
    }
    if take_if(words, b"slot") {
        return ended(Reply::TickSlot, words);
    }
    if take_if(words, b"full") {
        let number = take_unsigned(words)?;
        return ended(Reply::TickFull(number), words);
    }
    if take_if(words, b"empty") {
        let number = take_unsigned(words)?;
        let slot = take_slot(words)?;
        return ended(Reply::TickEmpty(number, slot), words);
    }
    Err(WordFault::Bad)
}

/// The side and the joint of an ask outside its limits, which are all that is left of the line.
fn read_limits(words: &mut Words) -> Result<Reply, WordFault>
    ensures reply { Gives (λ reply. reply) result
        (last_of (pair_at side_at number_at) (λ x. limits x.0 x.1) words.old.words) }
    ensures behind { words.new.behind ≡ words.old.behind }
{
    let side = take_side(words)?;
    let joint = take_unsigned(words)?;
    ended(Reply::Limits(side, joint), words)
}

#[tactic(auto, unfolding(crate::specs::ReportReading::side_at))]
fn take_side(words: &mut Words) -> Result<Side, WordFault>
    ensures side { Gives (λ side. (side, words.new.words)) result (side_at words.old.words) }
    ensures behind { words.new.behind ≡ words.old.behind }
{
    if take_if(words, b"start") {
        return Ok(Side::Start);
    }
    if take_if(words, b"goal") {
        return Ok(Side::Goal);
    }
    Err(WordFault::Bad)
}
