// Printing logs and reports: one line for each request or reply, and the end line of a report.
ghost use Rattle.std.specs.Prelude.{◌≡◌, ◌++◌, ◌∷◌, IfOk, OnOk, flat_map, string_bytes, decimal};
ghost use Rattle.drm_script.specs.Words.{line_of};
ghost use Rattle.drm_script.specs.Log.{line_text, act_words};
ghost use Rattle.drm_script.specs.Report.{reply_text, brief_reply_text, end_text, full_text, brief_text};

use crate::lists::print_many;
use crate::print_answers::{print_answer, print_brief_answer};
use crate::shapes::print_shape;
use drm_outside::Memory;
use drm_shape::Shape;
use drm_talk::{Act, Element, Line, Reply, Report, Side};
use std::alloc::Global;

/// The text of a log: a line for each request, in their order.
pub fn print_log(alloc: Global, lines: &[Line]) -> Result<Vec<u8>, Memory>
    ensures { IfOk result (λ text. text.items ≡ flat_map line_text lines.now) }
{
    let mut text = String::new(alloc);
    for line in lines {
        print_line(&mut text, line)?;
    }
    Ok(text.into_bytes())
}

/// The full text of a report: a line for each reply, in their order, and the end line.
pub fn print_full(alloc: Global, report: &Report) -> Result<Vec<u8>, Memory>
    ensures { IfOk result (λ text. text.items ≡ full_text report.now) }
{
    let mut text = String::new(alloc);
    for reply in report.replies.as_slice() {
        print_reply(&mut text, reply)?;
    }
    print_end(&mut text, report)?;
    Ok(text.into_bytes())
}

/// The brief text of a report: as the full text, but that the answers to asks leave their certificates out.
pub fn print_brief(alloc: Global, report: &Report) -> Result<Vec<u8>, Memory>
    ensures { IfOk result (λ text. text.items ≡ brief_text report.now) }
{
    let mut text = String::new(alloc);
    for reply in report.replies.as_slice() {
        print_brief_reply(&mut text, reply)?;
    }
    print_end(&mut text, report)?;
    Ok(text.into_bytes())
}

/// Writes the end line at the end of the text.
fn print_end(text: &mut String, report: &Report) -> Result<(), Memory>
    ensures { OnOk result
        (string_bytes text.new ≡ string_bytes text.old ++ end_text report.now.number report.now.nodes report.now.edges) }
{
    let (number, nodes, edges) = (report.number, report.nodes, report.edges);
    writeln!(text, "end {number} {nodes} {edges}")?;
    Ok(())
}

/// Writes the line of a reply at the end of the text, in brief.
fn print_brief_reply(text: &mut String, reply: &Reply) -> Result<(), Memory>
    ensures { OnOk result (string_bytes text.new ≡ string_bytes text.old ++ brief_reply_text reply.now) }
{
    match reply {
        Reply::Ask(number, answer) => print_brief_answer(text, *number, answer),
        _ => print_reply(text, reply),
    }
}

/// Writes the line of a reply at the end of the text.
fn print_reply(text: &mut String, reply: &Reply) -> Result<(), Memory>
    ensures { OnOk result (string_bytes text.new ≡ string_bytes text.old ++ reply_text reply.now) }
{
    match reply {
        Reply::Put(number) => writeln!(text, "put {number}")?,
        Reply::Del(number) => writeln!(text, "del {number}")?,
        Reply::Slot => text.push_str("slot\n")?,
        Reply::Full(number) => writeln!(text, "full {number}")?,
        Reply::Empty(number) => writeln!(text, "empty {number}")?,
        Reply::Count(number, cells) => writeln!(text, "count {number} {cells}")?,
        Reply::Absent => text.push_str("absent\n")?,
        Reply::Memory => text.push_str("memory\n")?,
        Reply::Sync(number) => writeln!(text, "sync {number}")?,
        Reply::Limits(Side::Start, joint) => writeln!(text, "limits start {joint}")?,
        Reply::Limits(Side::Goal, joint) => writeln!(text, "limits goal {joint}")?,
        Reply::TickPut(number, slot, shape) => print_tick_put(text, *number, *slot, shape)?,
        Reply::TickDel(number, slot) => writeln!(text, "tick del {number} {slot}")?,
        Reply::TickIdle => text.push_str("tick idle\n")?,
        Reply::TickShape => text.push_str("tick shape\n")?,
        Reply::TickSlot => text.push_str("tick slot\n")?,
        Reply::TickFull(number) => writeln!(text, "tick full {number}")?,
        Reply::TickEmpty(number, slot) => writeln!(text, "tick empty {number} {slot}")?,
        Reply::Ask(number, answer) => print_answer(text, *number, answer)?,
    }
    Ok(())
}

/// Writes the line of a request at the end of the text.
fn print_line(text: &mut String, line: &Line) -> Result<(), Memory>
    ensures { OnOk result (string_bytes text.new ≡ string_bytes text.old ++ line_text line.now) }
{
    let caller = line.caller;
    match &line.act {
        Act::Put(slot, shape) => print_put(text, caller, *slot, shape)?,
        Act::Del(slot) => writeln!(text, "{caller} del {slot}")?,
        Act::Count(Element::Node(number)) => writeln!(text, "{caller} count node {number}")?,
        Act::Count(Element::Edge(number)) => writeln!(text, "{caller} count edge {number}")?,
        Act::Ask(start, goal) => print_ask(text, caller, start.as_slice(), goal.as_slice())?,
        Act::Sync => writeln!(text, "{caller} sync")?,
        Act::Tick => writeln!(text, "{caller} tick")?,
    }
    Ok(())
}

/// Writes the line of a put at the end of the text.
fn print_put(text: &mut String, caller: u32, slot: u16, shape: &Shape) -> Result<(), Memory>
    ensures { OnOk result
        (string_bytes text.new ≡ string_bytes text.old ++ line_of (decimal caller ∷ act_words (Act.Put slot shape.now))) }
{
    write!(text, "{caller} put {slot}")?;
    print_shape(text, shape)?;
    text.push_str("\n")?;
    Ok(())
}

/// Writes the line of a reply to a tick that put a shape.
fn print_tick_put(text: &mut String, number: u32, slot: u16, shape: &Shape) -> Result<(), Memory>
    ensures { OnOk result
        (string_bytes text.new ≡ string_bytes text.old ++ reply_text (Reply.TickPut number slot shape.now)) }
{
    write!(text, "tick put {number} {slot}")?;
    print_shape(text, shape)?;
    text.push_str("\n")?;
    Ok(())
}

/// Writes the line of an ask at the end of the text.
fn print_ask(text: &mut String, caller: u32, start: &[i32], goal: &[i32]) -> Result<(), Memory>
    ensures { OnOk result
        (string_bytes text.new ≡ string_bytes text.old ++ line_of (decimal caller ∷ act_words (Act.Ask start.now goal.now))) }
{
    write!(text, "{caller} ask")?;
    print_many(text, start)?;
    print_many(text, goal)?;
    text.push_str("\n")?;
    Ok(())
}
