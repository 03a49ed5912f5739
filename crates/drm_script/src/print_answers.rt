// Printing the answers to asks.
ghost use Rattle.std.specs.Prelude.{◌≡◌, ◌++◌, OnOk, List as Row, string_bytes};
ghost use Rattle.drm_talk.specs.declared.Reply.TheVariants.{Ask as ask_reply};
ghost use Rattle.drm_script.specs.Words.{spaced};
ghost use Rattle.drm_script.specs.Report.{counted_words, attached_words, answer_words, brief_reply_text, reply_text};

use crate::lists::{Field, print_many};
use drm_outside::Memory;
use drm_talk::{Answer, End};

/// Writes the line of an answer at the end of the text.
pub fn print_answer(text: &mut String, number: u32, answer: &Answer) -> Result<(), Memory>
    ensures { OnOk result (string_bytes text.new ≡ string_bytes text.old ++ reply_text (ask_reply number answer.now)) }
{
    write!(text, "ask {number}")?;
    print_words(text, answer)?;
    text.push_str("\n")?;
    Ok(())
}

/// Writes the line of an answer at the end of the text, in brief.
pub fn print_brief_answer(text: &mut String, number: u32, answer: &Answer) -> Result<(), Memory>
    ensures { OnOk result
        (string_bytes text.new ≡ string_bytes text.old ++ brief_reply_text (ask_reply number answer.now)) }
{
    match answer {
        Answer::Path {
            start,
            goal,
            length,
            ..
        } => {
            let (first, last) = (start.node, goal.node);
            writeln!(text, "ask {number} path {first} {last} {length}")?
        }
        Answer::Cut { start, goal, .. } => {
            let (first, last) = (start.node, goal.node);
            writeln!(text, "ask {number} cut {first} {last}")?
        }
        Answer::NoStart { .. } => writeln!(text, "ask {number} nostart")?,
        Answer::NoGoal { .. } => writeln!(text, "ask {number} nogoal")?,
        Answer::Unsound { edge, cell, .. } => writeln!(text, "ask {number} unsound {edge} {cell}")?,
    }
    Ok(())
}

/// Writes the words of an answer at the end of the text, with a blank before each.
fn print_words(text: &mut String, answer: &Answer) -> Result<(), Memory>
    ensures { OnOk result (string_bytes text.new ≡ string_bytes text.old ++ spaced (answer_words answer.now)) }
{
    match answer {
        Answer::Path {
            start,
            goal,
            length,
            nodes,
            labels,
        } => {
            print_ends(text, " path", start, goal)?;
            write!(text, " {length}")?;
            print_counted(text, nodes.as_slice())?;
            print_counted(text, labels.as_slice())?;
        }
        Answer::Cut { start, goal, side } => {
            print_ends(text, " cut", start, goal)?;
            print_counted(text, side.as_slice())?;
        }
        Answer::NoStart { tried } => {
            text.push_str(" nostart")?;
            print_counted(text, tried.as_slice())?;
        }
        Answer::NoGoal { tried } => {
            text.push_str(" nogoal")?;
            print_counted(text, tried.as_slice())?;
        }
        Answer::Unsound {
            start,
            goal,
            edge,
            cell,
        } => {
            print_ends(text, " unsound", start, goal)?;
            write!(text, " {edge} {cell}")?;
        }
    }
    Ok(())
}

/// Writes the kind of an answer and both ends of the ask, the start first, at the end of the text.
fn print_ends(text: &mut String, kind: &str, start: &End, goal: &End) -> Result<(), Memory>
    ensures { OnOk result (string_bytes text.new ≡ string_bytes text.old
        ++ (kind.now ++ spaced (attached_words start.now ++ attached_words goal.now))) }
{
    text.push_str(kind)?;
    print_attached(text, start)?;
    print_attached(text, goal)
}

/// Writes an end of an ask at the end of the text.
fn print_attached(text: &mut String, end: &End) -> Result<(), Memory>
    ensures { OnOk result (string_bytes text.new ≡ string_bytes text.old ++ spaced (attached_words end.now)) }
{
    let node = end.node;
    write!(text, " {node}")?;
    print_counted(text, end.tried.as_slice())
}

/// Writes how many values there are, and these.
fn print_counted<T: Field>(text: &mut String, values: &[T]) -> Result<(), Memory>
    ensures { OnOk result
        (string_bytes text.new ≡ string_bytes text.old ++ spaced (counted_words T.words_of values.now)) }
{
    let count = values.len();
    write!(text, " {count}")?;
    print_many(text, values)
}
