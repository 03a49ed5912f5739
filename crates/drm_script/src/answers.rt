// The answers to asks that words spell.
ghost use Rattle.std.specs.Prelude.{◌≡◌};
ghost use Rattle.drm_script.specs.Log.{number_words};
ghost use Rattle.drm_script.specs.Report.{tried_words, label_words};
ghost use Rattle.drm_script.specs.Reader.{Gives, number_at};
ghost use Rattle.drm_script.specs.ReportReading.{why_at, tried_at, all_tried_at, attached_at, nodes_at, label_at, labels_at, path_of, cut_of, unsound_of, answer_of};

use crate::fields::{ended, take_below, take_if, take_unsigned, take_wide};
use crate::lists::{Field, take_many};
use crate::words::{WordFault, Words};
use drm_outside::{List, Memory};
use drm_talk::{Answer, End, Tried, Why};
use std::alloc::Global;

/// Fewer nodes than this are tried for an end of an ask.
const TRIED_LIMIT: u64 = 13;

/// A route, the side of a cut and the labels have fewer nodes than this.
const NODES_LIMIT: u64 = 2_049;

/// The answer that the words spell.
#[tactic(auto, unfolding(crate::specs::ReportReading::answer_of))]
pub fn read_answer(alloc: Global, words: &mut Words) -> Result<Answer, WordFault>
    ensures answer { Gives (λ answer. answer) result (answer_of words.old.words) }
    ensures behind { words.new.behind ≡ words.old.behind }
{
    if take_if(words, b"path") {
        return read_path(alloc, words);
    }
    if take_if(words, b"cut") {
        return read_cut(alloc, words);
    }
    if take_if(words, b"nostart") {
        let tried = take_all_tried(alloc, words)?;
        return ended(Answer::NoStart { tried }, words);
    }
    if take_if(words, b"nogoal") {
        let tried = take_all_tried(alloc, words)?;
        return ended(Answer::NoGoal { tried }, words);
    }
    if take_if(words, b"unsound") {
        return read_unsound(alloc, words);
    }
    Err(WordFault::Bad)
}

fn read_path(alloc: Global, words: &mut Words) -> Result<Answer, WordFault>
    ensures answer { Gives (λ answer. answer) result (path_of words.old.words) }
    ensures behind { words.new.behind ≡ words.old.behind }
{
    let path = Answer::Path {
        start: take_attached(alloc, words)?,
        goal: take_attached(alloc, words)?,
        length: take_wide(words)?,
        nodes: take_nodes(alloc, words)?,
        labels: take_labels(alloc, words)?,
    };
    ended(path, words)
}

fn read_cut(alloc: Global, words: &mut Words) -> Result<Answer, WordFault>
    ensures answer { Gives (λ answer. answer) result (cut_of words.old.words) }
    ensures behind { words.new.behind ≡ words.old.behind }
{
    let start = take_attached(alloc, words)?;
    let goal = take_attached(alloc, words)?;
    let side = take_nodes(alloc, words)?;
    ended(Answer::Cut { start, goal, side }, words)
}

fn read_unsound(alloc: Global, words: &mut Words) -> Result<Answer, WordFault>
    ensures answer { Gives (λ answer. answer) result (unsound_of words.old.words) }
    ensures behind { words.new.behind ≡ words.old.behind }
{
    let unsound = Answer::Unsound {
        start: take_attached(alloc, words)?,
        goal: take_attached(alloc, words)?,
        edge: take_unsigned(words)?,
        cell: take_unsigned(words)?,
    };
    ended(unsound, words)
}

#[tactic(auto, unfolding(crate::specs::ReportReading::attached_at))]
fn take_attached(alloc: Global, words: &mut Words) -> Result<End, WordFault>
    ensures end { Gives (λ end. (end, words.new.words)) result (attached_at words.old.words) }
    ensures behind { words.new.behind ≡ words.old.behind }
{
    let node = take_unsigned(words)?;
    let tried = take_all_tried(alloc, words)?;
    Ok(End { node, tried })
}

#[tactic(auto, unfolding(crate::specs::ReportReading::all_tried_at))]
fn take_all_tried(alloc: Global, words: &mut Words) -> Result<List<Tried>, WordFault>
    ensures values { Gives (λ values. (values, words.new.words)) result (all_tried_at words.old.words) }
    ensures behind { words.new.behind ≡ words.old.behind }
{
    let count = take_below(words, TRIED_LIMIT)?;
    let values = take_many(alloc, words, count)?;
    Ok(List::from_vec(values))
}

#[tactic(auto, unfolding(crate::specs::ReportReading::nodes_at))]
fn take_nodes(alloc: Global, words: &mut Words) -> Result<List<u32>, WordFault>
    ensures values { Gives (λ values. (values, words.new.words)) result (nodes_at words.old.words) }
    ensures behind { words.new.behind ≡ words.old.behind }
{
    let count = take_below(words, NODES_LIMIT)?;
    let values = take_many(alloc, words, count)?;
    Ok(List::from_vec(values))
}

#[tactic(auto, unfolding(crate::specs::ReportReading::labels_at))]
fn take_labels(alloc: Global, words: &mut Words) -> Result<List<Option<u64>>, WordFault>
    ensures values { Gives (λ values. (values, words.new.words)) result (labels_at words.old.words) }
    ensures behind { words.new.behind ≡ words.old.behind }
{
    let count = take_below(words, NODES_LIMIT)?;
    let values = take_many(alloc, words, count)?;
    Ok(List::from_vec(values))
}

impl Field for u32 {
    ghost at = { number_at };

    ghost words_of = { number_words };

    #[inline(always)]
    fn take(words: &mut Words) -> Result<u32, WordFault> {
        take_unsigned(words)
    }

    #[inline(always)]
    fn print(&self, text: &mut String) -> Result<(), Memory> {
        write!(text, " {self}")?;
        Ok(())
    }
}

impl Field for Tried {
    ghost at = { tried_at };

    ghost words_of = { tried_words };

    #[inline(always)]
    #[tactic(auto, unfolding(crate::specs::ReportReading::tried_at))]
    fn take(words: &mut Words) -> Result<Tried, WordFault> {
        let node = take_unsigned(words)?;
        let why = take_why(words)?;
        Ok(Tried { node, why })
    }

    #[inline(always)]
    fn print(&self, text: &mut String) -> Result<(), Memory> {
        let node = self.node;
        match self.why {
            Why::Barred => write!(text, " {node} b")?,
            Why::Cell(cell) => write!(text, " {node} c {cell}")?,
        }
        Ok(())
    }
}

#[inline(always)]
#[tactic(auto, unfolding(crate::specs::ReportReading::why_at))]
fn take_why(words: &mut Words) -> Result<Why, WordFault>
    ensures why { Gives (λ why. (why, words.new.words)) result (why_at words.old.words) }
    ensures behind { words.new.behind ≡ words.old.behind }
{
    if take_if(words, b"b") {
        return Ok(Why::Barred);
    }
    if take_if(words, b"c") {
        return Ok(Why::Cell(take_unsigned(words)?));
    }
    Err(WordFault::Bad)
}

impl Field for Option<u64> {
    ghost at = { label_at };

    ghost words_of = { label_words };

    #[inline(always)]
    #[tactic(auto, unfolding(crate::specs::ReportReading::label_at))]
    fn take(words: &mut Words) -> Result<Option<u64>, WordFault> {
        if take_if(words, b"-") {
            return Ok(None);
        }
        Ok(Some(take_wide(words)?))
    }

    #[inline(always)]
    fn print(&self, text: &mut String) -> Result<(), Memory> {
        match self {
            Some(length) => write!(text, " {length}")?,
            None => text.push_str(" -")?,
        }
        Ok(())
    }
}
