//! One worker: the lines of one caller, in their order.

ghost use Rattle.std.specs.Prelude.{◌≡◌, ◌≤◌, IfOk, OnErr, length};
ghost use Rattle.drm_report.specs.Gathering.{lines_of};
ghost use Rattle.drm_work.specs.Lines.{AreServable, most_lines};
ghost use Rattle.drm_work.specs.Work.{WorksThrough};

use crate::serve::serve;
use drm_outside::{Gate, List, Memory};
use drm_report::{planned_answers_go_on, right_replies_go_on};
use drm_share::{Pass, Planner, PlannerName};
use drm_talk::{Line, Reply};
use std::alloc::Global;
use std::sync::Wait;
use std::thread::Threads;

/// Serves the lines of the pass's caller, which are some of the log's, and gives their replies in order.
///
/// Before the line at place i of the log, counted from 1, the gate is passed with i, and with 0 after the last line. The
/// replies are right as far as the pass has seen the history after the call. `Memory` comes before the first line: then
/// nothing was served and nothing has changed. Later want of memory is the reply to the line that it befell.
pub fn work<L: PlannerName, G: Gate, R: Threads + Wait + Sync>(
    rt: &R,
    alloc: Global,
    planner: &Planner<L>,
    pass: &mut Pass<L>,
    lines: &List<Line>,
    gate: &G,
) -> Result<List<Reply>, Memory>
    requires few { length lines.now ≤ most_lines }
    requires lines { AreServable L.map lines.now }
    ensures worked { IfOk result (λ replies. WorksThrough L.map lines.now replies pass.old pass.new) }
    ensures early { OnErr result (pass.new ≡ pass.old) }
{
    let replies = work_in(rt, alloc, planner, pass, lines.as_slice(), gate)?;
    gate.pass(pass.caller(), 0);
    Ok(List::from_vec(replies))
}

/// How many of the lines are the caller's.
fn number_of(caller: u32, lines: &[Line]) -> usize
    ensures { result ≡ length (lines_of caller lines.now) }
{
    let mut number = 0;
    for line in lines {
        if line.caller == caller {
            number += 1;
        }
    }
    number
}

/// Serves the caller's lines. It takes the room for all replies first.
fn work_in<L: PlannerName, G: Gate, R: Threads + Wait + Sync>(
    rt: &R,
    alloc: Global,
    planner: &Planner<L>,
    pass: &mut Pass<L>,
    lines: &[Line],
    gate: &G,
) -> Result<Vec<Reply>, Memory>
    requires few { length lines.now ≤ most_lines }
    requires lines { AreServable L.map lines.now }
    ensures worked { IfOk result (λ replies. WorksThrough L.map lines.now replies.items pass.old pass.new) }
    ensures early { OnErr result (pass.new ≡ pass.old) }
{
    // The laws on which the proof rests.
    right_replies_go_on();
    planned_answers_go_on();

    let caller = pass.caller();
    let mut replies = Vec::with_capacity(alloc, number_of(caller, lines))?;
    for place in 0..lines.len() {
        let line = &lines[place];
        if line.caller != caller {
            continue;
        }
        gate.pass(caller, place as u32 + 1);
        replies.push_reserved(serve(rt, alloc, planner, pass, &line.act));
    }
    Ok(replies)
}
