//! The replay of a log by a thread for each caller.

ghost use Rattle.std.specs.Prelude.{◌≡◌, ◌<◌, ◌≤◌, ℕ, All, IfOk, List as Row, Ok as Good, length, map, slice_index_or, zip};
ghost use Rattle.std.specs.List.{range_with_len};
ghost use Rattle.drm_grid.specs.CellSet.{Has};
ghost use Rattle.drm_cellmap.specs.Barred.{AreTotals};
ghost use Rattle.drm_cellmap.specs.Roadmap.{Roadmap};
ghost use Rattle.drm_cellmap.specs.Snapshot.{IsSnapOf};
ghost use Rattle.drm_report.specs.Planned.{ArePlanned, AreTruthful};
ghost use Rattle.drm_report.specs.Report.{IsRightReport};
ghost use Rattle.drm_share.specs.Closing.{AreOneEach};
ghost use Rattle.drm_share.specs.Limits.{most_callers};
ghost use Rattle.drm_share.specs.Seen.{Seen, fresh};
ghost use Rattle.drm_talk.specs.declared.Line.{Line as Asked};
ghost use Rattle.drm_work.specs.Lines.{AreServable, HaveCallers, most_lines};
ghost use Rattle.drm_work.specs.Told.{rows_of};
ghost use Rattle.drm_work.specs.Whole.{AreJobsDone, IsJobDone, IsReplayOf, IsServed};

use crate::gather::gathered;
use crate::worker::work;
use drm_cellmap::Map;
use drm_outside::{Gate, List, Memory};
use drm_report::{
    gathered_answers_are_planned, gathered_replies_are_right, planned_answers_are_truthful,
};
use drm_share::{Close, Opened, Pass, Planner, PlannerName, Shared, Unclosed};
use drm_talk::{Line, Reply, Report};
use std::alloc::Global;
use std::marker::Brand;
use std::sync::Wait;
use std::sync::ledger::Blank;
use std::thread;
use std::thread::Threads;

/// What a replay comes to.
#[derive(Debug, Drop)]
pub struct Replayed {
    /// The reply to each line, and the end.
    pub report: Report,
    /// The history of which the report tells, and the snapshot after it.
    pub close: Close,
}

/// A worker's pass, and the replies to its caller's lines.
#[derive(Drop)]
struct Job<L: PlannerName> {
    pass: Pass<L>,
    told: Result<List<Reply>, Memory>,
}

/// The passes of all jobs, and what their callers were told, both in the order of the callers.
#[derive(Drop)]
struct Parts<L: PlannerName> {
    passes: Vec<Pass<L>>,
    told: Vec<Vec<Reply>>,
}

/// The passes of all callers, and the replies in the order of the log.
#[derive(Drop)]
struct Served<L: PlannerName> {
    passes: List<Pass<L>>,
    replies: List<Reply>,
}

/// Replays the log over the map, on which no obstacle stands at first: each caller's lines are served in their order, in a
/// thread of the caller's own. The callers run beside each other.
///
/// Whatever the order in which the threads take their steps, the report is right for the history of `close`. A caller whose
/// thread cannot be started is served in this one. The gate is passed as [`crate::work`] tells.
pub fn replay<G: Gate, R: Threads + Wait + Sync>(
    rt: &R,
    alloc: Global,
    map: Map,
    lines: List<Line>,
    gate: &G,
) -> Result<Replayed, Memory>
    requires few { length lines ≤ most_lines }
    requires callers { HaveCallers lines }
    requires lines { AreServable map lines }
    ensures report { IfOk result (λ replayed. IsRightReport map lines replayed.report replayed.close.journal) }
    ensures plans { IfOk result
        (λ replayed. ArePlanned map replayed.close.journal (zip lines replayed.report.replies)) }
    ensures truthful { IfOk result
        (λ replayed. AreTruthful map replayed.close.journal (zip lines replayed.report.replies)) }
{
    let callers = callers_of(lines.as_slice());
    let opened = Opened::new(rt, alloc, map, callers)?;
    run::<Brand, G, R>(
        rt,
        alloc,
        Blank::new(u64::from(callers)),
        opened,
        &lines,
        gate,
    )
}

/// One more than the greatest caller of the lines; one where there is no line.
fn callers_of(lines: &[Line]) -> u32
    requires { HaveCallers lines.now }
    ensures some { 0 < result }
    ensures few { result ≤ most_callers }
    ensures all { All (λ line. line.caller < result) lines.now }
{
    let mut callers = 1;
    for line in lines {
        callers = callers.max(line.caller + 1);
    }
    callers
}

fn run<L: PlannerName + Send + Sync, G: Gate, R: Threads + Wait + Sync>(
    rt: &R,
    alloc: Global,
    blank: Blank,
    opened: Opened,
    lines: &List<Line>,
    gate: &G,
) -> Result<Replayed, Memory>
    requires name { blank.name ≡ L.name }
    requires parts { blank.parts ≡ L.parts }
    requires callers { opened.callers ≡ L.parts }
    requires book { opened.book ≡ L.book }
    requires map { opened.map ≡ L.map }
    requires few { length lines.now ≤ most_lines }
    requires known { All (λ line. line.caller < L.parts) lines.now }
    requires lines { AreServable L.map lines.now }
    ensures { IfOk result (λ replayed. IsReplayOf L.map lines.now replayed.report replayed.close.journal) }
{
    let Shared { planner, passes } = Planner::<L>::new(rt, alloc, blank, opened)?;
    match serve_all(rt, alloc, &planner, passes, lines, gate) {
        Ok(served) => finish(rt, alloc, planner, served),
        Err(Memory) => {
            planner.end(rt, List::from_vec(Vec::new(alloc)));
            Err(Memory)
        }
    }
}

/// Serves all lines, and puts the replies into their order.
fn serve_all<L: PlannerName + Send + Sync, G: Gate, R: Threads + Wait + Sync>(
    rt: &R,
    alloc: Global,
    planner: &Planner<L>,
    passes: List<Pass<L>>,
    lines: &List<Line>,
    gate: &G,
) -> Result<Served<L>, Memory>
    requires few { length lines.now ≤ most_lines }
    requires known { All (λ line. line.caller < L.parts) lines.now }
    requires lines { AreServable L.map lines.now }
    requires fresh { passes ≡ map fresh (range_with_len 0 L.parts) }
    ensures served { IfOk result (λ served. IsServed L.map lines.now served.passes served.replies) }
    ensures one_each { IfOk result (λ served. AreOneEach L.parts served.passes) }
{
    let jobs = work_side_by_side(rt, alloc, planner, passes.into_vec(), lines, gate)?;
    let Parts { passes, told } = parted(alloc, jobs)?;
    let replies = gathered(alloc, lines.as_slice(), told)?;
    Ok(Served {
        passes: List::from_vec(passes),
        replies,
    })
}

/// Lets a worker go through the log with each pass, each in a thread of its own, and where no thread can be made, in this
/// one.
fn work_side_by_side<L: PlannerName + Send + Sync, G: Gate, R: Threads + Wait + Sync>(
    rt: &R,
    alloc: Global,
    planner: &Planner<L>,
    passes: Vec<Pass<L>>,
    lines: &List<Line>,
    gate: &G,
) -> Result<Vec<Job<L>>, Memory>
    requires few { length lines.now ≤ most_lines }
    requires lines { AreServable L.map lines.now }
    ensures long { IfOk result (λ jobs. length jobs.items ≡ length passes.items) }
    ensures each { IfOk result
        (λ jobs. AreJobsDone (λ job. job.pass) (λ job. job.told) L.map lines.now passes.items jobs.items) }
{
    let jobs = thread::map_vec(
        rt,
        passes,
        &|pass|
            requires { (length lines.now ≤ most_lines) × AreServable L.map lines.now }
            ensures { IsJobDone L.map lines.entry.now pass result.pass result.told }
        { do_job(rt, alloc, planner, pass, lines, gate) },
    )?;
    Ok(jobs)
}

/// One worker's run.
fn do_job<L: PlannerName, G: Gate, R: Threads + Wait + Sync>(
    rt: &R,
    alloc: Global,
    planner: &Planner<L>,
    pass: Pass<L>,
    lines: &List<Line>,
    gate: &G,
) -> Job<L>
    requires few { length lines.now ≤ most_lines }
    requires lines { AreServable L.map lines.now }
    ensures { IsJobDone L.map lines.now pass result.pass result.told }
{
    let mut pass = pass;
    let told = work(rt, alloc, planner, &mut pass, lines, gate);
    Job { pass, told }
}

/// Takes the jobs apart, where each worker had memory.
fn parted<L: PlannerName>(alloc: Global, jobs: Vec<Job<L>>) -> Result<Parts<L>, Memory>
    ensures passes { IfOk result (λ parts. parts.passes.items ≡ map (λ job. job.pass) jobs.items) }
    ensures told { IfOk result
        (λ parts. map (λ row. Good row) (rows_of parts.told.items) ≡ map (λ job. job.told) jobs.items) }
{
    let mut passes = Vec::with_capacity(alloc, jobs.len())?;
    let mut told = Vec::with_capacity(alloc, jobs.len())?;
    let mut left = jobs;
    while let Some(job) = left.pop() {
        let Job {
            pass,
            told: replies,
        } = job;
        passes.push_reserved(pass);
        told.push_reserved(replies?.into_vec());
    }
    passes.reverse();
    told.reverse();
    Ok(Parts { passes, told })
}

/// Closes the planner, and ends the report.
fn finish<L: PlannerName, R: Threads + Wait + Sync>(
    rt: &R,
    alloc: Global,
    planner: Planner<L>,
    served: Served<L>,
) -> Result<Replayed, Memory>
    requires { AreOneEach L.parts served.passes }
    ensures { (lines : Row Asked) → IsServed L.map lines served.passes served.replies
        → IfOk result (λ replayed. IsReplayOf L.map lines replayed.report replayed.close.journal) }
{
    // The laws on which the proof rests, and the limits that the map keeps.
    gathered_replies_are_right();
    gathered_answers_are_planned();
    planned_answers_are_truthful();
    planner.map().grid();

    let Served { passes, replies } = served;
    match planner.close(rt, alloc, passes) {
        Ok(close) => Ok(with_end(replies, close)),
        Err(Unclosed { planner, passes }) => {
            planner.end(rt, passes);
            Err(Memory)
        }
    }
}

/// The report whose end tells the number of edits, and what is barred after them.
fn with_end(replies: List<Reply>, close: Close) -> Replayed
    ensures replies { result.report.replies ≡ replies }
    ensures close { result.close ≡ close }
    ensures number { result.report.number ≡ close.last.number }
    ensures totals { (roadmap : Roadmap) → IsSnapOf roadmap close.last
        → AreTotals roadmap (Has close.last.occupied) result.report.nodes result.report.edges }
{
    let (nodes, edges) = close.last().totals();
    let report = Report {
        replies,
        number: close.last().number(),
        nodes,
        edges,
    };
    Replayed { report, close }
}
