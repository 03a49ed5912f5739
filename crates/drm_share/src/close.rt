//! The close of a planner.

ghost use Rattle.std.specs.Prelude.{◌≡◌, ◌+◌, All, IfOk, length, sum_by};
ghost use Rattle.drm_after.specs.After.{IsSnapAfter};
ghost use Rattle.drm_share.specs.Closing.{AreOneEach, Closes, IsPartOf};

use crate::locked::Locked;
use crate::{Desk, Pass, PlannerName};
use drm_cellmap::Snap;
use drm_history::Tail;
use drm_outside::Memory;
use drm_talk::Entry;
use std::alloc::Global;
use std::marker::Model;
use std::sync::Wait;
use std::sync::ledger::Share;

/// The whole history of a planner that was closed, and the snapshot after it. Only [`crate::Planner::close`] makes one.
#[derive(Debug, Drop)]
pub struct Close {
    journal: Vec<Entry>,
    last: Snap,
}

impl Model for Close {
    ghost use Rattle.drm_share.specs.Closing.{Whole};

    ghost Value = { Whole };

    ghost view = { λ close. record { journal = close.journal.items; last = close.last } };
}

impl Close {
    /// The entries of the history, in their order.
    pub fn journal(&self) -> &[Entry]
        ensures { result.now ≡ self.now.journal }
    {
        &self.journal
    }

    /// The snapshot after the last entry.
    pub fn last(&self) -> &Snap
        ensures { result.now ≡ self.now.last }
    {
        &self.last
    }

    /// Copies the history from what was published, with a snapshot of it.
    pub(crate) fn of<L: PlannerName>(alloc: Global, locked: &Locked<L>) -> Result<Close, Memory>
        ensures journal { IfOk result (λ close. close.journal ≡ locked.now) }
        ensures last { IfOk result (λ close. IsSnapAfter L.map locked.now close.last) }
    {
        let state = &locked.desk.writer.published().state;
        let last = state.snap(alloc)?;
        let journal = state.journal(alloc)?;
        Ok(Close { journal, last })
    }
}

/// Joins the shares of all passes, and ends the writer. Their own edits are together as many as the history has entries.
pub(crate) fn settle<L: PlannerName, R: Wait>(rt: &R, locked: Locked<L>, passes: Vec<Pass<L>>)
    requires { AreOneEach L.parts passes.items }
    ensures { Closes passes.items locked }
{
    let Locked {
        desk,
        mut book,
        mut rest,
    } = locked;
    let Desk {
        writer,
        mut tail,
        made: _,
    } = desk;
    gather(&mut tail, &mut rest, passes);
    book.audit(&mut rest);
    tail.number();
    writer.take(rt);
}

/// Takes in all passes.
fn gather<L: PlannerName>(tail: &mut Tail<L>, rest: &mut Share<L>, passes: Vec<Pass<L>>)
    requires parts { rest.old.parts ≡ 0 }
    requires amount { rest.old.amount ≡ 0 }
    ensures same { tail.new ≡ tail.old }
    ensures parts_of { All (λ seen. IsPartOf tail.old seen) passes.items }
    ensures parts { rest.new.parts ≡ length passes.items }
    ensures amount { rest.new.amount ≡ sum_by (λ seen. length seen.own) passes.items }
{
    let mut left = passes;
    while let Some(pass) = left.pop() {
        take_in(tail, rest, pass);
    }
}

/// Joins the pass's share with the rest. Its front begins the history, and so its own edits stand there.
fn take_in<L: PlannerName>(tail: &mut Tail<L>, rest: &mut Share<L>, pass: Pass<L>)
    ensures same { tail.new ≡ tail.old }
    ensures part_of { IsPartOf tail.old pass }
    ensures parts { rest.new.parts ≡ rest.old.parts + 1 }
    ensures amount { rest.new.amount ≡ rest.old.amount + length pass.own }
{
    let Pass {
        reader: _reader,
        caller: _,
        share,
        own: _own,
        front,
    } = pass;
    tail.covers(&front);
    rest.merge(share);
}
