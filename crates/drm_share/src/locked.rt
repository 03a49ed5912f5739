//! What lies under the planner's lock.

ghost use Rattle.std.specs.Prelude.{◌≡◌, ◌+◌, ◌<◌, ◌≤◌, [], ◌∷◌, ◌++◌, length, IfOk, IfSome, OnErr, OnOk};
ghost use Rattle.std.specs.Result.{result_err};
ghost use Rattle.drm_talk.specs.History.{MayFollow, made_by};
ghost use Rattle.drm_talk.specs.Limits.{full};
ghost use Rattle.drm_share.specs.Limits.{most_callers};
ghost use Rattle.drm_share.specs.Refusal.{refusal};

use crate::{Desk, EditFault, PlannerName};
use drm_state::Op;
use std::marker::Model;
use std::sync::Wait;
use std::sync::ledger::{Book, Share};
use std::thread::Threads;

/// The desk, beside the book that counts the edits of all passes, and a share with no part, in which the passes' shares
/// are joined at the close. Contracts see the history.
pub struct Locked<L: PlannerName> {
    pub(crate) desk: Desk<L>,
    pub(crate) book: Book<L>,
    pub(crate) rest: Share<L>,
}

impl<L: PlannerName> Model for Locked<L> {
    ghost use Rattle.std.specs.Prelude.{◌≡◌, List, length};
    ghost use Rattle.drm_talk.specs.declared.Entry.{Entry};

    ghost Value = { List Entry };

    ghost view = { λ locked. locked.desk };

    ghost invariant = { λ locked. (locked.book.total ≡ length locked.desk)
        × (locked.rest.parts ≡ 0)
        × (locked.rest.amount ≡ 0) };
}

impl<L: PlannerName> Locked<L> {
    /// Lets the desk accept the edit, and counts it in the book and in the share.
    pub(crate) fn edit<R: Threads + Wait + Sync>(
        &mut self,
        rt: &R,
        mine: &mut Share<L>,
        op: Op,
    ) -> Result<u32, EditFault>
        requires grid { IfSome op.foot (λ placed. placed.grid ≡ L.map.grid) }
        requires caller { op.entry.caller < most_callers }
        requires numbered { op.entry.seq ≡ made_by op.entry.caller self.old + 1 }
        requires part { 0 < mine.old.parts }
        ensures ok { IfOk result (λ n. (self.new ≡ self.old ++ op.entry ∷ []) × (n ≡ length self.new)) }
        ensures legal { OnOk result (MayFollow self.old op.entry (length self.old)) }
        ensures fault { result_err result ≡ refusal self.old op.entry }
        ensures unchanged { OnErr result (self.new ≡ self.old) }
        ensures within { length self.old ≤ full }
        ensures parts { mine.new.parts ≡ mine.old.parts }
        ensures counted { OnOk result (mine.new.amount ≡ mine.old.amount + 1) }
        ensures not_counted { OnErr result (mine.new.amount ≡ mine.old.amount) }
    {
        let number = self.desk.accept(rt, op)?;
        self.book.add(mine, 1);
        Ok(number)
    }
}
