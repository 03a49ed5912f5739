//! The desk: it accepts edits, one after the other, and publishes them.

ghost use Rattle.std.specs.Prelude.{◌≡◌, ◌+◌, ◌<◌, ◌≤◌, [], ◌∷◌, ◌++◌, length, IfOk, IfSome, None, OnErr, OnOk};
ghost use Rattle.std.specs.Result.{result_err};
ghost use Rattle.drm_talk.specs.History.{IsLegal, MayFollow, made_by};
ghost use Rattle.drm_talk.specs.Front.{Begins};
ghost use Rattle.drm_talk.specs.Limits.{full};
ghost use Rattle.drm_share.specs.Limits.{most_callers};
ghost use Rattle.drm_share.specs.Refusal.{refusal};

use crate::publish::show;
use crate::rule::ShownWriter;
use crate::shown::Update;
use crate::{EditFault, PlannerName};
use core::mem::replace_with;
use drm_history::{Front, Tail};
use drm_state::Op;
use drm_talk::{Entry, FULL, SLOTS};
use std::marker::Model;
use std::sync::Wait;
use std::thread::Threads;

/// The writer of the published value, the end of the history, and how many entries each caller has in it. Contracts see
/// the history.
pub struct Desk<L: PlannerName> {
    pub(crate) writer: ShownWriter,
    pub(crate) tail: Tail<L>,
    pub(crate) made: [u32; 8],
}

impl<L: PlannerName> Model for Desk<L> {
    ghost use Rattle.std.specs.Prelude.{◌≡◌, List, [], drop};
    ghost use Rattle.drm_talk.specs.declared.Entry.{Entry};
    ghost use Rattle.drm_share.specs.Made.{AreMade};
    ghost use Rattle.drm_share.specs.Published.{Shows};

    ghost Value = { List Entry };

    ghost view = { λ desk. desk.tail };

    ghost invariant = { λ desk. Shows L.book L.map desk.tail desk.writer.desk.shown.value
        × (drop desk.writer.behind desk.writer.log.items ≡ [])
        × AreMade desk.tail desk.made };
}

impl<L: PlannerName> Desk<L> {
    /// How many edits have been accepted: the length of the history.
    pub fn number(&self) -> u32
        ensures exact { result ≡ length self.now }
        ensures within { result ≤ full }
    {
        self.tail.number()
    }

    /// How many of the caller's edits have been accepted.
    pub fn made(&self, caller: u32) -> u32
        requires { caller < most_callers }
        ensures exact { result ≡ made_by caller self.now }
        ensures within { result ≤ full }
    {
        self.made[caller as usize]
    }

    /// Accepts the edit: appends it to the history, and publishes the state after it, for which it waits until readers have
    /// left the old copy. Ok is its number in the history.
    ///
    /// It is refused exactly where its slot is none, the history is full, or it deletes from an empty slot, and the first
    /// of these is told, with the history's length; then nothing has changed. It takes no memory that it could lack.
    pub fn accept<R: Threads + Wait + Sync>(&mut self, rt: &R, op: Op) -> Result<u32, EditFault>
        requires grid { IfSome op.foot (λ placed. placed.grid ≡ L.map.grid) }
        requires caller { op.entry.caller < most_callers }
        requires numbered { op.entry.seq ≡ made_by op.entry.caller self.old + 1 }
        ensures ok { IfOk result (λ n. (self.new ≡ self.old ++ op.entry ∷ []) × (n ≡ length self.new)) }
        ensures legal { OnOk result (MayFollow self.old op.entry (length self.old)) }
        ensures fault { result_err result ≡ refusal self.old op.entry }
        ensures unchanged { OnErr result (self.new ≡ self.old) }
        ensures within { length self.old ≤ full }
    {
        match self.refusal(&op.entry()) {
            Some(fault) => Err(fault),
            None => Ok(self.add(rt, op)),
        }
    }

    /// Why the entry is not accepted, if it is not.
    fn refusal(&self, entry: &Entry) -> Option<EditFault>
        ensures first { result ≡ refusal self.now entry.now }
        ensures within { length self.now ≤ full }
    {
        let number = self.tail.number();
        if entry.slot >= SLOTS {
            return Some(EditFault::Slot);
        }
        if number >= FULL {
            return Some(EditFault::Full(number));
        }
        if entry.shape.is_none() && self.writer.published().state.slot(entry.slot).is_none() {
            return Some(EditFault::Empty(number));
        }
        None
    }

    /// Adds the edit to the history and publishes it.
    fn add<R: Wait>(&mut self, rt: &R, op: Op) -> u32
        requires grid { IfSome op.foot (λ placed. placed.grid ≡ L.map.grid) }
        requires caller { op.entry.caller < most_callers }
        requires may { MayFollow self.old op.entry (length self.old) }
        ensures added { self.new ≡ self.old ++ op.entry ∷ [] }
        ensures number { result ≡ length self.new }
    {
        let caller = op.entry().caller as usize;
        self.tail.add(op.entry());
        let reach = self.tail.front().reach();
        replace_with(&mut self.writer, (rt, Update { op, reach }), show::<R>);
        self.made[caller] += 1;
        self.tail.number()
    }

    /// Shows that the history begins with the front.
    pub(crate) fn covers(&mut self, front: &Front<L>)
        ensures same { self.new ≡ self.old }
        ensures begins { Begins front.now self.new }
    {
        self.tail.covers(front);
    }

    /// All of the history.
    pub(crate) fn front(&self) -> Front<L>
        ensures { result ≡ self.now }
    {
        self.tail.front()
    }
}
