//! A caller's pass.

ghost use Rattle.std.specs.Prelude.{◌≡◌, ◌⊎◌, ◌<◌, [], length, IfOk, IfSome, IsErrOf, option_map, None, Some};
ghost use Rattle.left_right.specs.Sides.{view};
ghost use Rattle.drm_talk.specs.Limits.{slots};
ghost use Rattle.drm_talk.specs.History.{IsLegal};
ghost use Rattle.drm_cellmap.specs.Roadmap.{IsElement};
ghost use Rattle.drm_share.specs.Limits.{most_callers};
ghost use Rattle.drm_share.specs.Own.{AreOwn};
ghost use Rattle.drm_share.specs.Seen.{ReadsOn};
ghost use Rattle.drm_share.specs.Answers.{EditAnswers, EditsAtLock};
ghost use Rattle.drm_after.specs.After.{IsCountAfter, IsSnapAfter};
ghost use Rattle.drm_share.specs.declared.fault.EditFault.TheVariants.{Slot, Memory as memory_fault};

use crate::locked::Locked;
use crate::read::{count_in, snap_in};
use crate::rule::ShownReader;
use crate::{EditFault, Planner, PlannerName};
use core::mem::replace_with;
use drm_cellmap::Snap;
use drm_foot::Footprint;
use drm_history::Front;
use drm_outside::Memory;
use drm_state::Op;
use drm_talk::{Element, SLOTS};
use std::alloc::Global;
use std::marker::Model;
use std::sync::ledger::Share;
use std::sync::{MutexGuard, Wait};
use std::thread::Threads;

/// The token of one caller of a planner. One thread uses it at a time.
///
/// Contracts see the caller, the front of the history that it has seen, and the numbers of its own accepted edits. No
/// call shows it an older front: the front before a call begins the front after it.
#[derive(Drop)]
pub struct Pass<L: PlannerName> {
    pub(crate) reader: ShownReader,
    pub(crate) caller: u32,
    pub(crate) share: Share<L>,
    pub(crate) own: Vec<u32>,
    pub(crate) front: Front<L>,
}

impl<L: PlannerName> Model for Pass<L> {
    ghost use Rattle.std.specs.Prelude.{◌≡◌, ◌<◌, length, Some};
    ghost use Rattle.left_right.specs.Sides.{view as known};
    ghost use Rattle.drm_share.specs.Limits.{most_callers};
    ghost use Rattle.drm_share.specs.Own.{AreOwn};
    ghost use Rattle.drm_share.specs.Seen.{Seen};

    ghost Value = { Seen };

    ghost view = { λ pass. record { caller = pass.caller; front = pass.front; own = pass.own.items } };

    ghost invariant = { λ pass. (known pass.reader.place ≡ Some (record { origin = L.book; map = L.map }))
        × (pass.caller < most_callers)
        × (pass.share.parts ≡ 1)
        × (pass.share.amount ≡ length pass.own.items)
        × AreOwn pass.front pass.caller pass.own.items };
}

impl<L: PlannerName> Pass<L> {
    /// The number of the pass's caller, from 0. No call changes it.
    pub fn caller(&self) -> u32
        ensures exact { result ≡ self.now.caller }
        ensures within { result < most_callers }
        ensures own { AreOwn self.now.front self.now.caller self.now.own }
    {
        self.caller
    }

    /// Puts the footprint's shape into the slot. Ok(n): the edit is entry n of the history.
    ///
    /// `Slot` is tested first and changes nothing. Full(n) and Empty(n) are told of the history at the lock, which has
    /// then been seen. `Memory` changes nothing. The footprint is dropped where the edit is refused.
    pub fn put<R: Threads + Wait + Sync>(
        &mut self,
        rt: &R,
        planner: &Planner<L>,
        slot: u16,
        foot: Footprint,
    ) -> Result<u32, EditFault>
        requires grid { foot.grid ≡ L.map.grid }
        ensures answer { EditAnswers self.old self.new slot (Some foot.shape) result }
        ensures unchanged { IsErrOf result Slot ⊎ IsErrOf result memory_fault → self.new ≡ self.old }
    {
        if slot >= SLOTS {
            return Err(EditFault::Slot);
        }
        let mut locked = planner.desk.lock(rt);
        let answer = self.edit_at(rt, &mut *locked, slot, Some(foot));
        MutexGuard::unlock(locked);
        answer
    }

    /// Deletes what the slot holds. Ok(n): the edit is entry n of the history. It is refused as a put is, and also
    /// where the slot is empty at the lock: Empty(n).
    pub fn del<R: Threads + Wait + Sync>(
        &mut self,
        rt: &R,
        planner: &Planner<L>,
        slot: u16,
    ) -> Result<u32, EditFault>
        ensures answer { EditAnswers self.old self.new slot None result }
        ensures unchanged { IsErrOf result Slot ⊎ IsErrOf result memory_fault → self.new ≡ self.old }
    {
        if slot >= SLOTS {
            return Err(EditFault::Slot);
        }
        let mut locked = planner.desk.lock(rt);
        let answer = self.edit_at(rt, &mut *locked, slot, None);
        MutexGuard::unlock(locked);
        answer
    }

    /// Edits, by what lies under the lock.
    pub(crate) fn edit_at<R: Threads + Wait + Sync>(
        &mut self,
        rt: &R,
        locked: &mut Locked<L>,
        slot: u16,
        foot: Option<Footprint>,
    ) -> Result<u32, EditFault>
        requires slot { slot < slots }
        requires grid { IfSome foot (λ placed. placed.grid ≡ L.map.grid) }
        ensures answer { EditAnswers self.old self.new slot (option_map (λ placed. placed.shape) foot) result }
        ensures at_lock { EditsAtLock self.new.front locked.old locked.new result }
        ensures unchanged { IsErrOf result memory_fault → self.new ≡ self.old }
    {
        if self.own.reserve(1).is_err() {
            return Err(EditFault::Memory);
        }
        let seq = locked.desk.made(self.caller) + 1;
        let op = op_of(self.caller, seq, slot, foot);
        locked.desk.covers(&self.front);
        let answer = locked.edit(rt, &mut self.share, op);
        self.front = locked.desk.front();
        let number = match answer {
            Ok(number) => number,
            Err(fault) => return Err(fault),
        };
        self.own.push_reserved(number);
        Ok(number)
    }

    /// Looks at the end of the history: its length, which the caller has then seen. It takes no memory.
    pub fn sync<R: Threads + Wait + Sync>(&mut self, rt: &R, planner: &Planner<L>) -> u32
        ensures on { ReadsOn self.old self.new }
        ensures number { result ≡ length self.new.front }
    {
        let mut locked = planner.desk.lock(rt);
        let number = self.sync_at(&mut *locked);
        MutexGuard::unlock(locked);
        number
    }

    /// Looks at the end of the history, by what lies under the lock.
    pub(crate) fn sync_at(&mut self, locked: &mut Locked<L>) -> u32
        ensures on { ReadsOn self.old self.new }
        ensures number { result ≡ length self.new.front }
        ensures all { self.new.front ≡ locked.old }
        ensures same { locked.new ≡ locked.old }
    {
        locked.desk.covers(&self.front);
        let end = locked.desk.front();
        self.front = end;
        self.front.number()
    }

    /// How many cells of the element's stored sweep are occupied (the second number) after so many entries of the history
    /// (the first), which the caller has then seen. It takes no lock and no memory.
    ///
    /// It sees at least what the caller had seen, and may miss edits of others that the caller was not told of: see
    /// [`Pass::sync`].
    pub fn count<R: Wait + Sync>(&mut self, rt: &R, e: Element) -> (u32, u32)
        requires { IsElement L.map e }
        ensures on { ReadsOn self.old self.new }
        ensures number { result.0 ≡ length self.new.front }
        ensures count { IsCountAfter L.map self.new.front e result.1 }
    {
        for _ in rt.forever() {
            if let Some(found) = self.try_count(e) {
                return found;
            }
        }
        unreachable!()
    }

    /// One enter. `None` where it is refused, or shows less than was seen.
    fn try_count(&mut self, e: Element) -> Option<(u32, u32)>
        requires { IsElement L.map e }
        ensures on { ReadsOn self.old self.new }
        ensures count { IfSome result
            (λ found. (found.0 ≡ length self.new.front) × IsCountAfter L.map self.new.front e found.1) }
    {
        let (front, count) = replace_with(&mut self.reader, (&self.front, e), count_in::<L>)?;
        self.front = front;
        Some((self.front.number(), count))
    }

    /// The occupied cells, and what they bar, after so many entries of the history, which the caller has then seen. It
    /// takes no lock. After `Memory` the caller may have seen more than before.
    pub fn snap<R: Wait + Sync>(&mut self, rt: &R, alloc: Global) -> Result<Snap, Memory>
        ensures on { ReadsOn self.old self.new }
        ensures snap { IfOk result (λ snap. IsSnapAfter L.map self.new.front snap) }
    {
        for _ in rt.forever() {
            if let Some(found) = self.try_snap(alloc) {
                return found;
            }
        }
        unreachable!()
    }

    /// One enter. `None` where it is refused, or shows less than was seen.
    fn try_snap(&mut self, alloc: Global) -> Option<Result<Snap, Memory>>
        ensures on { ReadsOn self.old self.new }
        ensures snap { IfSome result (λ found. IfOk found (λ snap. IsSnapAfter L.map self.new.front snap)) }
    {
        let (front, snap) = replace_with(&mut self.reader, (&self.front, alloc), snap_in::<L>)?;
        self.front = front;
        Some(snap)
    }
}

/// The edit of the caller with this number: a put of the footprint, or a delete.
fn op_of(caller: u32, seq: u32, slot: u16, foot: Option<Footprint>) -> Op
    ensures entry { result.entry
        ≡ record { caller = caller; seq = seq; slot = slot; shape = option_map (λ placed. placed.shape) foot } }
    ensures foot { result.foot ≡ foot }
{
    match foot {
        Some(foot) => Op::put(caller, seq, slot, foot),
        None => Op::del(caller, seq, slot),
    }
}
