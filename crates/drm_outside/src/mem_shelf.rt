// A shelf that keeps its names in memory, and fails where a plan says so.
ghost use Rattle.std.specs.Prelude.{◌≡◌, ◌≤◌, ◌↔◌, ◌⊎◌, IsTrue, Some, IfOk, IfErr, OnOk, OnErr, option_map};
ghost use Rattle.std.specs.Result.{IsErrOf};
ghost use Rattle.drm_outside.specs.Shelving.{Loads, RefusesLoad, HoldsTheSame, HoldsOthers, HoldsAt, HasCauseAt, NeverFalls};
ghost use Rattle.drm_outside.specs.MemShelf.{MemNames, NextCallFails, Lacks, IsCopied, IsNotCopied, Puts, PutsByCall, held_by, bare, after_call, after_failed_call, after_refused_load, after_refused_save};

use crate::{List, LoadFault, Memory, Shelf, WriteFault};
use std::alloc::Global;
use std::collections::BTreeMap;
use std::marker::Model;

/// A shelf that keeps its names in memory. Loads and saves are numbered together from 1. A call fails exactly where
/// its number is in `failing`, or where it loads a name that is missing. A call that finds no memory, or finds too
/// many bytes, is no fault; one that finds no memory gets no number. Both counts stand still at 2^64 - 1.
#[derive(Drop)]
pub struct MemShelf {
    names: BTreeMap<String, Vec<u8>>,
    alloc: Global,
    failing: List<u64>,
    calls: u64,
    faults: u64,
}

impl Model for MemShelf {
    ghost use Rattle.std.specs.Prelude.{map, string_bytes};
    ghost use Rattle.drm_outside.specs.MemShelf.{MemNames};

    ghost Value = { MemNames };

    ghost view = { λ s. record {
      names = map (λ e. (string_bytes e.0, e.1.items)) s.names.entries;
      failing = s.failing;
      calls = s.calls;
      faults = s.faults;
    } };
}

impl MemShelf {
    /// A shelf with no name, which fails at the calls whose numbers are in `failing`. It takes memory from `alloc`.
    pub fn new(alloc: Global, failing: List<u64>) -> MemShelf
        ensures { result ≡ bare failing }
    {
        MemShelf {
            names: BTreeMap::new(alloc),
            alloc,
            failing,
            calls: 0,
            faults: 0,
        }
    }

    /// Leaves the name holding `bytes`. It is no call that is numbered or fails by plan. Where it finds no memory,
    /// nothing changes.
    pub fn set(&mut self, name: &str, bytes: &[u8]) -> Result<(), Memory>
        ensures put { OnOk result (Puts self.old self.new name.now bytes.now × (self.new.calls ≡ self.old.calls)) }
        ensures refused { OnErr result (self.new ≡ self.old) }
    {
        let key = String::from_str(self.alloc, name)?;
        let value = Vec::from_slice(self.alloc, bytes)?;
        self.names.insert(key, value)?;
        Ok(())
    }

    fn next_fails(&self) -> bool
        ensures { IsTrue result ↔ NextCallFails self.now }
    {
        let number = self.calls.saturating_add(1);
        self.failing.as_slice().contains(&number)
    }

    fn count(&mut self)
        ensures { self.new ≡ after_call self.old }
    {
        self.calls = self.calls.saturating_add(1);
    }

    fn fail(&mut self)
        ensures left { self.new ≡ after_failed_call self.old }
        ensures later { self.old.faults ≤ self.new.faults }
    {
        self.calls = self.calls.saturating_add(1);
        self.faults = self.faults.saturating_add(1);
    }

    /// The bytes that the name holds, or nothing where the shelf lacks it.
    pub fn get(&self, name: &str) -> Option<&[u8]>
        ensures { option_map (λ bytes. bytes.now) result ≡ held_by self.now name.now }
    {
        match self.names.get(name) {
            Some(bytes) => Some(bytes.as_slice()),
            None => None,
        }
    }
}

impl Shelf for MemShelf {
    ghost held = { λ s. Some (held_by s) };

    ghost load_faults = { λ s _. s.faults };

    ghost save_faults = { λ s _. s.faults };

    fn load(&mut self, alloc: Global, name: &str, limit: u64) -> Result<Vec<u8>, LoadFault>
        ensures loaded { IfOk result (λ bytes. Loads (Some (held_by self.old)) name.now limit bytes.items) }
        ensures refused { IfErr result (λ fault. RefusesLoad fault (Some (held_by self.old)) name.now limit) }
        ensures kept { HoldsTheSame (Some (held_by self.old)) (Some (held_by self.new)) }
        ensures cause { HasCauseAt (IsErrOf result LoadFault.Failed) name.now
            (λ _. self.old.faults) (λ _. self.new.faults) }
        ensures save_cause { NeverFalls (λ _. self.old.faults) (λ _. self.new.faults) }
        ensures planned { IsErrOf result LoadFault.Failed ↔ (NextCallFails self.old ⊎ Lacks self.old name.now) }
        ensures counted { OnOk result (self.new ≡ after_call self.old) }
        ensures counted_refused { IfErr result (λ fault. self.new ≡ after_refused_load self.old fault) }
    {
        if self.next_fails() {
            self.fail();
            return Err(LoadFault::Failed);
        }
        let loaded = copy_of(alloc, self.get(name), limit);
        match loaded {
            Err(LoadFault::Failed) => self.fail(),
            Err(LoadFault::Memory) => {}
            _ => self.count(),
        }
        loaded
    }

    fn save(&mut self, name: &str, bytes: &[u8]) -> Result<(), WriteFault>
        ensures saved { OnOk result (HoldsAt (Some (held_by self.new)) name.now bytes.now) }
        ensures others { HoldsOthers (Some (held_by self.old)) (Some (held_by self.new)) name.now }
        ensures cause { HasCauseAt (IsErrOf result WriteFault.Failed) name.now
            (λ _. self.old.faults) (λ _. self.new.faults) }
        ensures load_cause { NeverFalls (λ _. self.old.faults) (λ _. self.new.faults) }
        ensures planned { IsErrOf result WriteFault.Failed ↔ NextCallFails self.old }
        ensures counted { OnOk result (PutsByCall self.old self.new name.now bytes.now) }
        ensures counted_refused { IfErr result (λ fault. self.new ≡ after_refused_save self.old fault) }
    {
        if self.next_fails() {
            self.fail();
            return Err(WriteFault::Failed);
        }
        self.set(name, bytes)?;
        self.count();
        Ok(())
    }
}

/// A copy of what a name holds, if it is at most `limit` bytes.
fn copy_of(alloc: Global, held: Option<&[u8]>, limit: u64) -> Result<Vec<u8>, LoadFault>
    ensures copied { IfOk result (λ bytes. IsCopied (option_map (λ all. all.now) held.entry) limit bytes.items) }
    ensures refused { IfErr result (λ fault. IsNotCopied fault (option_map (λ all. all.now) held.entry) limit) }
{
    let Some(bytes) = held else {
        return Err(LoadFault::Failed);
    };
    if limit < bytes.len() as u64 {
        return Err(LoadFault::TooLong(limit));
    }
    Ok(Vec::from_slice(alloc, bytes)?)
}
