//! One edit, ready to be applied.

ghost use Rattle.std.specs.Prelude.{◌≡◌, None, Some};
ghost use Rattle.drm_state.specs.Edit.{IsEdit};

use drm_foot::Footprint;
use drm_talk::Entry;
use std::marker::Model;

/// An edit: a put with the footprint of its shape, or a delete.
#[derive(Debug, Drop)]
pub struct Op {
    pub(crate) entry: Entry,
    pub(crate) foot: Option<Footprint>,
}

impl Model for Op {
    ghost use Rattle.drm_state.specs.Edit.{Edit, IsEdit};

    ghost Value = { Edit };

    ghost view = { λ op. record { entry = op.entry; foot = op.foot } };

    ghost invariant = { λ op. IsEdit (record { entry = op.entry; foot = op.foot }) };
}

impl Op {
    /// A put of the footprint's shape into the slot, as the caller's edit number `seq`, counted from 1.
    pub fn put(caller: u32, seq: u32, slot: u16, foot: Footprint) -> Op
        ensures entry { result.entry ≡ record { caller = caller; seq = seq; slot = slot; shape = Some foot.shape } }
        ensures foot { result.foot ≡ Some foot }
    {
        let shape = Some(foot.shape());
        Op {
            entry: Entry {
                caller,
                seq,
                slot,
                shape,
            },
            foot: Some(foot),
        }
    }

    /// A delete of what the slot holds, as the caller's edit number `seq`, counted from 1.
    pub fn del(caller: u32, seq: u32, slot: u16) -> Op
        ensures entry { result.entry ≡ record { caller = caller; seq = seq; slot = slot; shape = None } }
        ensures foot { result.foot ≡ None }
    {
        Op {
            entry: Entry {
                caller,
                seq,
                slot,
                shape: None,
            },
            foot: None,
        }
    }

    /// The entry that the journal is to gain.
    pub fn entry(&self) -> Entry
        ensures exact { result ≡ self.now.entry }
        ensures edit { IsEdit self.now }
    {
        self.entry
    }
}
