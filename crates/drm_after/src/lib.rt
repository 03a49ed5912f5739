//! What stands on a map after a history: the occupied cells, the counts and the snapshot. Each crate that counts, publishes,
//! recounts or plans over a history is held to these definitions.
#![tactic(auto)]

ghost use Rattle.drm_after.specs.After.{SnapsAreDetermined};

/// The law that a history leaves one snapshot: two of the same map after the same history are the same.
pub fn snaps_are_determined()
    ensures { SnapsAreDetermined }
{}
