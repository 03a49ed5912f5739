// Where named bytes are kept.
ghost use Rattle.std.specs.Prelude.{ℕ, List, IfOk, IfErr, OnOk, Option};
ghost use Rattle.std.specs.Result.{IsErrOf};
ghost use Rattle.drm_outside.specs.Shelving.{Loads, RefusesLoad, HoldsTheSame, HoldsOthers, HoldsAt, HasCauseAt, NeverFalls};

use crate::{LoadFault, WriteFault};
use std::alloc::Global;

/// Byte strings under names, as files are. It counts its faults for each name.
pub trait Shelf {
    /// What each name holds, where the shelf tells it.
    ghost held: { Self → Option (List ℕ → Option (List ℕ)) };

    /// How often a load of the name has failed.
    ghost load_faults: { Self → List ℕ → ℕ };

    /// How often a save of the name has failed.
    ghost save_faults: { Self → List ℕ → ℕ };

    /// The bytes that the name holds, if they are at most `limit`. `TooLong` carries the limit. A missing name is a
    /// fault. A load changes no name.
    fn load(&mut self, alloc: Global, name: &str, limit: u64) -> Result<Vec<u8>, LoadFault>
        ensures loaded { IfOk result (λ bytes. Loads (held self.old) name.now limit bytes.items) }
        ensures refused { IfErr result (λ fault. RefusesLoad fault (held self.old) name.now limit) }
        ensures kept { HoldsTheSame (held self.old) (held self.new) }
        ensures cause { HasCauseAt (IsErrOf result LoadFault.Failed) name.now
            (load_faults self.old) (load_faults self.new) }
        ensures save_cause { NeverFalls (save_faults self.old) (save_faults self.new) };

    /// Leaves the name holding `bytes`. After a save that is refused nothing is known of that name. The other names
    /// stay as they were in any case. Want of memory is no fault, and every other cause is counted.
    fn save(&mut self, name: &str, bytes: &[u8]) -> Result<(), WriteFault>
        ensures saved { OnOk result (HoldsAt (held self.new) name.now bytes.now) }
        ensures others { HoldsOthers (held self.old) (held self.new) name.now }
        ensures cause { HasCauseAt (IsErrOf result WriteFault.Failed) name.now
            (save_faults self.old) (save_faults self.new) }
        ensures load_cause { NeverFalls (load_faults self.old) (load_faults self.new) };
}
