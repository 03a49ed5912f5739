//! Laws of candidates and attachments.

ghost use Rattle.std.specs.Prelude.{◌≡◌};
ghost use Rattle.drm_attach.specs.Laws.{AttachmentsAreDetermined};
ghost use Rattle.drm_attach.specs.Limits.{max_candidates};

use crate::nearest::MAX_CANDIDATES;

/// A law: the limit of the code is the one of which the definitions speak, 12 candidates.
pub fn limits_are_those_defined()
    ensures candidates { MAX_CANDIDATES ≡ max_candidates }
{}

/// A law: how a configuration is joined to the roadmap is determined, the node that joins it and the reasons for which
/// those before it were refused.
pub fn attachments_are_determined()
    ensures { AttachmentsAreDetermined }
{}
