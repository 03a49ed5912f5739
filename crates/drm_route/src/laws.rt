//! What the definitions of a search prove.

ghost use Rattle.drm_route.specs.Laws.{FoundIsCertified, FoundIsDetermined};

/// The law that what a search finds is a certificate, which anyone can check without searching again.
pub fn found_is_certified()
    ensures { FoundIsCertified }
{}

/// The law that what a search finds is determined: the nodes, the length and the labels of a path, or the side of a cut.
pub fn found_is_determined()
    ensures { FoundIsDetermined }
{}
