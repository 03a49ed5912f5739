//! What certificates that hold prove.

ghost use Rattle.drm_cert.specs.Laws.{PathsAreShortest, CutsHaveNoRoute};

/// The law that no route between the ends of a path certificate is shorter than its length.
pub fn paths_are_shortest()
    ensures { PathsAreShortest }
{}

/// The law that there is no route between the ends of a cut certificate.
pub fn cuts_have_no_route()
    ensures { CutsHaveNoRoute }
{}
