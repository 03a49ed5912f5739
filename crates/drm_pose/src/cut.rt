//! Into how many pieces of one length a link is cut.

ghost use Rattle.std.specs.Prelude.{◌≡◌, ◌≤◌, ◌^◌};
ghost use Rattle.drm_num.specs.Reciprocal.{IsReciprocal};

use std::marker::Model;

/// How many pieces of one length a link is cut in, at least one, with the reciprocal of that number: one division serves
/// the boxes of all runs of the pieces.
#[derive(Drop)]
pub struct Cut {
    n: u32,
    reciprocal: u64,
}

impl Model for Cut {
    ghost use Rattle.std.specs.Prelude.{ℕ, ◌≤◌, ◌^◌};
    ghost use Rattle.drm_num.specs.Reciprocal.{IsReciprocal};

    ghost Value = { ℕ };

    ghost view = { λ cut. cut.n };

    ghost invariant = { λ cut. IsReciprocal (2 ^ 62) cut.n cut.reciprocal };
}

impl Cut {
    /// The cut in `n` pieces.
    pub fn of(n: u32) -> Cut
        requires { 1 ≤ n }
        ensures { result ≡ n }
    {
        Cut {
            n,
            reciprocal: reciprocal_of(n),
        }
    }

    /// How many pieces there are.
    pub fn count(&self) -> u32
        ensures { result ≡ self.now }
    {
        self.n
    }

    /// `2^62` divided by the number of pieces, rounded up.
    pub(crate) fn reciprocal(&self) -> u64
        ensures { IsReciprocal (2 ^ 62) self.now result }
    {
        self.reciprocal
    }
}

/// `2^62 / n`, rounded up.
fn reciprocal_of(n: u32) -> u64
    requires { 1 ≤ n }
    ensures { IsReciprocal (2 ^ 62) n result }
{
    ((1 << 62) - 1) / u64::from(n) + 1
}
