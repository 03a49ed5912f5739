//! Configurations of an arm, and motions between them.
ghost use Rattle.std.specs.Prelude.{◌≡◌, ◌↔◌, IsTrue, ℕ, ℤ, ◌<◌, ◌≤◌, List, length as count_of, slice_get, Some};
ghost use lib.Pointwise.{pointwise};
ghost use Rattle.std.specs.Ordering.{int_eq};
ghost use Rattle.std.specs.Cmp as cmp;
ghost use Rattle.std.proofs.lemmas.Cmp.{lists_equiv, int_eq_equiv};
ghost use Rattle.drm_arm.specs.Distance.{distance};

use std::marker::Model;

/// The coordinates of an arm's joints, the base first: one to six numbers.
///
/// `Arm::config` makes one that is within the limits of its arm.
#[derive(Debug, Clone, Copy)]
pub struct Config {
    values: [i32; 6],
    joints: u32,
}

impl Model for Config {
    ghost use Rattle.std.specs.Prelude.{ℕ, ℤ, pos, List, take, length};
    ghost use Rattle.drm_arm.specs.Store.{padded, IsStored};

    ghost Value = { List ℤ };

    ghost view = { λ c. take c.joints c.values };

    ghost invariant = { λ c. IsStored (pos 0) c.values c.joints };

    ghost inverse = { λ xs. record { values = padded (pos 0) xs; joints = length xs } };
}

impl PartialEq for Config {
    ghost eq = { pointwise int_eq };

    ghost laws = { cmp.partial_equiv_from_equiv (lists_equiv int_eq_equiv) };

    /// Whether the two have the same coordinates, joint by joint.
    fn eq(&self, other: &Config) -> bool
        ensures joint_by_joint { result ≡ pointwise int_eq self.now other.now }
        ensures same { IsTrue result ↔ (self.now ≡ other.now) }
    {
        self.values[..self.joints as usize] == other.values[..other.joints as usize]
    }
}

impl Eq for Config {
    ghost laws = { lists_equiv int_eq_equiv };
}

/// Why a list of numbers is no configuration of an arm. Where several rules are broken, the first variant counts.
#[derive(Debug, Clone, Copy, PartialEq, Eq)]
pub enum ConfigFault {
    /// There are not as many numbers as the arm has joints: how many there are.
    Count(u64),
    /// A coordinate is outside its joint's limits: the first such joint.
    Joint(u32),
}

impl Config {
    pub(crate) fn stored(values: &[i32]) -> Config
        requires { count_of values.now ≤ 6 }
        ensures { result ≡ values.now }
    {
        let mut store = [0; 6];
        store[..values.len()].copy_from_slice(values);
        Config {
            values: store,
            joints: values.len() as u32,
        }
    }

    /// How many joints there are: at most 6.
    pub fn joints(&self) -> u32
        ensures count { result ≡ count_of self.now }
        ensures limit { result ≤ 6 }
    {
        self.joints
    }

    /// The coordinate of the joint with this number.
    pub fn at(&self, j: u32) -> i32
        requires { j < count_of self.now }
        ensures { slice_get self.now j ≡ Some result }
    {
        self.values[j as usize]
    }
}

/// A motion of all joints at once. At the moment `u` from 0 to 1, joint `j` is at `from_j + u * (to_j - from_j)`.
#[derive(Debug, Clone, Copy, PartialEq, Eq)]
pub struct Motion {
    /// The configuration at the moment 0.
    pub from: Config,
    /// The configuration at the moment 1.
    pub to: Config,
}

/// How far apart two configurations with equally many joints are: the sum over the joints of the difference of the
/// two coordinates.
pub fn length(a: &Config, b: &Config) -> u64
    requires { count_of a.now ≡ count_of b.now }
    ensures { result ≡ distance a.now b.now }
{
    total_gap(
        &a.values[..a.joints as usize],
        &b.values[..b.joints as usize],
    )
}

fn total_gap(xs: &[i32], ys: &[i32]) -> u64
    requires { count_of xs.now ≤ 6 }
    ensures { result ≡ distance xs.now ys.now }
{
    xs.iter().zip(ys).map(|(x, y)| x.abs_diff(*y) as u64).sum()
}
