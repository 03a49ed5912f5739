//! The links of an arm, and the limits that they keep.
ghost use Rattle.std.specs.Prelude.{◌≡◌, ℕ, ◌<◌, ◌≤◌, ◌↔◌, length, IfOk, IfSome, None, Some, slice_get, not, position};
ghost use Rattle.std.specs.Result.{result_err};
ghost use Rattle.drm_arm.specs.Arm.{arm_fault, reach_of, has_count, has_length, has_radius, has_limits, IsArm, IsLink, LinksAreWithinLimits};
ghost use Rattle.drm_arm.specs.Config.{config_fault, allows, IsConfig};
ghost use Rattle.drm_arm.specs.Limits.{max_links, max_reach};
ghost use Rattle.std.specs.List.{zip};

use crate::config::{Config, ConfigFault};
use std::marker::Model;

/// The greatest number of links.
pub const MAX_LINKS: usize = 6;
/// The greatest length of a link, in units; the least is 1.
pub const MAX_LENGTH: u32 = 4096;
/// The greatest radius of a link, in units; the least is 0.
pub const MAX_RADIUS: u32 = 512;
/// The greatest sum of the lengths of an arm's links, in units.
pub const MAX_REACH: u64 = 4096;
/// The least joint coordinate.
pub const MIN_COORDINATE: i32 = -4096;
/// The greatest joint coordinate.
pub const MAX_COORDINATE: i32 = 4096;

/// One link: a segment of an arm with the joint at its base.
#[derive(Debug, Clone, Copy, PartialEq, Eq)]
pub struct Link {
    /// The length of the link's axis, in units: 1 to 4,096 in an arm.
    pub len: u32,
    /// How far the link reaches to the sides of its axis, in units: 0 to 512 in an arm.
    pub radius: u32,
    /// The least coordinate of the joint: -4,096 or more in an arm.
    pub lo: i32,
    /// The greatest coordinate of the joint: at least `lo`, and 4,096 or less in an arm.
    pub hi: i32,
}

impl Link {
    const NONE: Link = Link {
        len: 0,
        radius: 0,
        lo: 0,
        hi: 0,
    };

    fn has_length(&self) -> bool
        ensures { result ≡ has_length self.now }
    {
        1 <= self.len && self.len <= MAX_LENGTH
    }

    fn has_radius(&self) -> bool
        ensures { result ≡ has_radius self.now }
    {
        self.radius <= MAX_RADIUS
    }

    fn has_limits(&self) -> bool
        ensures { result ≡ has_limits self.now }
    {
        MIN_COORDINATE <= self.lo && self.hi <= MAX_COORDINATE && self.lo <= self.hi
    }

    fn allows(&self, value: i32) -> bool
        ensures { result ≡ allows self.now value }
    {
        self.lo <= value && value <= self.hi
    }
}

/// Why a list of links is no arm. Where several rules are broken, the first variant below counts.
#[derive(Debug, Clone, Copy, PartialEq, Eq)]
pub enum ArmFault {
    /// The number of links is not 1 to 6: the number.
    Count(u64),
    /// A length is not 1 to 4,096: the first such link.
    Length(u32),
    /// A radius is over 512: the first such link.
    Radius(u32),
    /// The least coordinate is below -4,096 or above the greatest, or the greatest is above 4,096: the first such link.
    Limits(u32),
    /// The sum of the lengths is over 4,096: the sum.
    Reach(u64),
}

/// An arm: one to six links, the base first, all of them within the limits. Its base stands at the origin.
#[derive(Debug, Clone, Copy, PartialEq, Eq)]
pub struct Arm {
    store: [Link; 6],
    count: u32,
}

impl Model for Arm {
    ghost use Rattle.std.specs.Prelude.{List, take, length};
    ghost use Rattle.drm_arm.specs.declared.arm.Link.{Link};

    ghost Value = { List Link };

    ghost use Rattle.drm_arm.specs.Store.{padded, IsStored};
    ghost use Rattle.drm_arm.specs.Arm.{no_link, IsArm};

    ghost view = { λ a. take a.count a.store };

    ghost invariant = { λ a. IsStored no_link a.store a.count × IsArm (take a.count a.store) };

    ghost inverse = { λ xs. record { store = padded no_link xs; count = length xs } };
}

impl Arm {
    /// The arm of these links, or the first rule that they break. All lengths are tested before any radius, and so on.
    #[tactic(auto, using(crate::proofs::ArmLemmas::arm_or_not))]
    pub fn new(links: &[Link]) -> Result<Arm, ArmFault>
        ensures fault { result_err result ≡ arm_fault links.now }
        ensures made { IfOk result (λ arm. arm ≡ links.now) }
        ensures limits { IfOk result IsArm }
        ensures valid { (arm_fault links.now ≡ None) ↔ IsArm links.now }
    {
        match first_fault(links) {
            Some(fault) => Err(fault),
            None => Ok(Arm::stored(links)),
        }
    }

    fn stored(links: &[Link]) -> Arm
        requires { arm_fault links.now ≡ None }
        ensures { result ≡ links.now }
    {
        let mut store = [Link::NONE; 6];
        store[..links.len()].copy_from_slice(links);
        Arm {
            store,
            count: links.len() as u32,
        }
    }

    /// How many links there are: 1 to 6.
    pub fn links(&self) -> u32
        ensures count { result ≡ length self.now }
        ensures limits { IsArm self.now }
    {
        self.count
    }

    /// The link with this number, counted from 0.
    pub fn link(&self, k: u32) -> Link
        requires { k < length self.now }
        ensures place { slice_get self.now k ≡ Some result }
        ensures limits { IsLink result }
    {
        self.store[k as usize]
    }

    /// The sum of the lengths of the links, in units: 1 to 4,096.
    pub fn reach(&self) -> u32
        ensures sum { result ≡ reach_of self.now }
        ensures limits { IsArm self.now }
    {
        total_length(&self.store[..self.count as usize]) as u32
    }

    /// The configuration with these coordinates, or the first rule that they break.
    #[tactic(auto, using(crate::proofs::ConfigLemmas::config_or_not))]
    pub fn config(&self, values: &[i32]) -> Result<Config, ConfigFault>
        ensures fault { result_err result ≡ config_fault self.now values.now }
        ensures made { IfOk result (λ config. config ≡ values.now) }
        ensures limits { IfOk result (IsConfig self.now) }
        ensures valid { (config_fault self.now values.now ≡ None) ↔ IsConfig self.now values.now }
    {
        let links = &self.store[..self.count as usize];
        if links.len() != values.len() {
            return Err(ConfigFault::Count(values.len() as u64));
        }
        match first_outside(links, values) {
            Some(j) => Err(ConfigFault::Joint(j as u32)),
            None => Ok(Config::stored(values)),
        }
    }
}

/// Each link of an arm is within the limits: its length is 1 to 4,096, its radius at most 512, and its joint's limits
/// lie within -4,096 to 4,096, the least not above the greatest.
pub fn links_are_within_limits()
    ensures { LinksAreWithinLimits }
{}

fn first_fault(links: &[Link]) -> Option<ArmFault>
    ensures { result ≡ arm_fault links.now }
{
    if links.is_empty() || MAX_LINKS < links.len() {
        return Some(ArmFault::Count(links.len() as u64));
    }
    if let Some(k) = first_bad_length(links) {
        return Some(ArmFault::Length(k as u32));
    }
    if let Some(k) = first_bad_radius(links) {
        return Some(ArmFault::Radius(k as u32));
    }
    if let Some(k) = first_bad_limits(links) {
        return Some(ArmFault::Limits(k as u32));
    }
    let reach = total_length(links);
    if MAX_REACH < reach {
        return Some(ArmFault::Reach(reach));
    }
    None
}

fn first_bad_length(links: &[Link]) -> Option<usize>
    ensures place { result ≡ position (λ link. not (has_length link)) links.now }
    ensures bound { IfSome result (λ k. k < length links.now) }
{
    links.iter().position(|link| !link.has_length())
}

fn first_bad_radius(links: &[Link]) -> Option<usize>
    ensures place { result ≡ position (λ link. not (has_radius link)) links.now }
    ensures bound { IfSome result (λ k. k < length links.now) }
{
    links.iter().position(|link| !link.has_radius())
}

fn first_bad_limits(links: &[Link]) -> Option<usize>
    ensures place { result ≡ position (λ link. not (has_limits link)) links.now }
    ensures bound { IfSome result (λ k. k < length links.now) }
{
    links.iter().position(|link| !link.has_limits())
}

fn total_length(links: &[Link]) -> u64
    requires { length links.now ≤ 6 }
    ensures { result ≡ reach_of links.now }
{
    links.iter().map(|link| link.len as u64).sum()
}

fn first_outside(links: &[Link], values: &[i32]) -> Option<usize>
    ensures place { result ≡ position (λ pair. not (allows pair.0 pair.1)) (zip links.now values.now) }
    ensures bound { IfSome result (λ j. j < length links.now) }
{
    links
        .iter()
        .zip(values)
        .position(|(link, value)| !link.allows(*value))
}
