//! The corners of polygons.

ghost use Rattle.std.specs.Prelude.{◌≡◌, ◌<◌, ◌≤◌, ◌↔◌, ℤ, pos, neg_ℤ, ◌-ℤ◌, ◌*ℤ◌, ◌≤ℤ◌, IsTrue, IfSome, All, length as count_of, is_some};
ghost use Rattle.std.specs.List.{list_all};
ghost use Rattle.std.specs.Ordering.{int_eq};
ghost use Rattle.std.specs.Cmp as cmp;
ghost use Rattle.std.proofs.lemmas.Cmp.{lists_equiv, int_eq_equiv};
ghost use lib.Pointwise.{pointwise};
ghost use Rattle.drm_num.specs.Small.{IsSmall};
ghost use Rattle.drm_shape.specs.Corners.{IsRing, corner_count, corner_at, next_of, turn};
ghost use Rattle.drm_shape.specs.Validity.{IsCoordinate, is_coordinate, is_on_left, turns_left, bad_side};

use crate::is_coordinate;
use std::marker::Model;

/// The greatest number of coordinates of a ring.
const STORE: usize = 16;

/// The corners of a polygon, 3 to 8 of them, in workspace units.
///
/// The sides go from each corner to the next, and from the last to the first. Contracts see a ring as the list of its
/// coordinates, x and y of each corner in turn. Whether the corners go round as they should, `Shape::check` says.
#[derive(Debug, Clone, Copy)]
pub struct Ring {
    store: [i32; 16],
    count: u32,
}

impl Model for Ring {
    ghost use Rattle.std.specs.Prelude.{List, ℤ, take, length};
    ghost use Rattle.drm_shape.specs.Store.{padded, IsStored};
    ghost use Rattle.drm_shape.specs.Corners.{IsRing};

    ghost Value = { List ℤ };

    ghost view = { λ r. take r.count r.store };

    ghost invariant = { λ r. IsStored r.store r.count × IsRing (take r.count r.store) };

    ghost inverse = { λ xs. record { store = padded xs; count = length xs } };
}

impl PartialEq for Ring {
    ghost eq = { pointwise int_eq };

    ghost laws = { cmp.partial_equiv_from_equiv (lists_equiv int_eq_equiv) };

    /// Whether the two have the same corners in the same order, from the same first one on.
    fn eq(&self, other: &Ring) -> bool
        ensures one_by_one { result ≡ pointwise int_eq self.now other.now }
        ensures same { IsTrue result ↔ (self.now ≡ other.now) }
    {
        self.coordinates() == other.coordinates()
    }
}

impl Eq for Ring {
    ghost laws = { lists_equiv int_eq_equiv };
}

impl Ring {
    /// The ring whose corners have these coordinates, x and y in turn, or none exactly where their number is odd, below 6
    /// or above 16.
    pub fn of(xy: &[i32]) -> Option<Ring>
        ensures exact { IsTrue (is_some result) ↔ IsRing xy.now }
        ensures made { IfSome result (λ ring. ring ≡ xy.now) }
    {
        if xy.len() < 6 || STORE < xy.len() || xy.len() % 2 != 0 {
            return None;
        }
        Some(Ring::stored(xy))
    }

    fn stored(xy: &[i32]) -> Ring
        requires { IsRing xy.now }
        ensures { result ≡ xy.now }
    {
        let mut store = [0; 16];
        store[..xy.len()].copy_from_slice(xy);
        Ring {
            store,
            count: xy.len() as u32,
        }
    }

    fn coordinates(&self) -> &[i32]
        ensures exact { result.now ≡ self.now }
        ensures form { IsRing self.now }
    {
        &self.store[..self.count as usize]
    }

    /// How many corners there are: 3 to 8.
    pub fn corners(&self) -> u32
        ensures count { result ≡ corner_count self.now }
        ensures form { IsRing self.now }
    {
        self.count / 2
    }

    /// The x of the corner with this number, counted from 0.
    pub fn x(&self, i: u32) -> i32
        requires { i < corner_count self.now }
        ensures { result ≡ (corner_at self.now i).x }
    {
        self.coordinates()[2 * i as usize]
    }

    /// The y of the corner with this number, counted from 0.
    pub fn y(&self, i: u32) -> i32
        requires { i < corner_count self.now }
        ensures { result ≡ (corner_at self.now i).y }
    {
        self.coordinates()[2 * i as usize + 1]
    }

    /// Says whether every coordinate is within the limits.
    pub(crate) fn is_in_range(&self) -> bool
        ensures { result ≡ list_all is_coordinate self.now }
    {
        self.coordinates().iter().all(|z| is_coordinate(*z))
    }

    /// The first side that has a corner, other than its own two, that is not strictly on its left.
    pub(crate) fn first_bad_side(&self) -> Option<u32>
        requires { All IsCoordinate self.now }
        ensures place { result ≡ bad_side self.now }
        ensures form { IsRing self.now }
    {
        for i in 0..self.corners() {
            if !self.turns_left(i) {
                return Some(i);
            }
        }
        None
    }

    /// Says whether the side with this number has all corners but its own two strictly on its left.
    fn turns_left(&self, i: u32) -> bool
        requires range { All IsCoordinate self.now }
        requires side { i < corner_count self.now }
        ensures { result ≡ turns_left self.now i }
    {
        let corners = self.corners();
        let next = (i + 1) % corners;
        for k in 0..corners {
            if !self.is_on_left(i, next, k) {
                return false;
            }
        }
        true
    }

    /// Says whether the corner `k` is an end of the side from the corner `i` to the corner `next`, or strictly on its left.
    fn is_on_left(&self, i: u32, next: u32, k: u32) -> bool
        requires range { All IsCoordinate self.now }
        requires first { i < corner_count self.now }
        requires second { next < corner_count self.now }
        requires after { next ≡ next_of self.now i }
        requires corner { k < corner_count self.now }
        ensures { result ≡ is_on_left self.now i k }
    {
        k == i || k == next || 0 < self.turn(i, next, k)
    }

    /// Above 0 where the corner `k` is strictly on the left of the line from the corner `i` to the corner `next`.
    fn turn(&self, i: u32, next: u32, k: u32) -> i64
        requires range { All IsCoordinate self.now }
        requires first { i < corner_count self.now }
        requires second { next < corner_count self.now }
        requires third { k < corner_count self.now }
        ensures { result ≡ turn (corner_at self.now i) (corner_at self.now next) (corner_at self.now k) }
    {
        cross(
            step(self.x(i), self.x(next)),
            step(self.y(i), self.y(next)),
            step(self.x(i), self.x(k)),
            step(self.y(i), self.y(k)),
        )
    }
}

/// How far it is from one coordinate to another.
fn step(from: i32, to: i32) -> i64
    requires from { IsCoordinate from }
    requires to { IsCoordinate to }
    ensures value { result ≡ to -ℤ from }
    ensures small { IsSmall (pos 131072) result }
{
    i64::from(to) - i64::from(from)
}

/// The cross product of two vectors.
fn cross(x: i64, y: i64, u: i64, v: i64) -> i64
    requires x { IsSmall (pos 131072) x }
    requires y { IsSmall (pos 131072) y }
    requires u { IsSmall (pos 131072) u }
    requires v { IsSmall (pos 131072) v }
    ensures { result ≡ (x *ℤ v) -ℤ (y *ℤ u) }
{
    product(x, v) - product(y, u)
}

/// The product of two numbers that are not great.
fn product(a: i64, b: i64) -> i64
    requires a { IsSmall (pos 131072) a }
    requires b { IsSmall (pos 131072) b }
    ensures value { result ≡ a *ℤ b }
    ensures small { IsSmall (pos 17179869184) result }
{
    a * b
}
