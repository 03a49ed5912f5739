//! Edges between nodes.
ghost use Rattle.std.specs.Prelude.{◌↔◌, IsTrue};
ghost use Rattle.drm_road.specs.Pairs.{Precedes};

use std::marker::Model;

/// An edge between two nodes, the lesser number first. Contracts see it as the pair of the two numbers.
///
/// Edges are in the order of the first number, and then of the second.
#[derive(Debug, Clone, Copy, PartialEq, Eq, PartialOrd, Ord)]
pub struct Edge {
    /// The lesser node.
    pub a: u32,
    /// The greater node.
    pub b: u32,
}

impl Model for Edge {
    ghost use Rattle.std.specs.Prelude.{ℕ};

    ghost Value = { ℕ × ℕ };

    ghost view = { λ edge. (edge.a, edge.b) };

    ghost inverse = { λ ends. record { a = ends.0; b = ends.1 } };
}

impl Edge {
    /// Says whether the edge comes before the one from `a` to `b`.
    pub fn precedes(&self, a: u32, b: u32) -> bool
        ensures { IsTrue result ↔ Precedes self.now (a, b) }
    {
        self.a < a || (self.a == a && self.b < b)
    }
}
