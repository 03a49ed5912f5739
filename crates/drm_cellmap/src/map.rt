//! The roadmap as a table: the arm, the grid, the nodes and edges, and the stored sweep of each element.

ghost use Rattle.std.specs.Prelude.{◌≡◌, ◌↔◌, ◌≤◌, MatchOption, MatchResult, IfOk, None, Some, length};
ghost use Rattle.drm_cellmap.specs.Limits.{max_entries};
ghost use Rattle.drm_cellmap.specs.Roadmap.{IsElement, IsRoadmap, IsSweep, entries_of, of_parts, place_of, stored};
ghost use Rattle.drm_cellmap.specs.FaultText.{fault_text};
ghost use Rattle.drm_cellmap.specs.MapFaults.{map_fault};

use crate::rules::{entries, first_fault};
use drm_arm::Arm;
use drm_grid::Grid;
use drm_outside::List;
use drm_road::Road;
use drm_talk::Element;
use std::error::Error;
use std::fmt;
use std::marker::Model;

/// The greatest number of cells that all stored sweeps of a map have together.
pub const MAX_ENTRIES: u64 = 16_777_216;

/// A roadmap that was made without obstacles, with the cells that the arm may sweep at each node and along each edge.
#[derive(Debug, Drop)]
pub struct Map {
    pub(crate) arm: Arm,
    pub(crate) grid: Grid,
    pub(crate) road: Road,
    pub(crate) sweeps: List<List<u16>>,
}

impl Model for Map {
    ghost use Rattle.drm_cellmap.specs.Roadmap.{Roadmap, IsRoadmap, of_parts};

    ghost Value = { Roadmap };

    ghost view = { λ map. of_parts map.arm map.grid map.road map.sweeps };

    ghost invariant = { λ map. IsRoadmap (of_parts map.arm map.grid map.road map.sweeps) };
}

/// Why an arm, a grid, a road and lists of cells are no map. Where several rules are broken, the first variant counts.
#[derive(Debug, Clone, Copy, PartialEq, Eq)]
pub enum MapFault {
    /// The arm, stretched out in some direction, leaves the grid.
    Fit,
    /// A node is no configuration of the arm: the first such node.
    Node(u32),
    /// There are not as many lists as nodes and edges together: how many lists there are.
    Sweeps(u64),
    /// A list is not strictly increasing, or has a cell that the grid lacks: the first such list.
    Order(u32),
    /// The lists have more than 16,777,216 cells together: how many.
    Total(u64),
    /// There was no memory. `Map::new` takes none.
    Memory,
}

impl fmt::Display for MapFault {
    ghost output = { λ fault. Some (fault_text fault) };

    fn fmt<W: fmt::Write>(&self, f: &mut fmt::Formatter<W>) -> fmt::Result {
        match *self {
            MapFault::Fit => f.write_str("the arm, stretched out, leaves the grid"),
            MapFault::Node(i) => write!(f, "node {i} is no configuration of the arm"),
            MapFault::Sweeps(n) => write!(
                f,
                "there are {n} sweeps, and not one for each node and edge"
            ),
            MapFault::Order(i) => write!(
                f,
                "sweep {i} is not in order, or has a cell that the grid lacks"
            ),
            MapFault::Total(n) => write!(
                f,
                "the sweeps have {n} cells together, and 16777216 are allowed at most"
            ),
            MapFault::Memory => f.write_str("there was no memory for the map"),
        }
    }
}

impl Error for MapFault {}

impl Map {
    /// The map with these parts, or the first rule that they break. The lists are those of the nodes, and then those
    /// of the edges. It takes no memory, so `Memory` never comes.
    #[tactic(auto, using(crate::proofs::MapLemmas::map_or_not))]
    pub fn new(arm: Arm, grid: Grid, road: Road, sweeps: List<List<u16>>) -> Result<Map, MapFault>
        ensures fault { MatchResult result (λ _. map_fault (of_parts arm grid road sweeps) ≡ None)
            (λ fault. map_fault (of_parts arm grid road sweeps) ≡ Some fault) }
        ensures made { IfOk result (λ map. map ≡ of_parts arm grid road sweeps) }
        ensures limits { IfOk result IsRoadmap }
        ensures valid { (map_fault (of_parts arm grid road sweeps) ≡ None)
            ↔ IsRoadmap (of_parts arm grid road sweeps) }
    {
        match first_fault(&arm, &grid, &road, sweeps.as_slice()) {
            Some(fault) => Err(fault),
            None => Ok(Map {
                arm,
                grid,
                road,
                sweeps,
            }),
        }
    }

    /// The arm that moves in the map. It stays within the grid.
    pub fn arm(&self) -> &Arm
        ensures exact { result.now ≡ self.now.arm }
        ensures limits { IsRoadmap self.now }
    {
        &self.arm
    }

    /// The grid of the map's cells.
    pub fn grid(&self) -> &Grid
        ensures exact { result.now ≡ self.now.grid }
        ensures limits { IsRoadmap self.now }
    {
        &self.grid
    }

    /// The nodes and edges. Each node is a configuration of the arm.
    pub fn road(&self) -> &Road
        ensures exact { result.now ≡ self.now.road }
        ensures limits { IsRoadmap self.now }
    {
        &self.road
    }

    /// The cells of the grid that are stored for an element, in increasing order.
    pub fn stored(&self, e: Element) -> &[u16]
        requires { IsElement self.now e }
        ensures cells { result.now ≡ stored self.now e }
        ensures sweep { IsSweep self.now.grid result.now }
        ensures few { length result.now ≤ max_entries }
    {
        self.sweeps.as_slice()[self.place(e) as usize].as_slice()
    }

    /// How many cells all stored sweeps have together: at most 16,777,216.
    pub fn entries(&self) -> u64
        ensures count { result ≡ entries_of self.now.sweeps }
        ensures limits { IsRoadmap self.now }
    {
        entries(self.sweeps.as_slice())
    }

    /// The place of an element among all: node i is i, and edge i is the number of nodes plus i. `None` exactly where
    /// the map lacks it.
    pub fn index(&self, e: Element) -> Option<u32>
        ensures { MatchOption result (¬ IsElement self.now e)
            (λ place. IsElement self.now e × (place ≡ place_of self.now e)) }
    {
        let there = match e {
            Element::Node(i) => i < self.road.nodes(),
            Element::Edge(i) => i < self.road.edges(),
        };
        if there { Some(self.place(e)) } else { None }
    }

    pub(crate) fn place(&self, e: Element) -> u32
        requires { IsElement self.now e }
        ensures { result ≡ place_of self.now e }
    {
        match e {
            Element::Node(i) => i,
            Element::Edge(i) => self.road.nodes() + i,
        }
    }
}
