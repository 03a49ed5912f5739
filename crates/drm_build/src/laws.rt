//! The laws of the maps of robots, each as the contract of a function, which calls the laws of the layers below that it
//! rests on.

ghost use Rattle.drm_build.specs.Laws.{MapsOfRobotsAreSound, RobotsHaveOneMap, RobotsNearFewCellsHaveMaps, SoundMapsPass};

use drm_road::drawn_nodes_are_configurations;
use drm_sweep::{near_cells_are_swept, sound_sweeps_pass, swept_cells_are_near};

/// The law that a robot has one map.
pub fn robots_have_one_map()
    ensures { RobotsHaveOneMap }
{}

/// The law that the map of a robot is sound: each stored sweep holds every cell within a quarter of a side of the arm at
/// some moment of its motion, and none that stays farther than half of a side.
pub fn maps_of_robots_are_sound()
    ensures { MapsOfRobotsAreSound }
{
    near_cells_are_swept();
    swept_cells_are_near();
}

/// The law that a sound map passes the test that a map from a file is given.
pub fn sound_maps_pass()
    ensures { SoundMapsPass }
{
    sound_sweeps_pass();
}

/// The law that a robot has a map where the cells within half of a side of its elements are few enough: where they sum to
/// at most 16,777,216 over all nodes and edges, `build` answers no `Total`.
pub fn robots_near_few_cells_have_maps()
    ensures { RobotsNearFewCellsHaveMaps }
{
    drawn_nodes_are_configurations();
    swept_cells_are_near();
}
