//! The laws of cells and boxes, each as the contract of a function.

ghost use Rattle.drm_grid.specs.Laws.{PointsNearMakeCellNear, CellNearHasPointsNear, NearCellsAreInNearStrips, CellsAreAtPlaces, CellsHavePlaces, PointsWithinAreInCells};

/// The law that a cell is near a box where a point of the one is near a point of the other.
pub fn points_near_make_cell_near()
    ensures { PointsNearMakeCellNear }
{}

/// The law that a cell which is near a box has a point near a point of the box.
pub fn cell_near_has_points_near()
    ensures { CellNearHasPointsNear }
{}

/// The law that a cell which is near a box is in a column and a row that are near it.
pub fn near_cells_are_in_near_strips()
    ensures { NearCellsAreInNearStrips }
{}

/// The law that there is a cell at each row and column.
pub fn cells_are_at_places()
    ensures { CellsAreAtPlaces }
{}

/// The law that each cell is at a row and a column.
pub fn cells_have_places()
    ensures { CellsHavePlaces }
{}

/// The law that a point which is no farther from the base than the grid's edge lies in a cell of the grid.
pub fn points_within_are_in_cells()
    ensures { PointsWithinAreInCells }
{}
