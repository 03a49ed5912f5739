use super::*;
use std::test::Fail;

const GRIDS: [(u32, u32, Result<u32, GridFault>); 11] = [
    (128, 2, Ok(4)),
    (128, 4, Ok(16)),
    (1_024, 128, Ok(16_384)),
    (120, 4, Err(GridFault::Side)),
    (1_032, 4, Err(GridFault::Side)),
    (132, 4, Err(GridFault::Side)),
    (0, 3, Err(GridFault::Side)),
    (128, 0, Err(GridFault::Count)),
    (128, 3, Err(GridFault::Count)),
    (128, 127, Err(GridFault::Count)),
    (128, 130, Err(GridFault::Count)),
];

#[test]
fn makes_the_grids_within_the_limits(rt: HostRuntime) {
    for (side, n, want) in GRIDS {
        match Grid::new(side, n) {
            Ok(grid) => {
                assert_eq!(rt; Ok(grid.cells()), want, "{side} {n}");
                assert_eq!(rt; (grid.side(), grid.n()), (side, n));
            }
            Err(fault) => assert_eq!(rt; Err(fault), want, "{side} {n}"),
        }
    }
}

#[test]
fn a_set_has_the_cells_that_were_inserted(rt: HostRuntime) -> Result<(), Fail> {
    let mut set = CellSet::new(rt.alloc(), 16)?;
    set.insert(5);
    set.insert(15);
    set.insert(5);
    for cell in 0..16 {
        assert_eq!(rt; set.has(cell), cell == 5 || cell == 15, "{cell}");
    }
    Ok(())
}

#[test]
fn sets_are_compared_and_listed(rt: HostRuntime) -> Result<(), Fail> {
    let mut set = CellSet::new(rt.alloc(), 130)?;
    let mut other = CellSet::full(rt.alloc(), 130)?;
    for cell in [3, 64, 129] {
        if cell < set.size() && cell < other.size() {
            set.insert(cell);
            other.remove(cell);
        }
    }
    if set.size() != 130 || other.size() != 130 {
        return Err("sets keep their sizes".into());
    }
    assert_eq!(rt;
        set.to_list(rt.alloc())?.as_slice(),
        [3, 64, 129].as_slice()
    );
    assert_eq!(rt; set.meets_first(&other), None);
    assert_eq!(rt; set.first_outside(&other), Some(3));
    other.insert(64);
    assert_eq!(rt; set.meets_first(&other), Some(64));
    assert_eq!(rt; set.next_in(4, 64), None);
    assert_eq!(rt; set.next_in(65, 130), Some(129));
    let copy = set.copy(rt.alloc())?;
    set.remove_all(&other);
    assert_eq!(rt; set.to_list(rt.alloc())?.as_slice(), [3, 129].as_slice());
    assert_eq!(rt; copy.first_outside(&set), Some(64));
    Ok(())
}
