use super::*;
use drm_cellmap::sample_map;
use drm_talk::Element;
use std::test::Fail;

/// The file of the sample map, worked out by hand.
const SAMPLE: [u8; 160] = [
    68, 82, 77, 80, 0, 1, 1, 0, 200, 0, 20, 248, 0, 8, 0, 0, 128, 4, 0, 4, 0, 0, 4, 0, 252, 0, 8,
    0, 0, 0, 0, 3, 0, 0, 0, 1, 0, 0, 0, 2, 0, 1, 0, 3, 0, 6, 0, 5, 0, 6, 0, 7, 0, 9, 0, 10, 0, 11,
    0, 6, 0, 5, 0, 6, 0, 9, 0, 10, 0, 13, 0, 14, 0, 6, 0, 1, 0, 2, 0, 5, 0, 6, 0, 9, 0, 10, 0, 7,
    0, 5, 0, 6, 0, 8, 0, 9, 0, 10, 0, 12, 0, 13, 0, 9, 0, 5, 0, 6, 0, 7, 0, 9, 0, 10, 0, 11, 0, 13,
    0, 14, 0, 15, 0, 9, 0, 1, 0, 2, 0, 3, 0, 5, 0, 6, 0, 7, 0, 9, 0, 10, 0, 11, 0, 8, 0, 5, 0, 6,
    0, 8, 0, 9, 0, 10, 0, 12, 0, 13, 0, 14,
];

fn fault(rt: &HostRuntime, bytes: &[u8]) -> Option<FileFault> {
    read(rt.alloc(), bytes).err()
}

fn verdict(rt: &HostRuntime, bytes: &[u8]) -> Option<MapVerdict> {
    let map = read(rt.alloc(), bytes).ok()?;
    check(rt.alloc(), &map).ok()
}

#[test]
fn sample_map_is_written_and_read(rt: HostRuntime) -> Result<(), Fail> {
    let map = sample_map(rt.alloc()).ok().ok_or("the sample map")?;
    let bytes = write(rt.alloc(), &map).ok().ok_or("its file")?;
    assert_eq!(rt; bytes.as_slice(), SAMPLE.as_slice());
    let again = read(rt.alloc(), &bytes).ok().ok_or("the map again")?;
    assert_eq!(rt; (again.road().nodes(), again.road().edges()), (4, 3));
    Ok(())
}

#[test]
fn damaged_files_have_their_fault(rt: HostRuntime) {
    for p in 0..160 {
        assert_eq!(rt; fault(&rt, &SAMPLE[..p]), Some(FileFault::Short(p as u64)));
    }
    let mut more = [0; 161];
    more[..160].copy_from_slice(&SAMPLE);
    assert_eq!(rt; fault(&rt, &more), Some(FileFault::Excess(160)));
    let table = [
        (0, 0, FileFault::Magic),
        (5, 2, FileFault::Version(2)),
        (6, 7, FileFault::Field(6)),
        (17, 3, FileFault::Field(17)),
        (22, 0, FileFault::Field(22)),
        (33, 2, FileFault::Field(34)),
        (103, 17, FileFault::Field(102)),
        (121, 14, FileFault::Field(120)),
    ];
    for (place, byte, expected) in table {
        let mut bytes = SAMPLE;
        if let Some(at) = bytes.get_mut(place) {
            *at = byte;
        }
        assert_eq!(rt; fault(&rt, &bytes), Some(expected));
    }
}

#[test]
fn first_element_at_fault(rt: HostRuntime) {
    assert_eq!(rt; verdict(&rt, &SAMPLE), Some(MapVerdict::Passed));
    // Without cell 15 of edge 0.
    let mut lacking = [0; 158];
    lacking[..120].copy_from_slice(&SAMPLE[..120]);
    lacking[120..].copy_from_slice(&SAMPLE[122..]);
    lacking[103] = 8;
    assert_eq!(rt;
        verdict(&rt, &lacking),
        Some(MapVerdict::Lacks(Element::Edge(0), 15))
    );
    // With cell 0 in node 0.
    let mut loose = [0; 162];
    loose[..46].copy_from_slice(&SAMPLE[..46]);
    loose[48..].copy_from_slice(&SAMPLE[46..]);
    loose[45] = 7;
    assert_eq!(rt;
        verdict(&rt, &loose),
        Some(MapVerdict::Loose(Element::Node(0), 0))
    );
}
