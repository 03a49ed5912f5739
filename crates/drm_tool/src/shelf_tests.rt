ghost use Rattle.std.specs.Prelude.{None};

use crate::commands::build::run_build;
use crate::commands::check::run_check;
use crate::tests::{Call, list_of, run_on, words_of};
use drm_cellmap::sample_map;
use drm_mapfile::write;
use drm_outside::{LoadFault, MemShelf, MemSink, Shelf, WriteFault};
use std::alloc::{AllocError, Global};
use std::test::Fail;
use std::thread::Threads;

/// A shelf on which each name holds more bytes than any limit. It tells none of them.
#[derive(Drop)]
struct LongShelf;

impl Shelf for LongShelf {
    ghost held = { λ _. None };

    ghost load_faults = { λ _ _. 0 };

    ghost save_faults = { λ _ _. 0 };

    fn load(&mut self, _alloc: Global, _name: &str, limit: u64) -> Result<Vec<u8>, LoadFault> {
        Err(LoadFault::TooLong(limit))
    }

    fn save(&mut self, _name: &str, _bytes: &[u8]) -> Result<(), WriteFault> {
        Err(WriteFault::Memory)
    }
}

const ROBOT: &[u8] = b"{\"links\":[{\"len\":200,\"radius\":20,\"lo\":-2048,\"hi\":2048}],
    \"side\":128,\"cells\":4,\"seed\":7,\"draws\":5,\"near\":2}";

/// What stands in place of the sample map's file: its first bytes, other bytes, and those from a later place on.
struct Damage {
    kept: usize,
    put: &'static [u8],
    from: usize,
    status: u8,
    text: &'static [u8],
}

const DAMAGES: [Damage; 8] = [
    Damage {
        kept: 160,
        put: b"",
        from: 160,
        status: 0,
        text: b"passed\n",
    },
    // The last cell of edge 0 is taken out.
    Damage {
        kept: 102,
        put: b"\x00\x08\x00\x05\x00\x06\x00\x07\x00\x09\x00\x0a\x00\x0b\x00\x0d\x00\x0e",
        from: 122,
        status: 10,
        text: b"lacks edge 0 15\n",
    },
    // A cell is added to node 0.
    Damage {
        kept: 44,
        put: b"\x00\x07\x00\x00",
        from: 46,
        status: 10,
        text: b"loose node 0 0\n",
    },
    Damage {
        kept: 159,
        put: b"",
        from: 160,
        status: 3,
        text: b"map short 159\n",
    },
    Damage {
        kept: 160,
        put: b"\x00",
        from: 160,
        status: 3,
        text: b"map excess 160\n",
    },
    Damage {
        kept: 17,
        put: b"\x03",
        from: 18,
        status: 3,
        text: b"map field 17\n",
    },
    Damage {
        kept: 0,
        put: b"\x00",
        from: 1,
        status: 3,
        text: b"map magic\n",
    },
    Damage {
        kept: 5,
        put: b"\x02",
        from: 6,
        status: 3,
        text: b"map version 2\n",
    },
];

/// The sample map whose edge 0 lacks cell 15, which its motion sweeps.
const LACKING: Damage = Damage {
    kept: 102,
    put: b"\x00\x08\x00\x05\x00\x06\x00\x07\x00\x09\x00\x0a\x00\x0b\x00\x0d\x00\x0e",
    from: 122,
    status: 0,
    text: b"put 1\nask 1 unsound 0 0 1 0 0 15\nend 1 0 0\n",
};

const ROBOTS: [(&[u8], u8, &[u8]); 7] = [
    (b"[1]", 2, b"robot json\n"),
    (b"{}", 2, b"robot field links\n"),
    (
        b"{\"links\":[],\"side\":128,\"cells\":4,\"seed\":7,\"draws\":5,\"near\":2}",
        2,
        b"robot arm count 0\n",
    ),
    (
        b"{\"links\":[{\"len\":4097,\"radius\":0,\"lo\":0,\"hi\":0}],\"side\":128,\"cells\":4,\"seed\":7,\"draws\":5,\"near\":2}",
        2,
        b"robot arm length 0\n",
    ),
    (
        b"{\"links\":[{\"len\":200,\"radius\":20,\"lo\":0,\"hi\":0}],\"side\":129,\"cells\":4,\"seed\":7,\"draws\":5,\"near\":2}",
        2,
        b"robot grid side\n",
    ),
    (
        b"{\"links\":[{\"len\":200,\"radius\":20,\"lo\":0,\"hi\":0}],\"side\":128,\"cells\":3,\"seed\":7,\"draws\":5,\"near\":2}",
        2,
        b"robot grid cells\n",
    ),
    (
        b"{\"links\":[{\"len\":200,\"radius\":60,\"lo\":0,\"hi\":0}],\"side\":128,\"cells\":4,\"seed\":7,\"draws\":5,\"near\":2}",
        2,
        b"robot fit\n",
    ),
];

/// A shelf that holds these bytes under this name.
fn shelf_with(alloc: Global, name: &str, bytes: &[u8]) -> Result<MemShelf, Fail> {
    let mut shelf = MemShelf::new(alloc, list_of(alloc, &[])?);
    shelf.set(name, bytes).ok().ok_or("memory")?;
    Ok(shelf)
}

/// The sample map's file with the damage.
fn damaged(alloc: Global, file: &[u8], damage: &Damage) -> Result<Vec<u8>, AllocError> {
    let kept = damage.kept.min(file.len());
    let from = damage.from.min(file.len());
    let mut bytes = Vec::from_slice(alloc, &file[..kept])?;
    bytes.extend_from_slice(damage.put)?;
    bytes.extend_from_slice(&file[from..])?;
    Ok(bytes)
}

/// The status of a check of the map with this name, and what it writes.
fn checked<H: Shelf>(alloc: Global, shelf: &mut H, map: &str) -> Result<(u8, MemSink), AllocError> {
    let words = words_of(alloc, &["check", map])?;
    let mut out = MemSink::new(alloc, 4, list_of(alloc, &[])?);
    let status = run_check(alloc, &words, shelf, &mut out);
    Ok((status, out))
}

/// The status of a build of the map `arm.map` from the robot `r.json`, and what it writes.
fn built<R: Threads + Sync, H: Shelf>(
    rt: &R,
    alloc: Global,
    shelf: &mut H,
) -> Result<(u8, MemSink), AllocError> {
    let words = words_of(alloc, &["build", "r.json", "arm.map"])?;
    let mut out = MemSink::new(alloc, 100, list_of(alloc, &[])?);
    let status = run_build(rt, alloc, &words, shelf, &mut out);
    Ok((status, out))
}

/// The first damage of the sample map's file that is not told as it should be, if there is one.
fn first_wrong_damage(alloc: Global, file: &[u8]) -> Result<Option<usize>, Fail> {
    for (place, case) in DAMAGES.iter().enumerate() {
        let mut shelf = shelf_with(alloc, "arm.map", &damaged(alloc, file, case)?)?;
        let (status, out) = checked(alloc, &mut shelf, "arm.map")?;
        if status != case.status || out.taken() != case.text {
            return Ok(Some(place));
        }
    }
    Ok(None)
}

/// The first text that is no robot and is not told as it should be, if there is one.
fn first_wrong_robot<R: Threads + Sync>(rt: &R, alloc: Global) -> Result<Option<usize>, Fail> {
    for (place, (robot, wanted, text)) in ROBOTS.iter().enumerate() {
        let mut shelf = shelf_with(alloc, "r.json", robot)?;
        let (status, out) = built(rt, alloc, &mut shelf)?;
        if status != *wanted || out.taken() != *text || shelf.get("arm.map").is_some() {
            return Ok(Some(place));
        }
    }
    Ok(None)
}

/// The file of the sample map.
fn sample_file(alloc: Global) -> Result<Vec<u8>, Fail> {
    let map = sample_map(alloc).ok().ok_or("memory")?;
    Ok(write(alloc, &map).ok().ok_or("memory")?)
}

#[test]
fn a_file_is_checked(rt: HostRuntime) -> Result<(), Fail> {
    let alloc = rt.alloc();
    let file = sample_file(alloc)?;
    assert_eq!(rt; file.len(), 160);
    assert_eq!(rt; first_wrong_damage(alloc, &file)?, None);
    let mut shelf = MemShelf::new(alloc, list_of(alloc, &[])?);
    let (status, out) = checked(alloc, &mut shelf, "sample")?;
    assert_eq!(rt; status, 0);
    assert_eq!(rt; out.taken(), b"passed\n".as_slice());
    Ok(())
}

/// A stored sweep that lacks a cell does not hide the obstacle there.
#[test]
fn an_unsound_edge_is_told(rt: HostRuntime) -> Result<(), Fail> {
    let alloc = rt.alloc();
    let file = sample_file(alloc)?;
    let mut shelf = shelf_with(alloc, "arm.map", &damaged(alloc, &file, &LACKING)?)?;
    let words = ["replay", "arm.map", "full"];
    let log = b"0 put 7 box 140 140 150 150\n0 ask 0 1024\n";
    let call = Call {
        words: &words,
        log,
        reads: &[],
        writes: &[],
    };
    let (status, out) = run_on(&rt, alloc, &mut shelf, &call)?;
    assert_eq!(rt; status, LACKING.status);
    assert_eq!(rt; out.taken(), LACKING.text);
    Ok(())
}

#[test]
fn what_is_too_long_is_told(rt: HostRuntime) -> Result<(), Fail> {
    let alloc = rt.alloc();
    let (status, out) = checked(alloc, &mut LongShelf, "arm.map")?;
    assert_eq!(rt; status, 9);
    assert_eq!(rt; out.taken(), b"too long map 268435456\n".as_slice());
    let (status, out) = built(&rt, alloc, &mut LongShelf)?;
    assert_eq!(rt; status, 9);
    assert_eq!(rt; out.taken(), b"too long robot 1048576\n".as_slice());
    Ok(())
}

#[test]
fn what_is_no_robot_is_told(rt: HostRuntime) -> Result<(), Fail> {
    assert_eq!(rt; first_wrong_robot(&rt, rt.alloc())?, None);
    Ok(())
}

/// Builds the robot's map on a shelf whose sink fails at its second call, then checks it and replays a log over it.
#[test]
fn a_map_is_built_checked_and_used(rt: HostRuntime) -> Result<(), Fail> {
    let alloc = rt.alloc();
    let mut shelf = shelf_with(alloc, "r.json", ROBOT)?;
    let build = ["build", "r.json", "arm.map"];
    let call = Call {
        words: &build,
        log: b"",
        reads: &[],
        writes: &[2],
    };
    let (status, out) = run_on(&rt, alloc, &mut shelf, &call)?;
    assert_eq!(rt; status, 6);
    assert_eq!(rt; out.taken(), b"buil".as_slice());
    let check = ["check", "arm.map"];
    let call = Call {
        words: &check,
        log: b"",
        reads: &[],
        writes: &[],
    };
    let (status, out) = run_on(&rt, alloc, &mut shelf, &call)?;
    assert_eq!(rt; status, 0);
    assert_eq!(rt; out.taken(), b"passed\n".as_slice());
    let replay = ["replay", "arm.map", "brief"];
    let log = b"0 put 0 box -300 -300 300 300\n";
    let call = Call {
        words: &replay,
        log,
        reads: &[],
        writes: &[],
    };
    let (status, out) = run_on(&rt, alloc, &mut shelf, &call)?;
    assert_eq!(rt; status, 0);
    assert!(rt; out.taken().starts_with(b"put 1\nend 1 5 "));
    Ok(())
}
