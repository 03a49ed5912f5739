use super::*;
use std::alloc::{AllocError, Global};
use std::test::Fail;
use std::{env, fs, process};

fn list_of(alloc: Global, items: &[u64]) -> Result<List<u64>, AllocError> {
    Ok(List::from_vec(Vec::from_slice(alloc, items)?))
}

#[derive(Drop)]
struct LoadCase {
    failing: &'static [u64],
    name: &'static str,
    limit: u64,
    want: Result<&'static [u8], LoadFault>,
}

const LOADS: [LoadCase; 5] = [
    LoadCase {
        failing: &[],
        name: "arm.map",
        limit: 7,
        want: Ok(b"roadmap"),
    },
    LoadCase {
        failing: &[],
        name: "arm.map",
        limit: 6,
        want: Err(LoadFault::TooLong(6)),
    },
    LoadCase {
        failing: &[],
        name: "none.map",
        limit: 7,
        want: Err(LoadFault::Failed),
    },
    LoadCase {
        failing: &[1],
        name: "arm.map",
        limit: 7,
        want: Err(LoadFault::Failed),
    },
    LoadCase {
        failing: &[2],
        name: "arm.map",
        limit: 7,
        want: Ok(b"roadmap"),
    },
];

#[test]
fn names_in_memory_are_loaded(rt: HostRuntime) -> Result<(), Fail> {
    let alloc = rt.alloc();
    for case in LOADS {
        let mut shelf = MemShelf::new(alloc, list_of(alloc, case.failing)?);
        let set = shelf.set("arm.map", b"roadmap");
        assert_eq!(rt; set, Ok(()));
        let loaded = shelf.load(alloc, case.name, case.limit);
        match case.want {
            Ok(bytes) => assert!(rt; loaded.is_ok_and(|v| v.as_slice() == bytes)),
            Err(fault) => assert!(rt; loaded.is_err_and(|f| f == fault)),
        }
    }
    Ok(())
}

#[test]
fn names_in_memory_are_saved(rt: HostRuntime) -> Result<(), Fail> {
    let alloc = rt.alloc();
    let mut shelf = MemShelf::new(alloc, list_of(alloc, &[2])?);
    assert!(rt; shelf.get("a").is_none());
    assert_eq!(rt; shelf.save("a", b"one"), Ok(()));
    assert_eq!(rt; shelf.save("a", b"two"), Err(WriteFault::Failed));
    assert!(rt; shelf.get("a") == Some(b"one".as_slice()));
    assert_eq!(rt; shelf.save("a", b"three"), Ok(()));
    assert!(rt; shelf.get("a") == Some(b"three".as_slice()));
    Ok(())
}

/// Saves and loads in a folder of its own; a save over a folder fails, and leaves the folder and nothing beside it.
#[test]
fn files_are_saved_whole_and_loaded(rt: HostRuntime) -> Result<(), Fail> {
    let alloc = rt.alloc();
    let id = process::id(rt.process());
    let place = env::temp_dir(&rt)?;
    let folder = format!(in alloc; "{}/limereef-shelf-{id}", place.as_path().as_str())?;
    fs::create_dir(&rt, folder.as_str())?;
    let name = format!(in alloc; "{folder}/arm.map")?;
    let mut shelf = FileShelf::new(&rt);
    assert_eq!(rt; shelf.save(name.as_str(), b"old"), Ok(()));
    assert_eq!(rt; shelf.save(name.as_str(), b"roadmap"), Ok(()));
    let whole = shelf.load(alloc, name.as_str(), 7);
    assert!(rt; whole.is_ok_and(|v| v.as_slice() == b"roadmap".as_slice()));
    let long = shelf.load(alloc, name.as_str(), 6);
    assert!(rt; long.is_err_and(|f| f == LoadFault::TooLong(6)));
    let missing = shelf.load(alloc, "no/such/name", 6);
    assert!(rt; missing.is_err_and(|f| f == LoadFault::Failed));
    assert_eq!(rt; shelf.save("no/such/name", b"x"), Err(WriteFault::Failed));
    assert_eq!(rt; shelf.save(folder.as_str(), b"x"), Err(WriteFault::Failed));
    let part = format!(in alloc; "{folder}.part")?;
    assert!(rt; fs::open(&rt, part.as_str()).is_err());
    let kept = shelf.load(alloc, name.as_str(), 7);
    assert!(rt; kept.is_ok());
    fs::remove_dir_all(&rt, folder.as_str())?;
    Ok(())
}

/// Files that broken saves left stand in no save's way and stay as they are; a save that fails leaves none of its own.
#[test]
fn left_parts_do_not_block(rt: HostRuntime) -> Result<(), Fail> {
    let alloc = rt.alloc();
    let id = process::id(rt.process());
    let place = env::temp_dir(&rt)?;
    let folder = format!(in alloc; "{}/limereef-parts-{id}", place.as_path().as_str())?;
    fs::create_dir(&rt, folder.as_str())?;
    let name = format!(in alloc; "{folder}/arm.map")?;
    let taken = format!(in alloc; "{folder}/taken")?;
    fs::create_dir(&rt, taken.as_str())?;
    let mut shelf = FileShelf::new(&rt);
    for left in [
        "arm.map.part",
        "arm.map.part1",
        "arm.map.part2",
        "taken.part",
    ] {
        let path = format!(in alloc; "{folder}/{left}")?;
        fs::write(&rt, path.as_str(), "left")?;
        assert_eq!(rt; shelf.save(name.as_str(), left.as_bytes()), Ok(()));
        assert_eq!(rt; shelf.save(taken.as_str(), b"x"), Err(WriteFault::Failed));
        let whole = shelf.load(alloc, name.as_str(), 20);
        assert!(rt; whole.is_ok_and(|v| v.as_slice() == left.as_bytes()));
        let kept = shelf.load(alloc, path.as_str(), 4);
        assert!(rt; kept.is_ok_and(|v| v.as_slice() == b"left".as_slice()));
    }
    for free in ["arm.map.part3", "taken.part1"] {
        let path = format!(in alloc; "{folder}/{free}")?;
        assert!(rt; fs::open(&rt, path.as_str()).is_err());
    }
    fs::remove_dir_all(&rt, folder.as_str())?;
    Ok(())
}
