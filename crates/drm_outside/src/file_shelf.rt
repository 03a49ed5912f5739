// Files as a shelf.
ghost use Rattle.std.specs.Prelude.{◌≡◌, ◌≤◌, None, IfOk, IfErr, length};
ghost use Rattle.drm_outside.specs.Shelving.{RefusesLoad};

use crate::{LoadFault, Shelf, WriteFault};
use std::alloc::Global;
use std::fs::{self, OpenFile, OpenOptions};
use std::io::{ErrorKind, Read, Write};
use std::marker::Model;
use std::rt::Files;

/// Files as a shelf: a name is a path. It tells no content. Contracts see it as one count of faults for all names,
/// which stands still at 2^64 - 1.
///
/// A save makes a file of its own beside the name, its part: `NAME.part`, or where that is there already the first of
/// `NAME.part1`, `NAME.part2`, .. that is not. It writes the part, brings it to the disk, and renames it to the name. So
/// a reader sees the old file or the whole new one, and saves of one name at once don't mix their bytes. A save that
/// fails leaves the old file, and removes its part where the system lets it.
///
/// A save whose process is killed may leave its part. Nothing uses such a file, no later save of the name is refused
/// for it, and it may be removed by hand while no save runs. A save tries 4,096 names for its part, and fails where
/// files of all of them are there.
#[derive(Drop)]
pub struct FileShelf<'a, R> {
    rt: &'a R,
    faults: u64,
}

impl<'a, R> Model for FileShelf<'a, R> {
    ghost use Rattle.std.specs.Prelude.{ℕ};

    ghost Value = { ℕ };

    ghost view = { λ s. s.faults };
}

impl<'a, R: Files + AllocGlobal> FileShelf<'a, R> {
    /// The files that `rt` reaches, with no fault yet.
    pub fn new(rt: &'a R) -> FileShelf<'a, R>
        ensures { result ≡ 0 }
    {
        FileShelf { rt, faults: 0 }
    }
}

impl<R: Files + AllocGlobal> Shelf for FileShelf<'_, R> {
    ghost held = { λ _. None };

    ghost load_faults = { λ count _. count };

    ghost save_faults = { λ count _. count };

    fn load(&mut self, alloc: Global, name: &str, limit: u64) -> Result<Vec<u8>, LoadFault> {
        let loaded = read_file(self.rt, alloc, name, limit);
        if matches!(loaded, Err(LoadFault::Failed)) {
            self.faults = self.faults.saturating_add(1);
        }
        loaded
    }

    fn save(&mut self, name: &str, bytes: &[u8]) -> Result<(), WriteFault> {
        let saved = replace_file(self.rt, name, bytes);
        if matches!(saved, Err(WriteFault::Failed)) {
            self.faults = self.faults.saturating_add(1);
        }
        saved
    }
}

// How many bytes one read asks for at most.
const PIECE: usize = 65536;

/// The bytes of the file, if they are at most `limit`.
fn read_file<R: Files>(rt: &R, alloc: Global, name: &str, limit: u64) -> Result<Vec<u8>, LoadFault>
    ensures within { IfOk result (λ bytes. length bytes.items ≤ limit) }
    ensures refused { IfErr result (λ fault. RefusesLoad fault None name.now limit) }
{
    let Ok(mut file) = fs::open(rt, name) else {
        return Err(LoadFault::Failed);
    };
    let mut piece = vec![in alloc; 0u8; PIECE]?;
    let mut bytes = Vec::new(alloc);
    for _ in 0..u64::MAX {
        let Ok(count) = file.read(&mut piece) else {
            return Err(LoadFault::Failed);
        };
        if count == 0 {
            return Ok(bytes);
        }
        if limit - (bytes.len() as u64) < count as u64 {
            return Err(LoadFault::TooLong(limit));
        }
        bytes.extend_from_slice(&piece[..count])?;
    }
    Err(LoadFault::Failed)
}

// How many names a save tries for its part.
const MAX_PARTS: u32 = 4096;

/// A new file beside a name, for its bytes to come, and the file's path.
#[derive(Drop)]
struct Part<F> {
    path: String,
    file: F,
}

/// Puts a new file with these bytes in the place of the name.
fn replace_file<R: Files + AllocGlobal>(
    rt: &R,
    name: &str,
    bytes: &[u8],
) -> Result<(), WriteFault> {
    let Part { path, file } = new_part(rt, name)?;
    if is_written(file, bytes) && fs::rename(rt, path.as_str(), name).is_ok() {
        return Ok(());
    }
    // The old file stays as it was; that the part may stay too is all that a failed removal leaves.
    let _ = fs::remove_file(rt, path.as_str());
    Err(WriteFault::Failed)
}

/// Makes a part of the name under the first of its names that no file has.
fn new_part<R: Files + AllocGlobal>(rt: &R, name: &str) -> Result<Part<R::File>, WriteFault> {
    let mut how = OpenOptions::new();
    how.write(true).create_new(true);
    for number in 0..MAX_PARTS {
        let path = part_name(rt.alloc(), name, number)?;
        match how.open(rt, path.as_str()) {
            Ok(file) => return Ok(Part { path, file }),
            Err(error) if error.kind() == ErrorKind::AlreadyExists => {}
            Err(_) => return Err(WriteFault::Failed),
        }
    }
    Err(WriteFault::Failed)
}

/// The name of the number's part: `NAME.part` for 0, and `NAME.partK` for a number K above 0.
fn part_name(alloc: Global, name: &str, number: u32) -> Result<String, WriteFault> {
    if number == 0 {
        return Ok(format!(in alloc; "{name}.part")?);
    }
    Ok(format!(in alloc; "{name}.part{number}")?)
}

/// Writes the bytes and brings them to the disk; says whether all went well.
fn is_written<F: OpenFile + Write + Drop>(mut file: F, bytes: &[u8]) -> bool {
    file.write_all(bytes).is_ok() && file.sync_all().is_ok()
}
