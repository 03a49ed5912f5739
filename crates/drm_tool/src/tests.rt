use crate::run::run;
use drm_outside::{List, MemShelf, MemSink, MemSource, NoGate, Shelf, Word};
use std::alloc::{AllocError, Global};
use std::sync::Wait;
use std::test::Fail;
use std::thread::Threads;

const REPLAY: &[&str] = &["replay", "sample", "brief"];

const REPLAY_FULL: &[&str] = &["replay", "sample", "full"];

struct Report {
    log: &'static [u8],
    text: &'static [u8],
}

const REPORTS: [Report; 14] = [
    Report {
        log: b"",
        text: b"end 0 0 0\n",
    },
    // A put and a delete, and a delete of an empty slot.
    Report {
        log: b"0 count node 0\n0 put 5 box 140 140 150 150\n0 count edge 0\n0 count node 0\n0 del 5\n0 del 5\n",
        text: b"count 0 0\nput 1\ncount 1 1\ncount 1 0\ndel 2\nempty 2\nend 2 0 0\n",
    },
    // Two obstacles share a cell.
    Report {
        log: b"0 put 1 box 140 140 150 150\n0 put 2 box 160 160 170 170\n0 del 1\n0 count edge 0\n0 del 2\n0 count edge 0\n",
        text: b"put 1\nput 2\ndel 3\ncount 3 1\ndel 4\ncount 4 0\nend 4 0 0\n",
    },
    // A put on a full slot moves the obstacle.
    Report {
        log: b"0 put 3 box 140 140 150 150\n0 put 3 box 140 -150 150 -140\n0 count edge 0\n0 count edge 1\n",
        text: b"put 1\nput 2\ncount 2 0\ncount 2 1\nend 2 0 1\n",
    },
    // A point at a corner of four cells.
    Report {
        log: b"0 put 0 box 0 0 0 0\n0 count node 0\n",
        text: b"put 1\ncount 1 4\nend 1 4 3\n",
    },
    // The last slot and the first past it, and elements past the last.
    Report {
        log: b"0 put 1023 box 140 140 150 150\n0 put 1024 box 0 0 1 1\n0 del 65535\n0 count node 4\n0 count edge 3\n",
        text: b"put 1\nslot\nslot\nabsent\nabsent\nend 1 0 1\n",
    },
    // An obstacle beside the grid, and one over all of it.
    Report {
        log: b"0 put 0 box 257 0 300 0\n0 count edge 0\n0 put 0 box -65536 -65536 65536 65536\n0 count edge 0\n",
        text: b"put 1\ncount 1 0\nput 2\ncount 2 9\nend 2 4 3\n",
    },
    // A disc beside the grid.
    Report {
        log: b"0 put 0 disc 60000 0 5\n0 count edge 0\n",
        text: b"put 1\ncount 1 0\nend 1 0 0\n",
    },
    // A disc that touches four cells, and a triangle in one cell in its place.
    Report {
        log: b"0 put 0 disc 0 0 5\n0 count node 0\n0 put 0 poly 140 140 150 140 140 150\n0 count edge 0\n",
        text: b"put 1\ncount 1 4\nput 2\ncount 2 1\nend 2 0 1\n",
    },
    // One caller that is not the first.
    Report {
        log: b"3 sync\n3 put 7 box 140 140 150 150\n3 sync\n3 count edge 0\n3 del 8\n3 del 7\n3 sync\n",
        text: b"sync 0\nput 1\nsync 1\ncount 1 1\nempty 1\ndel 2\nsync 2\nend 2 0 0\n",
    },
    // Several callers, none of whose edits is accepted.
    Report {
        log: b"0 del 3\n1 count node 0\n",
        text: b"empty 0\ncount 0 0\nend 0 0 0\n",
    },
    Report {
        log: b"0 count node 0\n7 del 5\n2 sync\n1 put 1024 box 0 0 1 1\n3 count node 4\n6 ask 0 2049\n",
        text: b"count 0 0\nempty 0\nsync 0\nslot\nabsent\nlimits goal 0\nend 0 0 0\n",
    },
    // One caller edits, and the lines of the others do not depend on the obstacles.
    Report {
        log: b"1 put 5 box 140 140 150 150\n0 put 1024 box 0 0 1 1\n1 count edge 0\n2 del 65535\n1 sync\n4 count edge 3\n1 del 5\n",
        text: b"put 1\nslot\ncount 1 1\nslot\nsync 1\nabsent\ndel 2\nend 2 0 0\n",
    },
    // All callers that there may be.
    Report {
        log: b"0 sync\n1 sync\n2 sync\n3 sync\n4 sync\n5 sync\n6 sync\n7 sync\n",
        text: b"sync 0\nsync 0\nsync 0\nsync 0\nsync 0\nsync 0\nsync 0\nsync 0\nend 0 0 0\n",
    },
];

/// A log with asks, and its report in brief and in full.
struct Asked {
    log: &'static [u8],
    brief: &'static [u8],
    full: &'static [u8],
}

const ASKED: [Asked; 10] = [
    // Joints that are outside their limits: the start's is told before the goal's.
    Asked {
        log: b"0 put 1023 box 140 140 150 150\n0 put 1024 box 0 0 1 1\n0 count node 4\n0 ask 3000 0\n",
        brief: b"put 1\nslot\nabsent\nlimits start 0\nend 1 0 1\n",
        full: b"put 1\nslot\nabsent\nlimits start 0\nend 1 0 1\n",
    },
    Asked {
        log: b"0 ask -2049 2049\n0 ask 2048 2049\n0 ask 2147483647 -2147483648\n",
        brief: b"limits start 0\nlimits goal 0\nlimits start 0\nend 0 0 0\n",
        full: b"limits start 0\nlimits goal 0\nlimits start 0\nend 0 0 0\n",
    },
    Asked {
        log: b"0 ask 0 2048\n",
        brief: b"ask 0 path 0 3 2048\nend 0 0 0\n",
        full: b"ask 0 path 0 0 3 0 2048 3 0 1 3 4 0 1024 1024 2048\nend 0 0 0\n",
    },
    Asked {
        log: b"0 ask 0 0\n",
        brief: b"ask 0 path 0 0 0\nend 0 0 0\n",
        full: b"ask 0 path 0 0 0 0 0 1 0 4 0 1024 1024 2048\nend 0 0 0\n",
    },
    // Edge 0 is barred.
    Asked {
        log: b"0 put 7 box 140 140 150 150\n0 ask 0 1024\n",
        brief: b"put 1\nask 1 cut 0 1\nend 1 0 1\n",
        full: b"put 1\nask 1 cut 0 0 1 0 2 0 2\nend 1 0 1\n",
    },
    // Cells 6 and 10 are in every sweep.
    Asked {
        log: b"0 put 7 box 100 -5 110 5\n0 ask 0 1024\n",
        brief: b"put 1\nask 1 nostart\nend 1 4 3\n",
        full: b"put 1\nask 1 nostart 4 0 b 1 b 2 b 3 b\nend 1 4 3\n",
    },
    // At 512 the tip is 8 units from cell 15.
    Asked {
        log: b"0 put 7 box 140 140 150 150\n0 ask 512 0\n0 ask 0 512\n",
        brief: b"put 1\nask 1 nostart\nask 1 nogoal\nend 1 0 1\n",
        full: b"put 1\nask 1 nostart 4 0 c 15 1 c 15 2 c 15 3 c 15\nask 1 nogoal 4 0 c 15 1 c 15 2 c 15 3 c 15\nend 1 0 1\n",
    },
    // Asks of two callers over no obstacle, and one behind a sync.
    Asked {
        log: b"0 ask 0 1024\n1 ask 0 1024\n",
        brief: b"ask 0 path 0 1 1024\nask 0 path 0 1 1024\nend 0 0 0\n",
        full: b"ask 0 path 0 0 1 0 1024 2 0 1 4 0 1024 1024 2048\nask 0 path 0 0 1 0 1024 2 0 1 4 0 1024 1024 2048\nend 0 0 0\n",
    },
    Asked {
        log: b"0 count node 0\n0 sync\n0 ask 0 1024\n",
        brief: b"count 0 0\nsync 0\nask 0 path 0 1 1024\nend 0 0 0\n",
        full: b"count 0 0\nsync 0\nask 0 path 0 0 1 0 1024 2 0 1 4 0 1024 1024 2048\nend 0 0 0\n",
    },
    // An ask is answered over the obstacles that stand before its line.
    Asked {
        log: b"0 ask 0 1024\n0 put 7 box 140 140 150 150\n0 ask 0 1024\n0 del 7\n0 ask 0 1024\n",
        brief: b"ask 0 path 0 1 1024\nput 1\nask 1 cut 0 1\ndel 2\nask 2 path 0 1 1024\nend 2 0 0\n",
        full: b"ask 0 path 0 0 1 0 1024 2 0 1 4 0 1024 1024 2048\nput 1\nask 1 cut 0 0 1 0 2 0 2\ndel 2\nask 2 path 0 0 1 0 1024 2 0 1 4 0 1024 1024 2048\nend 2 0 0\n",
    },
];

/// Logs that are refused, and the text that names the first line that is not in the grammar or not served.
const NO_LOGS: [(&[u8], &[u8]); 18] = [
    (b"0 count node 0", b"log 1\n"),
    (b"0 count node 0\n\n", b"log 2\n"),
    (b"0 count  node 0\n", b"log 1\n"),
    (b"0 put 1 box 5 0 4 1\n", b"log 1\n"),
    (b"0 put 1 box -0 0 1 1\n", b"log 1\n"),
    (b"0 put 65536 box 0 0 1 1\n", b"log 1\n"),
    (b"0 del 3\n0 put 1 poly 0 0 0 10 10 0\n", b"log 2\n"),
    (b"00 sync\n", b"log 1\n"),
    (b"8 sync\n", b"log 1\n"),
    (b"0 ask 0\n", b"log 1\n"),
    (b"0 ask 0 0 0 0\n", b"log 1\n"),
    (b"0 sync", b"log 1\n"),
    // In the grammar, and not served.
    (b"0 tick\n", b"log 1\n"),
    (b"3 sync\n7 tick\n", b"log 2\n"),
    // A line that is not served before one that is not in the grammar, and one behind it.
    (b"0 del 3\n0 tick\n0 del x\n", b"log 2\n"),
    (b"0 del 3\n1 tick\n0 del 4", b"log 2\n"),
    (b"0 del 3\n1 count node 0\n0 del 4", b"log 3\n"),
    (b"0 del 3\n0 del x\n0 tick\n", b"log 2\n"),
];

const NO_COMMANDS: [&[&str]; 11] = [
    &[],
    &["build", "r.json", "sample"],
    &["build", "", "arm.map"],
    &["build", "r.json"],
    &["check", ""],
    &["check", "sample", "brief"],
    &["replay", "sample"],
    &["replay", "sample", "Full"],
    &["replay", "", "full"],
    &["replay", "sample", "brief", ""],
    &["--help"],
];

struct Fault {
    words: &'static [&'static str],
    log: &'static [u8],
    reads: &'static [u64],
    writes: &'static [u64],
    status: u8,
    text: &'static [u8],
}

const FAULTS: [Fault; 6] = [
    // A missing name: the source, which would fail, is not read.
    Fault {
        words: &["replay", "arm.map", "brief"],
        log: b"",
        reads: &[1],
        writes: &[1],
        status: 7,
        text: b"",
    },
    Fault {
        words: &["build", "r.json", "arm.map"],
        log: b"",
        reads: &[1],
        writes: &[1],
        status: 7,
        text: b"",
    },
    Fault {
        words: REPLAY,
        log: b"0 count node 0\n",
        reads: &[1],
        writes: &[],
        status: 5,
        text: b"",
    },
    // The read that would find the end.
    Fault {
        words: REPLAY,
        log: b"0 count node 0\n",
        reads: &[5],
        writes: &[],
        status: 5,
        text: b"",
    },
    Fault {
        words: REPLAY,
        log: b"",
        reads: &[],
        writes: &[2],
        status: 6,
        text: b"end ",
    },
    // Words that are no command leave the source alone.
    Fault {
        words: &["replay"],
        log: b"",
        reads: &[1],
        writes: &[2],
        status: 6,
        text: b"word",
    },
];

pub(crate) fn list_of<T: Copy>(alloc: Global, items: &[T]) -> Result<List<T>, AllocError> {
    Ok(List::from_vec(items.to_vec(alloc)?))
}

pub(crate) fn words_of(alloc: Global, words: &[&str]) -> Result<Vec<Word>, AllocError> {
    let mut list = Vec::with_capacity(alloc, words.len())?;
    for word in words {
        list.push(Word::of(String::from_str(alloc, word)?))?;
    }
    Ok(list)
}

/// The words of a call and its log, and the numbers of the reads and of the writes that fail.
#[derive(Clone, Copy)]
pub(crate) struct Call<'a> {
    pub(crate) words: &'a [&'a str],
    pub(crate) log: &'a [u8],
    pub(crate) reads: &'a [u64],
    pub(crate) writes: &'a [u64],
}

/// Runs in pieces of four bytes on the shelf, and says the status and what was written.
pub(crate) fn run_on<R: Threads + Wait + Sync, H: Shelf>(
    rt: &R,
    alloc: Global,
    shelf: &mut H,
    call: &Call<'_>,
) -> Result<(u8, MemSink), AllocError> {
    let words = words_of(alloc, call.words)?;
    let mut source = MemSource::new(list_of(alloc, call.log)?, 4, list_of(alloc, call.reads)?);
    let mut sink = MemSink::new(alloc, 4, list_of(alloc, call.writes)?);
    let status = run(rt, alloc, &words, shelf, &mut source, &mut sink, &NoGate);
    Ok((status, sink))
}

/// The same on a shelf without names.
fn run_in_pieces<R: Threads + Wait + Sync>(
    rt: &R,
    alloc: Global,
    words: &[&str],
    log: &[u8],
    reads: &[u64],
    writes: &[u64],
) -> Result<(u8, MemSink), AllocError> {
    let mut shelf = MemShelf::new(alloc, list_of(alloc, &[])?);
    let call = Call {
        words,
        log,
        reads,
        writes,
    };
    run_on(rt, alloc, &mut shelf, &call)
}

/// The first of the reports that is not as it should be, if there is one.
fn first_wrong_report<R: Threads + Wait + Sync>(
    rt: &R,
    alloc: Global,
    words: &[&str],
) -> Result<Option<usize>, AllocError> {
    for (place, case) in REPORTS.iter().enumerate() {
        let (status, sink) = run_in_pieces(rt, alloc, words, case.log, &[], &[])?;
        if status != 0 || sink.taken() != case.text {
            return Ok(Some(place));
        }
    }
    Ok(None)
}

/// The first of the logs with asks whose report is not as it should be, if there is one.
fn first_wrong_answer<R: Threads + Wait + Sync>(
    rt: &R,
    alloc: Global,
) -> Result<Option<usize>, AllocError> {
    for (place, case) in ASKED.iter().enumerate() {
        let (status, sink) = run_in_pieces(rt, alloc, REPLAY, case.log, &[], &[])?;
        if status != 0 || sink.taken() != case.brief {
            return Ok(Some(place));
        }
        let (status, sink) = run_in_pieces(rt, alloc, REPLAY_FULL, case.log, &[], &[])?;
        if status != 0 || sink.taken() != case.full {
            return Ok(Some(place));
        }
    }
    Ok(None)
}

/// The first of the logs that is not refused as it should be, if there is one.
fn first_wrong_log<R: Threads + Wait + Sync>(
    rt: &R,
    alloc: Global,
) -> Result<Option<usize>, AllocError> {
    for (place, (log, text)) in NO_LOGS.iter().enumerate() {
        let (status, sink) = run_in_pieces(rt, alloc, REPLAY, log, &[], &[])?;
        if status != 4 || sink.taken() != *text {
            return Ok(Some(place));
        }
    }
    Ok(None)
}

/// The first of the words that are not refused as they should be, if there are any.
fn first_wrong_words<R: Threads + Wait + Sync>(
    rt: &R,
    alloc: Global,
) -> Result<Option<usize>, AllocError> {
    for (place, words) in NO_COMMANDS.iter().enumerate() {
        let (status, sink) = run_in_pieces(rt, alloc, words, b"", &[], &[])?;
        if status != 1 || sink.taken() != b"words\n".as_slice() {
            return Ok(Some(place));
        }
    }
    Ok(None)
}

/// The first of the faults that is not told as it should be, if there is one.
fn first_wrong_fault<R: Threads + Wait + Sync>(
    rt: &R,
    alloc: Global,
) -> Result<Option<usize>, AllocError> {
    for (place, case) in FAULTS.iter().enumerate() {
        let (status, sink) = run_in_pieces(
            rt,
            alloc,
            case.words,
            case.log,
            case.reads,
            case.writes,
        )?;
        if status != case.status || sink.taken() != case.text {
            return Ok(Some(place));
        }
    }
    Ok(None)
}

#[test]
fn each_case_has_its_status_and_text(rt: HostRuntime) -> Result<(), Fail> {
    let alloc = rt.alloc();
    assert_eq!(rt; first_wrong_report(&rt, alloc, REPLAY)?, None);
    assert_eq!(rt; first_wrong_report(&rt, alloc, REPLAY_FULL)?, None);
    assert_eq!(rt; first_wrong_answer(&rt, alloc)?, None);
    assert_eq!(rt; first_wrong_log(&rt, alloc)?, None);
    assert_eq!(rt; first_wrong_words(&rt, alloc)?, None);
    assert_eq!(rt; first_wrong_fault(&rt, alloc)?, None);
    Ok(())
}

/// Runs in pieces of one MiB on a shelf without names, and says the status and what was written.
fn run_at_once<R: Threads + Wait + Sync>(
    rt: &R,
    alloc: Global,
    words: &[&str],
    log: Vec<u8>,
) -> Result<(u8, MemSink), AllocError> {
    let words = words_of(alloc, words)?;
    let mut shelf = MemShelf::new(alloc, list_of(alloc, &[])?);
    let mut source = MemSource::new(List::from_vec(log), 1 << 20, list_of(alloc, &[])?);
    let mut sink = MemSink::new(alloc, 1 << 20, list_of(alloc, &[])?);
    let status = run(
        rt,
        alloc,
        &words,
        &mut shelf,
        &mut source,
        &mut sink,
        &NoGate,
    );
    Ok((status, sink))
}

/// So many lines, each of which is the same.
fn repeated(alloc: Global, line: &[u8], count: u32) -> Result<Vec<u8>, AllocError> {
    let mut lines = Vec::new(alloc);
    for _ in 0..count {
        lines.extend_from_slice(line)?;
    }
    Ok(lines)
}

/// The replies to puts that are all accepted, and those after them.
fn replies_of_puts(alloc: Global, after: &str) -> Result<String, Fail> {
    let mut wanted = String::new(alloc);
    for number in 1..=65_536u32 {
        write!(wanted, "put {number}\n")?;
    }
    wanted.push_str(after)?;
    Ok(wanted)
}

#[test]
fn a_full_history_takes_no_more(rt: HostRuntime) -> Result<(), Fail> {
    let alloc = rt.alloc();
    let mut lines = repeated(alloc, b"0 put 0 box 0 0 0 0\n", 65_537)?;
    lines.extend_from_slice(b"0 del 1\n0 put 1024 box 0 0 0 0\n")?;
    let wanted = replies_of_puts(alloc, "full 65536\nfull 65536\nslot\nend 65536 4 3\n")?;
    let (status, out) = run_at_once(&rt, alloc, REPLAY, lines)?;
    assert_eq!(rt; status, 0);
    assert!(rt; out.taken() == wanted.as_bytes());
    Ok(())
}

#[test]
fn a_log_over_the_limit_is_too_long(rt: HostRuntime) -> Result<(), Fail> {
    let alloc = rt.alloc();
    let bytes = vec![in alloc; b'0'; 16_777_217]?;
    let (status, out) = run_at_once(&rt, alloc, REPLAY, bytes)?;
    assert_eq!(rt; status, 9);
    assert_eq!(rt; out.taken(), b"too long log 16777216\n".as_slice());
    Ok(())
}

#[test]
fn a_log_of_too_many_lines_is_too_long(rt: HostRuntime) -> Result<(), Fail> {
    let alloc = rt.alloc();
    let mut bytes = repeated(alloc, b"0 sync\n", 200_000)?;
    bytes.extend_from_slice(b"0")?;
    let (status, out) = run_at_once(&rt, alloc, REPLAY_FULL, bytes)?;
    assert_eq!(rt; status, 9);
    assert_eq!(rt; out.taken(), b"too long lines 200001\n".as_slice());
    Ok(())
}
