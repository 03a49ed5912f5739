use crate::run::run;
use crate::tests::{list_of, words_of};
use drm_outside::{Gate, MemShelf, MemSink, MemSource};
use std::alloc::{AllocError, Global};
use std::sync::Wait;
use std::sync::atomic::{AtomicU64, Ordering};
use std::test::Fail;
use std::thread::Threads;

/// How often a held caller looks whether it may go on, before the hold is given up.
const TURNS: u64 = 5_000_000;

/// Holds caller 0 before its first line until caller 1 has come to line 3, and caller 1 before line 4 until caller 0 is
/// done. Callers that are served one after the other do not both get past it.
#[derive(Drop)]
struct Meeting {
    come: AtomicU64,
    done: AtomicU64,
    given_up: AtomicU64,
}

impl Meeting {
    fn new() -> Meeting {
        Meeting {
            come: AtomicU64::new(0),
            done: AtomicU64::new(0),
            given_up: AtomicU64::new(0),
        }
    }

    /// Waits until the flag is raised, for a stated number of turns.
    fn hold(&self, flag: &AtomicU64) {
        for _ in 0..TURNS {
            if flag.load(Ordering::SeqCst) != 0 {
                return;
            }
            std::thread::yield_now();
        }
        self.given_up.store(1, Ordering::SeqCst);
    }
}

impl Gate for Meeting {
    fn pass(&self, caller: u32, line: u32) {
        match (caller, line) {
            (0, 1) => self.hold(&self.come),
            (1, 3) => self.come.store(1, Ordering::SeqCst),
            (1, 4) => self.hold(&self.done),
            (0, 0) => self.done.store(1, Ordering::SeqCst),
            _ => {}
        }
    }
}

/// Replays the log over the sample map by callers that pass the gate, and says the status and what was written.
fn replay_with<R: Threads + Wait + Sync, G: Gate>(
    rt: &R,
    alloc: Global,
    log: &[u8],
    gate: &G,
) -> Result<(u8, MemSink), AllocError> {
    let words = words_of(alloc, &["replay", "sample", "full"])?;
    let mut shelf = MemShelf::new(alloc, list_of(alloc, &[])?);
    let mut source = MemSource::new(list_of(alloc, log)?, 100, list_of(alloc, &[])?);
    let mut sink = MemSink::new(alloc, 100, list_of(alloc, &[])?);
    let status = run(rt, alloc, &words, &mut shelf, &mut source, &mut sink, gate);
    Ok((status, sink))
}

#[test]
fn two_callers_are_served_side_by_side(rt: HostRuntime) -> Result<(), Fail> {
    let alloc = rt.alloc();
    let log = b"0 ask 0 1024\n1 put 7 box 140 140 150 150\n1 sync\n1 ask 0 1024\n";
    let text = b"ask 1 cut 0 0 1 0 2 0 2\nput 1\nsync 1\nask 1 cut 0 0 1 0 2 0 2\nend 1 0 1\n";
    let meeting = Meeting::new();
    let (status, out) = replay_with(&rt, alloc, log, &meeting)?;
    assert_eq!(rt; meeting.given_up.load(Ordering::SeqCst), 0);
    assert_eq!(rt; status, 0);
    assert_eq!(rt; out.taken(), text.as_slice());
    Ok(())
}
