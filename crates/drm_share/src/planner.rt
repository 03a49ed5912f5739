//! The planner.

ghost use Rattle.std.specs.Prelude.{◌≡◌, ◌≤◌, [], IfErr, IfOk, Some, drop, map, vec_capacity};
ghost use Rattle.std.specs.Arc.{arc_value};
ghost use Rattle.std.specs.List.{range_with_len};
ghost use Rattle.left_right.specs.Sides.{view};
ghost use Rattle.drm_after.specs.After.{IsSnapAfter};
ghost use Rattle.drm_share.specs.Closing.{AreOneEach, Closes};
ghost use Rattle.drm_share.specs.Limits.{most_callers};
ghost use Rattle.drm_share.specs.Seen.{fresh};

use crate::close::{Close, settle};
use crate::locked::Locked;
use crate::opened::reader;
use crate::rule::ShownWriter;
use crate::{Desk, Opened, Pass, PlannerName};
use drm_cellmap::Map;
use drm_history::Front;
use drm_outside::{List, Memory};
use std::alloc::Global;
use std::sync::ledger::{Blank, Share};
use std::sync::{Arc, Mutex, Wait};
use std::thread::Threads;

/// A planner that threads share by reference: its desk behind a lock, and its map.
pub struct Planner<L: PlannerName> {
    pub(crate) desk: Mutex<Locked<L>>,
    pub(crate) map: Arc<Map>,
    ghost map_is: { arc_value map ≡ L.map },
}

/// A planner with its passes: pass i is that of caller i.
pub struct Shared<L: PlannerName> {
    /// The planner.
    pub planner: Planner<L>,
    /// One pass for each caller, in order.
    pub passes: List<Pass<L>>,
}

/// A planner that could not be closed for want of memory, with its passes.
pub struct Unclosed<L: PlannerName> {
    /// The planner. Its history is as it was.
    pub planner: Planner<L>,
    /// The passes, as they were.
    pub passes: List<Pass<L>>,
}

impl<L: PlannerName> Planner<L> {
    /// The planner that was opened, under the name L, with a pass for each caller, none of which has seen or made anything.
    pub fn new<R: Threads + Wait + Sync>(
        rt: &R,
        alloc: Global,
        blank: Blank,
        opened: Opened,
    ) -> Result<Shared<L>, Memory>
        requires name { blank.name ≡ L.name }
        requires parts { blank.parts ≡ L.parts }
        requires callers { opened.callers ≡ L.parts }
        requires book { opened.book ≡ L.book }
        requires map { opened.map ≡ L.map }
        ensures passes { IfOk result (λ shared. shared.passes ≡ map fresh (range_with_len 0 L.parts)) }
        ensures one_each { IfOk result (λ shared. AreOneEach L.parts shared.passes) }
    {
        let Opened {
            origin,
            mut writer,
            map,
            callers,
        } = opened;
        let Ok(room) = Vec::with_capacity(alloc, callers as usize) else {
            writer.take(rt);
            return Err(Memory);
        };
        let (book, mut rest) = blank.open::<L>();
        let tail = origin.named::<L>();
        let passes = deal(rt, room, &mut writer, &mut rest, &tail.front(), callers);
        let desk = Mutex::new(Locked {
            desk: Desk {
                writer,
                tail,
                made: [0; 8],
            },
            book,
            rest,
        });
        Ok(Shared {
            planner: Planner { desk, map },
            passes: List::from_vec(passes),
        })
    }

    /// The map.
    pub fn map(&self) -> &Map
        ensures { result.now ≡ L.map }
    {
        &self.map
    }

    /// Ends the planner, and gives the whole history: every front that a pass has seen begins it, and each caller's entries
    /// in it are exactly the edits that its pass was told of, at the numbers told.
    ///
    /// At `Unclosed` there was no memory for the history or the snapshot of it; all is handed back as it was.
    pub fn close<R: Threads + Wait + Sync>(
        self,
        rt: &R,
        alloc: Global,
        passes: List<Pass<L>>,
    ) -> Result<Close, Unclosed<L>>
        requires { AreOneEach L.parts passes }
        ensures closed { IfOk result (λ close. Closes passes close.journal) }
        ensures last { IfOk result (λ close. IsSnapAfter L.map close.journal close.last) }
        ensures back { IfErr result (λ unclosed. unclosed.passes ≡ passes) }
    {
        let Planner { desk, map } = self;
        let locked = desk.into_inner();
        let Ok(close) = Close::of(alloc, &locked) else {
            let planner = Planner {
                desk: Mutex::new(locked),
                map,
            };
            return Err(Unclosed { planner, passes });
        };
        settle(rt, locked, passes.into_vec());
        Ok(close)
    }

    /// Ends the planner without its history. It takes no memory.
    pub fn end<R: Threads + Wait + Sync>(self, rt: &R, passes: List<Pass<L>>) {
        let Planner { desk, map: _map } = self;
        let Locked {
            desk,
            book: _book,
            rest: _rest,
        } = desk.into_inner();
        let Desk {
            writer,
            tail: _tail,
            made: _,
        } = desk;
        writer.take(rt);
        drop(passes);
    }
}

/// A pass for each caller, in order.
fn deal<L: PlannerName, R: Wait>(
    rt: &R,
    room: Vec<Pass<L>>,
    writer: &mut ShownWriter,
    rest: &mut Share<L>,
    front: &Front<L>,
    callers: u32,
) -> Vec<Pass<L>>
    requires none_yet { room.items ≡ [] }
    requires room { callers ≤ vec_capacity room }
    requires known { view writer.old.desk.place ≡ Some (record { origin = L.book; map = L.map }) }
    requires parts { rest.old.parts ≡ callers }
    requires amount { rest.old.amount ≡ 0 }
    requires front { front.now ≡ [] }
    requires few { callers ≤ most_callers }
    ensures passes { result.items ≡ map fresh (range_with_len 0 callers) }
    ensures shown { writer.new.desk.shown.value ≡ writer.old.desk.shown.value }
    ensures pending { drop writer.new.behind writer.new.log.items ≡ drop writer.old.behind writer.old.log.items }
    ensures parts { rest.new.parts ≡ 0 }
    ensures amount { rest.new.amount ≡ 0 }
{
    let alloc = *room.allocator();
    let mut passes = room;
    for caller in 0..callers {
        let reader = reader(rt, writer);
        passes.push_reserved(Pass {
            reader,
            caller,
            share: rest.split_off(1, 0),
            own: Vec::new(alloc),
            front: front.again(),
        });
    }
    passes
}
