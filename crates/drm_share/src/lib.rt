//! A planner that many callers share: one history of edits, published to readers that take no lock.
//!
//! ```text
//!   a thread for each caller              Planner
//!   +- Pass ----------------+     +- lock -- Locked -------------------------+
//!   | own, share, front     |     |  Desk: writer, tail, made;   book, rest  |
//!   | reader                |     +------------|-----------------------------+
//!   +---|----------|--------+                  | changes the copy that is not shown, and swaps
//!       |          +- put, del, sync -> lock   v
//!       +- count, snap ---------> [ copy shown ]   [ other copy ]   each a State and its Reach
//! ```
//!
//! Who may call what, and under which lock:
//!
//! - **Under the lock of the desk**, one caller at a time: [`Pass::put`] and [`Pass::del`] add an entry to the history,
//!   and the writer publishes the state after it before the lock is left; [`Pass::sync`] looks at the history's end.
//! - **Without a lock**: [`Pass::count`] and [`Pass::snap`] enter the copy that is shown. The writer waits for those who
//!   are in the other copy before it changes it; a reader waits for nobody, and enters again where it is shown less than
//!   its caller has seen.
//! - **A pass is its caller's**: one thread uses it at a time, and there is one for each caller. All callers share the
//!   [`Planner`] by reference.
//! - **Before and after**: [`Opened::new`] makes both copies, [`Planner::new`] gives the planner its name and deals the
//!   passes. Whoever owns the planner and has all passes back calls [`Planner::close`] for the whole history, or
//!   [`Planner::end`].
//!
//! A pass never shows less than before. What it is told is so in the one history, of which each caller has seen a front.
#![tactic(auto)]

mod close;
mod desk;
mod fault;
mod laws;
mod locked;
mod name;
mod opened;
mod pass;
mod planner;
mod publish;
mod read;
mod rule;
mod shown;

pub use close::Close;
pub use desk::Desk;
pub use fault::EditFault;
pub use laws::passes_stay_one_each;
pub use name::PlannerName;
pub use opened::Opened;
pub use pass::Pass;
pub use planner::{Planner, Shared, Unclosed};

#[cfg(test)]
mod tests;
