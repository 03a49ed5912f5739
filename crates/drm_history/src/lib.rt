//! One history of edits that only grows: its end, which one value owns, and the fronts of it that others have seen.
#![tactic(auto)]

mod book;
mod front;
mod origin;
mod reach;
mod tail;

pub use book::Naming;
pub use front::Front;
pub use origin::Origin;
pub use reach::Reach;
pub use tail::Tail;
