//! The commands of the program: their words, and what a call of one ends with. A call ends with a status, with a text
//! that is written where it is done or refused, and with a note for a person where it is not done.
#![tactic(auto)]

mod command;
mod ending;
mod limits;
mod notes;
mod noting;
mod refusal;
mod status;
mod stop;

pub use command::{Form, ReplayWords, build_names, check_name, replay_words};
pub use ending::{End, finish};
pub use limits::{LOG_LIMIT, MAP_LIMIT, ROBOT_LIMIT};
pub use notes::{Notes, StdNotes};
pub use noting::tell;
pub use refusal::Refusal;
pub use stop::Stop;
