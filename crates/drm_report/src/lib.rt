//! What a right report is: the definitions that lines and replies are held to, over a whole report and for each caller of
//! it, and what follows from them.
//!
//! A reply that names a length tells of the front of the history that has this length, and of nothing else: its last
//! entry is the caller's edit, it is full, it lacks the slot, or so many cells are occupied after it. A report is right
//! where its accepted edits are one history, each named once; where every caller's numbers rise; and where each reply is
//! true of the front that it names.
#![tactic(auto)]

mod planned;

ghost use Rattle.drm_report.specs.Laws.{RightRepliesStayRight, RightRepliesGoOn, OneCallerAloneIsRight, GatheredRepliesAreRight, OneCallerIsExact, FullIsTheGreatestLength, FrontsEndWithTheirEntry, FrontsLackEmptySlots};

pub use planned::{
    gathered_answers_are_planned, planned_answers_are_truthful, planned_answers_go_on,
};

/// A law: a right reply stays right when the history goes on.
pub fn right_replies_stay_right()
    ensures { RightRepliesStayRight }
{}

/// A law: where a caller's replies are right over what it sees of the history, and one more of its lines is served,
/// they are right with the new reply over what it sees then. Other callers may have lengthened the history meanwhile.
pub fn right_replies_go_on()
    ensures { RightRepliesGoOn }
{}

/// A law: where one caller made all the edits of a legal history, the replies that are right over it are those of a
/// right report, and their numbers are exact.
pub fn one_caller_alone_is_right()
    ensures { OneCallerAloneIsRight }
{}

/// A law: where the replies to each of several callers are right over what that caller saw of one legal history, and all
/// edits of the history are theirs, all replies in the order of the log are those of a right report. Nothing is asked of
/// the order in which the callers were served.
pub fn gathered_replies_are_right()
    ensures { GatheredRepliesAreRight }
{}

/// A law: the numbers of a right report are exact where all its lines are one caller's.
pub fn one_caller_is_exact()
    ensures { OneCallerIsExact }
{}

/// A law: a right reply that the history is full names 65,536, and the whole history has this length.
pub fn full_is_the_greatest_length()
    ensures { FullIsTheGreatestLength }
{}

/// A law: what a front shows is what the whole history has at the front's length, an edit as its entry of this number
/// and an empty slot after so many entries.
pub fn fronts_show_what_stands_there()
    ensures edits { FrontsEndWithTheirEntry }
    ensures empty { FrontsLackEmptySlots }
{}
