//! Reports whose asks are answered by the plan: as the history goes on, gathered from several callers, and what they are worth.

ghost use Rattle.drm_report.specs.PlannedLaws.{PlannedAnswersGoOn, GatheredAnswersArePlanned, PlannedAnswersAreTruthful};

use drm_plan::{plans_are_right, right_answers_are_truthful};

/// The law that where a caller's asks are answered by the plan over what it sees of the history, and one more of its lines
/// is served, by the plan if it is an ask, they are with the new reply over what it sees then.
pub fn planned_answers_go_on()
    ensures { PlannedAnswersGoOn }
{}

/// The law that where each caller's asks are answered by the plan over what it saw of one history, all asks of the log are
/// over that history: each answer is the plan after the length that its reply names.
pub fn gathered_answers_are_planned()
    ensures { GatheredAnswersArePlanned }
{}

/// The law that where right replies answer all asks by the plan, each answer tells what is true of the obstacles that stand
/// after the length that its reply names.
pub fn planned_answers_are_truthful()
    ensures { PlannedAnswersAreTruthful }
{
    plans_are_right();
    right_answers_are_truthful();
}
