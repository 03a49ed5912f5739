//! The words of each command.

ghost use Rattle.std.specs.Prelude.{◌≡◌, ◌↔◌, IsTrue, IfSome, IsNone};
ghost use Rattle.drm_command.specs.Command.{Build, Check, Replay, IsCommand, IsNoBuild, IsNoCheck, IsNoReplay, IsName, IsTarget};

use drm_outside::Word;

/// In which form a report is written.
#[derive(Clone, Copy, Debug, PartialEq, Eq)]
pub enum Form {
    /// One short line for each reply.
    Brief,
    /// With the certificates of answers.
    Full,
}

/// What a replay is over, and how it is told.
#[derive(Clone, Copy, Debug, PartialEq, Eq)]
pub struct ReplayWords<'a> {
    /// The name of the map.
    pub map: &'a str,
    /// The form of the report.
    pub form: Form,
}

/// The names of the robot and the map, where the words are `build ROBOT MAP`. No name is empty, and MAP is not `sample`.
pub fn build_names(words: &[Word]) -> Option<(&str, &str)>
    ensures some { IfSome result (λ names. IsCommand words.now (Build names.0.now names.1.now)) }
    ensures none { IsNone result → IsNoBuild words.now }
{
    match words {
        [verb, robot, map] if is_word(verb, "build") && is_name(robot) && is_target(map) => {
            Some((robot.as_str(), map.as_str()))
        }
        _ => None,
    }
}

/// The name of the map, where the words are `check MAP`. It is not empty.
pub fn check_name(words: &[Word]) -> Option<&str>
    ensures some { IfSome result (λ map. IsCommand words.now (Check map.now)) }
    ensures none { IsNone result → IsNoCheck words.now }
{
    match words {
        [verb, map] if is_word(verb, "check") && is_name(map) => Some(map.as_str()),
        _ => None,
    }
}

/// The name of the map and the form of the report, where the words are `replay MAP brief` or `replay MAP full`. The name
/// is not empty.
pub fn replay_words(words: &[Word]) -> Option<ReplayWords<'_>>
    ensures some { IfSome result (λ x. IsCommand words.now (Replay x.map.now x.form)) }
    ensures none { IsNone result → IsNoReplay words.now }
{
    match words {
        [verb, map, form] if is_word(verb, "replay") && is_name(map) && is_word(form, "brief") => {
            Some(ReplayWords {
                map: map.as_str(),
                form: Form::Brief,
            })
        }
        [verb, map, form] if is_word(verb, "replay") && is_name(map) && is_word(form, "full") => {
            Some(ReplayWords {
                map: map.as_str(),
                form: Form::Full,
            })
        }
        _ => None,
    }
}

/// Says whether the word has this text.
fn is_word(word: &Word, text: &str) -> bool
    ensures { IsTrue result ↔ (word.now ≡ text.now) }
{
    word.as_str() == text
}

/// Says whether the word can be a name.
fn is_name(word: &Word) -> bool
    ensures { IsTrue result ↔ IsName word.now }
{
    !word.as_str().is_empty()
}

/// Says whether the word can be the name of a map that is saved.
fn is_target(word: &Word) -> bool
    ensures { IsTrue result ↔ IsTarget word.now }
{
    is_name(word) && !is_word(word, "sample")
}
