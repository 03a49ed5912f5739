//! Which lines of a log the program serves.

ghost use Rattle.std.specs.Prelude.{◌≤◌, ◌↔◌, IsTrue, All, MatchOption, length};
ghost use Rattle.drm_script.specs.Limits.{line_limit};
ghost use Rattle.drm_tool.specs.Served.{IsServed, IsFirstUnserved};

use drm_talk::{Act, Line};

/// The number, counted from 1, of the first line that is not served. `None` where all are.
pub fn first_unserved(lines: &[Line]) -> Option<u32>
    requires { length lines.now ≤ line_limit }
    ensures { MatchOption result (All IsServed lines.now) (IsFirstUnserved lines.now) }
{
    for i in 0..lines.len() {
        if !is_served(&lines[i]) {
            return Some(i as u32 + 1);
        }
    }
    None
}

/// Says whether the line is served: each is but a tick, whoever the caller is.
fn is_served(line: &Line) -> bool
    ensures { IsTrue result ↔ IsServed line.now }
{
    match &line.act {
        Act::Put(_, _) | Act::Del(_) | Act::Count(_) | Act::Ask(_, _) | Act::Sync => true,
        Act::Tick => false,
    }
}
