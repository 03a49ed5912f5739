// The requests that the words of a line spell.
ghost use Rattle.std.specs.Prelude.{◌≡◌, ◌↔◌, IsTrue, if◌then◌else◌};
ghost use Rattle.drm_shape.specs.Validity.{IsValid};
ghost use Rattle.drm_script.specs.Log.{HasValidShape, is_ask};
ghost use Rattle.drm_script.specs.Limits.{caller_limit};
ghost use Rattle.drm_script.specs.Reader.{Gives, unsigned_at};
ghost use Rattle.drm_script.specs.Reading.{ring_of, shape_of, element_at, joints_at, act_of, line_in};

use crate::fields::{ended, take_below, take_if, take_signed, take_slot, take_unsigned};
use crate::lists::take_many;
use crate::words::{WordFault, Words};
use drm_outside::List;
use drm_shape::{Ring, Shape};
use drm_talk::{Act, Element, Line};
use std::alloc::Global;

/// A ring has no more coordinates.
const RING_LIMIT: usize = 16;

/// The numbers of callers are below this.
const CALLERS: u64 = 8;

/// The line of a log that the words spell, for an arm with so many joints. Its shape may break a rule.
#[tactic(auto, unfolding(crate::specs::Reading::line_in))]
pub fn read_words(alloc: Global, words: &mut Words, joints: u32) -> Result<Line, WordFault>
    ensures line { Gives (λ line. line) result (line_in joints words.old.words) }
    ensures behind { words.new.behind ≡ words.old.behind }
{
    let caller = take_caller(words)?;
    let act = read_act(alloc, words, joints)?;
    Ok(Line { caller, act })
}

/// Says whether the shape of a request, if it has one, is valid.
pub fn has_valid_shape(act: &Act) -> bool
    ensures { IsTrue result ↔ HasValidShape act.now }
{
    match act {
        Act::Put(_, shape) => is_valid(shape),
        Act::Del(_) | Act::Count(_) | Act::Ask(..) | Act::Sync | Act::Tick => true,
    }
}

/// How many asks the request is.
pub fn asks_of(act: &Act) -> u32
    ensures { result ≡ if is_ask act.now then 1 else 0 }
{
    match act {
        Act::Ask(..) => 1,
        Act::Put(..) | Act::Del(_) | Act::Count(_) | Act::Sync | Act::Tick => 0,
    }
}

/// Says whether the planner takes this shape.
pub fn is_valid(shape: &Shape) -> bool
    ensures { IsTrue result ↔ IsValid shape.now }
{
    shape.check().is_ok()
}

fn take_caller(words: &mut Words) -> Result<u32, WordFault>
    ensures caller { Gives (λ caller. (caller, words.new.words)) result (unsigned_at caller_limit words.old.words) }
    ensures behind { words.new.behind ≡ words.old.behind }
{
    let caller = take_below(words, CALLERS)?;
    Ok(caller as u32)
}

#[tactic(auto, unfolding(crate::specs::Reading::act_of))]
fn read_act(alloc: Global, words: &mut Words, joints: u32) -> Result<Act, WordFault>
    ensures act { Gives (λ act. act) result (act_of joints words.old.words) }
    ensures behind { words.new.behind ≡ words.old.behind }
{
    if take_if(words, b"put") {
        let slot = take_slot(words)?;
        let shape = read_shape(words)?;
        return Ok(Act::Put(slot, shape));
    }
    if take_if(words, b"del") {
        let slot = take_slot(words)?;
        return ended(Act::Del(slot), words);
    }
    if take_if(words, b"count") {
        let element = take_element(words)?;
        return ended(Act::Count(element), words);
    }
    if take_if(words, b"ask") {
        let start = take_joints(alloc, words, joints)?;
        let goal = take_joints(alloc, words, joints)?;
        return ended(Act::Ask(start, goal), words);
    }
    if take_if(words, b"sync") {
        return ended(Act::Sync, words);
    }
    if take_if(words, b"tick") {
        return ended(Act::Tick, words);
    }
    Err(WordFault::Bad)
}

#[tactic(auto, unfolding(crate::specs::Reading::element_at))]
fn take_element(words: &mut Words) -> Result<Element, WordFault>
    ensures element { Gives (λ element. (element, words.new.words)) result (element_at words.old.words) }
    ensures behind { words.new.behind ≡ words.old.behind }
{
    if take_if(words, b"node") {
        return Ok(Element::Node(take_unsigned(words)?));
    }
    if take_if(words, b"edge") {
        return Ok(Element::Edge(take_unsigned(words)?));
    }
    Err(WordFault::Bad)
}

#[tactic(auto, unfolding(crate::specs::Reading::joints_at))]
fn take_joints(alloc: Global, words: &mut Words, joints: u32) -> Result<List<i32>, WordFault>
    ensures values { Gives (λ values. (values, words.new.words)) result (joints_at joints words.old.words) }
    ensures behind { words.new.behind ≡ words.old.behind }
{
    let values = take_many(alloc, words, u64::from(joints))?;
    Ok(List::from_vec(values))
}

#[tactic(auto, unfolding(crate::specs::Reading::shape_of))]
pub fn read_shape(words: &mut Words) -> Result<Shape, WordFault>
    ensures shape { Gives (λ shape. shape) result (shape_of words.old.words) }
    ensures behind { words.new.behind ≡ words.old.behind }
{
    if take_if(words, b"box") {
        let x0 = take_signed(words)?;
        let y0 = take_signed(words)?;
        let x1 = take_signed(words)?;
        let y1 = take_signed(words)?;
        return ended(Shape::Rect { x0, y0, x1, y1 }, words);
    }
    if take_if(words, b"disc") {
        let x = take_signed(words)?;
        let y = take_signed(words)?;
        let r = take_unsigned(words)?;
        return ended(Shape::Disc { x, y, r }, words);
    }
    if take_if(words, b"poly") {
        return Ok(Shape::Poly(read_ring(words)?));
    }
    Err(WordFault::Bad)
}

/// A ring, whose coordinates are all that is left of the line.
#[tactic(auto, unfolding(crate::specs::Reading::ring_of))]
fn read_ring(words: &mut Words) -> Result<Ring, WordFault>
    ensures ring { Gives (λ ring. ring) result (ring_of words.old.words) }
    ensures behind { words.new.behind ≡ words.old.behind }
{
    let mut xy = [0; RING_LIMIT];
    let mut count = 0;
    while !words.is_empty() {
        if count == RING_LIMIT {
            return Err(WordFault::Bad);
        }
        xy[count] = take_signed(words)?;
        count += 1;
    }
    match Ring::of(&xy[..count]) {
        Some(ring) => Ok(ring),
        None => Err(WordFault::Bad),
    }
}
