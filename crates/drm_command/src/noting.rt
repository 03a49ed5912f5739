//! The note for a person on what a call ended with. It takes memory for the reason of a fault alone, and is told without the
//! reason where there is none.

ghost use Rattle.std.specs.Prelude.{◌≡◌, ◌++◌, ◌⊎◌, flat_map, decimal, OnOk, OnErr, IsErr};
ghost use Rattle.std.specs.List.{concat};
ghost use Rattle.std.specs.Io.KnownBytes.{Appends};
ghost use Rattle.drm_outside.specs.Causes.{HasCause};
ghost use Rattle.drm_outside.specs.Writing.{AppendsPrefix};
ghost use Rattle.drm_mapfile.specs.FaultText.{fault_text as map_fault};
ghost use Rattle.drm_robot.specs.FaultText.{fault_text as robot_fault};
ghost use Rattle.drm_command.specs.Note.{IsTold, note_of, bare_note_of, stop_note, bare_stop_note, refusal_note, bare_refusal_note, reason_note, robot_note, map_note, line_note, long_file_note, long_log_note, long_lines_note, long_sweeps_note, lack_note, loose_note, usage, word_at, part_text, element_words};
ghost use Rattle.drm_command.specs.declared.ending.End.TheVariants.{Done};
ghost use Rattle.drm_command.specs.declared.refusal.Refusal.TheVariants.{NoMap, NoRobot};

use crate::ending::End;
use crate::limits::{LINE_LIMIT, LOG_LIMIT, MAP_LIMIT, ROBOT_LIMIT};
use crate::notes::Notes;
use crate::refusal::Refusal;
use crate::stop::Stop;
use drm_cellmap::MAX_ENTRIES;
use drm_mapfile::FileFault;
use drm_outside::{Failed, Word};
use drm_robot::RobotFault;
use drm_talk::Element;
use itoa::Buffer;
use std::alloc::Global;

/// A part of a note.
#[derive(Clone, Copy)]
enum Part<'a> {
    Text(&'a str),
    Number(u64),
}

use self::Part::{Number, Text};

/// Tells a person what a call with these words ended with, unless it was done. A fault of `notes` changes nothing else. Where
/// there is no memory for the reason why bytes are no robot or no map file, the note is told without it.
pub fn tell<N: Notes>(alloc: Global, end: &End, words: &[Word], notes: &mut N)
    ensures silent { end.now ≡ Done → notes.new ≡ notes.old }
    ensures told { IsTold (note_of end.now words.now)
        (N.taken notes.old) (N.taken notes.new) (N.faults notes.old) (N.faults notes.new)
        ⊎ IsTold (bare_note_of end.now words.now)
        (N.taken notes.old) (N.taken notes.new) (N.faults notes.old) (N.faults notes.new) }
{
    match end {
        End::Done => {}
        End::Stopped(stop) => tell_stop(alloc, stop, words, notes),
        End::Sink => put(
            notes,
            &[Text("drm_tool: standard output could not be written\n")],
        ),
    }
}

/// Tells why a call with these words stops short.
fn tell_stop<N: Notes>(alloc: Global, stop: &Stop, words: &[Word], notes: &mut N)
    ensures { IsTold (concat (stop_note stop.now words.now))
        (N.taken notes.old) (N.taken notes.new) (N.faults notes.old) (N.faults notes.new)
        ⊎ IsTold (concat (bare_stop_note stop.now words.now))
        (N.taken notes.old) (N.taken notes.new) (N.faults notes.old) (N.faults notes.new) }
{
    match stop {
        Stop::Refused(refusal) => tell_refusal(alloc, refusal, name_at(words, 1), notes),
        Stop::Load => {
            let name = name_at(words, 1);
            put(
                notes,
                &[
                    Text("drm_tool: \""),
                    Text(name),
                    Text("\" could not be loaded\n"),
                ],
            );
        }
        Stop::Save => {
            let name = name_at(words, 2);
            put(
                notes,
                &[
                    Text("drm_tool: \""),
                    Text(name),
                    Text("\" could not be saved\n"),
                ],
            );
        }
        Stop::Source => {
            put(
                notes,
                &[Text("drm_tool: the log could not be read from standard input\n")],
            );
        }
        Stop::Memory => put(notes, &[Text("drm_tool: there was not enough memory\n")]),
    }
}

/// Tells why a call is refused that was to load the name.
fn tell_refusal<N: Notes>(alloc: Global, refusal: &Refusal, name: &str, notes: &mut N)
    ensures { IsTold (concat (refusal_note refusal.now name.now))
        (N.taken notes.old) (N.taken notes.new) (N.faults notes.old) (N.faults notes.new)
        ⊎ IsTold (concat (bare_refusal_note refusal.now name.now))
        (N.taken notes.old) (N.taken notes.new) (N.faults notes.old) (N.faults notes.new) }
{
    match refusal {
        Refusal::NoCommand => tell_usage(notes),
        Refusal::NoRobot(fault) => tell_robot_fault(alloc, fault, name, notes),
        Refusal::NoMap(fault) => tell_map_fault(alloc, fault, name, notes),
        Refusal::NoLog(line) => tell_line(*line, " of the log is not in the grammar\n", notes),
        Refusal::Unserved(line) => tell_line(*line, " of the log is not served\n", notes),
        Refusal::LongRobot => {
            tell_long_file(
                name,
                "\" has more bytes than a robot may have, ",
                ROBOT_LIMIT,
                notes,
            );
        }
        Refusal::LongMap => {
            tell_long_file(
                name,
                "\" has more bytes than a map file may have, ",
                MAP_LIMIT,
                notes,
            );
        }
        Refusal::LongLog => tell_long_log(notes),
        Refusal::LongLines(lines) => tell_long_lines(*lines, notes),
        Refusal::LongSweeps(entries) => tell_long_sweeps(*entries, name, notes),
        Refusal::Lacks(element, cell) => {
            tell_lack(element, name, *cell, notes);
        }
        Refusal::Loose(element, cell) => {
            tell_loose(element, name, *cell, notes);
        }
    }
}

/// Tells the words of each command.
fn tell_usage<N: Notes>(notes: &mut N)
    ensures { IsTold (concat usage)
        (N.taken notes.old) (N.taken notes.new) (N.faults notes.old) (N.faults notes.new) }
{
    put(
        notes,
        &[
            Text("drm_tool: the words are none of these commands:\n"),
            Text(
                "drm_tool: build ROBOT MAP    builds the map of the robot in the file ROBOT, and saves it as MAP\n",
            ),
            Text("drm_tool: check MAP          judges the sweeps that are stored in the map\n"),
            Text("drm_tool: replay MAP brief   replays the log on standard input over the map\n"),
            Text("drm_tool: replay MAP full    the same, with the certificates of answers\n"),
        ],
    );
}

/// Tells what is said of a line of the log.
fn tell_line<N: Notes>(line: u32, what: &str, notes: &mut N)
    ensures { IsTold (concat (line_note line what.now))
        (N.taken notes.old) (N.taken notes.new) (N.faults notes.old) (N.faults notes.new) }
{
    put(
        notes,
        &[Text("drm_tool: line "), Number(u64::from(line)), Text(what)],
    );
}

/// Tells that the file of the name has more bytes than this limit.
fn tell_long_file<'x, N: Notes>(name: &'x str, what: &'x str, limit: u64, notes: &mut N)
    ensures { IsTold (concat (long_file_note name.now what.now limit))
        (N.taken notes.old) (N.taken notes.new) (N.faults notes.old) (N.faults notes.new) }
{
    put(
        notes,
        &[
            Text("drm_tool: \""),
            Text(name),
            Text(what),
            Number(limit),
            Text("\n"),
        ],
    );
}

/// Tells that the log has too many bytes.
fn tell_long_log<N: Notes>(notes: &mut N)
    ensures { IsTold (concat long_log_note)
        (N.taken notes.old) (N.taken notes.new) (N.faults notes.old) (N.faults notes.new) }
{
    put(
        notes,
        &[
            Text("drm_tool: the log has more bytes than a log may have, "),
            Number(LOG_LIMIT),
            Text("\n"),
        ],
    );
}

/// Tells that the log has too many lines.
fn tell_long_lines<N: Notes>(lines: u64, notes: &mut N)
    ensures { IsTold (concat (long_lines_note lines))
        (N.taken notes.old) (N.taken notes.new) (N.faults notes.old) (N.faults notes.new) }
{
    put(
        notes,
        &[
            Text("drm_tool: the log has "),
            Number(lines),
            Text(" lines, and may have "),
            Number(LINE_LIMIT),
            Text("\n"),
        ],
    );
}

/// Tells that the map of the robot of the name has too many cells.
fn tell_long_sweeps<N: Notes>(entries: u64, name: &str, notes: &mut N)
    ensures { IsTold (concat (long_sweeps_note entries name.now))
        (N.taken notes.old) (N.taken notes.new) (N.faults notes.old) (N.faults notes.new) }
{
    put(
        notes,
        &[
            Text("drm_tool: the map of \""),
            Text(name),
            Text("\" has "),
            Number(entries),
            Text(" cells in its sweeps, and may have "),
            Number(MAX_ENTRIES),
            Text("\n"),
        ],
    );
}

/// Tells which cell a stored sweep lacks.
fn tell_lack<N: Notes>(element: &Element, name: &str, cell: u32, notes: &mut N)
    ensures { IsTold (concat (lack_note element.now name.now cell))
        (N.taken notes.old) (N.taken notes.new) (N.faults notes.old) (N.faults notes.new) }
{
    let (kind, number) = words_of(element);
    put(
        notes,
        &[
            Text("drm_tool: the sweep of "),
            Text(kind),
            Number(number),
            Text(" in \""),
            Text(name),
            Text("\" lacks cell "),
            Number(u64::from(cell)),
            Text("\n"),
        ],
    );
}

/// Tells which cell of a stored sweep is not swept.
fn tell_loose<N: Notes>(element: &Element, name: &str, cell: u32, notes: &mut N)
    ensures { IsTold (concat (loose_note element.now name.now cell))
        (N.taken notes.old) (N.taken notes.new) (N.faults notes.old) (N.faults notes.new) }
{
    let (kind, number) = words_of(element);
    put(
        notes,
        &[
            Text("drm_tool: the sweep of "),
            Text(kind),
            Number(number),
            Text(" in \""),
            Text(name),
            Text("\" has cell "),
            Number(u64::from(cell)),
            Text(", which the arm does not sweep there\n"),
        ],
    );
}

/// Tells why the file of the name is no robot.
fn tell_robot_fault<N: Notes>(alloc: Global, fault: &RobotFault, name: &str, notes: &mut N)
    ensures { IsTold (concat (robot_note name.now (robot_fault fault.now)))
        (N.taken notes.old) (N.taken notes.new) (N.faults notes.old) (N.faults notes.new)
        ⊎ IsTold (concat (bare_refusal_note (NoRobot fault.now) name.now))
        (N.taken notes.old) (N.taken notes.new) (N.faults notes.old) (N.faults notes.new) }
{
    match fault.to_string(alloc) {
        Ok(reason) => tell_reason(name, "\" is no robot: ", reason.as_str(), notes),
        Err(_) => put(
            notes,
            &[Text("drm_tool: \""), Text(name), Text("\" is no robot\n")],
        ),
    }
}

/// Tells why the file of the name is no map file.
fn tell_map_fault<N: Notes>(alloc: Global, fault: &FileFault, name: &str, notes: &mut N)
    ensures { IsTold (concat (map_note name.now (map_fault fault.now)))
        (N.taken notes.old) (N.taken notes.new) (N.faults notes.old) (N.faults notes.new)
        ⊎ IsTold (concat (bare_refusal_note (NoMap fault.now) name.now))
        (N.taken notes.old) (N.taken notes.new) (N.faults notes.old) (N.faults notes.new) }
{
    match fault.to_string(alloc) {
        Ok(reason) => tell_reason(name, "\" is no map file: ", reason.as_str(), notes),
        Err(_) => put(
            notes,
            &[
                Text("drm_tool: \""),
                Text(name),
                Text("\" is no map file\n"),
            ],
        ),
    }
}

/// Tells what the file of the name is not, and why.
fn tell_reason<'x, N: Notes>(name: &'x str, what: &'x str, reason: &'x str, notes: &mut N)
    ensures { IsTold (concat (reason_note name.now what.now reason.now))
        (N.taken notes.old) (N.taken notes.new) (N.faults notes.old) (N.faults notes.new) }
{
    put(
        notes,
        &[
            Text("drm_tool: \""),
            Text(name),
            Text(what),
            Text(reason),
            Text("\n"),
        ],
    );
}

/// The kind of the element, and its number.
fn words_of(element: &Element) -> (&'static str, u64)
    ensures { result.0.now ++ decimal result.1 ≡ element_words element.now }
{
    match element {
        Element::Node(number) => ("node ", u64::from(*number)),
        Element::Edge(number) => ("edge ", u64::from(*number)),
    }
}

/// The word at the place, which is empty where there is none.
fn name_at(words: &[Word], place: usize) -> &str
    ensures { result.now ≡ word_at place words.now }
{
    match words.get(place) {
        Some(word) => word.as_str(),
        None => "",
    }
}

/// Hands the parts to `notes`, one after another, up to the first at which they fail.
fn put<N: Notes>(notes: &mut N, parts: &[Part<'_>])
    ensures { IsTold (flat_map part_text parts.now)
        (N.taken notes.old) (N.taken notes.new) (N.faults notes.old) (N.faults notes.new) }
{
    for i in 0..parts.len() {
        if put_part(notes, &parts[i]).is_err() {
            return;
        }
    }
}

/// Hands the part to `notes`.
fn put_part<N: Notes>(notes: &mut N, part: &Part<'_>) -> Result<(), Failed>
    ensures ok { OnOk result (Appends (N.taken notes.old) (N.taken notes.new) (part_text part.now)) }
    ensures err { OnErr result (AppendsPrefix (N.taken notes.old) (N.taken notes.new) (part_text part.now)) }
    ensures cause { HasCause (IsErr result) (N.faults notes.old) (N.faults notes.new) }
{
    match part {
        Text(text) => notes.note(text),
        Number(number) => notes.note(Buffer::new().format(*number)),
    }
}
