// Reading a report: one reply from each line but the last, which is the end line.
ghost use Rattle.std.specs.Prelude.{ℕ, ◌≡◌, ◌<◌, ◌-◌, ◌^◌, List as Row, length, IfOk, IfErr, MatchResult};
ghost use Rattle.drm_talk.specs.declared.Report.{Report as report_value};
ghost use Rattle.drm_script.specs.Front.{BeginsWith, BeginsWithNone};
ghost use Rattle.drm_script.specs.Report.{IsReport, StopsReport};
ghost use Rattle.drm_script.specs.ReportReading.{report_line_text, IsReportLine};
ghost use Rattle.drm_script.specs.declared.words.WordFault.TheVariants.{Bad as bad};
ghost use Rattle.drm_script.specs.declared.ReportFault.TheVariants.{Memory as no_memory};

use crate::ReportFault;
use crate::replies::{ReportLine, read_report_words, shows_valid_shape};
use crate::words::{WordFault, Words};
use drm_outside::List;
use drm_talk::Report;
use std::alloc::Global;

/// The report whose full text this is. Any other error than memory names the first line that a report may not have
/// there.
///
/// Where the end line is missing, the place at which it would stand is named. Bytes after the last line feed are a
/// line that is none. There must be fewer than 2^32 - 1 bytes.
pub fn read_report(alloc: Global, bytes: &[u8]) -> Result<Report, ReportFault>
    requires { length bytes.now < 2 ^ 32 - 1 }
    // What is read is spelled so.
    ensures report { IfOk result (λ report. IsReport bytes.now report) }
    // What is spelled so is read, unless memory runs out.
    ensures again { (report : report_value) → IsReport bytes.now report
        → MatchResult result (λ found. found ≡ report) (λ fault. fault ≡ no_memory) }
    ensures fault { IfErr result (λ fault. StopsReport fault bytes.now) }
{
    let mut replies = Vec::new(alloc);
    let mut rest = bytes;
    loop {
        let (line, after) = match read_line(alloc, rest) {
            Ok(found) => found,
            Err(WordFault::Bad) => return Err(ReportFault::Line(replies.len() as u32 + 1)),
            Err(WordFault::Memory) => return Err(ReportFault::Memory),
        };
        match line {
            ReportLine::Reply(reply) => replies.push(reply)?,
            ReportLine::End {
                number,
                nodes,
                edges,
            } => {
                if !after.is_empty() {
                    return Err(ReportFault::Line(replies.len() as u32 + 2));
                }
                return Ok(Report {
                    replies: List::from_vec(replies),
                    number,
                    nodes,
                    edges,
                });
            }
        }
        rest = after;
    }
}

/// No bytes are the full text of two reports.
pub fn reports_read_one_way()
    ensures { (bytes : Row ℕ) (report other : report_value) →
        IsReport bytes report → IsReport bytes other → report ≡ other }
{}

/// The first line, and the bytes after it.
fn read_line(alloc: Global, bytes: &[u8]) -> Result<(ReportLine, &[u8]), WordFault>
    ensures line { IfOk result (λ found. BeginsWith report_line_text IsReportLine bytes.now found.0 found.1.now) }
    ensures none { IfErr result (λ fault. fault ≡ bad → BeginsWithNone report_line_text IsReportLine bytes.now) }
{
    let mut words = Words::of(bytes);
    let found = read_report_words(alloc, &mut words)?;
    let Some(rest) = words.behind() else {
        return Err(WordFault::Bad);
    };
    if !shows_valid_shape(&found) {
        return Err(WordFault::Bad);
    }
    Ok((found, rest))
}
