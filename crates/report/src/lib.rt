// The report of a judgement: its length, and its bytes in the caller's buffer.
#![tactic(auto)]

ghost use Rattle.std.specs.Prelude.{◌≡◌, length};
ghost use Rattle.report.specs.Report.{report, report_written, report_left};

use crate::lengths::{checks_length, column_line_length, height_line_length, wind_line_length};
use crate::text::Text;
use basis::{Refusal, ensure};
use section5::Judgement;

mod lengths;
mod lines;
pub mod refusal;
mod text;

// A buffer of that length has room for the report of every accepted job, scaffold's or support's (specs/Enough.antt).
pub const ENOUGH: usize = 178;

// One of this length for that of every accepted support.
pub const SUPPORT_ENOUGH: usize = 127;

// How many bytes the report of a judgement has.
#[tactic(auto, unfolding(crate::specs::Report::report))]
fn report_length(g: Judgement) -> usize
    ensures { result ≡ length (report g) }
{
    let checks = checks_length(g.verdicts, g.figures);
    let height = height_line_length(g.heights);
    let wind = wind_line_length(g.wk, g.mw);
    checks + height + wind + column_line_length(g.z)
}

// Refuses a buffer that is too short (8), or writes the report at its front.
pub fn write(g: Judgement, out: &mut [u8]) -> Result<usize, Refusal>
    ensures returned { result ≡ report_written g out.old }
    ensures buffer { out.new ≡ report_left g out.old }
{
    let needed = report_length(g);
    // By `as`: the library has no From out of usize, nor into it from 32 bits or more.
    ensure(needed <= out.len(), Refusal::TooShort(needed as u64))?;
    let mut text = Text::new(out);
    text.report(g);
    Ok(text.at)
}
