// How many bytes each line of a report takes: the digits of its numbers, its word, spaces and line end.
ghost use Rattle.std.specs.Prelude.{◌*◌, length};
ghost use Rattle.basis.specs.Figure.{Is};
ghost use Rattle.section5.specs.Section5.{checks};
ghost use Rattle.report.specs.Report.{check_line, check_lines, height_line, wind_line, column_line};

use crate::text::digit_count;
use section5::{CHECKS, Heights};

#[tactic(auto, using(crate::proofs::LineLengths::check_line_length))]
fn check_length(check: u64, verdict: u64, figure: u64) -> usize
    ensures { Is result (length (check_line check verdict figure)) 63 }
{
    digit_count(check) + digit_count(verdict) + digit_count(figure) + 3
}

pub(crate) fn checks_length(verdicts: [u8; CHECKS], figures: [u64; CHECKS]) -> usize
    ensures { Is result (length (check_lines 1 verdicts figures)) (63 * checks) }
{
    (1..)
        .zip(verdicts.iter().zip(&figures))
        .map(|(check, (verdict, figure))| check_length(check, u64::from(*verdict), *figure))
        .sum()
}

#[tactic(auto, using(crate::proofs::LineLengths::pair_line_length), unfolding(crate::specs::Report::height_line))]
pub(crate) fn height_line_length(heights: Heights) -> usize
    ensures { Is result (length (height_line heights)) 49 }
{
    match heights {
        Heights::NoLine => 0,
        Heights::Nowhere => 12,
        Heights::Both(stability, permitted) => digit_count(stability) + digit_count(permitted) + 9,
    }
}

#[tactic(auto, using(crate::proofs::LineLengths::pair_line_length))]
pub(crate) fn wind_line_length(wk: u64, mw: u64) -> usize
    ensures { Is result (length (wind_line wk mw)) 47 }
{
    digit_count(wk) + digit_count(mw) + 7
}

#[tactic(auto, using(crate::proofs::LineLengths::column_line_length))]
pub(crate) fn column_line_length(z: u64) -> usize
    ensures { Is result (length (column_line z)) 28 }
{
    digit_count(z) + 8
}
