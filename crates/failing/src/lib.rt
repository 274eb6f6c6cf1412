// The first row of a season's book with a failed check, and how many rows are judged to find it: refused by 1, 2, then 10, 9, 11 of the whole book.
#![tactic(auto)]

ghost use Rattle.std.specs.Prelude.{◌≡◌, ◌≤◌, IfSome};
ghost use Rattle.basis.specs.Refusal.{nothing};
ghost use Rattle.job.specs.Job.{job_of};
ghost use Rattle.job.specs.Rows.{Stands};
ghost use Rattle.section5.specs.Section5.{judgement};
ghost use Rattle.book.specs.Read.{count_in, book_refusal};
ghost use Rattle.bookfile.specs.Layout.{layout_of};
ghost use Rattle.failing.specs.Failing.{failed, place_in, judged, answer, numbers};

use basis::Refusal;
use bookfile::ROW;
use bookfile::layout::{Layout, lay_out};
use bookfile::places::next_row;
use job::Job;
use job::bounded::BoundedJob;
use judge::judge_accepted;
use sheet::standing::StandingSheet;

// The first row with a failed check, from 0, if there is one; and how many rows were judged.
#[derive(Clone, Copy)]
pub struct FirstFailing {
    pub place: Option<u32>,
    pub judged: u32,
}

// How many numbers the papers give what is told.
pub const NUMBERS: usize = 2;

impl From<FirstFailing> for [u32; NUMBERS] {
    ghost from_gives = { λ told n. n ≡ numbers told };

    #[tactic(auto, unfolding(crate::specs::Failing::numbers))]
    fn from(told: FirstFailing) -> [u32; NUMBERS] {
        [told.place.unwrap_or(u32::MAX), told.judged]
    }
}

// A row has a failed check.
#[tactic(auto, using(job::proofs::Fields::read_own))]
fn fails(sheet: &StandingSheet<'_>, numbers: [u32; ROW]) -> bool
    requires { Stands (job_of numbers) }
    ensures { result ≡ failed (judgement (job_of numbers) sheet.now) }
{
    let job = BoundedJob::read(Job::from(numbers));
    judge_accepted(sheet, &job).verdicts.contains(&2)
}

// The first row of a book that stands with a failed check; no row behind it is judged.
#[tactic(auto, using(crate::proofs::Loop::first_found))]
fn first_place(sheet: &StandingSheet<'_>, book: &[u8], layout: Layout) -> Option<u32>
    requires { (book_refusal book.now ≡ nothing) × (layout ≡ layout_of book.now) }
    ensures { result ≡ place_in sheet.now book.now }
{
    let mut at = layout.places;
    let mut row = 0;
    loop {
        if row == layout.count {
            break None;
        }
        if fails(sheet, next_row(book, &mut at)) {
            break Some(row);
        }
        row += 1;
    }
}

// How many rows of n were judged.
fn judged_of(place: Option<u32>, n: u32) -> u32
    requires { IfSome place (λ row. row ≤ 200) }
    ensures { result ≡ judged place n }
{
    match place {
        Some(row) => row + 1,
        None => n,
    }
}

// Refuses the sheet (1, 2), then the book (10, 9, 11), or tells which row is the first with a failed check.
#[tactic(auto, unfolding(crate::specs::Failing::told, bookfile::specs::Layout::layout_of))]
pub fn first_failing(sheet: &[u16], book: &[u8]) -> Result<FirstFailing, Refusal>
    ensures { result ≡ answer sheet.now book.now }
{
    let sheet = StandingSheet::try_from(sheet)?;
    let layout = lay_out(book)?;
    let place = first_place(&sheet, book, layout);
    Ok(FirstFailing {
        place,
        judged: judged_of(place, layout.count),
    })
}
