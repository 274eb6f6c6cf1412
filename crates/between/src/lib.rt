// What holds of every job between a mild and a harsh one under a column sheet: refused by 1 to 5 and 12, or told for each check.
#![tactic(auto)]

mod order;

ghost use Rattle.std.specs.Prelude.{◌≡◌, ◌≤◌, Ok};
ghost use Rattle.basis.specs.Refusal.{first, place};
ghost use Rattle.between.specs.Outcome.{number as number_of, outcome, outcomes};
ghost use Rattle.job.specs.Examine.{examination};
ghost use Rattle.judge.specs.Answer.{stability_told};
ghost use Rattle.between.specs.Between.{after_mild, of_harsh, told, answer, height_number, numbers};
ghost use Rattle.between.specs.Bounded.{Low};

use basis::Refusal;
use job::Job;
use job::bounded::BoundedJob;
use judge::judge_accepted;
use section5::{CHECKS, Heights, Judgement};
use sheet::standing::StandingSheet;
use std::array;

// What is said of a check, of all jobs between the two ends.
#[derive(Clone, Copy, Debug, PartialEq, Eq)]
pub enum Outcome {
    PassesThroughout,
    FailsThroughout,
    Undecided,
}

impl Outcome {
    // The number that the papers give it.
    pub fn number(self) -> u32
        ensures { result ≡ number_of self }
    {
        match self {
            Outcome::PassesThroughout => 1,
            Outcome::FailsThroughout => 2,
            Outcome::Undecided => 3,
        }
    }
}

// What is told of two ends: each check's outcome, and the stability heights of the mild and of the harsh end, cm.
#[derive(Clone, Copy)]
pub struct Between {
    pub outcomes: [Outcome; CHECKS],
    pub mild: Option<u32>,
    pub harsh: Option<u32>,
}

// How many numbers the papers give what is told: one for each check, and two heights.
pub const NUMBERS: usize = 14;

// The number of a stability height, none being the greatest of 32 bits.
fn height_number(height: Option<u32>) -> u32
    ensures { result ≡ height_number height }
{
    height.unwrap_or(u32::MAX)
}

impl From<Between> for [u32; NUMBERS] {
    ghost from_gives = { λ b n. n ≡ numbers b };

    #[tactic(auto, unfolding(crate::specs::Between::numbers))]
    fn from(b: Between) -> [u32; NUMBERS] {
        let o = b.outcomes;
        [
            o[0].number(),
            o[1].number(),
            o[2].number(),
            o[3].number(),
            o[4].number(),
            o[5].number(),
            o[6].number(),
            o[7].number(),
            o[8].number(),
            o[9].number(),
            o[10].number(),
            o[11].number(),
            height_number(b.mild),
            height_number(b.harsh),
        ]
    }
}

// Of the verdicts of the mild and of the harsh end.
fn outcome_of(mild: u8, harsh: u8) -> Outcome
    ensures { result ≡ outcome mild harsh }
{
    match (mild, harsh) {
        (2, _) => Outcome::FailsThroughout,
        (_, 2) => Outcome::Undecided,
        _ => Outcome::PassesThroughout,
    }
}

fn outcomes_of(mild: [u8; CHECKS], harsh: [u8; CHECKS]) -> [Outcome; CHECKS]
    ensures { result ≡ outcomes mild harsh }
{
    array::from_fn(|i| outcome_of(mild[i], harsh[i]))
}

// The stability height, if there is one.
fn height_of(heights: Heights) -> Option<u32>
    requires { Low heights }
    ensures { result ≡ stability_told heights }
{
    match heights {
        Heights::Both(stability, _) => Some(stability as u32),
        _ => None,
    }
}

// Of the judgements of the two ends.
fn told_of(mild: Judgement, harsh: Judgement) -> Between
    requires { Low mild.heights × Low harsh.heights }
    ensures { result ≡ told mild harsh }
{
    Between {
        outcomes: outcomes_of(mild.verdicts, harsh.verdicts),
        mild: height_of(mild.heights),
        harsh: height_of(harsh.heights),
    }
}

// A refusal of the harsh job, whose fields count on from the mild one's 25.
fn moved(refusal: Refusal) -> Refusal
    requires { place refusal ≤ 25 }
    ensures { result ≡ after_mild refusal }
{
    match refusal {
        Refusal::FieldRange(place) => Refusal::FieldRange(place + 25),
        Refusal::Contradiction(place) => Refusal::Contradiction(place + 25),
        Refusal::UnfitWall(place) => Refusal::UnfitWall(place + 25),
        other => other,
    }
}

// The harsh job, or what is refused of it.
#[tactic(auto, unfolding(crate::specs::Between::of_harsh))]
fn harsh_of(harsh: Job) -> Result<BoundedJob, Refusal>
    ensures { result ≡ first (of_harsh (examination harsh)) (Ok harsh) }
{
    match BoundedJob::try_from(harsh) {
        Ok(k) => Ok(k),
        Err(refusal) => Err(moved(refusal)),
    }
}

// Refuses the sheet (1, 2), the mild job (3, 4, 5), the harsh job (the same, its places 25 higher) and their order (12), or tells what holds between them.
pub fn judge_between(sheet: &[u16], mild: Job, harsh: Job) -> Result<Between, Refusal>
    ensures { result ≡ answer sheet.now mild harsh }
{
    let sheet = StandingSheet::try_from(sheet)?;
    let m = BoundedJob::try_from(mild)?;
    let k = harsh_of(harsh)?;
    order::examine(&mild, &harsh)?;
    Ok(told_of(judge_accepted(&sheet, &m), judge_accepted(&sheet, &k)))
}
