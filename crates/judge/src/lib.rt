// Judging a job under a column sheet: refused by 1 to 5, or judged by section 5.
#![tactic(auto)]

ghost use Rattle.std.specs.Prelude.{◌≡◌};
ghost use Rattle.section5.specs.Section5.{judgement};
ghost use Rattle.judge.specs.Answer.{answer};

use basis::Refusal;
use calculation::checks::verdicts_by_check;
use calculation::columns::tube_column;
use calculation::effects::effects_of;
use calculation::figures::{figures_by_check, pole_slenderness};
use calculation::heights::{Pole, family_heights};
use calculation::loads::pole_load;
use job::Job;
use job::bounded::BoundedJob;
use section5::Judgement;
use sheet::standing::StandingSheet;

// The judgement of a job under a sheet that stands; that nothing is refused of the job is not asked for.
pub fn judge_accepted(sheet: &StandingSheet<'_>, j: &BoundedJob) -> Judgement
    ensures { result ≡ judgement j.now sheet.now }
{
    let e = effects_of(j);
    let z = pole_slenderness(j);
    let c = tube_column(sheet, j.tube, z);
    let pole = Pole {
        column: c,
        load: pole_load(j),
        weight: j.weight,
    };
    let heights = family_heights(j.family, pole.height_count(e.mw, e.not_due));
    Judgement {
        verdicts: verdicts_by_check(c, j, e, heights),
        figures: figures_by_check(j, e, heights),
        heights,
        wk: e.wk,
        mw: e.mw,
        z: z.tenths,
    }
}

// Refuses the sheet (1, 2), then the job (3, 4, 5), or judges it. A trait that joins this line with `judge_support`'s was tried: it takes 28 lines of code and 8 of clauses more, and a type to mark each kind.
pub fn judge(sheet: &[u16], j: Job) -> Result<Judgement, Refusal>
    ensures { result ≡ answer sheet.now j }
{
    Ok(judge_accepted(&sheet.try_into()?, &j.try_into()?))
}
