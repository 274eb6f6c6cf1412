// Judging a formwork support under a column sheet: refused by 1, 2 and 3, or judged by clause 5.6.
#![tactic(auto)]

ghost use Rattle.std.specs.Prelude.{◌≡◌, ◌≤◌};
ghost use Rattle.basis.specs.Figure.{Is};
ghost use Rattle.section5.specs.Formwork.{judgement};
ghost use Rattle.calculation.specs.Bounded.{IsLoad};
ghost use Rattle.formwork.specs.Whole.{load, wk, column_slenderness, verdicts};
ghost use Rattle.formwork.specs.Answer.{answer};

use basis::Refusal;
use calculation::checks::{Ground, base_bears, verdict_of};
use calculation::columns::{Column, bears_of, bends_of, tube_column};
use calculation::constants::tube_radius;
use calculation::effects::Effects;
use calculation::figures::{rounded_tenths, wind_moment, wind_pressure};
use calculation::loads::{Load, force_of, force_wind_of};
use section5::{CHECKS, Heights, Judgement};
use sheet::slenderness::Slenderness;
use sheet::standing::StandingSheet;
use support::Support;
use support::bounded::BoundedSupport;

// What the pole carries, in 1/20,000 N.
fn load_of(s: &BoundedSupport) -> Load
    ensures { IsLoad result (load s.now) 1200000000 1200000000 }
{
    Load {
        dead: 20000 * u64::from(s.dead),
        live: 20000 * u64::from(s.live),
    }
}

// wk, N/m².
#[tactic(auto, using(basis::proofs::Fits::is_most, crate::proofs::Most::wk_most), unfolding(crate::specs::Whole::wk))]
fn pressure_of(s: &BoundedSupport) -> u64
    ensures { Is result (wk s.now) 17472 }
{
    wind_pressure(s.exposure, 100 * u64::from(s.shape), s.wind)
}

// Z, in tenths.
#[tactic(auto, using(calculation::proofs::Ceil::up), unfolding(crate::specs::Whole::column_tenths, crate::specs::Whole::column_slenderness))]
fn slenderness_of(s: &BoundedSupport) -> Slenderness
    ensures { result ≡ column_slenderness s.now }
{
    let length = u64::from(s.step) + 2 * u64::from(s.overhang);
    rounded_tenths((1000 * length).div_ceil(tube_radius(s.tube)))
}

// The row of twelve, the form that the paper requires, from the column and from Mw, N and Nw of the effects; 0 where a check does not apply.
#[tactic(auto, using(crate::proofs::Ways::rowed))]
fn verdicts_of(c: Column, s: &BoundedSupport, e: Effects) -> [u8; CHECKS]
    ensures { result ≡ verdicts c s.now e.mw e.n e.nw }
{
    let n = e.n;
    let v7 = verdict_of(bears_of(c, n));
    let v8 = verdict_of(bends_of(c, e.nw, e.mw));
    let v10 = verdict_of(base_bears(n));
    let ground = Ground {
        soil: s.soil,
        strength: s.strength,
        pad: s.pad,
    };
    let v11 = verdict_of(ground.bears(n));
    [0, 0, 0, 0, 0, 0, v7, v8, 0, v10, v11, 0]
}

// The judgement of a support under a sheet that stands; that nothing is refused of the support is not asked for.
pub fn judge_accepted_support(sheet: &StandingSheet<'_>, s: &BoundedSupport) -> Judgement
    ensures { result ≡ judgement s.now sheet.now }
{
    let wk = pressure_of(s);
    let mw = wind_moment(wk, s.bay, s.step);
    let z = slenderness_of(s);
    let c = tube_column(sheet, s.tube, z);
    let load = load_of(s);
    let n = force_of(load);
    let nw = force_wind_of(load);
    let e = Effects {
        wk,
        mw,
        n,
        nw,
        not_due: false,
    };
    Judgement {
        verdicts: verdicts_of(c, s, e),
        figures: [0, 0, 0, 0, 0, 0, e.n, e.nw, 0, e.n, e.n, 0],
        heights: Heights::NoLine,
        wk: e.wk,
        mw: e.mw,
        z: z.tenths,
    }
}

// Refuses the sheet (1, 2), then the support (3), or judges it; in a line of its own, as `judge` says.
pub fn judge_support(sheet: &[u16], s: Support) -> Result<Judgement, Refusal>
    ensures { result ≡ answer sheet.now s }
{
    Ok(judge_accepted_support(&sheet.try_into()?, &s.try_into()?))
}
