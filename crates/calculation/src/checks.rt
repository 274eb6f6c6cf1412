// The twelve checks, each as a verdict: 0 not due, 1 passes, 2 fails.
ghost use Rattle.std.specs.Prelude.{cond, ◌≡◌, ◌≤◌, ◌<◌};
ghost use Rattle.kinds.specs.Kinds.{soil_number};
ghost use Rattle.job.specs.Bounds.{Bounds};
ghost use Rattle.section5.specs.Section5.{verdict};
ghost use Rattle.calculation.specs.Whole.{deflects, check1, check2, check3, check4, check5, check6, check9, not_due, base_bears, ground_bears, verdict12, verdicts};

use crate::columns::{Column, bears_of, bends_of};
use crate::constants::{
    factor_of, modulus_of, slender_limit, soil_factor, stiffness_of, tube_radius,
};
use crate::effects::Effects;
use crate::figures::{
    face_of, ledger_load, ledger_moment, slip_of, tie_force, transom_load, transom_moment,
};
use job::Job;
use job::bounded::BoundedJob;
use kinds::{Enclosure, Soil};
use section5::{CHECKS, Heights};
use std::marker::Model;

// A verdict: 1 passes, 2 fails; a number, since the paper requires a row of them.
pub fn verdict_of(pass: bool) -> u8
    ensures { result ≡ verdict pass }
{
    if pass { 1 } else { 2 }
}

// 0 where a check is not due, as in the paper's row.
fn due_of(exempt: bool, v: u8) -> u8
    ensures { result ≡ cond exempt 0 v }
{
    if exempt { 0 } else { v }
}

// The span cancels in the first comparison, which would not fit 64 bits with it.
#[tactic(auto, using(crate::proofs::Limits::deflects_short))]
fn deflects_at(load: u64, span: u64, scale: u64) -> bool
    requires { (load ≤ 21000000000000000) × (0 < span) × (span ≤ 200) × (scale ≤ 107779200000000000) }
    ensures { result ≡ deflects load span scale }
{
    15 * load <= scale && load * span <= 10 * scale
}

fn check1_of(j: &BoundedJob) -> u8
    ensures { result ≡ verdict (check1 j.now) }
{
    verdict_of(transom_moment(j) <= 205 * modulus_of(j.tube))
}

fn check2_of(j: &BoundedJob) -> u8
    ensures { result ≡ verdict (check2 j.now) }
{
    let lb = u64::from(j.lb);
    verdict_of(deflects_at(transom_load(j), lb, 1536 * stiffness_of(j.tube)))
}

fn check3_of(j: &BoundedJob) -> u8
    ensures { result ≡ verdict (check3 j.now) }
{
    verdict_of(ledger_moment(j) <= 205 * modulus_of(j.tube))
}

fn check4_of(j: &BoundedJob) -> u8
    ensures { result ≡ verdict (check4 j.now) }
{
    let la = u64::from(j.la);
    verdict_of(deflects_at(ledger_load(j), la, 4000000 * stiffness_of(j.tube)))
}

fn check5_of(j: &BoundedJob) -> u8
    ensures { result ≡ verdict (check5 j.now) }
{
    verdict_of(slip_of(j) <= 8000)
}

fn check6_of(j: &BoundedJob) -> u8
    ensures { result ≡ verdict (check6 j.now) }
{
    let step = u64::from(j.step);
    let length = factor_of(j) * step;
    verdict_of(length <= slender_limit(j.family) * tube_radius(j.tube))
}

// Check 8 is not due (4.3.2).
pub fn check8_not_due(j: &BoundedJob) -> bool
    ensures { result ≡ not_due j.now }
{
    match j.enclosure {
        Enclosure::Open => j.wind <= 350 && face_of(j) <= 300000,
        Enclosure::HalfClosed | Enclosure::FullyClosed => false,
    }
}

// The same of a job as it was keyed in.
// requires: a caller shows the bounds by examining the job.
pub fn not_due_of(j: Job) -> bool
    requires { Bounds j }
    ensures { result ≡ not_due j }
{
    check8_not_due(&BoundedJob::read(j))
}

fn check9_of(j: &BoundedJob, e: Effects) -> u8
    ensures { result ≡ verdict (check9 j.now e.wk) }
{
    verdict_of(tie_force(j, e) <= u64::from(j.capacity))
}

// Check 10 of a force.
pub fn base_bears(n: u64) -> bool
    ensures { result ≡ base_bears n }
{
    n <= 40000
}

// What a pole stands on: soil, its strength in kPa, and the pad's area in cm².
#[derive(Clone, Copy)]
pub struct Ground {
    pub soil: Soil,
    pub strength: u32,
    pub pad: u32,
}

impl Model for Ground {
    ghost use Rattle.std.specs.Prelude.{◌≤◌, refl};
    ghost use Rattle.calculation.specs.Parts.{Ground};
    ghost use Rattle.kinds.specs.Kinds.{soil_number, soil_of, soil_back};

    ghost Value = { Ground };

    ghost view = { λ g. record { soil = soil_number g.soil; strength = g.strength; pad = g.pad } };

    ghost invariant = { λ g. (g.strength ≤ 2000) × (g.pad ≤ 10000) };

    ghost inverse = { λ g. record { soil = soil_of g.soil; strength = g.strength; pad = g.pad } };

    ghost inverse_ok = { λ g h. rw (soil_back g.soil) refl };
}

impl Ground {
    // Check 11 of a force.
    pub fn bears(self, n: u64) -> bool
        ensures { result ≡ ground_bears self.soil self.strength self.pad n }
    {
        n <= soil_factor(self.soil) * u64::from(self.strength) * u64::from(self.pad) / 100
    }
}

// The same of a soil's number, whatever it is.
// requires: a caller shows the bounds by examining the job or the support.
pub fn ground_bears(soil: u32, strength: u32, pad: u32, n: u64) -> bool
    requires { (strength ≤ 2000) × (pad ≤ 10000) }
    ensures { result ≡ ground_bears soil strength pad n }
{
    let ground = Ground {
        soil: Soil::from(soil),
        strength,
        pad,
    };
    ground.bears(n)
}

fn check11_of(j: &BoundedJob, e: Effects) -> u8
    ensures { result ≡ verdict (ground_bears j.now.soil j.now.strength j.now.pad e.n) }
{
    let ground = Ground {
        soil: j.soil,
        strength: j.strength,
        pad: j.pad,
    };
    verdict_of(ground.bears(e.n))
}

// Check 12, which fails where no height is reported; 0 where heights are not asked for.
fn check12_of(j: &BoundedJob, heights: Heights) -> u8
    ensures { result ≡ verdict12 j.now.height heights }
{
    match heights {
        Heights::NoLine => 0,
        Heights::Nowhere => verdict_of(false),
        Heights::Both(_, permitted) => verdict_of(u64::from(j.height) <= permitted),
    }
}

// The row of twelve numbers, the form that the paper requires.
pub fn verdicts_by_check(c: Column, j: &BoundedJob, e: Effects, heights: Heights) -> [u8; CHECKS]
    ensures { result ≡ verdicts c j.now e.wk e.mw e.n e.nw e.not_due heights }
{
    let n = e.n;
    let v1 = check1_of(j);
    let v2 = check2_of(j);
    let v3 = check3_of(j);
    let v4 = check4_of(j);
    let v5 = check5_of(j);
    let v6 = check6_of(j);
    let v7 = verdict_of(bears_of(c, n));
    let v8 = due_of(e.not_due, verdict_of(bends_of(c, e.nw, e.mw)));
    let v9 = check9_of(j, e);
    let v10 = verdict_of(base_bears(n));
    let v11 = check11_of(j, e);
    let v12 = check12_of(j, heights);
    [v1, v2, v3, v4, v5, v6, v7, v8, v9, v10, v11, v12]
}

// The same of a job as it was keyed in.
// requires: a caller shows the bounds by examining the job.
pub fn verdicts_of(c: Column, j: Job, e: Effects, heights: Heights) -> [u8; CHECKS]
    requires { Bounds j }
    ensures { result ≡ verdicts c j e.wk e.mw e.n e.nw e.not_due heights }
{
    verdicts_by_check(c, &BoundedJob::read(j), e, heights)
}
