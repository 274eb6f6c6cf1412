// The figures of a job, in whole numbers; each fits 64 bits with room to spare.
ghost use Rattle.std.specs.Prelude.{◌≡◌, ◌≤◌};
ghost use Rattle.basis.specs.Figure.{Is};
ghost use Rattle.kinds.specs.Kinds.{enclosure_number, wall_number};
ghost use Rattle.job.specs.Bounds.{Bounds};
ghost use Rattle.calculation.specs.Whole.{shape, wind_pressure, wind_moment, figures, rounded_tenths, column_slenderness, slenderness, transom_moment, transom_load, transom_deflection, ledger_moment, ledger_load, ledger_deflection, slip, face, tie_force, figure12};

use crate::constants::{board_of, factor_of, shape_unit, stiffness_of, tie_base, tube_radius};
use crate::effects::Effects;
use job::Job;
use job::bounded::BoundedJob;
use kinds::{Enclosure, Wall};
use section5::{CHECKS, Heights};
use sheet::slenderness::Slenderness;

// The shape factor, 1/100,000.
// requires: effects_of shows the bound from its job.
pub fn enclosure_shape(enclosure: Enclosure, wall: Wall, shield: u32) -> u64
    requires { shield ≤ 2000 }
    ensures { Is result (shape (enclosure_number enclosure) (wall_number wall) shield) 312000 }
{
    shape_unit(enclosure, wall) * u64::from(shield)
}

// The same of an enclosure's and a wall's number, whatever they are.
// requires: a caller shows the bound by examining the job.
pub fn shape_of(enclosure: u32, wall: u32, shield: u32) -> u64
    requires { shield ≤ 2000 }
    ensures { Is result (shape enclosure wall shield) 312000 }
{
    enclosure_shape(Enclosure::from(enclosure), Wall::from(wall), shield)
}

// wk, N/m², of height factor, shape and basic wind.
// requires: effects_of shows the bounds from its job, formwork from its support.
#[tactic(auto, using(basis::proofs::Fits::is_most, crate::proofs::Ceil::up, crate::proofs::Most::wind_pressure_most), unfolding(crate::specs::Whole::wind_pressure))]
pub fn wind_pressure(exposure: u32, shape: u64, wind: u32) -> u64
    requires { (exposure ≤ 4000) × (shape ≤ 312000) × (wind ≤ 2000) }
    ensures { Is result (wind_pressure exposure shape wind) 17472 }
{
    let exposure = u64::from(exposure);
    let wind = u64::from(wind);
    (7 * exposure * shape * wind).div_ceil(1000000000)
}

// Mw, N·mm, of wk, bay and step.
// requires: effects_of shows the bounds from its job, formwork from its support.
pub fn wind_moment(w: u64, la: u32, step: u32) -> u64
    requires { (w ≤ 17472) × (la ≤ 200) × (step ≤ 200) }
    ensures { Is result (wind_moment w la step) 17000000 }
{
    let la = u64::from(la);
    let step = u64::from(step);
    (119 * w * la * (step * step)).div_ceil(1000000)
}

// A slenderness in tenths, above 250.0 up to a whole number.
// requires: pole_slenderness shows it of an accepted job, formwork of an accepted support.
#[tactic(auto, using(crate::proofs::Ceil::up, crate::proofs::Slenderness::rounded_tenths_fine, crate::proofs::Slenderness::rounded_tenths_coarse))]
pub fn rounded_tenths(t: u64) -> Slenderness
    requires { t ≤ 2930 }
    ensures { result ≡ rounded_tenths t }
{
    if t <= 2500 {
        return Slenderness { tenths: t };
    }
    Slenderness {
        tenths: 10 * t.div_ceil(10),
    }
}

// Z, in tenths.
#[tactic(auto, using(crate::proofs::Ceil::up), unfolding(crate::specs::Whole::column_tenths, crate::specs::Whole::column_slenderness))]
pub fn pole_slenderness(j: &BoundedJob) -> Slenderness
    ensures { result ≡ column_slenderness j.now }
{
    let step = u64::from(j.step);
    let tenths = (1155 * factor_of(j) * step).div_ceil(100 * tube_radius(j.tube));
    rounded_tenths(tenths)
}

// The same of a job as it was keyed in.
// requires: a caller shows the bounds by examining the job.
pub fn column_slenderness(j: Job) -> Slenderness
    requires { Bounds j }
    ensures { result ≡ column_slenderness j }
{
    pole_slenderness(&BoundedJob::read(j))
}

// The slenderness of check 6, up.
#[tactic(auto, using(crate::proofs::Ceil::up), unfolding(crate::specs::Whole::slenderness))]
fn slenderness_of(j: &BoundedJob) -> u64
    ensures { result ≡ slenderness j.now }
{
    let step = u64::from(j.step);
    (factor_of(j) * step).div_ceil(tube_radius(j.tube))
}

pub(crate) fn transom_moment(j: &BoundedJob) -> u64
    ensures { Is result (transom_moment j.now) 4400000 }
{
    let lb = u64::from(j.lb);
    let q = u64::from(j.q);
    let la = u64::from(j.la);
    ((12 * board_of(j.boards) + 14 * q) * la * (lb * lb)).div_ceil(160000)
}

pub(crate) fn transom_load(j: &BoundedJob) -> u64
    ensures { Is result (transom_load j.now) 8000000000000 }
{
    let lb = u64::from(j.lb);
    let q = u64::from(j.q);
    let la = u64::from(j.la);
    (board_of(j.boards) + q) * la * (lb * lb * lb)
}

// The transom's deflection, µm.
#[tactic(auto, using(crate::proofs::Ceil::up), unfolding(crate::specs::Whole::transom_deflection))]
fn transom_deflection(j: &BoundedJob) -> u64
    ensures { result ≡ transom_deflection j.now }
{
    let lb = u64::from(j.lb);
    (1000 * (transom_load(j) * lb)).div_ceil(1536 * stiffness_of(j.tube))
}

pub(crate) fn ledger_moment(j: &BoundedJob) -> u64
    ensures { Is result (ledger_moment j.now) 5000000 }
{
    let la = u64::from(j.la);
    let q = u64::from(j.q);
    let lb = u64::from(j.lb);
    ((2100 * board_of(j.boards) + 2982 * q) * (la * la) * lb).div_ceil(40000000)
}

pub(crate) fn ledger_load(j: &BoundedJob) -> u64
    ensures { Is result (ledger_load j.now) 21000000000000000 }
{
    let la = u64::from(j.la);
    let q = u64::from(j.q);
    let lb = u64::from(j.lb);
    (1146 * board_of(j.boards) + 1615 * q) * (la * la * la) * lb
}

// The ledger's deflection, µm.
#[tactic(auto, using(crate::proofs::Ceil::up), unfolding(crate::specs::Whole::ledger_deflection))]
fn ledger_deflection(j: &BoundedJob) -> u64
    ensures { result ≡ ledger_deflection j.now }
{
    let la = u64::from(j.la);
    (ledger_load(j) * la).div_ceil(4000 * stiffness_of(j.tube))
}

// N.
pub(crate) fn slip_of(j: &BoundedJob) -> u64
    ensures { Is result (slip j.now) 26000 }
{
    let q = u64::from(j.q);
    let la = u64::from(j.la);
    let lb = u64::from(j.lb);
    ((2580 * board_of(j.boards) + 3220 * q) * la * lb).div_ceil(40000000)
}

// The face that one tie holds, cm².
pub(crate) fn face_of(j: &BoundedJob) -> u64
    ensures { Is result (face j.now.ties j.now.step j.now.la) 360000 }
{
    u64::from(j.ties) * u64::from(j.step) * (3 * u64::from(j.la))
}

// N.
#[tactic(auto, using(basis::proofs::Fits::is_most, crate::proofs::Ceil::up, crate::proofs::Most::tie_force_most), unfolding(crate::specs::Whole::tie_force))]
pub(crate) fn tie_force(j: &BoundedJob, e: Effects) -> u64
    ensures { Is result (tie_force j.now e.wk) 900000 }
{
    let face = face_of(j);
    (14 * e.wk * face + 100000 * tie_base(j.family)).div_ceil(100000)
}

// The permitted height that is reported, 0 if none.
fn figure12_of(heights: Heights) -> u64
    ensures { result ≡ figure12 heights }
{
    match heights {
        Heights::NoLine | Heights::Nowhere => 0,
        Heights::Both(_, permitted) => permitted,
    }
}

// The figure of each check.
pub fn figures_by_check(j: &BoundedJob, e: Effects, heights: Heights) -> [u64; CHECKS]
    ensures { result ≡ figures j.now e.wk e.n e.nw heights }
{
    [
        transom_moment(j),
        transom_deflection(j),
        ledger_moment(j),
        ledger_deflection(j),
        slip_of(j),
        slenderness_of(j),
        e.n,
        e.nw,
        tie_force(j, e),
        e.n,
        e.n,
        figure12_of(heights),
    ]
}

// The same of a job as it was keyed in.
// requires: a caller shows the bounds by examining the job.
pub fn figures_of(j: Job, e: Effects, heights: Heights) -> [u64; CHECKS]
    requires { Bounds j }
    ensures { result ≡ figures j e.wk e.n e.nw heights }
{
    figures_by_check(&BoundedJob::read(j), e, heights)
}
