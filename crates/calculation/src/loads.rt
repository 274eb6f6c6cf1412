// What a pole carries, and its force.
ghost use Rattle.std.specs.Prelude.{◌≤◌};
ghost use Rattle.basis.specs.Fraction.{Equals};
ghost use Rattle.basis.specs.Figure.{Is};
ghost use Rattle.job.specs.Bounds.{Bounds};
ghost use Rattle.section5.specs.Section5.{G1};
ghost use Rattle.calculation.specs.Whole.{deck, fittings, deck_live, deck_load, force, force_wind};
ghost use Rattle.calculation.specs.Bounded.{IsLoad};

use crate::constants::{board_of, overhang_of, rail_of};
use job::Job;
use job::bounded::BoundedJob;
use std::marker::Model;

// Dead and live load, in 1/20,000 N, that of at most sixteen jobs one above the other.
#[derive(Clone, Copy)]
pub struct Load {
    pub dead: u64,
    pub live: u64,
}

impl Model for Load {
    ghost use Rattle.calculation.specs.Parts.{Load};
    ghost use Rattle.calculation.specs.Bounded.{WithinSixteen};

    ghost Value = { Load };

    ghost view = { λ l. record { dead = l.dead; live = l.live } };

    ghost invariant = { λ l. WithinSixteen record { dead = l.dead; live = l.live } };

    ghost inverse = { λ l. record { dead = l.dead; live = l.live } };
}

// The deck's width, cm.
fn deck_of(j: &BoundedJob) -> u64
    ensures { Is result (deck j.now.family j.now.lb) 185 }
{
    u64::from(j.lb) + overhang_of(j.family)
}

// G1, in 1/20,000 N.
pub(crate) fn structure_of(j: &BoundedJob) -> u64
    ensures figure { Equals (G1 j.now j.now.height) result 20000 }
    ensures most { result ≤ 500000000 }
{
    let weight = u64::from(j.weight);
    let height = u64::from(j.height);
    200 * weight * height
}

// G2.
pub(crate) fn fittings_of(j: &BoundedJob) -> u64
    ensures { Is result (fittings j.now) 280000000 }
{
    let la = u64::from(j.la);
    let boarded = u64::from(j.boarded);
    let working = u64::from(j.working);
    let nets = u64::from(j.nets);
    boarded * board_of(j.boards) * la * deck_of(j)
        + 200 * working * rail_of(j.boards) * la
        + 20000 * nets
}

// L.
#[tactic(auto, using(basis::proofs::Fits::is_most, crate::proofs::Most::deck_live_most), unfolding(crate::specs::Whole::deck_live))]
pub(crate) fn deck_live(j: &BoundedJob) -> u64
    ensures { Is result (deck_live j.now) 1110000000 }
{
    u64::from(j.total) * u64::from(j.la) * deck_of(j)
}

// What a job's pole carries beside the structure.
pub fn pole_load(j: &BoundedJob) -> Load
    ensures { IsLoad result (deck_load j.now) 280000000 1110000000 }
{
    Load {
        dead: fittings_of(j),
        live: deck_live(j),
    }
}

// The same of a job as it was keyed in.
// requires: a caller shows the bounds by examining the job.
pub fn deck_load(j: Job) -> Load
    requires { Bounds j }
    ensures { IsLoad result (deck_load j) 280000000 1110000000 }
{
    pole_load(&BoundedJob::read(j))
}

// N of a load that is known whole, as a support's is (5.6.2-1).
#[tactic(auto, using(basis::proofs::Fits::is_most, crate::proofs::Ceil::up, crate::proofs::Most::force_most), unfolding(crate::specs::Whole::force))]
pub fn force_of(l: Load) -> u64
    ensures { Is result (force l) 1543200 }
{
    (12 * l.dead + 14 * l.live).div_ceil(200000)
}

// Nw of it (5.6.2-2): a formula of its own, as N is; each is a line, and a contract names each, so that one function of both would say less.
#[tactic(auto, using(basis::proofs::Fits::is_most, crate::proofs::Ceil::up, crate::proofs::Most::force_wind_most), unfolding(crate::specs::Whole::force_wind))]
pub fn force_wind_of(l: Load) -> u64
    ensures { Is result (force_wind l) 1543200 }
{
    (120 * l.dead + 119 * l.live).div_ceil(2000000)
}
