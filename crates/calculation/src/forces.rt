// The pole force in the sequence of clause 5.3.2: structure, then fittings, then live.
ghost use Rattle.std.specs.Prelude.{◌≡◌, ◌≤◌};
ghost use Rattle.basis.specs.Fraction.{Equals};
ghost use Rattle.section5.specs.Section5.{exact_N, exact_Nw, N, Nw};
ghost use Rattle.section5.specs.PoleForce.{after_structure, after_fittings, after_live_wind};

use crate::loads::{deck_live, fittings_of, structure_of};
use job::bounded::BoundedJob;

// 1.2 G1, in 1/200,000 N.
fn after_structure(j: &BoundedJob) -> u64
    ensures sum { Equals (after_structure j.now j.now.height) result 200000 }
    ensures most { result ≤ 6000000000 }
{
    12 * structure_of(j)
}

// 1.2 (G1 + G2), in 1/200,000 N.
fn after_fittings(j: &BoundedJob) -> u64
    ensures sum { Equals (after_fittings j.now j.now.height) result 200000 }
    ensures most { result ≤ 9360000000 }
{
    after_structure(j) + 12 * fittings_of(j)
}

// 1.2 (G1 + G2) + 1.4 L (5.3.2-1), in 1/200,000 N.
fn after_live(j: &BoundedJob) -> u64
    ensures sum { Equals (exact_N j.now j.now.height) result 200000 }
{
    after_fittings(j) + 14 * deck_live(j)
}

// 1.2 (G1 + G2) + 0.85 × 1.4 L (5.3.2-2), in 1/20,000,000 N.
fn after_live_wind(j: &BoundedJob) -> u64
    ensures sum { Equals (after_live_wind j.now j.now.height) result 20000000 }
    ensures paper { Equals (exact_Nw j.now j.now.height) result 20000000 }
{
    100 * after_fittings(j) + 85 * 14 * deck_live(j)
}

// N of a job, its structure up to its own height.
#[tactic(auto, using(crate::proofs::Sequence::N_is))]
pub(crate) fn pole_force(j: &BoundedJob) -> u64
    ensures { result ≡ N j.now j.now.height }
{
    after_live(j).div_ceil(200000)
}

// Nw of it.
#[tactic(auto, using(crate::proofs::Sequence::Nw_is))]
pub(crate) fn pole_force_wind(j: &BoundedJob) -> u64
    ensures { result ≡ Nw j.now j.now.height }
{
    after_live_wind(j).div_ceil(20000000)
}
