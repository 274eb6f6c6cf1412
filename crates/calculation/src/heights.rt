// Heights: how high the pole checks pass, by division, and what is permitted.
ghost use Rattle.std.specs.Prelude.{◌≡◌, ◌≤◌, ◌<◌};
ghost use Rattle.basis.specs.Figure.{Is};
ghost use Rattle.kinds.specs.Kinds.{family_number};
ghost use Rattle.calculation.specs.Whole.{height_count, permitted, heights};
ghost use Rattle.calculation.specs.Bounded.{Proper};
ghost use Rattle.calculation.specs.Division.{count_up_to, count7, count8};

use crate::columns::{Column, limit7_of, limit8_of};
use crate::constants::height_limit;
use crate::loads::Load;
use kinds::Family;
use section5::Heights;
use std::marker::Model;

// How many of the heights from 0 to 6,000 cm have c + k H at most b.
fn count_up_to(c: u64, k: u64, b: u64) -> u64
    requires { (0 < k) × (b ≤ 300000000000) }
    ensures { result ≡ count_up_to c k b }
{
    if c <= b {
        ((b - c) / k + 1).min(6001)
    } else {
        0
    }
}

// A pole: what it bears with, what it carries beside the structure, and the structure's weight, N/m.
#[derive(Clone, Copy)]
pub struct Pole {
    pub column: Column,
    pub load: Load,
    pub weight: u32,
}

impl Model for Pole {
    ghost use Rattle.std.specs.Prelude.{◌≤◌, ◌<◌};
    ghost use Rattle.calculation.specs.Parts.{Pole};

    ghost Value = { Pole };

    ghost view = { λ p. record { column = p.column; load = p.load; weight = p.weight } };

    ghost invariant = { λ p. (0 < p.weight) × (p.weight ≤ 500) };

    ghost inverse = { λ p. record { column = p.column; load = p.load; weight = p.weight } };
}

impl Pole {
    // At how many of the heights from 0 to 6,000 cm check 7 passes.
    fn count7(self) -> u64
        ensures count { result ≡ count7 self.column self.load self.weight }

        // the invariant, for callers that open no field
        ensures sound { (0 < self.weight) × Proper self.column }
    {
        count_up_to(
            12 * self.load.dead + 14 * self.load.live,
            2400 * u64::from(self.weight),
            200000 * limit7_of(self.column),
        )
    }

    // The same of check 8, beside a moment.
    fn count8(self, m: u64) -> u64
        ensures { result ≡ count8 self.column self.load self.weight m }
    {
        if 205 * self.column.modulus < m {
            return 0;
        }
        count_up_to(
            120 * self.load.dead + 119 * self.load.live,
            24000 * u64::from(self.weight),
            2000000 * limit8_of(self.column, m),
        )
    }

    // At how many of them check 7 passes, and check 8 where it is due.
    #[tactic(auto, using(crate::proofs::Stability::height_count_calm, crate::proofs::Stability::height_count_due))]
    pub fn height_count(self, m: u64, exempt: bool) -> u64
        ensures { Is result (height_count self.column self.load self.weight m exempt) 6001 }
    {
        let calm = self.count7();
        if exempt {
            return calm;
        }
        calm.min(self.count8(m))
    }
}

// The permitted height of a stability height, cm: below 2,600 no more than 2,600 permits, from there on less than the stability height, and at most the family's.
fn permitted_of(family: Family, h: u64) -> u64
    requires { h ≤ 6000 }
    ensures { result ≡ permitted (family_number family) h }
{
    let limit = height_limit(family);
    if h < 2600 {
        h.min(2534).min(limit)
    } else {
        (100000 * h / (100000 + h)).min(limit)
    }
}

// Both heights of a count of heights.
// requires: judge counts no more heights.
#[tactic(auto, using(crate::proofs::Stability::heights_at))]
pub fn family_heights(family: Family, count: u64) -> Heights
    requires { count ≤ 6001 }
    ensures { result ≡ heights (family_number family) count }
{
    if count == 0 {
        return Heights::Nowhere;
    }
    let h = count - 1;
    Heights::Both(h, permitted_of(family, h))
}

// The same of a family's number, whatever it is.
// requires: Pole::height_count counts no more heights.
pub fn heights_of(family: u32, count: u64) -> Heights
    requires { count ≤ 6001 }
    ensures { result ≡ heights family count }
{
    family_heights(Family::from(family), count)
}
