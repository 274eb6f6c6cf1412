// What a pole bears with: its column, and checks 7 and 8 of a force.
ghost use Rattle.std.specs.Prelude.{◌≡◌, ◌*◌, ◌≤◌};
ghost use Rattle.basis.specs.Figure.{Is};
ghost use Rattle.kinds.specs.Kinds.{tube_number};
ghost use Rattle.calculation.specs.Whole.{column_at, bears, bends};
ghost use Rattle.calculation.specs.Division.{limit7, limit8};
ghost use Rattle.calculation.specs.Bounded.{Proper};

use crate::constants::{area_of, modulus_of};
use kinds::Tube;
use sheet::slenderness::Slenderness;
use sheet::standing::StandingSheet;
use std::marker::Model;

// The stability factor, over / under, and the tube's area and modulus.
#[derive(Clone, Copy)]
pub struct Column {
    pub over: u64,
    pub under: u64,
    pub area: u64,
    pub modulus: u64,
}

impl Model for Column {
    ghost use Rattle.calculation.specs.Parts.{Column};
    ghost use Rattle.calculation.specs.Bounded.{Proper};

    ghost Value = { Column };

    ghost view = { λ c. record { over = c.over; under = c.under; area = c.area; modulus = c.modulus } };

    ghost invariant = { λ c. Proper record { over = c.over; under = c.under; area = c.area; modulus = c.modulus } };

    ghost inverse = { λ c. record { over = c.over; under = c.under; area = c.area; modulus = c.modulus } };
}

// The column of a tube under a sheet, at a slenderness.
pub fn tube_column(sheet: &StandingSheet<'_>, tube: Tube, z: Slenderness) -> Column
    ensures { result ≡ column_at sheet.now (tube_number tube) z }
{
    let phi = sheet.stability_factor(z);
    Column {
        over: phi.over,
        under: phi.under,
        area: area_of(tube),
        modulus: modulus_of(tube),
    }
}

// The same of a tube's number, whatever it is.
pub fn column_of(sheet: &StandingSheet<'_>, tube: u32, z: Slenderness) -> Column
    ensures { result ≡ column_at sheet.now tube z }
{
    tube_column(sheet, Tube::from(tube), z)
}

// The greatest force that check 7 passes.
#[tactic(auto, using(basis::proofs::Fits::is_most, crate::proofs::Most::limit7_most), unfolding(crate::specs::Division::limit7))]
pub(crate) fn limit7_of(c: Column) -> u64
    ensures figure { Is result (limit7 c) 100245 }

    // the invariant, for callers that open no field
    ensures proper { Proper c }
{
    c.over * (205 * c.area) / c.under
}

// The greatest force that check 8 passes beside a moment.
#[tactic(auto, using(basis::proofs::Fits::is_most, crate::proofs::Most::limit8_most), unfolding(crate::specs::Division::limit8))]
pub(crate) fn limit8_of(c: Column, m: u64) -> u64
    requires { m ≤ 205 * c.modulus }
    ensures { Is result (limit8 c m) 100245 }
{
    c.over * c.area * (205 * c.modulus - m) / (c.under * c.modulus)
}

// Check 7 of a force.
#[tactic(auto, using(crate::proofs::Stability::bears_within))]
pub fn bears_of(c: Column, n: u64) -> bool
    ensures { result ≡ bears c n }
{
    n <= limit7_of(c)
}

// Check 8 of a force beside a moment.
#[tactic(auto, using(crate::proofs::Stability::bends_beyond, crate::proofs::Stability::bends_within))]
pub fn bends_of(c: Column, n: u64, m: u64) -> bool
    ensures { result ≡ bends c n m }
{
    m <= 205 * c.modulus && n <= limit8_of(c, m)
}
