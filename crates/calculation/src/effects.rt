// What wind and load do to a pole.
ghost use Rattle.std.specs.Prelude.{◌≡◌};
ghost use Rattle.calculation.specs.Whole.{effects};

use crate::checks::check8_not_due;
use crate::figures::{enclosure_shape, wind_moment, wind_pressure};
use crate::forces::{pole_force, pole_force_wind};
use job::bounded::BoundedJob;
use std::marker::Model;

// wk, Mw, N, Nw, and whether check 8 is not due.
#[derive(Clone, Copy)]
pub struct Effects {
    pub wk: u64,
    pub mw: u64,
    pub n: u64,
    pub nw: u64,
    pub not_due: bool,
}

impl Model for Effects {
    ghost use Rattle.std.specs.Prelude.{◌≤◌};
    ghost use Rattle.calculation.specs.Parts.{Effects};

    ghost Value = { Effects };

    ghost view = { λ e. record { wk = e.wk; mw = e.mw; n = e.n; nw = e.nw; not_due = e.not_due } };

    ghost invariant = { λ e. e.wk ≤ 17472 };

    ghost inverse = { λ e. record { wk = e.wk; mw = e.mw; n = e.n; nw = e.nw; not_due = e.not_due } };
}

// Of a job, its structure up to its own height.
pub fn effects_of(j: &BoundedJob) -> Effects
    ensures { result ≡ effects j.now }
{
    let shape = enclosure_shape(j.enclosure, j.wall, j.shield);
    let wk = wind_pressure(j.exposure, shape, j.wind);
    Effects {
        wk,
        mw: wind_moment(wk, j.la, j.step),
        n: pole_force(j),
        nw: pole_force_wind(j),
        not_due: check8_not_due(j),
    }
}
