// The slenderness of a column, at which a sheet is read.
use std::marker::Model;

// In tenths: no accepted job or support has a pole more slender than 293.0. A contract sees the number itself.
#[derive(Clone, Copy)]
pub struct Slenderness {
    pub tenths: u64,
}

impl Model for Slenderness {
    ghost use Rattle.std.specs.Prelude.{ℕ, ◌≤◌};

    ghost Value = { ℕ };

    ghost view = { λ z. z.tenths };

    ghost invariant = { λ z. z.tenths ≤ 2930 };

    ghost inverse = { λ n. record { tenths = n } };
}
