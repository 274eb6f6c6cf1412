// A sheet that no row of the table refuses, and the stability factor read from it.
ghost use Rattle.std.specs.Prelude.{◌≡◌, ◌≤◌, Ok};
ghost use Rattle.basis.specs.Refusal.{first};
ghost use Rattle.sheet.specs.Sheet.{examination};
ghost use Rattle.sheet.specs.StabilityFactor.{between, Reading};

use crate::examine;
use crate::slenderness::Slenderness;
use basis::Refusal;
use std::marker::Model;

// The entries as they were lent, for whoever shows that they stand; try_from examines them. A contract sees the entries themselves.
#[derive(Drop)]
pub struct StandingSheet<'a> {
    pub entries: &'a [u16],
}

impl<'a> Model for StandingSheet<'a> {
    ghost use Rattle.std.specs.Prelude.{ℕ, List};

    ghost Value = { List ℕ };

    ghost use Rattle.sheet.specs.Rows.{Stands};

    ghost view = { λ s. s.entries.now };

    ghost invariant = { λ s. Stands s.entries.now };
}

// A stability factor, over / under.
#[derive(Clone, Copy)]
pub struct StabilityFactor {
    pub over: u64,
    pub under: u64,
}

// Refuses what examining the entries refuses (1, 2).
impl<'a> TryFrom<&'a [u16]> for StandingSheet<'a> {
    type Error = Refusal;

    ghost try_from_gives = { λ entries r. r ≡ first (examination entries.now) (Ok entries.now) };

    #[tactic(auto, using(crate::proofs::Rows::unrefused_stands))]
    fn try_from(entries: &'a [u16]) -> Result<StandingSheet<'a>, Refusal> {
        examine(entries)?;
        Ok(StandingSheet { entries })
    }
}

impl StandingSheet<'_> {
    // The stability factor at a slenderness.
    pub fn stability_factor(&self, z: Slenderness) -> StabilityFactor
        ensures { Reading result self.now z }
    {
        let z = z.tenths;
        let above = z.div_ceil(10);
        if z <= 2500 {
            // By `as`, here and below: the library has no From out of usize, nor into it from 32 bits or more.
            let from = u64::from(self.entries[(z / 10) as usize]);
            let to = u64::from(self.entries[above as usize]);
            return StabilityFactor {
                over: between_of(from, to, z % 10),
                under: 10000,
            };
        }
        StabilityFactor {
            over: 7320,
            under: above * above,
        }
    }
}

// Between two entries, r tenths of the way from the first to the second, in ten-thousandths.
fn between_of(a: u64, b: u64, r: u64) -> u64
    requires { (a ≤ 1000) × (b ≤ 1000) × (r ≤ 10) }
    ensures { result ≡ between a b r }
{
    a * (10 - r) + b * r
}
