// A formwork support: its 13 numbers by name, and what about them is refused (refusal 3).
#![tactic(auto)]

pub mod bounded;

ghost use Rattle.std.specs.Prelude.{◌≡◌};
ghost use Rattle.support.specs.Support.{support_of, numbers};
ghost use Rattle.support.specs.Examine.{examination};

use basis::{Refusal, in_range};

// A support as it was keyed in, its fields in the order of the paper and of the job file: numbers, kinds too, since C and files hand them over before any is tried.
#[derive(Clone, Copy, Debug, PartialEq, Eq)]
pub struct Support {
    // 3, which marks a support
    pub kind: u32,
    // 1 is 48 by 3.5, 2 is 51 by 3.0
    pub tube: u32,
    // step h, cm
    pub step: u32,
    // overhang a, what the pole stands out above its top ledger, cm
    pub overhang: u32,
    // bay, which is the pole spacing across too, cm
    pub bay: u32,
    // dead load on the pole, N
    pub dead: u32,
    // live load on the pole, N
    pub live: u32,
    // basic wind w0, N/m²
    pub wind: u32,
    // height factor, thousandths
    pub exposure: u32,
    // shape factor, thousandths
    pub shape: u32,
    // 1 gravel, 2 sand, 3 fill, 4 clay, 5 rock or concrete
    pub soil: u32,
    // ground strength, kPa
    pub strength: u32,
    // pad area, cm²
    pub pad: u32,
}

impl From<[u32; 13]> for Support {
    ghost from_gives = { λ n s. s ≡ support_of n };

    #[tactic(auto, unfolding(crate::specs::Support::support_of))]
    fn from(n: [u32; 13]) -> Support {
        Support {
            kind: n[0],
            tube: n[1],
            step: n[2],
            overhang: n[3],
            bay: n[4],
            dead: n[5],
            live: n[6],
            wind: n[7],
            exposure: n[8],
            shape: n[9],
            soil: n[10],
            strength: n[11],
            pad: n[12],
        }
    }
}

impl From<Support> for [u32; 13] {
    ghost from_gives = { λ s n. n ≡ numbers s };

    #[tactic(auto, unfolding(crate::specs::Support::numbers))]
    fn from(s: Support) -> [u32; 13] {
        [
            s.kind, s.tube, s.step, s.overhang, s.bay, s.dead, s.live, s.wind, s.exposure, s.shape,
            s.soil, s.strength, s.pad,
        ]
    }
}

impl Support {
    // What is refused of a support: the lowest field outside its range.
    pub fn examine(&self) -> Result<(), Refusal>
        ensures { result ≡ examination self.now }
    {
        in_range(1, 3, 3, self.kind)?;
        in_range(2, 1, 2, self.tube)?;
        in_range(3, 60, 200, self.step)?;
        in_range(4, 0, 100, self.overhang)?;
        in_range(5, 60, 200, self.bay)?;
        in_range(6, 0, 60000, self.dead)?;
        in_range(7, 0, 60000, self.live)?;
        in_range(8, 0, 2000, self.wind)?;
        in_range(9, 100, 4000, self.exposure)?;
        in_range(10, 0, 2000, self.shape)?;
        in_range(11, 1, 5, self.soil)?;
        in_range(12, 10, 2000, self.strength)?;
        in_range(13, 100, 10000, self.pad)
    }
}
