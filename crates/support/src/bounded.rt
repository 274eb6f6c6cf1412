// A support whose fields are bounded as figures need it, its kinds read.
ghost use Rattle.std.specs.Prelude.{◌≡◌, Ok};
ghost use Rattle.basis.specs.Refusal.{first};
ghost use Rattle.support.specs.Bounds.{Bounds};
ghost use Rattle.support.specs.Examine.{examination};
ghost use Rattle.support.specs.Read.{as_read};

use crate::Support;
use basis::Refusal;
use kinds::{Soil, Tube};
use std::marker::Model;

// The fields in the order of the support, whose comments say what each is, but for its kind, which is 3. A contract sees the support itself.
#[derive(Clone, Copy)]
pub struct BoundedSupport {
    pub tube: Tube,
    pub step: u32,
    pub overhang: u32,
    pub bay: u32,
    pub dead: u32,
    pub live: u32,
    pub wind: u32,
    pub exposure: u32,
    pub shape: u32,
    pub soil: Soil,
    pub strength: u32,
    pub pad: u32,
}

impl Model for BoundedSupport {
    ghost use Rattle.support.specs.declared.Support.{Support};

    ghost Value = { Support };

    ghost use Rattle.support.specs.Bounds.{Bounds};
    ghost use Rattle.support.specs.Read.{support_in, fields_of, fields_back};

    ghost view = { support_in };

    ghost invariant = { λ s. Bounds (support_in s) };

    ghost inverse = { fields_of };

    ghost inverse_ok = { λ s h. fields_back s };
}

impl BoundedSupport {
    // A support as it is read, before anything else about it is examined.
    // requires: try_from shows it by examining the support.
    pub fn read(s: Support) -> BoundedSupport
        requires { Bounds s }
        ensures { result ≡ as_read s }
    {
        BoundedSupport {
            tube: s.tube.into(),
            step: s.step,
            overhang: s.overhang,
            bay: s.bay,
            dead: s.dead,
            live: s.live,
            wind: s.wind,
            exposure: s.exposure,
            shape: s.shape,
            soil: s.soil.into(),
            strength: s.strength,
            pad: s.pad,
        }
    }
}

// Refuses what examining the support refuses (3).
impl TryFrom<Support> for BoundedSupport {
    type Error = Refusal;

    ghost try_from_gives = { λ s r. r ≡ first (examination s) (Ok s) };

    #[tactic(auto, using(crate::proofs::Fields::passed_bounds, crate::proofs::Fields::passed_own))]
    fn try_from(s: Support) -> Result<BoundedSupport, Refusal> {
        s.examine()?;
        Ok(BoundedSupport::read(s))
    }
}

impl From<BoundedSupport> for Support {
    ghost from_gives = { λ bounded s. s ≡ bounded };

    fn from(bounded: BoundedSupport) -> Support {
        Support {
            kind: 3,
            tube: bounded.tube.into(),
            step: bounded.step,
            overhang: bounded.overhang,
            bay: bounded.bay,
            dead: bounded.dead,
            live: bounded.live,
            wind: bounded.wind,
            exposure: bounded.exposure,
            shape: bounded.shape,
            soil: bounded.soil.into(),
            strength: bounded.strength,
            pad: bounded.pad,
        }
    }
}
