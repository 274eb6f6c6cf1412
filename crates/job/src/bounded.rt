// A job whose fields are bounded as figures need it, its kinds read.
ghost use Rattle.std.specs.Prelude.{◌≡◌, Ok};
ghost use Rattle.basis.specs.Refusal.{first};
ghost use Rattle.job.specs.Bounds.{Bounds};
ghost use Rattle.job.specs.Examine.{examination};
ghost use Rattle.job.specs.Read.{as_read};

use crate::Job;
use basis::Refusal;
use kinds::{Boards, Enclosure, Family, Soil, Tube, Wall};
use std::marker::Model;

// The fields in the order of the job, whose comments say what each is; what the wall is made of is examined and then only written back, so that no code would match on its three makes. A contract sees the job itself.
#[derive(Clone, Copy)]
pub struct BoundedJob {
    pub family: Family,
    pub tube: Tube,
    pub lb: u32,
    pub la: u32,
    pub step: u32,
    pub ties: u32,
    pub height: u32,
    pub boards: Boards,
    pub boarded: u32,
    pub working: u32,
    pub q: u32,
    pub total: u32,
    pub nets: u32,
    pub weight: u32,
    pub wind: u32,
    pub exposure: u32,
    pub enclosure: Enclosure,
    pub shield: u32,
    pub wall: Wall,
    pub thickness: u32,
    pub make: u32,
    pub capacity: u32,
    pub soil: Soil,
    pub strength: u32,
    pub pad: u32,
}

impl Model for BoundedJob {
    ghost use Rattle.job.specs.declared.Job.{Job};

    ghost Value = { Job };

    ghost use Rattle.job.specs.Bounds.{Bounds};
    ghost use Rattle.job.specs.Read.{job_in, fields_of, fields_back};

    ghost view = { job_in };

    ghost invariant = { λ s. Bounds (job_in s) };

    ghost inverse = { fields_of };

    ghost inverse_ok = { λ s h. fields_back s };
}

impl BoundedJob {
    // A job as it is read, before anything else about it is examined.
    // requires: try_from shows it by examining the job, the search for a failing row by having examined the whole book.
    pub fn read(j: Job) -> BoundedJob
        requires { Bounds j }
        ensures { result ≡ as_read j }
    {
        BoundedJob {
            family: j.family.into(),
            tube: j.tube.into(),
            lb: j.lb,
            la: j.la,
            step: j.step,
            ties: j.ties,
            height: j.height,
            boards: j.boards.into(),
            boarded: j.boarded,
            working: j.working,
            q: j.q,
            total: j.total,
            nets: j.nets,
            weight: j.weight,
            wind: j.wind,
            exposure: j.exposure,
            enclosure: j.enclosure.into(),
            shield: j.shield,
            wall: j.wall.into(),
            thickness: j.thickness,
            make: j.make,
            capacity: j.capacity,
            soil: j.soil.into(),
            strength: j.strength,
            pad: j.pad,
        }
    }
}

// Refuses what examining the job refuses (3, 4, 5).
impl TryFrom<Job> for BoundedJob {
    type Error = Refusal;

    ghost try_from_gives = { λ j r. r ≡ first (examination j) (Ok j) };

    #[tactic(auto, using(crate::proofs::Fields::passed_bounds, crate::proofs::Fields::passed_own))]
    fn try_from(j: Job) -> Result<BoundedJob, Refusal> {
        j.examine()?;
        Ok(BoundedJob::read(j))
    }
}

impl From<BoundedJob> for Job {
    ghost from_gives = { λ bounded j. j ≡ bounded };

    fn from(bounded: BoundedJob) -> Job {
        Job {
            family: bounded.family.into(),
            tube: bounded.tube.into(),
            lb: bounded.lb,
            la: bounded.la,
            step: bounded.step,
            ties: bounded.ties,
            height: bounded.height,
            boards: bounded.boards.into(),
            boarded: bounded.boarded,
            working: bounded.working,
            q: bounded.q,
            total: bounded.total,
            nets: bounded.nets,
            weight: bounded.weight,
            wind: bounded.wind,
            exposure: bounded.exposure,
            enclosure: bounded.enclosure.into(),
            shield: bounded.shield,
            wall: bounded.wall.into(),
            thickness: bounded.thickness,
            make: bounded.make,
            capacity: bounded.capacity,
            soil: bounded.soil.into(),
            strength: bounded.strength,
            pad: bounded.pad,
        }
    }
}
