// A scaffold job: its 25 numbers by name, and what about them is refused (refusals 3, 4 and 5).
#![tactic(auto)]

pub mod bounded;

ghost use Rattle.std.specs.Prelude.{◌≡◌};
ghost use Rattle.basis.specs.Range.{lowest};
ghost use Rattle.basis.specs.declared.Refusal.TheVariants.{FieldRange};
ghost use Rattle.job.specs.Ranges.{lb_stands, height_stands, shield_stands, geometry, loads, wind, ground, outside};
ghost use Rattle.job.specs.Job.{job_of, numbers};
ghost use Rattle.job.specs.Examine.{examination};

use basis::{Refusal, ensure, in_range};
use kinds::{Enclosure, Family};

// A job as it was keyed in, its fields in the order of the paper and of the job file: numbers up to 4,294,967,295, kinds too, since C and files hand them over before any is tried.
#[derive(Clone, Copy, Debug, PartialEq, Eq)]
pub struct Job {
    // 1 double row, 2 single
    pub family: u32,
    // 1 is 48 by 3.5, 2 is 51 by 3.0
    pub tube: u32,
    // pole spacing across, cm
    pub lb: u32,
    // bay, cm
    pub la: u32,
    // step h, cm
    pub step: u32,
    // tie interval t, steps
    pub ties: u32,
    // height H, cm
    pub height: u32,
    // 1 steel, 2 bamboo, 3 timber
    pub boards: u32,
    // boarded layers
    pub boarded: u32,
    // working layers
    pub working: u32,
    // greatest live load on one layer, q, N/m²
    pub q: u32,
    // live load summed over layers, Q, N/m²
    pub total: u32,
    // nets per pole S, N
    pub nets: u32,
    // structure weight per pole, gk, N/m
    pub weight: u32,
    // basic wind w0, N/m²
    pub wind: u32,
    // height factor, thousandths
    pub exposure: u32,
    // 1 open, 2 half closed, 3 fully closed
    pub enclosure: u32,
    // thousandths: the truss shape factor when open, else the shielded share
    pub shield: u32,
    // wall behind: 1 closed, 2 open, framed or pierced
    pub wall: u32,
    // wall thickness, mm
    pub thickness: u32,
    // wall make: 1 sound, 2 hollow or light, 3 mortar M1.0 or weaker
    pub make: u32,
    // tie capacity, N
    pub capacity: u32,
    // 1 gravel, 2 sand, 3 fill, 4 clay, 5 rock or concrete
    pub soil: u32,
    // ground strength, kPa
    pub strength: u32,
    // pad area, cm²
    pub pad: u32,
}

impl From<[u32; 25]> for Job {
    ghost from_gives = { λ n j. j ≡ job_of n };

    #[tactic(auto, unfolding(crate::specs::Job::job_of))]
    fn from(n: [u32; 25]) -> Job {
        Job {
            family: n[0],
            tube: n[1],
            lb: n[2],
            la: n[3],
            step: n[4],
            ties: n[5],
            height: n[6],
            boards: n[7],
            boarded: n[8],
            working: n[9],
            q: n[10],
            total: n[11],
            nets: n[12],
            weight: n[13],
            wind: n[14],
            exposure: n[15],
            enclosure: n[16],
            shield: n[17],
            wall: n[18],
            thickness: n[19],
            make: n[20],
            capacity: n[21],
            soil: n[22],
            strength: n[23],
            pad: n[24],
        }
    }
}

impl From<Job> for [u32; 25] {
    ghost from_gives = { λ j n. n ≡ numbers j };

    #[tactic(auto, unfolding(crate::specs::Job::numbers))]
    fn from(j: Job) -> [u32; 25] {
        [
            j.family,
            j.tube,
            j.lb,
            j.la,
            j.step,
            j.ties,
            j.height,
            j.boards,
            j.boarded,
            j.working,
            j.q,
            j.total,
            j.nets,
            j.weight,
            j.wind,
            j.exposure,
            j.enclosure,
            j.shield,
            j.wall,
            j.thickness,
            j.make,
            j.capacity,
            j.soil,
            j.strength,
            j.pad,
        ]
    }
}

// Field 3: the spacing of a double row is one of three.
fn lb_stands(family: u32, lb: u32) -> bool
    ensures { result ≡ lb_stands family lb }
{
    match Family::from(family) {
        Family::DoubleRow => lb == 105 || lb == 130 || lb == 155,
        Family::SingleRow => (60..=150).contains(&lb),
    }
}

// Field 7.
fn height_stands(family: u32, height: u32) -> bool
    ensures { result ≡ height_stands family height }
{
    match Family::from(family) {
        Family::DoubleRow => (1..=5000).contains(&height),
        Family::SingleRow => (1..=2400).contains(&height),
    }
}

// Field 18.
fn shield_stands(enclosure: u32, shield: u32) -> bool
    ensures { result ≡ shield_stands enclosure shield }
{
    match Enclosure::from(enclosure) {
        Enclosure::Open => (1..=2000).contains(&shield),
        Enclosure::HalfClosed => (1..=700).contains(&shield),
        Enclosure::FullyClosed => (1..=1000).contains(&shield),
    }
}

impl Job {
    // Refuses the lowest of fields 1 to 7 outside its range; and so for the later fields.
    fn geometry(&self) -> Result<(), Refusal>
        ensures { result ≡ lowest FieldRange 1 (geometry self.now) }
    {
        in_range(1, 1, 2, self.family)?;
        in_range(2, 1, 2, self.tube)?;
        ensure(lb_stands(self.family, self.lb), Refusal::FieldRange(3))?;
        in_range(4, 60, 200, self.la)?;
        in_range(5, 60, 200, self.step)?;
        in_range(6, 2, 3, self.ties)?;
        ensure(
            height_stands(self.family, self.height),
            Refusal::FieldRange(7),
        )
    }

    fn loads(&self) -> Result<(), Refusal>
        ensures { result ≡ lowest FieldRange 8 (loads self.now) }
    {
        in_range(8, 1, 3, self.boards)?;
        in_range(9, 1, 10, self.boarded)?;
        in_range(10, 1, 9, self.working)?;
        in_range(11, 0, 10000, self.q)?;
        in_range(12, 0, 30000, self.total)?;
        in_range(13, 0, 5000, self.nets)?;
        in_range(14, 50, 500, self.weight)
    }

    fn wind(&self) -> Result<(), Refusal>
        ensures { result ≡ lowest FieldRange 15 (wind self.now) }
    {
        in_range(15, 0, 2000, self.wind)?;
        in_range(16, 100, 4000, self.exposure)?;
        in_range(17, 1, 3, self.enclosure)?;
        ensure(
            shield_stands(self.enclosure, self.shield),
            Refusal::FieldRange(18),
        )?;
        in_range(19, 1, 2, self.wall)
    }

    fn ground(&self) -> Result<(), Refusal>
        ensures { result ≡ lowest FieldRange 20 (ground self.now) }
    {
        in_range(20, 0, 2000, self.thickness)?;
        in_range(21, 1, 3, self.make)?;
        in_range(22, 8000, 100000, self.capacity)?;
        in_range(23, 1, 5, self.soil)?;
        in_range(24, 10, 2000, self.strength)?;
        in_range(25, 100, 10000, self.pad)
    }

    // Refuses the lowest field outside its range.
    #[tactic(auto, using(crate::proofs::Chain::parts))]
    fn ranges(&self) -> Result<(), Refusal>
        ensures { result ≡ outside self.now }
    {
        self.geometry()?;
        self.loads()?;
        self.wind()?;
        self.ground()
    }

    // What is refused of a job: a field outside its range, then a contradiction, then the wall of a single row.
    pub fn examine(&self) -> Result<(), Refusal>
        ensures { result ≡ examination self.now }
    {
        let double = Family::from(self.family) == Family::DoubleRow;
        self.ranges()?;
        ensure(self.working <= self.boarded, Refusal::Contradiction(10))?;
        ensure(self.q <= self.total, Refusal::Contradiction(12))?;
        ensure(double || 180 < self.thickness, Refusal::UnfitWall(20))?;
        // Of the three makes no other code asks, so that they are no enum.
        ensure(double || self.make == 1, Refusal::UnfitWall(21))
    }
}
