// The order of a mild and a harsh job, tested field by field: refusal 12.
ghost use Rattle.std.specs.Prelude.{◌≡◌, leb, eqb};
ghost use Rattle.basis.specs.Fraction.{◌≼◌};
ghost use Rattle.basis.specs.Range.{lowest};
ghost use Rattle.basis.specs.Refusal.{unless, nothing};
ghost use Rattle.basis.specs.declared.Refusal.TheVariants.{Disorder};
ghost use Rattle.section5.specs.Section5.{soil_factor};
ghost use Rattle.between.specs.Order.{geometry, loads, wind, ground, disorder};

use basis::{Refusal, ensure};
use calculation::constants;
use job::Job;
use kinds::Soil;

// Refuses a field that is not the same in both jobs; and below one that is smaller, or greater, in the harsh job than in the mild one.
fn equal(field: u64, mild: u32, harsh: u32) -> Result<(), Refusal>
    ensures { result ≡ unless (eqb mild harsh) (Disorder field) nothing }
{
    ensure(mild == harsh, Refusal::Disorder(field))
}

fn no_smaller(field: u64, mild: u32, harsh: u32) -> Result<(), Refusal>
    ensures { result ≡ unless (leb mild harsh) (Disorder field) nothing }
{
    ensure(mild <= harsh, Refusal::Disorder(field))
}

fn no_greater(field: u64, mild: u32, harsh: u32) -> Result<(), Refusal>
    ensures { result ≡ unless (leb harsh mild) (Disorder field) nothing }
{
    ensure(harsh <= mild, Refusal::Disorder(field))
}

// The harsh job's soil factor is no greater.
#[tactic(auto, using(crate::proofs::Chain::soils))]
fn soil_no_better(mild: u32, harsh: u32) -> bool
    ensures { result ≡ (soil_factor harsh ≼ soil_factor mild) }
{
    constants::soil_factor(Soil::from(harsh)) <= constants::soil_factor(Soil::from(mild))
}

// Refuses the lowest of fields 1 to 7 at which the order does not hold; and so for the later fields.
fn geometry(mild: &Job, harsh: &Job) -> Result<(), Refusal>
    ensures { result ≡ lowest Disorder 1 (geometry mild.now harsh.now) }
{
    equal(1, mild.family, harsh.family)?;
    equal(2, mild.tube, harsh.tube)?;
    no_smaller(3, mild.lb, harsh.lb)?;
    no_smaller(4, mild.la, harsh.la)?;
    no_smaller(5, mild.step, harsh.step)?;
    no_smaller(6, mild.ties, harsh.ties)?;
    no_smaller(7, mild.height, harsh.height)
}

fn loads(mild: &Job, harsh: &Job) -> Result<(), Refusal>
    ensures { result ≡ lowest Disorder 8 (loads mild.now harsh.now) }
{
    equal(8, mild.boards, harsh.boards)?;
    no_smaller(9, mild.boarded, harsh.boarded)?;
    no_smaller(10, mild.working, harsh.working)?;
    no_smaller(11, mild.q, harsh.q)?;
    no_smaller(12, mild.total, harsh.total)?;
    no_smaller(13, mild.nets, harsh.nets)?;
    no_smaller(14, mild.weight, harsh.weight)
}

fn wind(mild: &Job, harsh: &Job) -> Result<(), Refusal>
    ensures { result ≡ lowest Disorder 15 (wind mild.now harsh.now) }
{
    no_smaller(15, mild.wind, harsh.wind)?;
    no_smaller(16, mild.exposure, harsh.exposure)?;
    equal(17, mild.enclosure, harsh.enclosure)?;
    no_smaller(18, mild.shield, harsh.shield)?;
    equal(19, mild.wall, harsh.wall)
}

fn ground(mild: &Job, harsh: &Job) -> Result<(), Refusal>
    ensures { result ≡ lowest Disorder 20 (ground mild.now harsh.now) }
{
    no_greater(22, mild.capacity, harsh.capacity)?;
    ensure(soil_no_better(mild.soil, harsh.soil), Refusal::Disorder(23))?;
    no_greater(24, mild.strength, harsh.strength)?;
    no_greater(25, mild.pad, harsh.pad)
}

// Refuses the lowest field at which the order does not hold.
#[tactic(auto, using(crate::proofs::Chain::parts))]
pub(crate) fn examine(mild: &Job, harsh: &Job) -> Result<(), Refusal>
    ensures { result ≡ disorder mild.now harsh.now }
{
    geometry(mild, harsh)?;
    loads(mild, harsh)?;
    wind(mild, harsh)?;
    ground(mild, harsh)
}
