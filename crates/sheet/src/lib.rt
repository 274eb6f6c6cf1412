// The column sheet: its entries from bytes, and what about it is refused (refusals 1 and 2).
#![tactic(auto)]

pub mod slenderness;
pub mod standing;

ghost use Rattle.std.specs.Prelude.{◌≡◌};
ghost use Rattle.sheet.specs.Sheet.{stands, first_fault, examination};
ghost use Rattle.sheet.specs.Pass.{falling, sound};
ghost use Rattle.sheet.specs.Bytes.{entries};

use basis::Refusal;
pub use standing::StabilityFactor;
use std::array;

// The entries of 502 bytes, each low byte first.
pub fn entries_of(bytes: &[u8; 502]) -> [u16; 251]
    ensures { result ≡ entries bytes.now 251 }
{
    array::from_fn(|k| u16::from_le_bytes([bytes[2 * k], bytes[2 * k + 1]]))
}

// The entry e at place k, after the entry d, stands.
fn stands_after(e: u16, d: u16, k: usize) -> bool
    ensures { result ≡ stands e d k }
{
    (1..=1000).contains(&e) && (k == 0 || e <= d) && (k != 250 || 117 <= e)
}

// The first entry that does not stand, if any.
fn first_fault(sheet: &[u16; 251]) -> Option<usize>
    ensures { result ≡ first_fault sheet.now }
{
    // no entry is before entry 0, and the test asks for none there
    let mut before = sheet[0];
    for (k, &entry) in sheet.iter().enumerate() {
        if !stands_after(entry, before, k) {
            return Some(k);
        }
        before = entry;
    }
    None
}

// No entry is greater than the one before it; every entry is looked at, so that eight can be compared at a time: a whole call takes half the time.
#[tactic(auto, using(crate::proofs::Sound::falling_none, crate::proofs::Sound::falling_next))]
fn falls_throughout(sheet: &[u16; 251]) -> bool
    ensures { result ≡ falling sheet.now 250 }
{
    let mut so_far = true;
    for k in 0..250 {
        so_far &= sheet[k + 1] <= sheet[k];
    }
    so_far
}

// The sheet falls from at most 1,000 to at least 117.
fn is_sound(sheet: &[u16; 251]) -> bool
    ensures { result ≡ sound sheet.now }
{
    sheet[0] <= 1000 && 117 <= sheet[250] && falls_throughout(sheet)
}

// What is refused of a sheet: its length, then its first entry that does not stand.
#[tactic(auto, using(crate::proofs::Sound::sound_unrefused))]
pub fn examine(sheet: &[u16]) -> Result<(), Refusal>
    ensures { result ≡ examination sheet.now }
{
    let Ok(sheet) = <&[u16; 251]>::try_from(sheet) else {
        // By `as`, here and below: the library has no From out of usize, nor into it from 32 bits or more.
        return Err(Refusal::SheetLength(sheet.len() as u64));
    };
    if is_sound(sheet) {
        return Ok(());
    }
    match first_fault(sheet) {
        Some(k) => Err(Refusal::SheetEntry(k as u64)),
        None => Ok(()),
    }
}
