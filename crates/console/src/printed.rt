// What the program prints, decided from bytes.
ghost use Rattle.std.specs.Prelude.{◌≡◌, length};
ghost use Rattle.basis.specs.Writing.{written_over};
ghost use Rattle.console.specs.Prefix.{IsPrefixLen};
ghost use Rattle.console.specs.Printed.{line, printed_from};

use basis::Refusal;
use report::refusal::{ROOM, write_refused};

// A place above that is given as that.
pub(crate) const GREATEST_PLACE: u64 = 4294967295;

// Writes the line of a refusal at the front of a buffer, and gives its length.
fn write_line(refusal: Refusal, out: &mut [u8; ROOM]) -> usize
    ensures returned { result ≡ length (line refusal) }
    ensures buffer { out.new ≡ written_over (line refusal) out.old }
{
    let place = refusal.place().min(GREATEST_PLACE);
    write_refused(u64::from(refusal.number()), place, out)
}

// The report, or the line of the refusal, at the front of a buffer, from a sheet's size and first bytes and a file; gives its length.
#[tactic(auto, using(crate::proofs::Returned::other_length, crate::proofs::Returned::report_printed, crate::proofs::Returned::refusal_printed))]
pub fn write_printed(size: u64, sheet: &[u8], file: &[u8], out: &mut [u8; ROOM]) -> usize
    ensures within { IsPrefixLen result out.new }
    ensures returned { result ≡ length (printed_from size sheet.now file.now) }
    ensures buffer { out.new ≡ written_over (printed_from size sheet.now file.now) out.old }
{
    if size != 502 {
        return write_line(Refusal::SheetLength(size), out);
    }
    match rembilung::verdict(sheet, file, out) {
        Ok(n) => n,
        Err(refusal) => write_line(refusal, out),
    }
}
