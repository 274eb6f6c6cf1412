// The line of a refusal, at the front of a buffer.
ghost use Rattle.std.specs.Prelude.{◌≡◌, length};
ghost use Rattle.basis.specs.Writing.{written_over};
ghost use Rattle.report.specs.Refused.{refused_line};

use crate::text::Text;

// The length of a buffer that has room for the line of any refusal.
pub const ROOM: usize = 192;

// Writes the line of a refusal at the front of a buffer, and gives its length. It takes any two numbers, as a `Refusal` would not allow; and each byte of a lent buffer is promised, which the library's contracts say of a `Display` only for a `String`.
pub fn write_refused(number: u64, place: u64, out: &mut [u8; ROOM]) -> usize
    ensures returned { result ≡ length (refused_line number place) }
    ensures buffer { out.new ≡ written_over (refused_line number place) out.old }
{
    let mut text = Text::new(out);
    text.word(b"refused ");
    text.pair(number, place);
    text.at
}
