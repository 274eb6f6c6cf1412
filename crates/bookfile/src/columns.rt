// Rows written by column, each number into what is left of the buffer.
ghost use Rattle.std.specs.Prelude.{◌≡◌, ◌≤◌, ◌<◌, length};
ghost use Rattle.basis.specs.Writing.{written_over};
ghost use Rattle.bookfile.specs.Pieces.{column_of, columns_of, book_of_rows};

use crate::ROW;
use groups::write_number;

// Writes column c of some rows at the front of a buffer, and gives its length. It asks for the room of what it writes itself, and so does each below.
fn write_column(rows: &[[u32; ROW]], c: usize, out: &mut [u8]) -> usize
    requires { (c < 25) × (length (column_of rows.now c) ≤ length out.old) }
    ensures returned { result ≡ length (column_of rows.now c) }
    ensures buffer { out.new ≡ written_over (column_of rows.now c) out.old }
{
    let mut at = 0;
    for row in rows {
        at += write_number(row[c], &mut out[at..]);
    }
    at
}

// Writes the 25 columns of some rows, each into what is left of the buffer after the one before.
fn write_columns(rows: &[[u32; ROW]], out: &mut [u8])
    requires { length (columns_of rows.now) ≤ length out.old }
    ensures { out.new ≡ written_over (columns_of rows.now) out.old }
{
    let mut at = 0;
    for c in 0..ROW {
        at += write_column(rows, c, &mut out[at..]);
    }
}

// Writes the book of some rows at the front of a buffer that has room for it.
// requires: the writer has compared the count with 200, and the book's length with the buffer's.
#[tactic(auto, using(crate::proofs::Pieces::book_length, crate::proofs::Pieces::book_written_lem, crate::proofs::Pieces::kept))]
pub fn put_book(rows: &[[u32; ROW]], out: &mut [u8])
    requires { (length rows.now ≤ 200) × (length (book_of_rows rows.now) ≤ length out.old) }
    ensures { out.new ≡ written_over (book_of_rows rows.now) out.old }
{
    // By `as`: the library has no From out of usize, nor into it from 32 bits or more.
    let at = write_number(rows.len() as u32, out);
    write_columns(rows, &mut out[at..]);
}
