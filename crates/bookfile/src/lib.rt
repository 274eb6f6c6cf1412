// A season's book read into lent rows (refusals 10, 9, 11, 8) and written from rows (10, 11, 8), with no room for a whole book of its own.
#![tactic(auto)]

ghost use Rattle.std.specs.Prelude.{◌≡◌};
ghost use Rattle.book.specs.Read.{rows_read, rows_left};
ghost use Rattle.book.specs.Write.{book_written, book_left};

use crate::columns::put_book;
use crate::layout::lay_out;
use crate::places::Columns;
use crate::rows::examine_rows;
use basis::{Refusal, ensure};
use groups::{group_count, numbers_length};

mod columns;
pub mod layout;
pub mod places;
mod rows;

// How many rows a book has at most, and how many bytes the longest.
pub const ROWS_MOST: u32 = 200;

pub const GREATEST_LENGTH: usize = 8402;

// How many numbers a row has.
pub const ROW: usize = 25;

// Reads the rows of a book into rows that were lent, which stay as they are where it is refused or its rows do not fit.
#[tactic(auto, using(crate::proofs::Reading::rows_laid), unfolding(book::specs::Read::rows_read, book::specs::Read::rows_left, book::specs::Read::read_refusal, book::specs::Book::row_count, crate::specs::Layout::layout_of))]
pub fn read(book: &[u8], rows: &mut [u32]) -> Result<usize, Refusal>
    ensures returned { result ≡ rows_read book.now rows.old }
    ensures buffer { rows.new ≡ rows_left book.now rows.old }
{
    let layout = lay_out(book)?;
    // By `as`, here and below: the library has no From out of usize, nor into it from 32 bits or more.
    let count = layout.count as usize;
    ensure(count <= rows.len() / ROW, Refusal::TooShort(count as u64))?;
    let columns = Columns {
        book,
        start: layout.places[0],
        count,
    };
    columns.put(rows);
    Ok(count)
}

// Writes the book of the whole rows at the front of a buffer, which stays as it is where they are refused or it does not fit.
#[tactic(auto, using(crate::proofs::Writing::way))]
pub fn write(rows: &[u32], out: &mut [u8]) -> Result<usize, Refusal>
    ensures returned { result ≡ book_written rows.now out.old }
    ensures buffer { out.new ≡ book_left rows.now out.old }
{
    let (whole, _) = rows.as_chunks::<ROW>();
    let n = whole.len();
    ensure(n <= ROWS_MOST as usize, Refusal::BookCount(n as u64))?;
    examine_rows(whole)?;
    let count = group_count(n as u32) as usize;
    let needed = count + numbers_length(whole.as_flattened());
    ensure(needed <= out.len(), Refusal::TooShort(needed as u64))?;
    put_book(whole, out);
    Ok(needed)
}
