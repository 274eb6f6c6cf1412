// A book examined whole (refusals 9, 10, 11): how many rows it has, and where its columns start.
ghost use Rattle.std.specs.Prelude.{◌≡◌, ◌≤◌, length, Ok};
ghost use Rattle.basis.specs.Refusal.{first};
ghost use Rattle.book.specs.Read.{book_damage, book_refusal};
ghost use Rattle.bookfile.specs.Layout.{counted, laid_out, layout_of};

use crate::places::Columns;
use crate::{ROW, ROWS_MOST};
use basis::{Refusal, ensure};
use groups::number_at;

// How many rows a book has, and where its columns start: what a row at a time is read by.
#[derive(Clone, Copy)]
pub struct Layout {
    pub count: u32,
    pub places: [usize; ROW],
}

// What damages a job file or follows its numbers is 9 in a book.
fn book_damage(examined: Result<(), Refusal>) -> Result<(), Refusal>
    ensures { result ≡ book_damage examined }
{
    examined.map_err(|refusal| Refusal::BookDamaged(refusal.place()))
}

// The count that a book begins with, and the place after it; no bytes at all are the count 0.
fn count_of(book: &[u8]) -> Result<(u32, usize), Refusal>
    ensures { result ≡ counted book.now }
{
    if book.is_empty() {
        return Ok((0, 0));
    }
    number_at(book, 0).ok_or(Refusal::BookDamaged(0))
}

// Where the columns of n rows start that follow the first k bytes.
#[tactic(auto, using(crate::proofs::Reading::damage_read), unfolding(crate::specs::Layout::laid_out))]
fn columns_of(book: &[u8], n: u32, k: usize) -> Result<Layout, Refusal>
    requires { k ≤ length book.now }
    ensures { result ≡ laid_out book.now n k }
{
    ensure(n <= ROWS_MOST, Refusal::BookCount(u64::from(n)))?;
    let columns = Columns {
        book,
        start: k,
        // By `as`: the library has no From out of usize, nor into it from 32 bits or more.
        count: n as usize,
    };
    let places = columns.starts();
    // Where an earlier number is damaged, the last column's place stays at it.
    book_damage(columns.last_damage(places[ROW - 1]))?;
    columns.examine(places)?;
    Ok(Layout { count: n, places })
}

// Refuses a book (10, 9, 11), or tells where its rows stand.
#[tactic(auto, using(crate::proofs::Reading::within, crate::proofs::Reading::uncounted, crate::proofs::Reading::laid))]
pub fn lay_out(book: &[u8]) -> Result<Layout, Refusal>
    ensures { result ≡ first (book_refusal book.now) (Ok (layout_of book.now)) }
{
    let (n, k) = count_of(book)?;
    columns_of(book, n, k)
}
