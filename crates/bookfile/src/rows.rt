// The rows of a book, one after the other: the lowest that is bad, and their numbers in lent rows.
ghost use Rattle.std.specs.Prelude.{◌≡◌, ◌++◌, ◌+◌, ◌*◌, ◌≤◌, ◌<◌, length, drop};
ghost use Rattle.groups.specs.Numbers.{values};
ghost use Rattle.book.specs.Book.{rows_of, good, first_bad, bad_row};
ghost use Rattle.bookfile.specs.Pieces.{flat};
ghost use Rattle.bookfile.specs.Places.{place_of, Sound, first_bad_at, PutColumn};

use crate::ROW;
use crate::places::{Columns, next_row, sound_step};
use basis::Refusal;
use job::Job;

// Neither 3 nor 4 nor 5 refuses a scaffold's 25 numbers.
#[tactic(auto, unfolding(book::specs::Book::good))]
fn good_row(numbers: [u32; ROW]) -> bool
    ensures { result ≡ good numbers }
{
    Job::from(numbers).examine().is_ok()
}

impl Columns<'_> {
    // Refuses the lowest bad row of columns that start at 25 places.
    #[tactic(auto, using(crate::proofs::Steps::row_by_row))]
    pub fn examine(&self, places: [usize; ROW]) -> Result<(), Refusal>
        ensures { result ≡ bad_row self.now.count (first_bad_at self.now.book.now places self.now.count) }
    {
        let mut at = places;
        for row in 0..self.count {
            if !good_row(next_row(self.book, &mut at)) {
                // By `as`, here and below: the library has no From out of usize, nor into it from 32 bits or more.
                return Err(Refusal::BookRow(row as u64));
            }
        }
        Ok(())
    }

    // Puts the numbers of column c, which start at a place, into as many rows, and gives the place after them.
    fn put_column(&self, c: usize, at: usize, out: &mut [u32]) -> usize
        requires { (25 * self.now.count ≤ length out.old) × (c < 25) × Sound self.now.book.now at self.now.count }
        ensures returned { result ≡ place_of self.now.book.now at self.now.count }
        ensures buffer { PutColumn self.now.count c (values self.now.count (drop at self.now.book.now)) out.old out.new }
    {
        let mut place = at;
        for row in 0..self.count {
            let step = sound_step(self.book, place);
            // The library says nothing of what a slice ends as whose chunks were lent to be written.
            out[ROW * row + c] = step.value;
            place = step.next;
        }
        place
    }

    // Puts them into as many rows.
    // requires: the reader has compared the rows with those lent, and found no damage.
    #[tactic(auto, using(crate::proofs::Filling::column_by_column))]
    pub fn put(&self, out: &mut [u32])
        requires { (25 * self.now.count ≤ length out.old) × Sound self.now.book.now self.now.start (25 * self.now.count) }
        ensures { out.new ≡ rows_of self.now.count (values (25 * self.now.count) (drop self.now.start self.now.book.now)) ++ drop (25 * self.now.count) out.old }
    {
        let mut at = self.start;
        for c in 0..ROW {
            at = self.put_column(c, at, out);
        }
    }
}

// Refuses the lowest bad one of some rows. One search for these and for a book's would take a closure that has its places, and a contract longer than both.
#[tactic(auto, using(basis::proofs::Searches::scan, crate::proofs::Flat::row_good, crate::proofs::Steps::first_bad_none, crate::proofs::Steps::row_bad, crate::proofs::Steps::rows_good))]
pub fn examine_rows(rows: &[[u32; ROW]]) -> Result<(), Refusal>
    ensures { result ≡ bad_row (length rows.now) (first_bad (length rows.now) (flat rows.now)) }
{
    for (r, row) in rows.iter().enumerate() {
        if !good_row(*row) {
            return Err(Refusal::BookRow(r as u64));
        }
    }
    Ok(())
}
