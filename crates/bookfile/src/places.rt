// Where the numbers of a book stand: the start of each column, found in one pass that finds the damage too, and a row at 25 places.
ghost use Rattle.std.specs.Prelude.{◌≡◌, ◌+◌, ◌≤◌, length, drop};
ghost use Rattle.groups.specs.Decode.{decode};
ghost use Rattle.groups.specs.Numbers.{damage};
ghost use Rattle.bookfile.specs.Places.{place_of, place_in, walk_damage, starts, single, step_at, row_at, moved};

use crate::ROW;
use basis::Refusal;
use groups::{nothing_after, number_at};

// A number and the place of the next. A place stays apart from its book: 25 of them move through one book, and a refusal names one.
#[derive(Clone, Copy, Debug, PartialEq, Eq)]
pub struct Step {
    pub value: u32,
    pub next: usize,
}

// The number at a place and the place of the next. A damaged one counts as 0, of no bytes: an Option would be opened 25 times a row where none is damaged any more.
fn step_at(book: &[u8], at: usize) -> Step
    ensures { result ≡ step_at book.now at }
{
    let (value, k) = number_at(book, at).unwrap_or((0, 0));
    Step {
        value,
        next: at + k,
    }
}

// The same where none is damaged: of one or two bytes, as most are, nothing has to be tested but where it ends.
// requires: the reader has gone through the whole book and found no damage.
#[tactic(auto, using(crate::proofs::Steps::stands_here, crate::proofs::Steps::stands_next, crate::proofs::Steps::step_one, crate::proofs::Steps::step_two))]
pub fn sound_step(book: &[u8], at: usize) -> Step
    requires { decode (drop at book.now) ≡ None → ⊥ }
    ensures { result ≡ step_at book.now at }
{
    let a = u32::from(book[at]);
    if a < 128 {
        return Step {
            value: a,
            next: at + 1,
        };
    }
    let b = u32::from(book[at + 1]);
    if b < 128 {
        return Step {
            value: b * 128 + a % 128,
            next: at + 2,
        };
    }
    step_at(book, at)
}

// The n bytes from a place on are numbers of one byte each; every byte is looked at, so that sixteen can be compared at a time.
#[tactic(auto, using(crate::proofs::Steps::single_next), unfolding(crate::specs::Places::single))]
fn single_bytes(book: &[u8], at: usize, n: usize) -> bool
    requires { at + n ≤ length book.now }
    ensures { result ≡ single book.now at n }
{
    let mut so_far = true;
    for byte in &book[at..at + n] {
        so_far &= *byte < 128;
    }
    so_far
}

// The place n numbers on, found one by one, or that of the first that is damaged.
#[tactic(auto, using(crate::proofs::Steps::walked))]
fn walk(book: &[u8], n: usize, at: usize) -> Result<usize, usize>
    ensures place { place_in result ≡ place_of book.now at n }
    ensures damage { walk_damage book.now result ≡ damage n at (drop at book.now) }
{
    let mut place = at;
    for _ in 0..n {
        let (_, k) = number_at(book, place).ok_or(place)?;
        place += k;
    }
    Ok(place)
}

// The place n numbers on, at a damaged one that one's. Columns of small numbers are passed many bytes at a time.
#[tactic(auto, using(crate::proofs::Numbers::single_placed))]
fn skip(book: &[u8], n: usize, at: usize) -> usize
    requires { at ≤ length book.now }
    ensures { result ≡ place_of book.now at n }
{
    if n <= book.len() - at && single_bytes(book, at, n) {
        return at + n;
    }
    match walk(book, n, at) {
        Ok(place) | Err(place) => place,
    }
}

// The columns of a book: 25 times count numbers, from a place on.
#[derive(Clone, Copy)]
pub struct Columns<'a> {
    pub book: &'a [u8],
    pub start: usize,
    pub count: usize,
}

impl Columns<'_> {
    // The places at which they start.
    // requires: the reader has read the count, which ends within the book.
    #[tactic(auto, using(crate::proofs::Steps::columns_started))]
    pub fn starts(&self) -> [usize; ROW]
        requires { self.now.start ≤ length self.now.book.now }
        ensures { result ≡ starts self.now.book.now self.now.start self.now.count }
    {
        let mut places = [self.start; ROW];
        for c in 0..ROW - 1 {
            places[c + 1] = skip(self.book, self.count, places[c]);
        }
        places
    }

    // What is refused of one that starts at a place, and of the bytes after it.
    pub fn last_damage(&self, at: usize) -> Result<(), Refusal>
        ensures { result ≡ damage self.now.count at (drop at self.now.book.now) }
    {
        let walked = walk(self.book, self.count, at);
        // By `as`: the library has no From out of usize, nor into it from 32 bits or more.
        let place = walked.map_err(|place| Refusal::Damaged(place as u64))?;
        nothing_after(self.book, place)
    }
}

// The row at 25 places, which move on to the next.
#[tactic(auto, using(crate::proofs::Steps::moved_on))]
pub fn next_row(book: &[u8], places: &mut [usize; ROW]) -> [u32; ROW]
    ensures returned { result ≡ row_at book.now places.old }
    ensures moving { places.new ≡ moved book.now places.old }
{
    let mut numbers = [0; ROW];
    for c in 0..ROW {
        let step = step_at(book, places[c]);
        numbers[c] = step.value;
        places[c] = step.next;
    }
    numbers
}
