// Numbers in groups of seven bits: one read and written, and several one after the other (refusals 6 and 7).
#![tactic(auto)]

ghost use Rattle.std.specs.Prelude.{cond, ◌≡◌, ◌≤◌, ◌<◌, ◌^◌, ◌*◌, leb, length, drop};
ghost use Rattle.basis.specs.Figure.{Is};
ghost use Rattle.basis.specs.Writing.{written_over};
ghost use Rattle.groups.specs.Encode.{encode, encode_all};
ghost use Rattle.groups.specs.Decode.{last_group, extend, later_groups, decode};
ghost use Rattle.groups.specs.LowFirst.{after};
ghost use Rattle.groups.specs.Numbers.{extra, damage, values, numbers_in};

use basis::{Refusal, ensure};

// The last group, after count others: it is not 0, since the form is the shortest.
#[tactic(auto, unfolding(crate::specs::Decode::last_group, crate::specs::LowFirst::after))]
fn last_group(value: u64, weight: u64, count: usize, b: u64) -> Option<(u64, usize)>
    requires { (value < weight) × (weight ≤ 2 ^ 28) × (count ≤ 4) × (b < 128) }
    ensures { result ≡ after value weight count (last_group b) }
{
    if b == 0 {
        None
    } else {
        Some((value + b * weight, count + 1))
    }
}

// The number whose first group is b and whose later groups are the first of some bytes: at most five groups in all.
fn later_groups(b: u64, later: &[u8]) -> Option<(u64, usize)>
    ensures { result ≡ extend b (later_groups 3 later.now) }
{
    let mut value = b % 128;
    let mut weight = 128;
    for (i, group) in later.iter().take(4).enumerate() {
        let group = u64::from(*group);
        if group < 128 {
            return last_group(value, weight, i + 1, group);
        }
        value += group % 128 * weight;
        weight *= 128;
    }
    None
}

// The number at the front of some bytes, and how many it takes.
#[tactic(auto, using(crate::proofs::Decode::none_at_end, crate::proofs::Decode::first_alone, crate::proofs::Decode::first_continued), unfolding(crate::specs::Decode::limit))]
fn first_number(bytes: &[u8]) -> Option<(u32, usize)>
    ensures { result ≡ decode bytes.now }
{
    let (first, later) = bytes.split_first()?;
    let b = *first;
    if b < 128 {
        return Some((u32::from(b), 1));
    }
    let (value, count) = later_groups(u64::from(b), later)?;
    Some((u32::try_from(value).ok()?, count))
}

// The number whose groups start at an offset: its value and how many bytes it takes; none where it is not in its shortest form.
#[tactic(auto, using(crate::proofs::Decode::decode_end))]
pub fn number_at(file: &[u8], at: usize) -> Option<(u32, usize)>
    ensures { result ≡ decode (drop at file.now) }
{
    first_number(file.get(at..)?)
}

// What follows the numbers, at an offset, is refused.
#[tactic(auto, using(crate::proofs::Reading::extra_at))]
pub fn nothing_after(file: &[u8], at: usize) -> Result<(), Refusal>
    ensures { result ≡ extra at (drop at file.now) }
{
    // By `as`, here and below: the library has no From out of usize, nor into it from 32 bits or more.
    ensure(file.len() <= at, Refusal::Trailing(at as u64))
}

// Reads as many numbers of a file as a lent row has, which are to be all that it holds: 0 for the first damaged one and all after it; or what is refused of its bytes (6 or 7).
// Compiled into its callers, which know how many numbers their row has: called, it takes a reader of jobs a tenth longer.
#[inline(always)]
#[tactic(auto, using(crate::proofs::Decode::number_ends, crate::proofs::Reading::so_far_read))]
pub fn read_numbers(file: &[u8], numbers: &mut [u32]) -> Result<(), Refusal>
    ensures returned { result ≡ damage (length numbers.old) 0 file.now }
    ensures buffer { numbers.new ≡ values (length numbers.old) file.now }
{
    let mut at = 0;
    for i in 0..numbers.len() {
        let Some((value, count)) = number_at(file, at) else {
            numbers[i..].fill(0);
            return Err(Refusal::Damaged(at as u64));
        };
        numbers[i] = value;
        at += count;
    }
    nothing_after(file, at)
}

// The N numbers of a file, which are to be all that it holds, or what is refused of its bytes (6 or 7).
#[tactic(auto, unfolding(crate::specs::Numbers::numbers_in))]
pub fn numbers_in<const N: usize>(file: &[u8]) -> Result<[u32; N], Refusal>
    ensures { result ≡ numbers_in N file.now }
{
    let mut numbers = [0; N];
    read_numbers(file, &mut numbers)?;
    Ok(numbers)
}

// 1 where a number is at least so great, else 0.
fn one_from(least: u32, n: u32) -> u32
    ensures { Is result (cond (leb least n) 1 0) 1 }
{
    u32::from(least <= n)
}

// How many groups a number has, compared and not divided, so that the lengths of several are worked out at a time.
#[tactic(auto, using(crate::proofs::Encode::encode_counted))]
pub fn group_count(n: u32) -> u32
    ensures { Is result (length (encode n)) 5 }
{
    1 + one_from(128, n) + one_from(16384, n) + one_from(2097152, n) + one_from(268435456, n)
}

// How many bytes some numbers have.
// requires: the callers pass a job's numbers, or at most 200 whole rows of 25.
#[tactic(auto, using(crate::proofs::Encode::all_counted))]
pub fn numbers_length(numbers: &[u32]) -> usize
    requires { length numbers.now ≤ 5000 }
    ensures { result ≡ length (encode_all numbers.now) }
{
    numbers.iter().map(|n| group_count(*n)).sum::<u32>() as usize
}

// Writes a number's groups at the front of a buffer, and gives how many there are.
// requires: the callers have compared the length of all that they write with the buffer's.
pub fn write_number(n: u32, out: &mut [u8]) -> usize
    requires { length (encode n) ≤ length out.old }
    ensures returned { result ≡ length (encode n) }
    ensures buffer { out.new ≡ written_over (encode n) out.old }
{
    let mut x = n;
    let mut k = 0;
    // What is left of n ends the loop, not k: a `for` over the buffer would need an answer past its end.
    while 128 <= x {
        // A byte: what is cut off is 0.
        out[k] = (x % 128 + 128) as u8;
        x /= 128;
        k += 1;
    }
    out[k] = x as u8;
    k + 1
}

// Writes some numbers, each into what is left of the buffer after the one before.
// requires: the callers have compared `numbers_length` with the buffer's length.
pub fn write_numbers(numbers: &[u32], out: &mut [u8])
    requires { length (encode_all numbers.now) ≤ length out.old }
    ensures { out.new ≡ written_over (encode_all numbers.now) out.old }
{
    let mut at = 0;
    for n in numbers {
        at += write_number(*n, &mut out[at..]);
    }
}
