// Holds `read` and `write` to the answers recorded in files.bin (tests/vectors/pack_files has its layout), and says where they differ.
#![tactic(auto)]

use basis::Refusal;
use groups::numbers_in;
use job::Job;
use jobfile::{JOB_NUMBERS, SUPPORT_NUMBERS};
use std::io::Read;
use std::{fs, io};
use support::Support;

// How many files a run reads at most.
const FILES_MOST: u64 = 1000000;

// How many files are answered as recorded, by the refusal's number, 0 for none; and how many are not.
#[derive(Clone, Copy)]
struct Counts {
    agree: [u64; 8],
    differ: u64,
}

// The number and the place of a refusal.
type Refused = (u64, u64);

fn refused(refusal: Refusal) -> Refused {
    (u64::from(refusal.number()), refusal.place())
}

// A job of either kind, whatever of it is out of range.
#[derive(Clone, Copy)]
enum Unexamined {
    Scaffold(Job),
    Support(Support),
}

// Writes a job of either kind, and gives its file's length.
fn write(j: Unexamined, out: &mut [u8]) -> Result<usize, Refused> {
    let written = match j {
        Unexamined::Scaffold(scaffold) => jobfile::write(scaffold, out),
        Unexamined::Support(support) => jobfile::write_support(support, out),
    };
    written.map_err(refused)
}

// In a buffer of a length, writing a job gives an answer and leaves these bytes, and those after them as they were.
fn writes(j: Unexamined, length: usize, answer: Result<usize, Refused>, left: &[u8]) -> bool {
    let mut out = [165; 96];
    let Some(part) = out.get_mut(..length) else {
        return false;
    };
    if write(j, part) != answer {
        return false;
    }
    out.strip_prefix(left)
        .is_some_and(|rest| rest.iter().all(|b| *b == 165))
}

// With room, in the file's own length, and in a byte less, where every byte is untouched.
fn writes_back(j: Unexamined, file: &[u8]) -> bool {
    let n = file.len();
    n != 0
        && writes(j, 96, Ok(n), file)
        && writes(j, n, Ok(n), file)
        // By `as`: the library has no From out of usize, nor into it from 32 bits or more.
        && writes(j, n - 1, Err(refused(Refusal::TooShort(n as u64))), &[])
}

// The job of a file's numbers, whatever of them is out of range; refused where the bytes do not stand.
fn numbers_of(file: &[u8]) -> Result<Unexamined, Refused> {
    let found = if file.first() == Some(&3) {
        numbers_in::<SUPPORT_NUMBERS>(file).map(|n| Unexamined::Support(Support::from(n)))
    } else {
        numbers_in::<JOB_NUMBERS>(file).map(|n| Unexamined::Scaffold(Job::from(n)))
    };
    found.map_err(refused)
}

// The numbers of a file whose bytes stand, written: back as the file, or refused as in reading.
fn write_agrees(file: &[u8], recorded: Result<(), Refused>) -> bool {
    match (numbers_of(file), recorded) {
        (Ok(j), Ok(())) => writes_back(j, file),
        (Ok(j), Err(refusal)) => refusal.0 <= 5 && writes(j, 96, Err(refusal), &[]),
        (Err(damage), recorded) => recorded == Err(damage),
    }
}

// Whether a file is answered as recorded; a line where it is not.
fn agrees<R: Print>(
    rt: &R,
    file: &[u8],
    recorded: Result<(), Refused>,
    index: u64,
) -> io::Result<bool> {
    let found = jobfile::read(file).map(|_| ()).map_err(refused);
    if found != recorded {
        let (read, at) = found.err().unwrap_or((0, 0));
        let (number, place) = recorded.err().unwrap_or((0, 0));
        println!(rt; "file {index}: refused {read} {at}, recorded {number} {place}")?;
        return Ok(false);
    }
    if !write_agrees(file, recorded) {
        println!(rt; "not written back as it was read: file {index}")?;
        return Ok(false);
    }
    Ok(true)
}

// Whether a record's file is answered as it says; a line where it is not.
fn check<R: Print>(rt: &R, record: &[u8; 83], index: u64) -> io::Result<bool> {
    let Some(file) = record[3..83].get(..usize::from(record[2])) else {
        println!(rt; "a record has no such length: file {index}")?;
        return Ok(false);
    };
    let recorded = match (u64::from(record[0]), u64::from(record[1])) {
        (0, 0) => Ok(()),
        refusal => Err(refusal),
    };
    agrees(rt, file, recorded, index)
}

// Counts every record; gives how many there are.
fn check_all<R: Print, F: Read>(rt: &R, from: &mut F, counts: &mut Counts) -> io::Result<u64> {
    for index in 0..FILES_MOST {
        let mut record = [0; 83];
        if from.read_exact(&mut record).is_err() {
            return Ok(index);
        }
        if !check(rt, &record, index)? {
            counts.differ = counts.differ.saturating_add(1);
        } else if let Some(count) = counts.agree.get_mut(usize::from(record[0])) {
            *count = count.saturating_add(1);
        }
    }
    Ok(FILES_MOST)
}

fn main(rt: HostRuntime) -> io::Result<()> {
    let Ok(mut file) = fs::open(&rt, "files.bin") else {
        return println!(rt; "no files.bin");
    };
    let mut counts = Counts {
        agree: [0; 8],
        differ: 0,
    };
    let files = check_all(&rt, &mut file, &mut counts)?;
    println!(rt; "files {files}")?;
    println!(rt; "read {}", counts.agree[0])?;
    for (number, count) in counts.agree.iter().enumerate().skip(3) {
        println!(rt; "refused {number} {count}")?;
    }
    println!(rt; "differ {}", counts.differ)
}
