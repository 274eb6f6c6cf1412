// Judges the packed vectors of data/ and compares each part of every answer with the expected one.
#![tactic(auto)]

ghost use Rattle.std.specs.Prelude.{◌≡◌, ◌^◌, ◌<◌, ◌≤◌, IfOk};
ghost use Rattle.vectors.specs.declared.Outcome.TheVariants.{Cut};

use basis::Refusal;
use job::Job;
use section5::{Heights, Judgement};
use std::io::Read;
use std::rt::Files;
use std::{array, fmt, fs, io};

// What a record shows of an answer, or that it cannot be read whole.
#[derive(Clone, Copy, Debug, PartialEq, Eq)]
enum Outcome {
    Agrees,
    Differs,
    Cut,
}

// The bytes that begin at a place; 0 where they are not all there.
fn bytes_at<const N: usize>(bytes: &[u8], at: usize) -> [u8; N] {
    bytes
        .get(at..)
        .and_then(|rest| rest.first_chunk())
        .copied()
        .unwrap_or([0; N])
}

// The 32 bits that begin at a place, low byte first.
fn word_at(bytes: &[u8], at: usize) -> u32 {
    u32::from_le_bytes(bytes_at(bytes, at))
}

// The entries that begin at a place, low byte first.
fn entries<const N: usize>(bytes: &[u8], from: usize) -> [u16; N]
    requires { (N ≤ 512) × (from ≤ 1024) }
{
    array::from_fn(|k| u16::from_le_bytes(bytes_at(bytes, from + 2 * k)))
}

// The 25 numbers of a record of jobs.bin, after its line and its sheet.
fn numbers(record: &[u8]) -> [u32; 25] {
    array::from_fn(|k| word_at(record, 8 + 4 * k))
}

// The stability height and the permitted height as a record has them: each as 1 and the height, or 0 and 0 for none.
fn heights_of(heights: Heights) -> [u64; 4] {
    match heights {
        Heights::NoLine | Heights::Nowhere => [0; 4],
        Heights::Both(stability, permitted) => [1, stability, 1, permitted],
    }
}

// The 33 parts of a judgement, in the order of a record's answer.
fn parts_of(j: Judgement) -> [u64; 33] {
    let words = [0; 2]
        .into_iter()
        .chain(j.verdicts.map(u64::from))
        .chain(j.figures)
        .chain(heights_of(j.heights))
        .chain([j.wk, j.mw, j.z]);
    let mut parts = [0; 33];
    for (part, word) in parts.iter_mut().zip(words) {
        *part = word;
    }
    parts
}

// After a refusal every part but its number and place counts as 0.
fn answer_of(judged: Result<Judgement, Refusal>) -> [u64; 33] {
    match judged {
        Ok(judgement) => parts_of(judgement),
        Err(refusal) => {
            let mut answer = [0; 33];
            answer[0] = u64::from(refusal.number());
            answer[1] = refusal.place();
            answer
        }
    }
}

// A part of an answer by its place there, printed as its name.
#[derive(Clone, Copy)]
struct Part(usize);

impl fmt::Display for Part {
    fn fmt<W: fmt::Write>(&self, f: &mut fmt::Formatter<W>) -> fmt::Result {
        match self.0 {
            0 => write!(f, "refusal"),
            1 => write!(f, "place"),
            k @ 2..=13 => write!(f, "verdict {}", k - 1),
            k @ 14..=25 => write!(f, "figure {}", k - 13),
            26 => write!(f, "stability given"),
            27 => write!(f, "stability"),
            28 => write!(f, "permitted given"),
            29 => write!(f, "permitted"),
            30 => write!(f, "wk"),
            31 => write!(f, "Mw"),
            _ => write!(f, "Z"),
        }
    }
}

// Compares parts of an answer with the words that a record expects from a place on; names its line and each part that differs.
fn compare<R: Print>(
    rt: &R,
    name: &str,
    found: &[u64],
    record: &[u8],
    from: usize,
) -> io::Result<Outcome>
    ensures { IfOk result (λ outcome. outcome ≡ Cut → ⊥) }
{
    let mut outcome = Outcome::Agrees;
    let (words, _) = record.get(from..).unwrap_or(&[]).as_chunks();
    for (k, (found, word)) in found.iter().zip(words).enumerate() {
        let expected = u64::from(u32::from_le_bytes(*word));
        if *found != expected {
            if outcome == Outcome::Agrees {
                let line = word_at(record, 0);
                print!(rt; "{name}.txt line {line}:")?;
            }
            print!(rt; " {} is {found}, expected {expected};", Part(k))?;
            outcome = Outcome::Differs;
        }
    }
    if outcome == Outcome::Differs {
        println!(rt; "")?;
    }
    Ok(outcome)
}

// Judges a record of jobs.bin, under the one of the sheets at its front that the record names: T, or C after it.
fn judge_job<R: Print>(rt: &R, front: &[u8], record: &[u8]) -> io::Result<Outcome> {
    let sheet: [u16; 251] = match word_at(record, 4) {
        0 => entries(front, 4),
        _ => entries(front, 506),
    };
    let judged = judge::judge(&sheet, Job::from(numbers(record)));
    compare(rt, "jobs", &answer_of(judged), record, 108)
}

// Job J of the paper, with which every sheet is judged.
fn job_j() -> Job {
    Job::from([
        1, 1, 105, 150, 180, 2, 3000, 3, 4, 2, 3000, 5000, 0, 300, 300, 1000, 1, 200, 1, 240, 1,
        8000, 4, 200, 2000,
    ])
}

// Judges a record of sheets.bin, of whose answer only the refusal is expected.
fn judge_sheet<R: Print>(rt: &R, record: &[u8]) -> io::Result<Outcome> {
    let sheet: [u16; 512] = entries(record, 16);
    // By `as`: the library has no From out of usize, nor into it from 32 bits or more.
    let Some(sheet) = sheet.get(..word_at(record, 4) as usize) else {
        return Ok(Outcome::Cut);
    };
    let found = answer_of(judge::judge(sheet, job_j()));
    compare(rt, "sheets", &found[..2], record, 8)
}

// The next bytes of a file.
fn next<F: Read, const N: usize>(from: &mut F) -> io::Result<[u8; N]> {
    let mut bytes = [0; N];
    from.read_exact(&mut bytes[..])?;
    Ok(bytes)
}

// The closing line, or what is wrong where the file goes on after its last record.
fn close<R: Print, F: Read>(
    rt: &R,
    name: &str,
    from: &mut F,
    count: u32,
    differ: u32,
) -> io::Result<()> {
    if next::<F, 1>(from).is_ok() {
        return println!(rt; "{name}.bin goes on after its last record");
    }
    println!(rt; "{name}: {count} judged, {differ} differ")
}

// Judges each of so many records of N bytes, which follow one another in a file.
fn judge_each<R: Print, F: Read, J: Fn(&[u8]) -> io::Result<Outcome>, const N: usize>(
    rt: &R,
    name: &str,
    from: &mut F,
    count: u32,
    judge: J,
) -> io::Result<()>
    requires callable { J.IsAlwaysCallable judge }
    requires size { N < 2 ^ 63 }
{
    let mut differ = 0;
    for at in 0..count {
        let outcome = match next::<F, N>(from) {
            Ok(record) => judge(&record[..])?,
            Err(_) => Outcome::Cut,
        };
        match outcome {
            Outcome::Agrees => {}
            Outcome::Differs => differ += 1,
            Outcome::Cut => {
                return println!(rt; "{name}.bin is cut: it names {count} records and has {at}");
            }
        }
    }
    close(rt, name, from, count, differ)
}

// Judges a file whose front begins with the count of its records, of N bytes each, and ends in what is named last.
fn judge_file<
    R: Files + Print,
    J: Fn(&[u8], &[u8]) -> io::Result<Outcome>,
    const FRONT: usize,
    const N: usize,
>(rt: &R, name: &str, path: &str, last: &str, judge: J) -> io::Result<()>
    requires callable { J.IsAlwaysCallable judge }
    requires sizes { (FRONT < 2 ^ 63) × (N < 2 ^ 63) }
{
    let Ok(mut file) = fs::open(rt, path) else {
        return println!(rt; "{path} is missing");
    };
    let Ok(front) = next::<_, FRONT>(&mut file) else {
        return println!(rt; "{path} is cut inside its {last}");
    };
    judge_each::<_, _, _, N>(rt, name, &mut file, word_at(&front, 0), |record| {
        judge(&front, record)
    })
}

fn main(rt: HostRuntime) -> io::Result<()> {
    judge_file::<_, _, 1008, 240>(&rt, "jobs", "jobs.bin", "sheets", |front, record| {
        judge_job(&rt, front, record)
    })?;
    judge_file::<_, _, 4, 1040>(&rt, "sheets", "sheets.bin", "count", |_, record| {
        judge_sheet(&rt, record)
    })
}
