// Job files of both kinds: a job's numbers in groups of seven bits, read (refusals 6, 7, 3, 4, 5) and written (3, 4, 5, 8).
#![tactic(auto)]

ghost use Rattle.std.specs.Prelude.{◌≡◌, ◌≤◌, length, MatchResult, Err};
ghost use Rattle.basis.specs.Refusal.{first};
ghost use Rattle.basis.specs.Writing.{room_refusal, written_or, left_or};
ghost use Rattle.job.specs.Job.{numbers};
ghost use Rattle.support.specs.Support.{numbers as support_numbers};
ghost use Rattle.groups.specs.Encode.{encode_all};
ghost use Rattle.groups.specs.Numbers.{numbers_in};
ghost use Rattle.jobfile.specs.Kind.{scaffold, support, marks_support};
ghost use Rattle.jobfile.specs.Read.{job_in};
ghost use Rattle.jobfile.specs.Write.{file_written, file_left};

use basis::{Refusal, ensure};
use groups::{number_at, numbers_length, read_numbers, write_numbers};
use job::Job;
use job::bounded::BoundedJob;
use support::Support;
use support::bounded::BoundedSupport;

// How many numbers a scaffold's job has, and a support.
pub const JOB_NUMBERS: usize = 25;

pub const SUPPORT_NUMBERS: usize = 13;

// The greatest length of an accepted job's file, and of a support's: a buffer of that length has room for each.
pub const GREATEST_LENGTH: usize = 42;

pub const GREATEST_SUPPORT_LENGTH: usize = 24;

// How much of a file decides what is read: a reader may pass that many of its first bytes for the whole.
pub const BEGINNING_LENGTH: usize = 126;

// The job of a file, a scaffold's or a support.
#[derive(Clone, Copy)]
pub enum FileJob {
    Scaffold(BoundedJob),
    Support(BoundedSupport),
}

// A first number of 3 marks a support.
#[tactic(auto, using(crate::proofs::Reading::marks_number, crate::proofs::Reading::marks_none))]
fn marks_support(file: &[u8]) -> bool
    ensures { result ≡ marks_support file.now }
{
    match number_at(file, 0) {
        Some((n, _)) => n == 3,
        None => false,
    }
}

// The job of a file of N numbers: R has them by name, and is read as S, or refused.
// requires: a scaffold has 25, a support 13.
#[tactic(auto, unfolding(groups::specs::Numbers::numbers_in))]
fn read_as<R: From<[u32; N]>, S: TryFrom<R, Error = Refusal>, const N: usize>(
    file: &[u8],
) -> Result<S, Refusal>
    requires { N ≤ 25 }
    ensures { MatchResult (numbers_in N file.now) (λ ns. (raw : R) × R.from_gives ns raw × S.try_from_gives raw result) (λ refusal. result ≡ Err refusal) }
{
    let mut numbers = [0; N];
    read_numbers(file, &mut numbers)?;
    S::try_from(R::from(numbers))
}

// The job of a file.
pub fn read(file: &[u8]) -> Result<FileJob, Refusal>
    ensures { result ≡ job_in file.now }
{
    if marks_support(file) {
        Ok(FileJob::Support(read_as::<Support, _, SUPPORT_NUMBERS>(file)?))
    } else {
        Ok(FileJob::Scaffold(read_as::<Job, _, JOB_NUMBERS>(file)?))
    }
}

// Writes examined numbers at the front of a buffer, which stays as it is where they are refused or do not fit.
fn write_examined(
    examined: Result<(), Refusal>,
    numbers: &[u32],
    out: &mut [u8],
) -> Result<usize, Refusal>
    requires { length numbers.now ≤ 25 }
    ensures returned { result ≡ written_or (first examined (room_refusal (encode_all numbers.now) out.old)) (length (encode_all numbers.now)) }
    ensures buffer { out.new ≡ left_or (first examined (room_refusal (encode_all numbers.now) out.old)) (encode_all numbers.now) out.old }
{
    examined?;
    let needed = numbers_length(numbers);
    // By `as`: the library has no From out of usize, nor into it from 32 bits or more.
    ensure(needed <= out.len(), Refusal::TooShort(needed as u64))?;
    write_numbers(numbers, out);
    Ok(needed)
}

// Writes the file of a scaffold's job at the front of a buffer, which stays as it is where the job is refused or does not fit.
#[tactic(auto, using(job::proofs::Numbers::job_numbers))]
pub fn write(j: Job, out: &mut [u8]) -> Result<usize, Refusal>
    ensures returned { result ≡ file_written scaffold (numbers j) out.old }
    ensures buffer { out.new ≡ file_left scaffold (numbers j) out.old }
{
    write_examined(j.examine(), &<[u32; JOB_NUMBERS]>::from(j), out)
}

// The same for a support. What the two calls share is `write_examined`, so that each is a line.
#[tactic(auto, using(support::proofs::Numbers::support_numbers))]
pub fn write_support(s: Support, out: &mut [u8]) -> Result<usize, Refusal>
    ensures returned { result ≡ file_written support (support_numbers s) out.old }
    ensures buffer { out.new ≡ file_left support (support_numbers s) out.old }
{
    write_examined(s.examine(), &<[u32; SUPPORT_NUMBERS]>::from(s), out)
}
