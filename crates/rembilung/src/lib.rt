// The calls of the C interface: the whole call, job files of both kinds for a host that keys numbers in, season's books, two ends, load cells, and the first failing row of a book. Crate rembilung_c opens them to C.
#![tactic(auto)]

ghost use Rattle.std.specs.Prelude.{◌≡◌, eqb, length, Ok};
ghost use Rattle.basis.specs.Refusal.{unless};
ghost use Rattle.basis.specs.declared.Refusal.TheVariants.{SheetLength};
ghost use Rattle.between.specs.Between.{answer, numbers};
ghost use Rattle.failing.specs.Failing.{numbers as first_numbers};
ghost use Rattle.jobfile.specs.Kind.{scaffold, support};
ghost use Rattle.jobfile.specs.Read.{job_in};
ghost use Rattle.rembilung.specs.Code.{written_code};
ghost use Rattle.rembilung.specs.Call.{entries_of, judgement_in, call_answer, call_code, call_buffer, count_in, left_in, write_code, write_buffer, read_code, read_buffer, write_book_code, write_book_buffer, read_book_code, read_book_buffer, between_told, told_count, told_left, between_code, between_buffer, cells_code, cells_buffer, first_told, first_code, first_buffer};

use basis::Refusal;
use between::{Between, NUMBERS as BETWEEN_NUMBERS, judge_between};
use failing::{FirstFailing, NUMBERS as FIRST_NUMBERS, first_failing};
use formwork::judge_accepted_support;
use job::Job;
use jobfile::{FileJob, JOB_NUMBERS, SUPPORT_NUMBERS};
use judge::judge_accepted;
use section5::Judgement;
use sheet::standing::StandingSheet;
use support::Support;

// What a call answered as one number: its length or its count alone, or the refusal's number above 32 bits and its place below.
fn code_of(answer: Result<usize, Refusal>) -> u64
    ensures { result ≡ written_code answer }
{
    match answer {
        // By `as`, here and below: the library has no From out of usize, nor into it from 32 bits or more.
        Ok(n) => n as u64,
        Err(refusal) => {
            u64::from(refusal.number()) * 4294967296 + refusal.place().min(4294967295)
        }
    }
}

// The numbers of a job file, and how many there are: 25, or 13 and the others as they were.
fn read_job(file: &[u8], numbers: &mut [u32; 25]) -> Result<usize, Refusal>
    ensures returned { result ≡ count_in (job_in file.now) }
    ensures buffer { numbers.new ≡ left_in (job_in file.now) numbers.old }
{
    match jobfile::read(file)? {
        FileJob::Scaffold(j) => {
            *numbers = Job::from(j).into();
            Ok(JOB_NUMBERS)
        }
        FileJob::Support(s) => {
            numbers[..SUPPORT_NUMBERS].copy_from_slice(&<[u32; SUPPORT_NUMBERS]>::from(
                Support::from(s),
            ));
            Ok(SUPPORT_NUMBERS)
        }
    }
}

// The entries of a sheet that is lent as bytes, or a refusal (1, with its length in bytes).
fn entries_in(sheet: &[u8]) -> Result<[u16; 251], Refusal>
    ensures { result ≡ unless (eqb (length sheet.now) 502) (SheetLength (length sheet.now)) (Ok (entries_of sheet.now)) }
{
    let Ok(bytes) = <&[u8; 502]>::try_from(sheet) else {
        return Err(Refusal::SheetLength(sheet.len() as u64));
    };
    Ok(sheet::entries_of(bytes))
}

// The judgement of a job of either kind.
fn judgement_of(sheet: &StandingSheet<'_>, job: FileJob) -> Judgement
    ensures { result ≡ judgement_in sheet.now job }
{
    match job {
        FileJob::Scaffold(j) => judge_accepted(sheet, &j),
        FileJob::Support(s) => judge_accepted_support(sheet, &s),
    }
}

// The whole call: the report's length, or a refusal (1, 2, 6, 7, 3, 4, 5, 8), with the buffer as it was.
#[tactic(auto, unfolding(crate::specs::Call::call_buffer))]
pub fn verdict(sheet: &[u8], file: &[u8], report: &mut [u8]) -> Result<usize, Refusal>
    ensures returned { result ≡ call_answer sheet.now file.now report.old }
    ensures buffer { report.new ≡ call_buffer sheet.now file.now report.old }
{
    let entries = entries_in(sheet)?;
    let sheet = StandingSheet::try_from(&entries[..])?;
    let job = jobfile::read(file)?;
    report::write(judgement_of(&sheet, job), report)
}

// The job file of a scaffold's 25 numbers: its length, or a refusal (3, 4, 5, 8).
#[tactic(auto, unfolding(crate::specs::Call::write_code, crate::specs::Call::write_buffer))]
pub fn rembilung_write_job(numbers: &[u32; 25], file: &mut [u8]) -> u64
    ensures returned { result ≡ write_code scaffold numbers.now file.old }
    ensures buffer { file.new ≡ write_buffer scaffold numbers.now file.old }
{
    code_of(jobfile::write(Job::from(*numbers), file))
}

// The job file of a support's 13 numbers: its length, or a refusal (3, 8). C calls each kind by its name, and each call is a line.
#[tactic(auto, unfolding(crate::specs::Call::write_code, crate::specs::Call::write_buffer))]
pub fn rembilung_write_support(numbers: &[u32; 13], file: &mut [u8]) -> u64
    ensures returned { result ≡ write_code support numbers.now file.old }
    ensures buffer { file.new ≡ write_buffer support numbers.now file.old }
{
    code_of(jobfile::write_support(Support::from(*numbers), file))
}

// The numbers of a job file: 25, or 13 and the others as they were; or a refusal (6, 7, 3, 4, 5), with the numbers as they were.
#[tactic(auto, unfolding(crate::specs::Call::read_code, crate::specs::Call::read_buffer))]
pub fn rembilung_read_job(file: &[u8], numbers: &mut [u32; 25]) -> u64
    ensures returned { result ≡ read_code file.now }
    ensures buffer { numbers.new ≡ read_buffer file.now numbers.old }
{
    code_of(read_job(file, numbers))
}

// The whole call as C has it.
#[tactic(auto, unfolding(crate::specs::Call::call_code))]
pub fn rembilung_verdict(sheet: &[u8], file: &[u8], report: &mut [u8]) -> u64
    ensures returned { result ≡ call_code sheet.now file.now report.old }
    ensures buffer { report.new ≡ call_buffer sheet.now file.now report.old }
{
    code_of(verdict(sheet, file, report))
}

// The book of rows: its length, or a refusal (10, 11, 8 in bytes), with the buffer as it was.
#[tactic(auto, unfolding(crate::specs::Call::write_book_code, crate::specs::Call::write_book_buffer))]
pub fn rembilung_write_book(rows: &[u32], book: &mut [u8]) -> u64
    ensures returned { result ≡ write_book_code rows.now book.old }
    ensures buffer { book.new ≡ write_book_buffer rows.now book.old }
{
    code_of(bookfile::write(rows, book))
}

// The rows of a book: how many there are, or a refusal (10, 9, 11, 8 in rows), with the rows as they were.
#[tactic(auto, unfolding(crate::specs::Call::read_book_code, crate::specs::Call::read_book_buffer))]
pub fn rembilung_read_book(book: &[u8], rows: &mut [u32]) -> u64
    ensures returned { result ≡ read_book_code book.now rows.old }
    ensures buffer { rows.new ≡ read_book_buffer book.now rows.old }
{
    code_of(bookfile::read(book, rows))
}

// What is told of two ends under a sheet of bytes, or a refusal (1, 2, then 3, 4, 5 of either, then 12).
fn judged_between(sheet: &[u8], mild: Job, harsh: Job) -> Result<Between, Refusal>
    ensures { result ≡ unless (eqb (length sheet.now) 502) (SheetLength (length sheet.now)) (answer (entries_of sheet.now) mild harsh) }
{
    judge_between(&entries_in(sheet)?, mild, harsh)
}

// Its fourteen numbers written, or a refusal and the numbers as they were.
fn tell(
    sheet: &[u8],
    mild: &[u32; 25],
    harsh: &[u32; 25],
    answer: &mut [u32; BETWEEN_NUMBERS],
) -> Result<usize, Refusal>
    ensures returned { result ≡ told_count 14 (between_told sheet.now mild.now harsh.now) }
    ensures buffer { answer.new ≡ told_left numbers (between_told sheet.now mild.now harsh.now) answer.old }
{
    *answer = judged_between(sheet, Job::from(*mild), Job::from(*harsh))?.into();
    Ok(BETWEEN_NUMBERS)
}

// What holds of every job between two: 14, or a refusal with the answer as it was.
#[tactic(auto, unfolding(crate::specs::Call::between_code, crate::specs::Call::between_buffer))]
pub fn rembilung_between(
    sheet: &[u8],
    mild: &[u32; 25],
    harsh: &[u32; 25],
    answer: &mut [u32; BETWEEN_NUMBERS],
) -> u64
    ensures returned { result ≡ between_code sheet.now mild.now harsh.now }
    ensures buffer { answer.new ≡ between_buffer sheet.now mild.now harsh.now answer.old }
{
    code_of(tell(sheet, mild, harsh, answer))
}

// For each record of a load cell the greatest push among the last w: the output's length, or a refusal (13, 15, 14, 8), with the output as it was.
#[tactic(auto, unfolding(crate::specs::Call::cells_code, crate::specs::Call::cells_buffer))]
pub fn rembilung_cells(records: &[u8], w: u32, out: &mut [u8]) -> u64
    ensures returned { result ≡ cells_code records.now w out.old }
    ensures buffer { out.new ≡ cells_buffer records.now w out.old }
{
    code_of(cells::write(records, w, out))
}

// What is told of a book under a sheet of bytes, or a refusal (1, 2, then 10, 9, 11 of the whole book).
fn first_of(sheet: &[u8], book: &[u8]) -> Result<FirstFailing, Refusal>
    ensures { result ≡ first_told sheet.now book.now }
{
    first_failing(&entries_in(sheet)?, book)
}

// Its two numbers written, or a refusal and the numbers as they were.
fn tell_first(
    sheet: &[u8],
    book: &[u8],
    answer: &mut [u32; FIRST_NUMBERS],
) -> Result<usize, Refusal>
    ensures returned { result ≡ told_count 2 (first_told sheet.now book.now) }
    ensures buffer { answer.new ≡ told_left first_numbers (first_told sheet.now book.now) answer.old }
{
    *answer = first_of(sheet, book)?.into();
    Ok(FIRST_NUMBERS)
}

// The first row of a book with a failed check, and how many rows were judged: 2, or a refusal with the answer as it was.
#[tactic(auto, unfolding(crate::specs::Call::first_code, crate::specs::Call::first_buffer))]
pub fn rembilung_first_failing(sheet: &[u8], book: &[u8], answer: &mut [u32; FIRST_NUMBERS]) -> u64
    ensures returned { result ≡ first_code sheet.now book.now }
    ensures buffer { answer.new ≡ first_buffer sheet.now book.now answer.old }
{
    code_of(tell_first(sheet, book, answer))
}
