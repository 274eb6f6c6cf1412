// The C interface: each exported call is that of crate rembilung, with its clauses.
#![tactic(auto)]

ghost use Rattle.std.specs.Prelude.{◌≡◌};
ghost use Rattle.jobfile.specs.Kind.{scaffold, support};
ghost use Rattle.rembilung.specs.Call.{call_code, call_buffer, write_code, write_buffer, read_code, read_buffer, write_book_code, write_book_buffer, read_book_code, read_book_buffer, between_code, between_buffer, cells_code, cells_buffer, first_code, first_buffer};

// The job file of a scaffold's 25 numbers: its length, or a refusal (3, 4, 5, 8).
#[unsafe(no_mangle)]
pub extern "C" fn rembilung_write_job(numbers: &[u32; 25], file: &mut [u8]) -> u64
    ensures returned { result ≡ write_code scaffold numbers.now file.old }
    ensures buffer { file.new ≡ write_buffer scaffold numbers.now file.old }
{
    rembilung::rembilung_write_job(numbers, file)
}

// The job file of a support's 13 numbers: its length, or a refusal (3, 8).
#[unsafe(no_mangle)]
pub extern "C" fn rembilung_write_support(numbers: &[u32; 13], file: &mut [u8]) -> u64
    ensures returned { result ≡ write_code support numbers.now file.old }
    ensures buffer { file.new ≡ write_buffer support numbers.now file.old }
{
    rembilung::rembilung_write_support(numbers, file)
}

// The numbers of a job file: 25, or 13 and the others as they were; or a refusal (6, 7, 3, 4, 5), with the numbers as they were.
#[unsafe(no_mangle)]
pub extern "C" fn rembilung_read_job(file: &[u8], numbers: &mut [u32; 25]) -> u64
    ensures returned { result ≡ read_code file.now }
    ensures buffer { numbers.new ≡ read_buffer file.now numbers.old }
{
    rembilung::rembilung_read_job(file, numbers)
}

// The whole call: the report's length, or a refusal (1, 2, 6, 7, 3, 4, 5, 8), with the buffer as it was.
#[unsafe(no_mangle)]
pub extern "C" fn rembilung_verdict(sheet: &[u8], file: &[u8], report: &mut [u8]) -> u64
    ensures returned { result ≡ call_code sheet.now file.now report.old }
    ensures buffer { report.new ≡ call_buffer sheet.now file.now report.old }
{
    rembilung::rembilung_verdict(sheet, file, report)
}

// The book of rows: its length, or a refusal (10, 11, 8 in bytes), with the buffer as it was.
#[unsafe(no_mangle)]
pub extern "C" fn rembilung_write_book(rows: &[u32], book: &mut [u8]) -> u64
    ensures returned { result ≡ write_book_code rows.now book.old }
    ensures buffer { book.new ≡ write_book_buffer rows.now book.old }
{
    rembilung::rembilung_write_book(rows, book)
}

// The rows of a book: how many there are, or a refusal (10, 9, 11, 8 in rows), with the rows as they were.
#[unsafe(no_mangle)]
pub extern "C" fn rembilung_read_book(book: &[u8], rows: &mut [u32]) -> u64
    ensures returned { result ≡ read_book_code book.now rows.old }
    ensures buffer { rows.new ≡ read_book_buffer book.now rows.old }
{
    rembilung::rembilung_read_book(book, rows)
}

// What holds of every job between two: 14, or a refusal (1, 2, then 3, 4, 5 of the mild job, then of the harsh job, then 12), with the answer as it was.
#[unsafe(no_mangle)]
pub extern "C" fn rembilung_between(
    sheet: &[u8],
    mild: &[u32; 25],
    harsh: &[u32; 25],
    answer: &mut [u32; 14],
) -> u64
    ensures returned { result ≡ between_code sheet.now mild.now harsh.now }
    ensures buffer { answer.new ≡ between_buffer sheet.now mild.now harsh.now answer.old }
{
    rembilung::rembilung_between(sheet, mild, harsh, answer)
}

// For each record of a load cell the greatest push among the last w: the output's length, or a refusal (13, 15, 14, 8), with the output as it was.
#[unsafe(no_mangle)]
pub extern "C" fn rembilung_cells(records: &[u8], w: u32, out: &mut [u8]) -> u64
    ensures returned { result ≡ cells_code records.now w out.old }
    ensures buffer { out.new ≡ cells_buffer records.now w out.old }
{
    rembilung::rembilung_cells(records, w, out)
}

// The first row of a book with a failed check, and how many rows were judged: 2, or a refusal (1, 2, then 10, 9, 11 of the whole book), with the answer as it was.
#[unsafe(no_mangle)]
pub extern "C" fn rembilung_first_failing(sheet: &[u8], book: &[u8], answer: &mut [u32; 2]) -> u64
    ensures returned { result ≡ first_code sheet.now book.now }
    ensures buffer { answer.new ≡ first_buffer sheet.now book.now answer.old }
{
    rembilung::rembilung_first_failing(sheet, book, answer)
}
