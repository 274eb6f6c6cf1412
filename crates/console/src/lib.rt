// The program: column.dat and standard input to the whole call, its answer to standard output.
#![tactic(auto)]

ghost use Rattle.std.specs.Prelude.{◌≤◌, length, IfOk};

use crate::printed::{GREATEST_PLACE, write_printed};
use jobfile::BEGINNING_LENGTH;
use report::refusal::ROOM;
use std::io::{ErrorKind, Read, Write};
use std::rt::Files;
use std::{fs, io};

pub mod printed;

// Reads what there is; a read that was interrupted before it began is tried again. A loop needs an end, and this one is never reached.
fn read_some<F: Read>(from: &mut F, out: &mut [u8]) -> io::Result<usize>
    ensures { IfOk result (λ n. n ≤ length out.new) }
{
    for _ in 0..u64::MAX {
        match from.read(&mut out[..]) {
            Err(e) if e.kind() == ErrorKind::Interrupted => {}
            read => return read,
        }
    }
    Err(io::Error::from(ErrorKind::Interrupted))
}

// The first bytes of a file, read until the buffer is full or the file ends or cannot be read.
fn first_bytes<'a, F: Read>(from: &mut F, out: &'a mut [u8]) -> &'a [u8]
    ensures { length result.now ≤ length out.old }
{
    let mut at = 0;
    // It ends with what is read, which no range says.
    while at < out.len() {
        match read_some(from, &mut out[at..]) {
            Ok(more) if more != 0 => at += more,
            _ => break,
        }
    }
    &out[..at]
}

// The length of a file of which some bytes are read, counted to its end or to 4,294,967,295.
fn length_of<F: Read>(from: &mut F, first: usize) -> io::Result<u64> {
    let mut space = [0u8; 4096];
    // By `as`, here and below: the library has no From out of usize, nor into it from 32 bits or more.
    let mut length = GREATEST_PLACE.min(first as u64);
    // It ends with what is read, or where the length no longer matters.
    while length < GREATEST_PLACE {
        let more = read_some(from, &mut space)?;
        if more == 0 {
            return Ok(length);
        }
        length = GREATEST_PLACE.min(length + more as u64);
    }
    Ok(length)
}

// What there is of column.dat: its length, and its first bytes. One that is missing counts as empty, the default.
#[derive(Clone, Copy, Default)]
struct Sheet<'a> {
    length: u64,
    first: &'a [u8],
}

// Reads column.dat, its first bytes into a buffer.
fn read_sheet<'a, R: Files>(rt: &R, bytes: &'a mut [u8]) -> io::Result<Sheet<'a>>
    ensures { IfOk result (λ sheet. length sheet.first.now ≤ length bytes.old) }
{
    let mut file = match fs::open(rt, "column.dat") {
        Err(e) if e.kind() == ErrorKind::NotFound => return Ok(Sheet::default()),
        file => file?,
    };
    let first = first_bytes(&mut file, bytes);
    let length = length_of(&mut file, first.len())?;
    Ok(Sheet { length, first })
}

// Reads, answers and prints, and last names a column.dat that is there and cannot be read, which counts as empty. There is nothing to promise of a result but that it ends: no clause can name what a system reads or writes.
pub fn run<R: Files + Input + Print + Eprint>(rt: &R) -> io::Result<()>
    ensures { Unit }
{
    let mut bytes = [0; 502];
    let found = read_sheet(rt, &mut bytes);
    let sheet = found.as_ref().copied().unwrap_or_default();
    let mut file = [0; BEGINNING_LENGTH];
    let given = first_bytes(&mut rt.reader(), &mut file);
    let mut text = [0; ROOM];
    let n = write_printed(sheet.length, sheet.first, given, &mut text);
    io::writer(rt).write_all(&text[..n])?;
    match found {
        Ok(_) => Ok(()),
        Err(e) => eprintln!(rt; "column.dat: {e}"),
    }
}
