// Of `replay`: the commands on a day's file.
// Each has its rows in a frame of its own: see `Command::answer` of `replay`.
#![tactic(auto)]

use answers::print::{Bytes, Elements};
use answers::{Answered, CaseError, answer, answer_lent, changed};
use case_inputs::{Case, Lens};
use day_file::FileLen;
use lines::field::Field;
use lines::row;
use lines::words::Malformed;
use std::io::Write;

// A file's length, or one that nobody lends.
fn file_len(dimension: u64, count: u64) -> u64 {
    if dimension <= 65536 && count < 65536 {
        layout::file_len(dimension, count)
    } else {
        u64::MAX
    }
}

// The length of the contents, and that of the bodies: what is left of a file, 8 bytes an element.
fn read_lens(dimension: u64, file: &[u8]) -> [u64; 2] {
    let count = layout::count_of(file);
    let contents = 12 * count;
    let whole = file_len(dimension, count);
    let bodies = match whole.checked_sub(6 + contents) {
        Some(left) => left / 8,
        None => whole,
    };
    [contents, bodies]
}

#[inline(never)]
pub fn read<W: Write>(mut case: Case<'_>, out: &mut W) -> Answered {
    let mut file = [0u8; 262144];
    let mut contents = [0u8; 262144];
    let mut bodies = [0u64; 32768];
    let param = case.param()?;
    let file = case.words.bytes(&mut file)?;
    let lens = Lens::of(Field::Field64, param);
    let [n, m] = case.words.end_with(read_lens(lens.dimension, file))?;
    let contents = row::lend(&mut contents, n)?;
    let bodies = row::lend(&mut bodies, m)?;
    let read = day_file::file_read(param, file, contents, bodies);
    let kept = row::is_filled(contents) && row::is_filled(bodies);
    let bodies = Elements(Field::Field64, bodies);
    let given = format_args!("{} {bodies}", Bytes(contents));
    answer_lent(out, read, kept, given)
}

#[inline(never)]
pub fn write<W: Write>(mut case: Case<'_>, out: &mut W) -> Answered {
    let mut contents = [0u8; 262144];
    let mut bodies = [0u64; 32768];
    let mut file = [0u8; 262144];
    let param = case.param()?;
    let count = case.words.decimal()?;
    let contents = case.words.bytes(&mut contents)?;
    let bodies = case.words.elements(&mut bodies)?;
    let lens = Lens::of(Field::Field64, param);
    let [len] = case.words.end_with([file_len(lens.dimension, count)])?;
    let file = row::lend(&mut file, len)?;
    let written = day_file::file_write(param, count, contents, bodies, file);
    let kept = row::is_filled(file);
    answer_lent(out, written, kept, Bytes(file))
}

fn answer_len<W: Write>(out: &mut W, given: FileLen) -> Answered {
    answer(out, given.answer, given.len)
}

pub fn max<W: Write>(mut case: Case<'_>, out: &mut W) -> Answered {
    let param = case.param()?;
    let reports = u32::try_from(case.words.decimal()?).map_err(|_| Malformed)?;
    case.words.end()?;
    answer_len(out, day_file::file_max(param, reports))
}

#[inline(never)]
pub fn size<W: Write>(mut case: Case<'_>, out: &mut W) -> Answered {
    let mut keys = [0u8; 262144];
    let param = case.param()?;
    let keys = case.words.bytes(&mut keys)?;
    case.words.end()?;
    answer_len(out, file_size::file_size(param, keys))
}

// The new file, where the bytes past it are as they were.
fn answer_added<W: Write>(out: &mut W, len: u64, second: &[u8]) -> Answered {
    match usize::try_from(len)
        .ok()
        .and_then(|n| second.split_at_checked(n))
    {
        Some((file, rest)) if row::is_filled(rest) => {
            writeln!(out, "ok {len} {}", Bytes(file))?;
            Ok(())
        }
        _ => changed(out),
    }
}

// The second row's length, or one that nobody lends.
fn second_len(dimension: u64, old: u64) -> u64 {
    if dimension <= 65536 && old <= 262144 {
        old + (12 + 8 * dimension)
    } else {
        u64::MAX
    }
}

#[inline(never)]
pub fn add<W: Write>(mut case: Case<'_>, out: &mut W) -> Answered {
    let mut key = [0u8; 8];
    let mut old = [0u8; 262144];
    let mut share = [0u64; 32768];
    let mut second = [0u8; 262144];
    let param = case.param()?;
    if case.words.bytes(&mut key)?.len() != 8 {
        return Err(CaseError::Malformed);
    }
    let old = case.words.bytes(&mut old)?;
    let share = case.words.elements(&mut share)?;
    let lens = Lens::of(Field::Field64, param);
    let derived = second_len(lens.dimension, old.len() as u64);
    let [len] = case.words.end_with([derived])?;
    let second = row::lend(&mut second, len)?;
    let added = file_add::file_add(param, key, old, share, second);
    if added.answer.number == 0 {
        answer_added(out, added.len, second)
    } else {
        answer_lent(out, added.answer, row::is_filled(second), "")
    }
}
