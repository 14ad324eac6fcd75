// The commands, and how a line is answered.
use crate::{cuts, loads, values};
use answers::{Answered, CaseError};
use case_inputs::Case;
use lines::field::Field;
use lines::words::{Malformed, Words};
use report_cases::WrBytes;
use server_cases::aggregates::Call;
use server_cases::vectors::Part;
use server_cases::{aggregates, circuits, vectors};
use std::io;
use std::io::Write;

#[derive(Clone, Copy)]
enum Command {
    Params(Field),
    Coord(Field),
    Decode(Field),
    FileRead,
    FileWrite,
    FileMax,
    FileAdd,
    FileSize,
    Add(Field, Call),
    Aggregate(Field),
    Unshard(Field),
    Encode(WrBytes),
    WrTests(WrBytes),
    Cut,
    Sample,
    Valid(Field),
    ValidEq(Field),
    Part(Part),
    Load,
}

impl Command {
    // The command of a name. Those over Field128 end in 128.
    fn parse(name: &[u8]) -> Result<Command, Malformed> {
        let (name, field) = match name.strip_suffix(b"128") {
            Some(name) => (name, Field::Field128),
            None => (name, Field::Field64),
        };
        let command = match (name, field) {
            (b"params", _) => Command::Params(field),
            (b"coord", _) => Command::Coord(field),
            (b"decode", _) => Command::Decode(field),
            (b"fileread", Field::Field64) => Command::FileRead,
            (b"filewrite", Field::Field64) => Command::FileWrite,
            (b"filemax", Field::Field64) => Command::FileMax,
            (b"fileadd", Field::Field64) => Command::FileAdd,
            (b"filesize", Field::Field64) => Command::FileSize,
            (b"merge", _) => Command::Add(field, Call::Merge),
            (b"accumulate", _) => Command::Add(field, Call::Accumulate),
            (b"subtract", _) => Command::Add(field, Call::Subtract),
            (b"unmerge", _) => Command::Add(field, Call::Unmerge),
            (b"aggregate", _) => Command::Aggregate(field),
            (b"unshard", _) => Command::Unshard(field),
            (b"encode", _) => Command::Encode(WrBytes::Row(field)),
            (b"encodeseed", Field::Field64) => Command::Encode(WrBytes::Seed),
            (b"wrtests", _) => Command::WrTests(WrBytes::Row(field)),
            (b"wrtestsseed", Field::Field64) => Command::WrTests(WrBytes::Seed),
            (b"cut", Field::Field64) => Command::Cut,
            (b"sample", Field::Field64) => Command::Sample,
            (b"valid", _) => Command::Valid(field),
            (b"valideq", _) => Command::ValidEq(field),
            (b"gradient_part", Field::Field64) => Command::Part(Part::Gradient),
            (b"checked_part", Field::Field64) => Command::Part(Part::Checked),
            (b"results_part", Field::Field64) => Command::Part(Part::Results),
            (b"load", Field::Field64) => Command::Load,
            _ => return Err(Malformed),
        };
        Ok(command)
    }

    // Each command with rows has a frame of its own (`inline(never)`): were they laid out here, every line would take the
    // stack of all, and touch each page of it.
    fn answer<W: Write>(self, case: Case<'_>, out: &mut W) -> Answered {
        match self {
            Command::Params(field) => values::params(field, case, out),
            Command::Coord(field) => values::coord(field, case, out),
            Command::Decode(field) => values::decode(field, case, out),
            Command::FileRead => file_cases::read(case, out),
            Command::FileWrite => file_cases::write(case, out),
            Command::FileMax => file_cases::max(case, out),
            Command::FileAdd => file_cases::add(case, out),
            Command::FileSize => file_cases::size(case, out),
            Command::Add(field, call) => aggregates::add_row(field, call, case, out),
            Command::Aggregate(field) => aggregates::aggregate(field, case, out),
            Command::Unshard(field) => aggregates::unshard(field, case, out),
            Command::Encode(bytes) => report_cases::encode(bytes, case, out),
            Command::WrTests(bytes) => report_cases::wrtests(bytes, case, out),
            Command::Cut => cuts::cut(case, out),
            Command::Sample => cuts::sample(case, out),
            Command::Valid(field) => circuits::valid(field, case, out),
            Command::ValidEq(field) => circuits::valideq(field, case, out),
            Command::Part(part) => vectors::answer_part(part, case, out),
            Command::Load => loads::load(case, out),
        }
    }
}

fn answer_case<W: Write>(line: &[u8], out: &mut W) -> Answered {
    let mut case = Case::of(line)?;
    let name = case.words.word().ok_or(Malformed)?;
    Command::parse(name)?.answer(case, out)
}

// Answers a line.
pub fn answer<W: Write>(line: &[u8], out: &mut W) -> io::Result<()> {
    if line.starts_with(b"#") || Words::of(line).word().is_none() {
        return Ok(());
    }
    match answer_case(line, out) {
        Ok(()) => Ok(()),
        Err(CaseError::Malformed) => bad(out),
        Err(CaseError::Io(error)) => Err(error),
    }
}

// The answer to a malformed case.
pub fn bad<W: Write>(out: &mut W) -> io::Result<()> {
    writeln!(out, "bad")
}
