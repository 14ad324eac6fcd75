// The commands on aggregates.
use answers::print::{Doubles, Elements};
use answers::{Answered, answer_lent};
use case_inputs::{Case, Lens};
use lines::field::Field;
use lines::row;
use lines::words::{Malformed, Words};
use pine::PineParam;
use rules::Answer;
use std::io::Write;

// An answer, and whether the aggregate was left as it was.
#[derive(Clone, Copy)]
struct Sum {
    answer: Answer,
    kept: bool,
}

// The calls on an aggregate and another row.
#[derive(Clone, Copy)]
pub enum Call {
    Merge,
    Accumulate,
    Subtract,
    Unmerge,
}

fn make(field: Field, call: Call, param: PineParam, agg: &mut [u64], share: &[u64]) -> Answer {
    match (field, call) {
        (Field::Field64, Call::Merge) => vdaf::merge(param, agg, share),
        (Field::Field64, Call::Accumulate) => vdaf::accumulate(param, agg, share),
        (Field::Field64, Call::Subtract) => vdaf::subtract(param, agg, share),
        (Field::Field64, Call::Unmerge) => vdaf::unmerge(param, agg, share),
        (Field::Field128, Call::Merge) => vdaf128::merge(param, agg, share),
        (Field::Field128, Call::Accumulate) => vdaf128::accumulate(param, agg, share),
        (Field::Field128, Call::Subtract) => vdaf128::subtract(param, agg, share),
        (Field::Field128, Call::Unmerge) => vdaf128::unmerge(param, agg, share),
    }
}

// Adds a row, or takes it out. `before` has room for the aggregate as it was.
fn add(
    field: Field,
    call: Call,
    param: PineParam,
    agg: &mut [u64],
    share: &[u64],
    before: &mut [u64],
) -> Result<Sum, Malformed> {
    let before = row::copy(agg, before)?;
    let answer = make(field, call, param, agg, share);
    Ok(Sum {
        answer,
        kept: &*before == &*agg,
    })
}

// merge, accumulate, subtract or unmerge.
#[inline(never)]
pub fn add_row<W: Write>(field: Field, call: Call, mut case: Case<'_>, out: &mut W) -> Answered {
    let mut agg = [0u64; 16384];
    let mut share = [0u64; 16384];
    let mut before = [0u64; 16384];
    let param = case.param()?;
    let agg = case.words.elements_of(field, &mut agg)?;
    let share = case.words.elements_of(field, &mut share)?;
    case.words.end()?;
    let sum = add(field, call, param, agg, share, &mut before)?;
    answer_lent(out, sum.answer, sum.kept, Elements(field, agg))
}

fn empty(field: Field, param: PineParam, agg: &mut [u64]) -> Answer {
    match field {
        Field::Field64 => vdaf::empty_aggregate(param, agg),
        Field::Field128 => vdaf128::empty_aggregate(param, agg),
    }
}

// The empty aggregate, and so many rows of the line added to it, as far as they are accepted.
fn add_rows(
    field: Field,
    param: PineParam,
    mut words: Words<'_>,
    count: u64,
    agg: &mut [u64],
    share: &mut [u64],
    before: &mut [u64],
) -> Result<Sum, Malformed> {
    let answer = empty(field, param, agg);
    let mut sum = Sum {
        answer,
        kept: row::is_filled(agg),
    };
    for _ in 0..count {
        if sum.answer.number != 0 {
            break;
        }
        let share = words.elements_of(field, share)?;
        sum = add(field, Call::Accumulate, param, agg, share, before)?;
    }
    Ok(sum)
}

#[inline(never)]
pub fn aggregate<W: Write>(field: Field, mut case: Case<'_>, out: &mut W) -> Answered {
    let mut agg = [0u64; 16384];
    let mut share = [0u64; 16384];
    let mut before = [0u64; 16384];
    let param = case.param()?;
    let count = case.words.decimal()?;
    // All rows are read before one is added.
    let rows = case.words;
    for _ in 0..count {
        case.words.elements_of(field, &mut share)?;
    }
    let lens = Lens::of(field, param);
    let [len] = case.words.end_with([lens.aggregate])?;
    let agg = row::lend(&mut agg, len)?;
    let sum = add_rows(field, param, rows, count, agg, &mut share, &mut before)?;
    answer_lent(out, sum.answer, sum.kept, Elements(field, agg))
}

fn make_unshard(
    field: Field,
    param: PineParam,
    left: &[u64],
    right: &[u64],
    decoded: &mut [f64],
) -> Answer {
    match field {
        Field::Field64 => vdaf::unshard(param, left, right, decoded),
        Field::Field128 => vdaf128::unshard(param, left, right, decoded),
    }
}

#[inline(never)]
pub fn unshard<W: Write>(field: Field, mut case: Case<'_>, out: &mut W) -> Answered {
    let mut left = [0u64; 16384];
    let mut right = [0u64; 16384];
    let mut decoded = [0.0f64; 8192];
    let param = case.param()?;
    let left = case.words.elements_of(field, &mut left)?;
    let right = case.words.elements_of(field, &mut right)?;
    let lens = Lens::of(field, param);
    let [len] = case.words.end_with([lens.dimension])?;
    let decoded = row::lend(&mut decoded, len)?;
    let answer = make_unshard(field, param, left, right, decoded);
    let kept = row::is_filled(decoded);
    answer_lent(out, answer, kept, Doubles(decoded))
}
