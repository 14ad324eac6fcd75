// The parts of a full vector: where each lies, and each handed back as a part of the caller's own row.
#![tactic(auto)]

use pine::PineParam;
use pine::record::Pine;
use rules::Answer;

pub mod split;

ghost use Rattle.std.specs.Prelude.{◌≡◌};
ghost use Rattle.rules.specs.Rules.{answer, in_order};
ghost use Rattle.pine.specs.Param.{Field64};
ghost use Rattle.pine.specs.Record.{bit_checked_len_of, encoded_input_len_of, no_pine};
ghost use Rattle.rows.specs.Outcome.{outcome};
ghost use Rattle.flp.specs.Circuits.{part_rules, gradient_part_of, checked_part_of, results_part_of};
ghost use Rattle.parts.specs.Places.{part_at, named, verdict_of};

// A part of a row by its place: len elements from start on. Both are 0 beside a refusal.
#[repr(C)]
#[derive(Clone, Copy)]
pub struct Part {
    pub answer: Answer,
    pub start: u64,
    pub len: u64,
}

// The answer of the rules, and the record. Beside a refusal that is all 0, so that each part is empty.
#[derive(Clone, Copy)]
struct Verdict {
    answer: Answer,
    pine: Pine,
}

impl Verdict {
    fn refused(answer: Answer) -> Verdict
        ensures { result ≡ record { answer = answer; pine = no_pine } }
    {
        Verdict {
            answer,
            pine: Pine::none(),
        }
    }
}

// The rules of each part.
fn check_part(param: PineParam, full: &[u64]) -> Verdict
    ensures { result ≡ verdict_of Field64 param full.now }
{
    let inputs = params::check_param(param);
    if inputs.number != 0 {
        return Verdict::refused(inputs);
    }
    let pine = Pine::new(param);
    let row_1 = rows::check_len(1, full.len(), pine.input_len());
    let answer = row_1.or(rows::check_elements(full, 0));
    if answer.number != 0 {
        return Verdict::refused(answer);
    }
    Verdict { answer, pine }
}

// The first clause of each place says where it is, the second which elements stand there.

pub fn locate_gradient(param: PineParam, full: &[u64]) -> Part
    ensures value { result ≡ part_at (in_order (part_rules Field64 param full.now)) 0 param.dimension }
    ensures full_value { named result full.now ≡ gradient_part_of Field64 param full.now }
{
    let verdict = check_part(param, full);
    let answer = verdict.answer;
    let pine = verdict.pine;
    Part {
        answer,
        start: 0,
        len: pine.dimension,
    }
}

pub fn locate_checked(param: PineParam, full: &[u64]) -> Part
    ensures value { result ≡ part_at (in_order (part_rules Field64 param full.now)) param.dimension (bit_checked_len_of param) }
    ensures full_value { named result full.now ≡ checked_part_of Field64 param full.now }
{
    let verdict = check_part(param, full);
    let answer = verdict.answer;
    let pine = verdict.pine;
    Part {
        answer,
        start: pine.dimension,
        len: pine.bit_checked_len,
    }
}

pub fn locate_results(param: PineParam, full: &[u64]) -> Part
    ensures value { result ≡ part_at (in_order (part_rules Field64 param full.now)) (encoded_input_len_of param) param.num_wr_tests }
    ensures full_value { named result full.now ≡ results_part_of Field64 param full.now }
{
    let verdict = check_part(param, full);
    let answer = verdict.answer;
    let pine = verdict.pine;
    Part {
        answer,
        start: pine.encoded_input_len,
        len: pine.num_wr_tests,
    }
}

// The rules of a part that is handed back: number and place go into two lent numbers. What comes back
// is the record.
fn check_into(param: PineParam, full: &[u64], number: &mut u64, place: &mut u64) -> Pine
    ensures { record { answer = answer number.new place.new; pine = result } ≡ verdict_of Field64 param full.now }
{
    let verdict = check_part(param, full);
    let answer = verdict.answer;
    *number = answer.number;
    *place = answer.place;
    verdict.pine
}

// The gradient.
pub fn gradient_part<'a>(
    param: PineParam,
    full: &'a [u64],
    number: &mut u64,
    place: &mut u64,
) -> &'a [u64]
    ensures { outcome (answer number.new place.new) result.now ≡ gradient_part_of Field64 param full.now }
{
    let pine = check_into(param, full, number, place);
    split::gradient(pine, full)
}

// The L checked elements.
pub fn checked_part<'a>(
    param: PineParam,
    full: &'a [u64],
    number: &mut u64,
    place: &mut u64,
) -> &'a [u64]
    ensures { outcome (answer number.new place.new) result.now ≡ checked_part_of Field64 param full.now }
{
    let pine = check_into(param, full, number, place);
    split::checked(pine, full)
}

// The results of the tests.
pub fn results_part<'a>(
    param: PineParam,
    full: &'a [u64],
    number: &mut u64,
    place: &mut u64,
) -> &'a [u64]
    ensures { outcome (answer number.new place.new) result.now ≡ results_part_of Field64 param full.now }
{
    let pine = check_into(param, full, number, place);
    split::results(pine, full)
}
