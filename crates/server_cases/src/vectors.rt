// The commands on the parts of a full vector.
use answers::print::Elements;
use answers::{Answered, answer_lent};
use case_inputs::Case;
use lines::field::Field;
use pine::PineParam;
use rules::Answer;
use std::io::Write;

#[derive(Clone, Copy)]
pub enum Part {
    Gradient,
    Checked,
    Results,
}

fn part_of<'a>(
    part: Part,
    param: PineParam,
    full: &'a [u64],
    number: &mut u64,
    place: &mut u64,
) -> &'a [u64] {
    match part {
        Part::Gradient => parts::gradient_part(param, full, number, place),
        Part::Checked => parts::checked_part(param, full, number, place),
        Part::Results => parts::results_part(param, full, number, place),
    }
}

#[inline(never)]
pub fn answer_part<W: Write>(part: Part, mut case: Case<'_>, out: &mut W) -> Answered {
    let mut full = [0u64; 16384];
    let param = case.param()?;
    let full = case.words.elements(&mut full)?;
    case.words.end()?;
    // The two lent numbers hold something else before the call.
    let mut number = u64::MAX;
    let mut place = u64::MAX;
    let given = part_of(part, param, full, &mut number, &mut place);
    let answer = Answer { number, place };
    // A refused part is empty.
    answer_lent(
        out,
        answer,
        given.is_empty(),
        Elements(Field::Field64, given),
    )
}
