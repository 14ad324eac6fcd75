// The commands on the two validity circuits.
use answers::print::wide;
use answers::{Answered, CaseError, answer};
use case_inputs::Case;
use flp::Circuit;
use lines::field::Field;
use std::io::Write;
use validity128::Circuit128;

fn answer_circuit<W: Write>(out: &mut W, circuit: Circuit) -> Answered {
    let given = format_args!("{:x} {}", circuit.value, circuit.gadget_calls);
    answer(out, circuit.answer, given)
}

fn answer_circuit128<W: Write>(out: &mut W, circuit: Circuit128) -> Answered {
    let value = circuit.value;
    let given = format_args!("{:x} {}", wide(value.low, value.high), circuit.gadget_calls);
    answer(out, circuit.answer, given)
}

#[inline(never)]
pub fn valid<W: Write>(field: Field, mut case: Case<'_>, out: &mut W) -> Answered {
    let mut full = [0u64; 32768];
    let mut joint_rand = [0u64; 16384];
    let param = case.param()?;
    let num_shares = case.words.decimal()?;
    let full = case.words.elements_of(field, &mut full)?;
    let joint_rand = case.words.elements_of(field, &mut joint_rand)?;
    case.words.end()?;
    match field {
        Field::Field64 => {
            answer_circuit(out, validity::valid(param, num_shares, full, joint_rand))
        }
        Field::Field128 => {
            answer_circuit128(out, validity128::valid(param, num_shares, full, joint_rand))
        }
    }
}

// The second circuit has no joint randomness: after the full vector stands the count 0.
#[inline(never)]
pub fn valideq<W: Write>(field: Field, mut case: Case<'_>, out: &mut W) -> Answered {
    let mut full = [0u64; 32768];
    let param = case.param()?;
    let num_shares = case.words.decimal()?;
    let full = case.words.elements_of(field, &mut full)?;
    if case.words.decimal()? != 0 {
        return Err(CaseError::Malformed);
    }
    case.words.end()?;
    match field {
        Field::Field64 => {
            answer_circuit(out, validity::valid_sq_norm_equal(param, num_shares, full))
        }
        Field::Field128 => {
            answer_circuit128(
                out,
                validity128::valid_sq_norm_equal(param, num_shares, full),
            )
        }
    }
}
