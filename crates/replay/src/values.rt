// The commands on the inputs alone and on one number.
use answers::print::wide;
use answers::{Answered, answer};
use case_inputs::{Case, derive};
use field128::Element;
use lines::field::Field;
use lines::patterns::pattern_of;
use lines::words::halves;
use pine::Derived;
use pine::record::{Lengths, Pine};
use std::fmt;
use std::io::Write;

// A circuit's gadget calls, and the lengths of its vectors.
#[derive(Clone, Copy)]
struct Circuit(u64, Lengths);

impl fmt::Display for Circuit {
    fn fmt<W: fmt::Write>(&self, f: &mut fmt::Formatter<W>) -> fmt::Result {
        let Circuit(calls, lengths) = *self;
        write!(f, "gadget_calls {calls}")?;
        write!(f, " proof_len {}", lengths.proof_len)?;
        write!(f, " verifier_len {}", lengths.verifier_len)?;
        write!(f, " joint_rand_len {}", lengths.joint_rand_len)?;
        write!(f, " prove_rand_len {}", lengths.prove_rand_len)?;
        write!(f, " query_rand_len {}", lengths.query_rand_len)
    }
}

// The bounds, and the lengths of the inputs.
#[derive(Clone, Copy)]
struct Bounds(Pine);

impl fmt::Display for Bounds {
    fn fmt<W: fmt::Write>(&self, f: &mut fmt::Formatter<W>) -> fmt::Result {
        let Bounds(pine) = *self;
        write!(f, "sq_norm_bound {:x}", pine.sq_norm_bound)?;
        write!(f, " sq_norm_bits {}", pine.sq_norm_bits)?;
        write!(f, " wr_test_bound {:x}", pine.wr_test_bound())?;
        write!(f, " wr_test_bits {}", pine.wr_test_bits)?;
        write!(f, " bit_checked_len {}", pine.bit_checked_len)?;
        write!(f, " encoded_input_len {}", pine.encoded_input_len)?;
        write!(f, " input_len {}", pine.input_len)
    }
}

pub fn params<W: Write>(field: Field, mut case: Case<'_>, out: &mut W) -> Answered {
    let param = case.param()?;
    case.words.end()?;
    let derived = derive(field, param);
    let pine = derived.pine;
    let bounds = Bounds(pine);
    let main = Circuit(pine.gadget_calls, derived.flp);
    let eq = Circuit(pine.gadget_calls_sq_norm_equal, derived.flp_sq_norm_equal);
    answer(
        out,
        derived.answer,
        format_args!("{bounds} main {main} eq {eq}"),
    )
}

// A double as an element.
pub fn coord<W: Write>(field: Field, case: Case<'_>, out: &mut W) -> Answered {
    let mut words = case.words;
    let frac_bits = words.decimal()?;
    let double = words.double()?;
    words.end()?;
    match field {
        Field::Field64 => {
            let given = doubles::f64_to_field(double, frac_bits);
            answer(out, given.answer, format_args!("{:x}", given.element))
        }
        Field::Field128 => {
            let given = doubles128::f64_to_field(double, frac_bits);
            let element = given.element;
            let number = wide(element.low, element.high);
            answer(out, given.answer, format_args!("{number:x}"))
        }
    }
}

// An element as a double.
pub fn decode<W: Write>(field: Field, case: Case<'_>, out: &mut W) -> Answered {
    let mut words = case.words;
    let frac_bits = words.decimal()?;
    let decoded = match field {
        Field::Field64 => {
            let element = words.hex()?;
            words.end()?;
            doubles::field_to_f64(element, frac_bits)
        }
        Field::Field128 => {
            let [low, high] = halves(words.wide_hex()?);
            words.end()?;
            doubles128::field_to_f64(Element { low, high }, frac_bits)
        }
    };
    let pattern = pattern_of(decoded.value);
    answer(out, decoded.answer, format_args!("{pattern:016x}"))
}
