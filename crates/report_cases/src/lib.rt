// Of `replay`: the commands on a report: encoding, and the wraparound tests alone.
// Each has its rows in a frame of its own: see `Command::answer` of `replay`.
#![tactic(auto)]

use answers::print::Elements;
use answers::{Answered, answer_lent};
use case_inputs::{Case, Lens};
use lines::field::Field;
use lines::row;
use pine::PineParam;
use rules::Answer;
use std::io::Write;

// Where the bytes of the wraparound tests are: in a row, or they come of a seed, over Field64 alone.
#[derive(Clone, Copy)]
pub enum WrBytes {
    Row(Field),
    Seed,
}

impl WrBytes {
    fn field(self) -> Field {
        match self {
            WrBytes::Row(field) => field,
            WrBytes::Seed => Field::Field64,
        }
    }
}

fn make_encode(
    kind: WrBytes,
    param: PineParam,
    gradient: &[f64],
    bytes: &[u8],
    measurement: &mut [u64],
    results: &mut [u64],
) -> Answer {
    match kind {
        WrBytes::Row(Field::Field64) => {
            encode::encode_with_wr_joint_rand(param, gradient, bytes, measurement, results)
        }
        WrBytes::Row(Field::Field128) => {
            encode128::encode_with_wr_joint_rand(param, gradient, bytes, measurement, results)
        }
        WrBytes::Seed => {
            encode::encode_with_wr_joint_rand_seed(param, gradient, bytes, measurement, results)
        }
    }
}

#[inline(never)]
pub fn encode<W: Write>(kind: WrBytes, mut case: Case<'_>, out: &mut W) -> Answered {
    let mut gradient = [0.0f64; 8192];
    let mut bytes = [0u8; 262144];
    let mut measurement = [0u64; 32768];
    let mut results = [0u64; 16384];
    let field = kind.field();
    let param = case.param()?;
    let gradient = case.words.doubles(&mut gradient)?;
    let bytes = case.words.bytes(&mut bytes)?;
    let lens = Lens::of(field, param);
    let [m, t] = case.words.end_with([lens.measurement, lens.results])?;
    let measurement = row::lend(&mut measurement, m)?;
    let results = row::lend(&mut results, t)?;
    let answer = make_encode(kind, param, gradient, bytes, measurement, results);
    let kept = row::is_filled(measurement) && row::is_filled(results);
    let measurement = Elements(field, measurement);
    let results = Elements(field, results);
    answer_lent(out, answer, kept, format_args!("{measurement} {results}"))
}

fn make_wrtests(
    kind: WrBytes,
    param: PineParam,
    gradient: &[u64],
    bytes: &[u8],
    results: &mut [u64],
) -> Answer {
    match kind {
        WrBytes::Row(Field::Field64) => wr_tests::run_wr_tests(param, gradient, bytes, results),
        WrBytes::Row(Field::Field128) => {
            wr_tests128::run_wr_tests(param, gradient, bytes, results)
        }
        WrBytes::Seed => wr_tests::run_wr_tests_seed(param, gradient, bytes, results),
    }
}

#[inline(never)]
pub fn wrtests<W: Write>(kind: WrBytes, mut case: Case<'_>, out: &mut W) -> Answered {
    let mut gradient = [0u64; 16384];
    let mut bytes = [0u8; 262144];
    let mut results = [0u64; 16384];
    let field = kind.field();
    let param = case.param()?;
    let gradient = case.words.elements_of(field, &mut gradient)?;
    let bytes = case.words.bytes(&mut bytes)?;
    let lens = Lens::of(field, param);
    let [len] = case.words.end_with([lens.results])?;
    let results = row::lend(&mut results, len)?;
    let answer = make_wrtests(kind, param, gradient, bytes, results);
    let kept = row::is_filled(results);
    answer_lent(out, answer, kept, Elements(field, results))
}
