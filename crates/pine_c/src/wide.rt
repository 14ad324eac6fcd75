// The public calls over Field128, for C and Rust. Each is as its neighbour over Field64 in the crate's root, under a name
// that begins with pine128, and hands its arguments to the call of the crate whose name ends in 128. A row of elements is
// one of words, two to an element, low first.
ghost use Rattle.std.specs.Prelude.{◌≡◌};
ghost use Rattle.doubles.specs.Doubles.{coordinate_of, decoded_of};
ghost use Rattle.pine.specs.Param.{param_answer};
ghost use Rattle.pine.specs.Record.{gadget_calls_of, gadget_calls_norm, derive_of};
ghost use Rattle.rows.specs.Outcome.{outcome};
ghost use Rattle.flp.specs.Tests.{run_tests_of};
ghost use Rattle.flp.specs.Encode.{encode_outcome, encode_of};
ghost use Rattle.flp.specs.Circuits.{valid_of, valid_equal_of};
ghost use Rattle.vdaf.specs.Aggregates.{empty_of, accumulate_of, subtract_of, unshard_outcome, unshard_of};
ghost use Rattle.field128.specs.Field128.{p128, number_of};
ghost use Rattle.doubles128.specs.Doubles128.{floor_limit128, size_limit128, coordinate_in};
ghost use Rattle.params128.specs.Field128.{Field128};
ghost use Rattle.validity128.specs.Numbers.{circuit_of};
ghost use Rattle.c_inputs.specs.Bytes.{param_of};

use c_inputs::{Inputs, param_of};
use doubles::Decoded;
use doubles128::Coordinate128;
use field128::Element;
use pine::Derived;
use rules::Answer;
use validity128::Circuit128;

// The rows of wiping that cover the stack, as the crate's root has them over Field64. After the tests, wiping takes a
// seventh of the shortest call that is wiped.
const ENCODE_ROWS: usize = 16;

const TESTS_ROWS: usize = 13;

#[unsafe(no_mangle)]
pub extern "C" fn pine128_check_param(inputs: Inputs) -> Answer
    ensures { result ≡ param_answer Field128 (param_of inputs) }
{
    params128::check_param(param_of(inputs))
}

#[unsafe(no_mangle)]
pub extern "C" fn pine128_derive(inputs: Inputs) -> Derived
    ensures { result ≡ derive_of Field128 (param_of inputs) }
{
    params128::derive(param_of(inputs))
}

#[unsafe(no_mangle)]
pub extern "C" fn pine128_f64_to_field(x: f64, frac_bits: u64) -> Coordinate128
    ensures { coordinate_in result ≡ coordinate_of p128 floor_limit128 x frac_bits }
{
    if frac_bits <= doubles::MAX_FRAC_BITS {
        let scale = doubles::scale_of(frac_bits);
        if doubles128::refused(x, scale, frac_bits) == 0 {
            return Coordinate128 {
                answer: Answer::accepted(),
                element: doubles128::element_of(x, scale, frac_bits),
            };
        }
    }
    doubles128::f64_to_field(x, frac_bits)
}

#[unsafe(no_mangle)]
pub extern "C" fn pine128_field_to_f64(y: Element, frac_bits: u64) -> Decoded
    ensures { result ≡ decoded_of p128 size_limit128 (number_of y) frac_bits }
{
    doubles128::field_to_f64(y, frac_bits)
}

// Encoding and the tests stand twice, once for no results, which are refused at once, so that LLVM does not lay them out
// within the exported functions, whose own frames are not wiped.

#[unsafe(no_mangle)]
pub extern "C" fn pine128_encode_with_wr_joint_rand(
    inputs: Inputs,
    gradient: &[f64],
    stream: &[u8],
    measurement: &mut [u64],
    results: &mut [u64],
) -> Answer
    ensures { encode_outcome result measurement.new results.new ≡ encode_of Field128 (param_of inputs) gradient.now stream.now measurement.old results.old }
{
    let param = param_of(inputs);
    if results.len() == 0 {
        return encode128::encode_with_wr_joint_rand(param, gradient, stream, measurement, results);
    }
    let answer = encode128::encode_with_wr_joint_rand(
        param,
        gradient,
        stream,
        measurement,
        results,
    );
    wipe::wipe_after(crate::work(inputs), crate::ENCODE_LEAST, ENCODE_ROWS);
    answer
}

#[unsafe(no_mangle)]
pub extern "C" fn pine128_run_wr_tests(
    inputs: Inputs,
    gradient: &[u64],
    stream: &[u8],
    results: &mut [u64],
) -> Answer
    ensures { outcome result results.new ≡ run_tests_of Field128 (param_of inputs) gradient.now stream.now results.old }
{
    let param = param_of(inputs);
    if results.len() == 0 {
        return wr_tests128::run_wr_tests(param, gradient, stream, results);
    }
    let answer = wr_tests128::run_wr_tests(param, gradient, stream, results);
    wipe::wipe_after(crate::work(inputs), crate::TESTS_LEAST, TESTS_ROWS);
    answer
}

#[unsafe(no_mangle)]
pub extern "C" fn pine128_valid(
    inputs: Inputs,
    num_shares: u64,
    full: &[u64],
    joint_rand: &[u64],
) -> Circuit128
    ensures result_value { circuit_of result ≡ valid_of Field128 (param_of inputs) num_shares full.now joint_rand.now }
    ensures gadget_calls_value { result.answer.number ≡ 0 → result.gadget_calls ≡ gadget_calls_of (param_of inputs) }
{
    validity128::valid(param_of(inputs), num_shares, full, joint_rand)
}

#[unsafe(no_mangle)]
pub extern "C" fn pine128_valid_sq_norm_equal(
    inputs: Inputs,
    num_shares: u64,
    full: &[u64],
) -> Circuit128
    ensures result_value { circuit_of result ≡ valid_equal_of Field128 (param_of inputs) num_shares full.now }
    ensures gadget_calls_value { result.answer.number ≡ 0 → result.gadget_calls ≡ gadget_calls_norm (param_of inputs) }
{
    validity128::valid_sq_norm_equal(param_of(inputs), num_shares, full)
}

#[unsafe(no_mangle)]
pub extern "C" fn pine128_empty_aggregate(inputs: Inputs, row: &mut [u64]) -> Answer
    ensures { outcome result row.new ≡ empty_of Field128 (param_of inputs) row.old }
{
    vdaf128::empty_aggregate(param_of(inputs), row)
}

#[unsafe(no_mangle)]
pub extern "C" fn pine128_accumulate(inputs: Inputs, agg: &mut [u64], share: &[u64]) -> Answer
    ensures { outcome result agg.new ≡ accumulate_of Field128 (param_of inputs) agg.old share.now }
{
    vdaf128::accumulate(param_of(inputs), agg, share)
}

#[unsafe(no_mangle)]
pub extern "C" fn pine128_merge(inputs: Inputs, agg: &mut [u64], other: &[u64]) -> Answer
    ensures { outcome result agg.new ≡ accumulate_of Field128 (param_of inputs) agg.old other.now }
{
    vdaf128::merge(param_of(inputs), agg, other)
}

#[unsafe(no_mangle)]
pub extern "C" fn pine128_subtract(inputs: Inputs, agg: &mut [u64], share: &[u64]) -> Answer
    ensures { outcome result agg.new ≡ subtract_of Field128 (param_of inputs) agg.old share.now }
{
    vdaf128::subtract(param_of(inputs), agg, share)
}

#[unsafe(no_mangle)]
pub extern "C" fn pine128_unmerge(inputs: Inputs, agg: &mut [u64], other: &[u64]) -> Answer
    ensures { outcome result agg.new ≡ subtract_of Field128 (param_of inputs) agg.old other.now }
{
    vdaf128::unmerge(param_of(inputs), agg, other)
}

#[unsafe(no_mangle)]
pub extern "C" fn pine128_unshard(
    inputs: Inputs,
    left: &[u64],
    right: &[u64],
    decoded: &mut [f64],
) -> Answer
    ensures { unshard_outcome result decoded.new ≡ unshard_of Field128 (param_of inputs) left.now right.now decoded.old }
{
    vdaf128::unshard(param_of(inputs), left, right, decoded)
}
