// Encoding a gradient (`encode_with_wr_joint_rand` of pine/flp.rs of the Rust).
#![tactic(auto)]

ghost use Rattle.std.specs.Prelude.{◌≡◌, ◌*◌, ◌≤◌, ◌<◌, min, length};
ghost use Rattle.rules.specs.Rules.{accepted};
ghost use Rattle.field64.specs.Field.{p64};
ghost use Rattle.sums.specs.Unreduced.{words_of};
ghost use Rattle.doubles.specs.Doubles.{floor_limit64, power};
ghost use Rattle.rows.specs.Rows.{Below};
ghost use Rattle.pine.specs.Param.{Field64, param_answer};
ghost use Rattle.pine.specs.Record.{stream_len_of, pine_of};
ghost use Rattle.flp.specs.Tests.{tests_of};
ghost use Rattle.flp.specs.Encode.{elements, true_sq_norm_of, encode_outcome, encode_of};
ghost use Rattle.measurement.specs.Parts.{Usable};
ghost use Rattle.wr_joint_rand.specs.WrJointRand.{wr_stream, stream_from};
ghost use Rattle.encode.specs.Late.{rows_answer, Rooms, late_of};

use pine::PineParam;
use pine::record::Pine;
use rules::Answer;
use sums::Sum;

// Rules 7 to 9 and 17, with the answer on row 2, of a record that was derived.
fn check_rows(
    pine: Pine,
    row_2: Answer,
    gradient: &[f64],
    measurement: &[u64],
    results: &[u64],
) -> Answer
    requires { pine.scale ≡ power pine.frac_bits }
    ensures { result ≡ rows_answer Field64 pine row_2 gradient.now measurement.now results.now }
{
    let row_3 = rows::check_len(3, measurement.len(), pine.encoded_input_len);
    let row_4 = rows::check_len(4, results.len(), pine.num_wr_tests);
    let coordinates = gradient_rules::check_coordinates(gradient, pine.scale, pine.frac_bits);
    let gradient_len = gradient_rules::check_gradient_len(gradient.len(), pine.dimension);
    row_2.or(row_3.or(row_4.or(coordinates.or(gradient_len))))
}

// Encoding from rule 21 on, the results of the tests found: all is known before anything is written.
fn finish(
    param: PineParam,
    pine: Pine,
    gradient: &[f64],
    norm: Sum,
    found: &[u64],
    measurement: &mut [u64],
    results: &mut [u64],
) -> Answer
    requires pine_value { (pine ≡ pine_of param) × (param_answer Field64 param ≡ accepted) }
    requires usable { Usable floor_limit64 param.frac_bits gradient.now × (words_of norm ≡ true_sq_norm_of param.frac_bits gradient.now) }
    requires below { Below p64 found.now × Rooms Field64 param gradient.now found.now measurement.old results.old }
    ensures { encode_outcome result measurement.new results.new ≡ late_of Field64 param gradient.now found.now measurement.old results.old }
{
    let rule = param.wr_test_rule;
    let v = norm.reduced();
    let late = gradient_rules::check_norm_and_tests(
        param.true_sq_norm,
        norm,
        v,
        pine.sq_norm_bound,
        rule,
        found,
        pine.wr_test_bound(),
        pine.num_wr_successes,
    );
    if late.number != 0 {
        return late;
    }
    measurement::write_measurement(pine, gradient, v, found, measurement);
    measurement::copy_row(found, results);
    late
}

// Runs the tests on the gradient's elements, whose bytes are the row or come of the seed that it has, and gives its
// squared norm without reduction.
fn norm_and_tests(
    gradient: &[f64],
    scale: f64,
    frac_bits: u64,
    per: usize,
    seeded: bool,
    row: &[u8],
    results: &mut [u64],
) -> Sum
    requires usable { Usable floor_limit64 frac_bits gradient.now × (scale ≡ power frac_bits) }
    requires per_in_bounds { length results.old * per ≤ length (stream_from seeded (length results.old * per) row.now) }
    requires results_nonzero { (0 < length results.old) × (length results.old ≤ 256) }
    requires per_nonzero { ((0 < per) × (per ≤ 16384)) × (length gradient.now ≤ 4 * per) }
    ensures result_value { words_of result ≡ true_sq_norm_of frac_bits gradient.now }
    ensures results_after { results.new ≡ tests_of p64 per (length results.old) (stream_from seeded (length results.old * per) row.now) (elements p64 frac_bits gradient.now) }
{
    if seeded {
        return seeded_gradient::norm_from_seed(gradient, scale, frac_bits, per, row, results);
    }
    gradient::norm_and_tests(gradient, scale, frac_bits, per, row, results)
}

// Encoding with a row for the results that may be spoilt, as long as theirs or of 256. The tests' bytes are row 2, or
// come of the seed that it has.
fn encode_in(
    param: PineParam,
    gradient: &[f64],
    seeded: bool,
    row: &[u8],
    found: &mut [u64],
    measurement: &mut [u64],
    results: &mut [u64],
) -> Answer
    requires { length found.old ≡ min (length results.old) 256 }
    ensures { encode_outcome result measurement.new results.new ≡ encode_of Field64 param gradient.now (stream_from seeded (stream_len_of param.num_wr_tests param.dimension) row.now) measurement.old results.old }
{
    let inputs = params::check_param(param);
    if inputs.number != 0 {
        return inputs;
    }
    let pine = Pine::new(param);
    let row_2 = wr_joint_rand::check_row(seeded, row, pine.stream_len());
    let early = check_rows(pine, row_2, gradient, measurement, results);
    if early.number != 0 {
        return early;
    }
    let per = (gradient.len() + 3) / 4;
    let norm = norm_and_tests(
        gradient,
        pine.scale,
        pine.frac_bits,
        per,
        seeded,
        row,
        found,
    );
    finish(param, pine, gradient, norm, found, measurement, results)
}

// Encoding with a row of its own for the results. A short gradient costs little more than that row, which has to be set to
// 0, so few tests have a short one. Both calls come here, so that LLVM lays it out in neither: its frame is not theirs.
fn encode_by(
    param: PineParam,
    gradient: &[f64],
    seeded: bool,
    row: &[u8],
    measurement: &mut [u64],
    results: &mut [u64],
) -> Answer
    ensures { encode_outcome result measurement.new results.new ≡ encode_of Field64 param gradient.now (stream_from seeded (stream_len_of param.num_wr_tests param.dimension) row.now) measurement.old results.old }
{
    let tests = results.len();
    if tests <= 8 {
        let mut found = [0u64; 8];
        return encode_in(
            param,
            gradient,
            seeded,
            row,
            &mut found[..tests],
            measurement,
            results,
        );
    }
    if tests <= 32 {
        let mut found = [0u64; 32];
        return encode_in(
            param,
            gradient,
            seeded,
            row,
            &mut found[..tests],
            measurement,
            results,
        );
    }
    let mut found = [0u64; 256];
    let count = groups::at_most(tests, 256);
    encode_in(
        param,
        gradient,
        seeded,
        row,
        &mut found[..count],
        measurement,
        results,
    )
}

// Encodes a gradient, with the lent stream for the wraparound tests: the measurement goes to one row
// and the tests' results to another.
pub fn encode_with_wr_joint_rand(
    param: PineParam,
    gradient: &[f64],
    stream: &[u8],
    measurement: &mut [u64],
    results: &mut [u64],
) -> Answer
    ensures { encode_outcome result measurement.new results.new ≡ encode_of Field64 param gradient.now stream.now measurement.old results.old }
{
    encode_by(param, gradient, false, stream, measurement, results)
}

// Encodes a gradient, with the stream that a seed of 16 bytes makes.
pub fn encode_with_wr_joint_rand_seed(
    param: PineParam,
    gradient: &[f64],
    seed: &[u8],
    measurement: &mut [u64],
    results: &mut [u64],
) -> Answer
    ensures { encode_outcome result measurement.new results.new ≡ encode_of Field64 param gradient.now (wr_stream (stream_len_of param.num_wr_tests param.dimension) seed.now) measurement.old results.old }
{
    encode_by(param, gradient, true, seed, measurement, results)
}
