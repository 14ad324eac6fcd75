// Encoding a gradient over Field128: as crates/encode does it over Field64, with rows of two words to an element. Where a
// gradient is accepted, its squared norm and the results that count are small: rules and bits are Field64's, on these.
#![tactic(auto)]

ghost use Rattle.std.specs.Prelude.{◌≡◌, ◌%◌, min, length};
ghost use Rattle.rules.specs.Rules.{accepted};
ghost use Rattle.sums.specs.Unreduced.{words_of as sum_of};
ghost use Rattle.rows.specs.Rows.{Below};
ghost use Rattle.pine.specs.Param.{param_answer};
ghost use Rattle.pine.specs.Record.{pine_of, FromDerivable};
ghost use Rattle.flp.specs.Encode.{true_sq_norm_of, encode_outcome, encode_of};
ghost use Rattle.field128.specs.Field128.{p128, number_of, elements_of, words_of};
ghost use Rattle.doubles128.specs.Doubles128.{floor_limit128};
ghost use Rattle.params128.specs.Field128.{Field128};
ghost use Rattle.measurement.specs.Parts.{Usable};
ghost use Rattle.encode.specs.Late.{rows_answer, Rooms, late_of};

use field128::{Element, Wide};
use pine::PineParam;
use pine::record::Pine;
use rules::Answer;
use sums::Sum;

// Rules 7 to 9 and 17, with the answer on row 2, of a record that was derived.
fn check_rows(
    pine: Pine,
    row_2: Answer,
    gradient: &[f64],
    measurement: &[u64],
    results: &[u64],
) -> Answer
    requires { FromDerivable pine }
    ensures { result ≡ rows_answer Field128 pine row_2 gradient.now measurement.now results.now }
{
    let row_3 = rows::check_len(3, measurement.len(), 2 * pine.encoded_input_len);
    let row_4 = rows::check_len(4, results.len(), 2 * pine.num_wr_tests);
    let coordinates = gradient_rules128::check_coordinates(gradient, pine.scale, pine.frac_bits);
    let gradient_len = gradient_rules::check_gradient_len(gradient.len(), pine.dimension);
    row_2.or(row_3.or(row_4.or(coordinates.or(gradient_len))))
}

// A squared norm modulo p.
fn reduced(norm: Sum) -> Element
    ensures { number_of result ≡ sum_of norm % p128 }
{
    field128::product::reduce(Wide {
        w0: norm.low,
        w1: norm.high,
        w2: norm.top,
        w3: 0,
    })
}

// Encoding from rule 21 on, the results of the tests found: all is known before anything is written. A row of as many words
// as there are tests is spoilt.
fn finish(
    param: PineParam,
    pine: Pine,
    gradient: &[f64],
    norm: Sum,
    found: &[u64],
    small: &mut [u64],
    measurement: &mut [u64],
    results: &mut [u64],
) -> Answer
    requires pine_value { (pine ≡ pine_of param) × (param_answer Field128 param ≡ accepted) }
    requires usable { Usable floor_limit128 param.frac_bits gradient.now × (sum_of norm ≡ true_sq_norm_of param.frac_bits gradient.now) }
    requires below { Below p128 (elements_of found.now) × (found.now ≡ words_of (elements_of found.now)) }
    requires rooms { Rooms Field128 param gradient.now (elements_of found.now) measurement.old results.old × (length small.old ≡ param.num_wr_tests) }
    ensures { encode_outcome result measurement.new results.new ≡ late_of Field128 param gradient.now (elements_of found.now) measurement.old results.old }
{
    let rule = param.wr_test_rule;
    let bound = pine.wr_test_bound();
    let v = narrow::narrow_norm(reduced(norm));
    narrow::narrow_results(found, bound, small);
    let late = gradient_rules::check_norm_and_tests(
        param.true_sq_norm,
        norm,
        v,
        pine.sq_norm_bound,
        rule,
        small,
        bound,
        pine.num_wr_successes,
    );
    if late.number != 0 {
        return late;
    }
    measurement128::write_measurement(pine, gradient, v, small, measurement);
    measurement::copy_row(found, results);
    late
}

// Encoding with rows that may be spoilt: for the results as long as theirs or of 512 words, and for half as many words.
fn encode_in(
    param: PineParam,
    gradient: &[f64],
    stream: &[u8],
    found: &mut [u64],
    small: &mut [u64],
    measurement: &mut [u64],
    results: &mut [u64],
) -> Answer
    requires { (length found.old ≡ min (length results.old) 512) × (length small.old ≡ length (elements_of found.old)) }
    ensures { encode_outcome result measurement.new results.new ≡ encode_of Field128 param gradient.now stream.now measurement.old results.old }
{
    let inputs = params128::check_param(param);
    if inputs.number != 0 {
        return inputs;
    }
    let pine = Pine::new(param);
    let row_2 = rows::check_len(2, stream.len(), pine.stream_len());
    let early = check_rows(pine, row_2, gradient, measurement, results);
    if early.number != 0 {
        return early;
    }
    let per = (gradient.len() + 3) / 4;
    let norm = gradient128::norm_and_tests(
        gradient,
        pine.scale,
        pine.frac_bits,
        per,
        stream,
        found,
    );
    finish(
        param,
        pine,
        gradient,
        norm,
        found,
        small,
        measurement,
        results,
    )
}

// Encodes a gradient, with the lent stream for the wraparound tests: the measurement goes to one row
// and the tests' results to another.
pub fn encode_with_wr_joint_rand(
    param: PineParam,
    gradient: &[f64],
    stream: &[u8],
    measurement: &mut [u64],
    results: &mut [u64],
) -> Answer
    ensures { encode_outcome result measurement.new results.new ≡ encode_of Field128 param gradient.now stream.now measurement.old results.old }
{
    let mut found = [0u64; 512];
    let mut small = [0u64; 256];
    let words = groups::at_most(results.len(), 512);
    let tests = words / 2;
    encode_in(
        param,
        gradient,
        stream,
        &mut found[..words],
        &mut small[..tests],
        measurement,
        results,
    )
}
