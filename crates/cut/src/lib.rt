// Cutting a report: both measurement shares and the two joint randomness seeds (`shard_with_rand` of pine/vdaf.rs of the
// Rust, up to the proofs). Nothing is written before the last rule is met.
#![tactic(auto)]

ghost use Rattle.std.specs.Prelude.{◌≡◌, ◌≤◌, length};
ghost use Rattle.sums.specs.Unreduced.{words_of};
ghost use Rattle.doubles.specs.Doubles.{floor_limit64, power};
ghost use Rattle.pine.specs.Param.{Field64};
ghost use Rattle.pine.specs.Record.{pine_of};
ghost use Rattle.flp.specs.Encode.{true_sq_norm_of};
ghost use Rattle.measurement.specs.Parts.{Usable};
ghost use Rattle.shares.specs.Shares.{wr_seed};
ghost use Rattle.cut.specs.Cut.{cut_outcome, cut_of};
ghost use Rattle.cut.specs.Late.{rows_answer, MetUpTo};

use pine::PineParam;
use pine::record::Pine;
use rules::Answer;
use sums::Sum;

// The bytes of a nonce, of the five seeds, and of the two seeds given.
const NONCE_LEN: u64 = 16;

const SEEDS_LEN: u64 = 80;

const GIVEN_LEN: u64 = 32;

// Rules 7 to 9 and 17, of a record that was derived.
fn check_rows(
    pine: Pine,
    gradient: &[f64],
    nonce: &[u8],
    seeds: &[u8],
    leader: &[u64],
    helper: &[u64],
    given: &[u8],
) -> Answer
    requires { pine.scale ≡ power pine.frac_bits }
    ensures { result ≡ rows_answer floor_limit64 pine gradient.now nonce.now seeds.now leader.now helper.now given.now }
{
    let row_2 = rows::check_len(2, nonce.len(), NONCE_LEN);
    let row_3 = rows::check_len(3, seeds.len(), SEEDS_LEN);
    let row_4 = rows::check_len(4, leader.len(), pine.encoded_input_len);
    let row_5 = rows::check_len(5, helper.len(), pine.encoded_input_len);
    let row_6 = rows::check_len(6, given.len(), GIVEN_LEN);
    let coordinates = gradient_rules::check_coordinates(gradient, pine.scale, pine.frac_bits);
    let gradient_len = gradient_rules::check_gradient_len(gradient.len(), pine.dimension);
    row_2.or(row_3.or(row_4.or(row_5.or(row_6.or(coordinates.or(gradient_len))))))
}

// The squared norm without reduction.
fn squared_norm(gradient: &[f64], scale: f64, frac_bits: u64) -> Sum
    requires usable { Usable floor_limit64 frac_bits gradient.now × (scale ≡ power frac_bits) }
    requires gradient_len_bound { length gradient.now ≤ 65536 }
    ensures { words_of result ≡ true_sq_norm_of frac_bits gradient.now }
{
    let stream = [0u8; 1];
    let mut results = [0u64; 1];
    let per = (gradient.len() + 3) / 4;
    gradient::norm_and_tests(gradient, scale, frac_bits, per, &stream, &mut results[..0])
}

// Cutting from the tests on: rule 11 or 20 is encoding's. The measurement goes to the leader's row, and the tests' results,
// which nobody wants, to the helper's; where encoding refuses, it leaves both.
fn cut_from_tests(
    param: PineParam,
    gradient: &[f64],
    nonce: &[u8],
    seeds: &[u8],
    wr: [u8; 16],
    leader: &mut [u64],
    helper: &mut [u64],
    given: &mut [u8],
) -> Answer
    requires met_up_to { MetUpTo 11 Field64 param gradient.now nonce.now seeds.now leader.old helper.old given.old }
    requires wr_value { wr ≡ wr_seed Field64 param gradient.now nonce.now seeds.now }
    ensures { cut_outcome result leader.new helper.new given.new ≡ cut_of Field64 param gradient.now nonce.now seeds.now leader.old helper.old given.old }
{
    let tests = param.num_wr_tests as usize;
    let answer = encode::encode_with_wr_joint_rand_seed(
        param,
        gradient,
        &wr,
        leader,
        &mut helper[..tests],
    );
    if answer.number != 0 {
        return answer;
    }
    shares::cut_measurement(nonce, seeds, wr, leader, helper, given);
    answer
}

// Cutting from rule 21 on.
fn cut_from_norm(
    param: PineParam,
    pine: Pine,
    gradient: &[f64],
    nonce: &[u8],
    seeds: &[u8],
    leader: &mut [u64],
    helper: &mut [u64],
    given: &mut [u8],
) -> Answer
    requires pine_value { pine ≡ pine_of param }
    requires met_up_to { MetUpTo 8 Field64 param gradient.now nonce.now seeds.now leader.old helper.old given.old }
    ensures { cut_outcome result leader.new helper.new given.new ≡ cut_of Field64 param gradient.now nonce.now seeds.now leader.old helper.old given.old }
{
    let norm = squared_norm(gradient, pine.scale, pine.frac_bits);
    let v = norm.reduced();
    let of_norm = gradient_rules::check_norm(param.true_sq_norm, norm, v, pine.sq_norm_bound);
    if of_norm.number != 0 {
        return of_norm;
    }
    let made = wr_parts::wr_seed(param, pine, gradient, v, nonce, seeds);
    if !made.enough {
        return Answer {
            number: rules::DRAWS,
            place: 0,
        };
    }
    let wr = made.seed;
    cut_from_tests(param, gradient, nonce, seeds, wr, leader, helper, given)
}

// Cuts the report of a gradient, with the five seeds of the Rust's order: the leader's share and the helper's go to a row
// each, and to a third the wraparound seed and then the verification seed.
pub fn cut(
    param: PineParam,
    gradient: &[f64],
    nonce: &[u8],
    seeds: &[u8],
    leader: &mut [u64],
    helper: &mut [u64],
    given: &mut [u8],
) -> Answer
    ensures { cut_outcome result leader.new helper.new given.new ≡ cut_of Field64 param gradient.now nonce.now seeds.now leader.old helper.old given.old }
{
    let inputs = params::check_param(param);
    if inputs.number != 0 {
        return inputs;
    }
    let pine = Pine::new(param);
    let early = check_rows(pine, gradient, nonce, seeds, leader, helper, given);
    if early.number != 0 {
        return early;
    }
    cut_from_norm(param, pine, gradient, nonce, seeds, leader, helper, given)
}
