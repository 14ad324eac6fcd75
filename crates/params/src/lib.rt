// The inputs of PINE: the rules on them, and the record derived from them.
#![tactic(auto)]

ghost use Rattle.std.specs.Prelude.{◌≡◌};
ghost use Rattle.rules.specs.Rules.{refuse, first, in_order, out_of};
ghost use Rattle.pine.specs.Param.{Field64, alpha_rule, param_rules_within, param_rules_up_to, param_answer};
ghost use Rattle.pine.specs.Record.{Answered, derived_beside, derive_of};

use pine::record::{Lengths, Pine};
use pine::{Derived, PineParam};
use rules::Answer;

// The rule, at place 0, that x is from 1 to max.
fn limit(x: u64, max: u64, number: u64) -> Answer
    ensures { result ≡ refuse (out_of x max) number 0 }
{
    Answer::refuse_if(rules::outside(x, max), number, 0)
}

// Rule 19, of either number of the multiplier.
fn check_alpha(numerator: u16, denominator: u16) -> Answer
    ensures { result ≡ first (alpha_rule numerator) (alpha_rule denominator) }
{
    let above = limit(numerator as u64, 65535, rules::ALPHA);
    let below = limit(denominator as u64, 65535, rules::ALPHA);
    above.or(below)
}

// Rules 1 to 6, then 19, for a norm bound, which a field limits, a dimension and a number of tests up to these.
pub fn check_param_within(
    param: PineParam,
    max_norm_bound: u64,
    max_dimension: u64,
    max_wr_tests: u64,
) -> Answer
    ensures { result ≡ in_order (param_rules_within max_norm_bound max_dimension max_wr_tests param) }
{
    let successes = Answer::refuse_if(
        param.num_wr_tests < param.num_wr_successes,
        rules::NUM_WR_SUCCESSES,
        0,
    );
    let norm_bound = limit(param.norm_bound, max_norm_bound, rules::NORM_BOUND);
    let dimension = limit(param.dimension, max_dimension, rules::DIMENSION);
    let frac_bits = doubles::check_frac_bits(param.frac_bits);
    let chunk_len = limit(param.chunk_len, 65536, rules::CHUNK_LEN);
    let chunk_len_sq_norm_equal = limit(param.chunk_len_sq_norm_equal, 65536, rules::CHUNK_LEN);
    let num_wr_tests = limit(param.num_wr_tests, max_wr_tests, rules::NUM_WR_TESTS);
    let alpha = check_alpha(param.alpha_numerator, param.alpha_denominator);
    let chunks = chunk_len.or(chunk_len_sq_norm_equal.or(num_wr_tests.or(alpha)));
    successes.or(norm_bound.or(dimension.or(frac_bits.or(chunks))))
}

// The same over Field64.
pub fn check_param_up_to(param: PineParam, max_dimension: u64, max_wr_tests: u64) -> Answer
    ensures { result ≡ in_order (param_rules_up_to Field64 max_dimension max_wr_tests param) }
{
    check_param_within(param, 3037000499, max_dimension, max_wr_tests)
}

// Rules 1 to 6, then 19.
pub fn check_param(param: PineParam) -> Answer
    ensures { result ≡ param_answer Field64 param }
{
    check_param_up_to(param, 65536, 256)
}

// The record and every length beside the answer on the inputs, over any field.
pub fn derive_beside(answer: Answer, param: PineParam) -> Derived
    requires { Answered param answer }
    ensures { result ≡ derived_beside answer param }
{
    if answer.number != 0 {
        return Derived {
            answer,
            pine: Pine::none(),
            stream_len: 0,
            flp: Lengths::none(),
            flp_sq_norm_equal: Lengths::none(),
        };
    }
    let pine = Pine::new(param);
    Derived {
        answer,
        pine,
        stream_len: pine.stream_len(),
        flp: pine.lengths(),
        flp_sq_norm_equal: pine.lengths_sq_norm_equal(),
    }
}

// The record and every length, from the inputs.
pub fn derive(param: PineParam) -> Derived
    ensures { result ≡ derive_of Field64 param }
{
    derive_beside(check_param(param), param)
}
