// Internal: the inputs of a load, from the numbers of its text's lines, and the rules on them (docs/PINE.md, "A load").
#![tactic(auto)]

ghost use Rattle.std.specs.Prelude.{◌≡◌, cond, ◌≤◌, get_or, eqb};
ghost use Rattle.rules.specs.Rules.{in_order};
ghost use Rattle.pine.specs.declared.WrTestRule.TheVariants.{Every, Enough};
ghost use Rattle.load_inputs.specs.Inputs.{param_of, early_rules};

use pine::{PineParam, WrTestRule};
use rules::Answer;

// The largest dimension and number of tests of a load.
const MAX_DIMENSION: u64 = 1024;

const MAX_WR_TESTS: u64 = 16;

// The rule of the tests, 0 for the first.
fn wr_test_rule(n: u64) -> WrTestRule
    ensures { result ≡ cond (eqb n 0) Every Enough }
{
    if n == 0 {
        WrTestRule::Every
    } else {
        WrTestRule::Enough
    }
}

// The inputs by the numbers of the lines.
pub fn param_of(numbers: [u64; 12]) -> PineParam
    requires { (get_or numbers 8 0 ≤ 65535) × (get_or numbers 9 0 ≤ 65535) }
    ensures { result ≡ param_of numbers }
{
    PineParam {
        norm_bound: numbers[1],
        dimension: numbers[2],
        frac_bits: numbers[3],
        chunk_len: numbers[4],
        chunk_len_sq_norm_equal: numbers[5],
        num_wr_tests: numbers[6],
        num_wr_successes: numbers[7],
        alpha_numerator: numbers[8] as u16,
        alpha_denominator: numbers[9] as u16,
        wr_test_rule: wr_test_rule(numbers[10]),
        true_sq_norm: numbers[11] != 0,
    }
}

// Rules 1 to 6, 19 and 22.
pub fn check_load(seed: u64, param: PineParam) -> Answer
    ensures { result ≡ in_order (early_rules seed param) }
{
    let inputs = params::check_param_up_to(param, MAX_DIMENSION, MAX_WR_TESTS);
    let seed_rule = Answer::refuse_if(seed == 0, rules::LOAD_SEED, 0);
    inputs.or(seed_rule)
}
