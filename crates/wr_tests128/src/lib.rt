// The wraparound tests alone over Field128: as crates/wr_tests has them over Field64, with rows of two words to an
// element.
#![tactic(auto)]

ghost use Rattle.std.specs.Prelude.{◌≡◌, ◌*◌, ◌≤◌, length};
ghost use Rattle.rules.specs.Rules.{first, in_order};
ghost use Rattle.rows.specs.Rows.{row_rule, elements_rule};
ghost use Rattle.rows.specs.Outcome.{outcome};
ghost use Rattle.flp.specs.Tests.{run_tests_rules, run_tests_of};
ghost use Rattle.field128.specs.Field128.{p128, elements_of};
ghost use Rattle.params128.specs.Field128.{Field128};

use pine::PineParam;
use rules::Answer;

// Rules 7 and 12, where rule 7 of row 2 has this answer.
fn check_rows(param: PineParam, gradient: &[u64], row_2: Answer, results: &[u64]) -> Answer
    requires { (param.num_wr_tests ≤ 256) × (param.dimension ≤ 65536) }
    ensures { result ≡ first (row_rule 1 (length gradient.now) (2 * param.dimension)) (first row_2 (first (row_rule 3 (length results.now) (2 * param.num_wr_tests)) (elements_rule p128 (elements_of gradient.now)))) }
{
    let row_1 = rows::check_len(1, gradient.len(), 2 * param.dimension);
    let row_3 = rows::check_len(3, results.len(), 2 * param.num_wr_tests);
    let elements = rows128::check_elements(gradient, 0);
    row_1.or(row_2.or(row_3.or(elements)))
}

// The rules of the tests: those on the inputs, 7 and 12.
fn check_lent(param: PineParam, gradient: &[u64], stream: &[u8], results: &[u64]) -> Answer
    ensures { result ≡ in_order (run_tests_rules Field128 param gradient.now stream.now results.now) }
{
    let inputs = params128::check_param(param);
    if inputs.number != 0 {
        return inputs;
    }
    let row_2 = rows::check_len(2, stream.len(), wr_tests::lengths::stream_len(param));
    check_rows(param, gradient, row_2, results)
}

// Runs the wraparound tests on the gradient's elements, with the lent stream.
pub fn run_wr_tests(
    param: PineParam,
    gradient: &[u64],
    stream: &[u8],
    results: &mut [u64],
) -> Answer
    ensures { outcome result results.new ≡ run_tests_of Field128 param gradient.now stream.now results.old }
{
    let answer = check_lent(param, gradient, stream, results);
    if answer.number != 0 {
        return answer;
    }
    let d = gradient.len() / 2;
    columns128::run_block(gradient, (d + 3) / 4, stream, results);
    answer
}
