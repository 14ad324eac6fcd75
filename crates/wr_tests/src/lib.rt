// The wraparound tests alone (`run_wr_tests` of pine/flp.rs of the Rust).
#![tactic(auto)]

use pine::PineParam;
use rules::Answer;

pub mod lengths;

ghost use Rattle.std.specs.Prelude.{◌≡◌, ◌*◌, ◌≤◌, ◌<◌, length};
ghost use Rattle.rules.specs.Rules.{first, in_order};
ghost use Rattle.field64.specs.Field.{p64};
ghost use Rattle.pine.specs.Param.{Field64};
ghost use Rattle.pine.specs.Record.{stream_len_of};
ghost use Rattle.rows.specs.Rows.{row_rule, elements_rule, Below};
ghost use Rattle.rows.specs.Outcome.{outcome};
ghost use Rattle.flp.specs.Tests.{tests_of, run_tests_rules, run_tests_of};
ghost use Rattle.wr_joint_rand.specs.WrJointRand.{wr_stream};

// So many bytes of all tests are few.
const FEW_BYTES: usize = 12;

// Rules 7 and 12, where rule 7 of row 2 has this answer.
fn check_rows(param: PineParam, gradient: &[u64], row_2: Answer, results: &[u64]) -> Answer
    ensures { result ≡ first (row_rule 1 (length gradient.now) param.dimension) (first row_2 (first (row_rule 3 (length results.now) param.num_wr_tests) (elements_rule p64 gradient.now))) }
{
    let row_1 = rows::check_len(1, gradient.len(), param.dimension);
    let row_3 = rows::check_len(3, results.len(), param.num_wr_tests);
    let elements = rows::check_elements(gradient, 0);
    row_1.or(row_2.or(row_3.or(elements)))
}

// The rules of the tests with a lent stream: those on the inputs, 7 and 12.
fn check_lent(param: PineParam, gradient: &[u64], stream: &[u8], results: &[u64]) -> Answer
    ensures { result ≡ in_order (run_tests_rules Field64 param gradient.now stream.now results.now) }
{
    let inputs = params::check_param(param);
    if inputs.number != 0 {
        return inputs;
    }
    let row_2 = rows::check_len(2, stream.len(), lengths::stream_len(param));
    check_rows(param, gradient, row_2, results)
}

// The same with a seed.
fn check_seeded(param: PineParam, gradient: &[u64], seed: &[u8], results: &[u64]) -> Answer
    ensures { result ≡ in_order (run_tests_rules Field64 param gradient.now (wr_stream (stream_len_of param.num_wr_tests param.dimension) seed.now) results.now) }
{
    let inputs = params::check_param(param);
    if inputs.number != 0 {
        return inputs;
    }
    let row_2 = wr_joint_rand::check_row(true, seed, lengths::stream_len(param));
    check_rows(param, gradient, row_2, results)
}

// The tests with a lent stream. Few bytes of all tests go straight: for these it counts what a call takes beside them.
fn run_lent(gradient: &[u64], per: usize, stream: &[u8], results: &mut [u64])
    requires results_nonzero { ((0 < length results.old) × (length results.old * per ≤ length stream.now)) × ((length gradient.now ≤ 4 * per) × (per < 65536)) }
    requires below { Below p64 gradient.now }
    ensures { results.new ≡ tests_of p64 per (length results.old) stream.now gradient.now }
{
    if stream.len() <= FEW_BYTES {
        byte_columns::run_block(gradient, per, stream, results);
        return;
    }
    columns::run_block(gradient, per, stream, results);
}

// Runs the wraparound tests on the gradient's elements, with the lent stream.
pub fn run_wr_tests(
    param: PineParam,
    gradient: &[u64],
    stream: &[u8],
    results: &mut [u64],
) -> Answer
    ensures { outcome result results.new ≡ run_tests_of Field64 param gradient.now stream.now results.old }
{
    let answer = check_lent(param, gradient, stream, results);
    if answer.number != 0 {
        return answer;
    }
    run_lent(gradient, (gradient.len() + 3) / 4, stream, results);
    answer
}

// The same, with the stream that a seed of 16 bytes makes.
pub fn run_wr_tests_seed(
    param: PineParam,
    gradient: &[u64],
    seed: &[u8],
    results: &mut [u64],
) -> Answer
    ensures { outcome result results.new ≡ run_tests_of Field64 param gradient.now (wr_stream (stream_len_of param.num_wr_tests param.dimension) seed.now) results.old }
{
    let answer = check_seeded(param, gradient, seed, results);
    if answer.number != 0 {
        return answer;
    }
    wr_joint_rand::run_from_seed(gradient, (gradient.len() + 3) / 4, seed, results);
    answer
}
