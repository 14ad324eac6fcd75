// Aggregates of PINE over Field64 (pine/vdaf.rs of the Rust): the aggregate of no shares, adding to
// an aggregate, taking out of one, and reading two aggregates back as doubles. Each public call takes
// any arguments; a function named check_* decides its answer and writes nothing.
#![tactic(auto)]

ghost use Rattle.std.specs.Prelude.{◌≡◌, length};
ghost use Rattle.rules.specs.Rules.{first};
ghost use Rattle.field64.specs.Field.{p64};
ghost use Rattle.doubles.specs.Doubles.{power};
ghost use Rattle.pine.specs.Param.{Field64, param_answer};
ghost use Rattle.rows.specs.Rows.{row_rule, Below};
ghost use Rattle.rows.specs.Outcome.{outcome};
ghost use Rattle.vdaf.specs.Aggregates.{empty_answer, empty_of, accumulate_answer, accumulate_of, subtract_of, unshard_outcome, decoded_sums, unshard_answer, unshard_of};

use pine::PineParam;
use pine::record::Pine;
use rules::Answer;

// The rules on the inputs, and 7, of two rows of these lengths.
fn check_lens(param: PineParam, left: usize, right: usize) -> Answer
    ensures { result ≡ first (param_answer Field64 param) (first (row_rule 1 left param.dimension) (row_rule 2 right param.dimension)) }
{
    let inputs = params::check_param(param);
    if inputs.number != 0 {
        return inputs;
    }
    let pine = Pine::new(param);
    let left_len = rows::check_len(1, left, pine.dimension);
    let right_len = rows::check_len(2, right, pine.dimension);
    left_len.or(right_len)
}

fn check_empty(param: PineParam, row: &[u64]) -> Answer
    ensures { result ≡ empty_answer Field64 param row.now }
{
    let inputs = params::check_param(param);
    if inputs.number != 0 {
        return inputs;
    }
    let pine = Pine::new(param);
    rows::check_len(1, row.len(), pine.dimension)
}

fn check_accumulate(param: PineParam, agg: &[u64], share: &[u64]) -> Answer
    ensures { result ≡ accumulate_answer Field64 param agg.now share.now }
{
    let lens = check_lens(param, agg.len(), share.len());
    rows::or_elements(lens, agg, share)
}

fn check_unshard(param: PineParam, left: &[u64], right: &[u64], decoded: &[f64]) -> Answer
    ensures { result ≡ unshard_answer Field64 param left.now right.now decoded.now }
{
    let lens = check_lens(param, left.len(), right.len());
    if lens.number != 0 {
        return lens;
    }
    let pine = Pine::new(param);
    let decoded_len = rows::check_len(3, decoded.len(), pine.dimension);
    rows::or_elements(decoded_len, left, right)
}

// Adds left and right by element, and writes the sums as doubles at the scale 2^frac_bits.
fn decode_sums(left: &[u64], right: &[u64], scale: f64, frac_bits: u64, decoded: &mut [f64])
    requires left_len { (length left.now ≡ length decoded.old) × (length right.now ≡ length decoded.old) }
    requires below { Below p64 left.now × Below p64 right.now }
    requires scale_value { scale ≡ power frac_bits }
    ensures { decoded.new ≡ decoded_sums p64 frac_bits left.now right.now }
{
    for i in 0..decoded.len() {
        decoded[i] = doubles::decode(field64::add(left[i], right[i]), scale, frac_bits);
    }
}

// Makes the aggregate of no shares.
pub fn empty_aggregate(param: PineParam, row: &mut [u64]) -> Answer
    ensures { outcome result row.new ≡ empty_of Field64 param row.old }
{
    let answer = check_empty(param, row);
    if answer.number != 0 {
        return answer;
    }
    rows::zero_row(row);
    answer
}

// Adds a share to an aggregate.
pub fn accumulate(param: PineParam, agg: &mut [u64], share: &[u64]) -> Answer
    ensures { outcome result agg.new ≡ accumulate_of Field64 param agg.old share.now }
{
    let answer = check_accumulate(param, agg, share);
    if answer.number != 0 {
        return answer;
    }
    rows::add_rows(agg, share);
    answer
}

// Adds another aggregate to an aggregate: the same adding.
pub fn merge(param: PineParam, agg: &mut [u64], other: &[u64]) -> Answer
    ensures { outcome result agg.new ≡ accumulate_of Field64 param agg.old other.now }
{
    accumulate(param, agg, other)
}

// Takes a share out of an aggregate, whether or not it was added. It refuses what adding refuses.
pub fn subtract(param: PineParam, agg: &mut [u64], share: &[u64]) -> Answer
    ensures { outcome result agg.new ≡ subtract_of Field64 param agg.old share.now }
{
    let answer = check_accumulate(param, agg, share);
    if answer.number != 0 {
        return answer;
    }
    rows::sub_rows(agg, share);
    answer
}

// Takes another aggregate out of an aggregate: the same taking out.
pub fn unmerge(param: PineParam, agg: &mut [u64], other: &[u64]) -> Answer
    ensures { outcome result agg.new ≡ subtract_of Field64 param agg.old other.now }
{
    subtract(param, agg, other)
}

// Adds two aggregates and writes the sums as doubles.
pub fn unshard(param: PineParam, left: &[u64], right: &[u64], decoded: &mut [f64]) -> Answer
    ensures { unshard_outcome result decoded.new ≡ unshard_of Field64 param left.now right.now decoded.old }
{
    let answer = check_unshard(param, left, right, decoded);
    if answer.number != 0 {
        return answer;
    }
    let pine = Pine::new(param);
    decode_sums(left, right, pine.scale, pine.frac_bits, decoded);
    answer
}
