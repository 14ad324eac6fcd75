// Aggregates of PINE over Field128: as crates/vdaf has them over Field64, with rows of two words to an element. Each
// public call takes any arguments; a function named check_* decides its answer and writes nothing.
#![tactic(auto)]

ghost use Rattle.std.specs.Prelude.{◌≡◌, ◌*◌, ◌<◌, length, get_or};
ghost use Rattle.rules.specs.Rules.{accepted, first};
ghost use Rattle.field64.specs.Field.{add_mod};
ghost use Rattle.doubles.specs.Doubles.{power};
ghost use Rattle.rows.specs.Rows.{row_rule, Below, add_rows};
ghost use Rattle.rows.specs.Outcome.{outcome};
ghost use Rattle.pine.specs.Param.{param_answer};
ghost use Rattle.field128.specs.Field128.{p128, number_of, elements_of};
ghost use Rattle.doubles128.specs.Doubles128.{size_limit128};
ghost use Rattle.params128.specs.Field128.{Field128};
ghost use Rattle.vdaf.specs.Aggregates.{empty_answer, empty_of, accumulate_answer, accumulate_of, subtract_of, unshard_outcome, sizes_rule, decoded_sums, unshard_answer, unshard_of};

use field128::Element;
use pine::PineParam;
use pine::record::Pine;
use rules::Answer;

// The words of a row of as many elements as there are coordinates.
fn row_len(param: PineParam) -> u64
    requires { param_answer Field128 param ≡ accepted }
    ensures { result ≡ 2 * param.dimension }
{
    2 * param.dimension
}

// The rules on the inputs, and 7, of two rows of so many words.
fn check_lens(param: PineParam, left: usize, right: usize) -> Answer
    ensures { result ≡ first (param_answer Field128 param) (first (row_rule 1 left (2 * param.dimension)) (row_rule 2 right (2 * param.dimension))) }
{
    let inputs = params128::check_param(param);
    if inputs.number != 0 {
        return inputs;
    }
    let len = row_len(param);
    let left_len = rows::check_len(1, left, len);
    let right_len = rows::check_len(2, right, len);
    left_len.or(right_len)
}

fn check_empty(param: PineParam, row: &[u64]) -> Answer
    ensures { result ≡ empty_answer Field128 param row.now }
{
    let inputs = params128::check_param(param);
    if inputs.number != 0 {
        return inputs;
    }
    rows::check_len(1, row.len(), row_len(param))
}

fn check_accumulate(param: PineParam, agg: &[u64], share: &[u64]) -> Answer
    ensures { result ≡ accumulate_answer Field128 param agg.now share.now }
{
    let lens = check_lens(param, agg.len(), share.len());
    rows128::or_elements(lens, agg, share)
}

// The sum of two rows' elements at i.
fn sum_at(left: &[u64], right: &[u64], i: usize) -> Element
    requires i_in_bounds { (i < length (elements_of left.now)) × (i < length (elements_of right.now)) }
    requires below { Below p128 (elements_of left.now) × Below p128 (elements_of right.now) }
    ensures { number_of result ≡ add_mod p128 (get_or (elements_of left.now) i 0) (get_or (elements_of right.now) i 0) }
{
    field128::add(rows128::element(left, i), rows128::element(right, i))
}

// How many sums are too large to be decoded, with no branch on one.
fn count_large(left: &[u64], right: &[u64]) -> u64
    requires left_len { length left.now ≡ length right.now }
    requires below { Below p128 (elements_of left.now) × Below p128 (elements_of right.now) }
    ensures { result ≡ 0 → accepted ≡ sizes_rule p128 size_limit128 0 (add_rows p128 (elements_of left.now) (elements_of right.now)) }
{
    let n = left.len() / 2;
    let mut count = 0;
    for i in 0..n {
        count += doubles128::size_flag(sum_at(left, right, i));
    }
    count
}

// Rule 23: the first sum that is too large.
fn search_sizes(left: &[u64], right: &[u64]) -> Answer
    requires left_len { length left.now ≡ length right.now }
    requires below { Below p128 (elements_of left.now) × Below p128 (elements_of right.now) }
    ensures { result ≡ sizes_rule p128 size_limit128 0 (add_rows p128 (elements_of left.now) (elements_of right.now)) }
{
    let n = left.len() / 2;
    for i in 0..n {
        let answer = doubles128::check_size(sum_at(left, right, i));
        if answer.number != 0 {
            return Answer {
                number: answer.number,
                place: i as u64,
            };
        }
    }
    Answer::accepted()
}

// Rule 23: only sums of which one is too large are searched.
fn check_sizes(left: &[u64], right: &[u64]) -> Answer
    requires left_len { length left.now ≡ length right.now }
    requires below { Below p128 (elements_of left.now) × Below p128 (elements_of right.now) }
    ensures { result ≡ sizes_rule p128 size_limit128 0 (add_rows p128 (elements_of left.now) (elements_of right.now)) }
{
    if count_large(left, right) == 0 {
        return Answer::accepted();
    }
    search_sizes(left, right)
}

fn check_unshard(param: PineParam, left: &[u64], right: &[u64], decoded: &[f64]) -> Answer
    ensures { result ≡ unshard_answer Field128 param left.now right.now decoded.now }
{
    let lens = check_lens(param, left.len(), right.len());
    if lens.number != 0 {
        return lens;
    }
    let decoded_len = rows::check_len(3, decoded.len(), param.dimension);
    let elements = rows128::or_elements(decoded_len, left, right);
    if elements.number != 0 {
        return elements;
    }
    check_sizes(left, right)
}

// Adds left and right by element, and writes the sums as doubles at the scale 2^frac_bits.
fn decode_sums(left: &[u64], right: &[u64], scale: f64, frac_bits: u64, decoded: &mut [f64])
    requires left_len { (length left.now ≡ 2 * length decoded.old) × (length right.now ≡ 2 * length decoded.old) }
    requires below { Below p128 (elements_of left.now) × Below p128 (elements_of right.now) }
    requires right_value { (sizes_rule p128 size_limit128 0 (add_rows p128 (elements_of left.now) (elements_of right.now))).number ≡ 0 }
    requires scale_value { scale ≡ power frac_bits }
    ensures { decoded.new ≡ decoded_sums p128 frac_bits (elements_of left.now) (elements_of right.now) }
{
    for i in 0..decoded.len() {
        decoded[i] = doubles128::decode(sum_at(left, right, i), scale, frac_bits);
    }
}

// Makes the aggregate of no shares.
pub fn empty_aggregate(param: PineParam, row: &mut [u64]) -> Answer
    ensures { outcome result row.new ≡ empty_of Field128 param row.old }
{
    let answer = check_empty(param, row);
    if answer.number != 0 {
        return answer;
    }
    rows::zero_row(row);
    answer
}

// Adds a share to an aggregate.
pub fn accumulate(param: PineParam, agg: &mut [u64], share: &[u64]) -> Answer
    ensures { outcome result agg.new ≡ accumulate_of Field128 param agg.old share.now }
{
    let lens = check_lens(param, agg.len(), share.len());
    if lens.number != 0 {
        return lens;
    }
    rows128::adding::add_elements(agg, share)
}

// Adds another aggregate to an aggregate: the same adding.
pub fn merge(param: PineParam, agg: &mut [u64], other: &[u64]) -> Answer
    ensures { outcome result agg.new ≡ accumulate_of Field128 param agg.old other.now }
{
    accumulate(param, agg, other)
}

// Takes a share out of an aggregate, whether or not it was added. It refuses what adding refuses.
pub fn subtract(param: PineParam, agg: &mut [u64], share: &[u64]) -> Answer
    ensures { outcome result agg.new ≡ subtract_of Field128 param agg.old share.now }
{
    let answer = check_accumulate(param, agg, share);
    if answer.number != 0 {
        return answer;
    }
    rows128::sub_rows(agg, share);
    answer
}

// Takes another aggregate out of an aggregate: the same taking out.
pub fn unmerge(param: PineParam, agg: &mut [u64], other: &[u64]) -> Answer
    ensures { outcome result agg.new ≡ subtract_of Field128 param agg.old other.now }
{
    subtract(param, agg, other)
}

// Adds two aggregates and writes the sums as doubles.
pub fn unshard(param: PineParam, left: &[u64], right: &[u64], decoded: &mut [f64]) -> Answer
    ensures { unshard_outcome result decoded.new ≡ unshard_of Field128 param left.now right.now decoded.old }
{
    let answer = check_unshard(param, left, right, decoded);
    if answer.number != 0 {
        return answer;
    }
    let pine = Pine::new(param);
    decode_sums(left, right, pine.scale, pine.frac_bits, decoded);
    answer
}
