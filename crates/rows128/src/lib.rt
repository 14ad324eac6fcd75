// Internal: rows of Field128's elements, two words to an element, the low one first. A word that is left over at a
// row's end belongs to no element. A function here asks its caller for what it does not test itself.
#![tactic(auto)]

use field128::Element;
use rules::Answer;

pub mod adding;
pub mod scan;

ghost use Rattle.std.specs.Prelude.{◌≡◌, ◌+◌, ◌*◌, ◌^◌, ◌<◌, ◌++◌, length, slice_index, slice_set};
ghost use Rattle.rules.specs.Rules.{first};
ghost use Rattle.rows.specs.Rows.{elements_from, elements_rule, Below, sub_rows};
ghost use Rattle.field128.specs.Field128.{p128, number_of, elements_of, words_of, Whole};

// The two words of the element at i.
#[tactic(auto, using(field128::proofs::Pairs::elements_length))]
fn read(row: &[u64], i: usize) -> Element
    requires { i < length (elements_of row.now) }
    ensures { (result.low ≡ slice_index row.now (2 * i)) × (result.high ≡ slice_index row.now (2 * i + 1)) }
{
    let at = 2 * i;
    let next = at + 1;
    Element {
        low: row[at],
        high: row[next],
    }
}

// The element at i.
pub fn element(row: &[u64], i: usize) -> Element
    requires { i < length (elements_of row.now) }
    ensures { number_of result ≡ slice_index (elements_of row.now) i }
{
    read(row, i)
}

// Sets the element at i.
#[tactic(auto, using(field128::proofs::Pairs::elements_length))]
pub fn store(row: &mut [u64], i: usize, e: Element)
    requires { i < length (elements_of row.old) }
    ensures { row.new ≡ slice_set (slice_set row.old (2 * i) e.low) (2 * i + 1) e.high }
{
    let at = 2 * i;
    let next = at + 1;
    row[at] = e.low;
    row[next] = e.high;
}

// Rule 12, of a row whose elements are counted from start.
pub fn check_elements(row: &[u64], start: usize) -> Answer
    requires { start + length row.now < 2 ^ 64 }
    ensures { result ≡ elements_from p128 start (elements_of row.now) }
{
    let bad = scan::first_bad(row);
    if bad < row.len() / 2 {
        Answer {
            number: rules::ELEMENT,
            place: (start + bad) as u64,
        }
    } else {
        Answer::accepted()
    }
}

// The answer so far where it is a refusal, or else rule 12 over two rows joined.
pub fn or_elements(so_far: Answer, left: &[u64], right: &[u64]) -> Answer
    ensures { result ≡ first so_far (elements_rule p128 (elements_of left.now ++ elements_of right.now)) }
{
    if so_far.number != 0 {
        return so_far;
    }
    let in_left = check_elements(left, 0);
    let in_right = check_elements(right, left.len() / 2);
    in_left.or(in_right)
}

// Takes share from agg by element. Rows, or parts of rows, of field numbers.
pub fn sub_rows(agg: &mut [u64], share: &[u64])
    requires whole { Whole agg.old × (length agg.old ≡ length share.now) }
    requires below { Below p128 (elements_of agg.old) × Below p128 (elements_of share.now) }
    ensures { agg.new ≡ words_of (sub_rows p128 (elements_of agg.old) (elements_of share.now)) }
{
    let n = agg.len() / 2;
    for i in 0..n {
        let difference = field128::sub(element(agg, i), element(share, i));
        store(agg, i, difference);
    }
}
