// Rule 12 and adding in one run. An element of the first row is tested before its sum is written. One of the second is
// joined to it whatever it is, and tested by a carry of that: where one is not below p all are parted again.
ghost use Rattle.std.specs.Prelude.{◌≡◌, ◌*◌, ◌^◌, ◌≤◌, ◌++◌, length, take, drop};
ghost use Rattle.rows.specs.Rows.{first_bad, elements_rule, by_element, add_rows, Below};
ghost use Rattle.rows.specs.Outcome.{outcome, finish};
ghost use Rattle.field128.specs.Field128.{p128, elements_of, words_of, Whole};
ghost use Rattle.field128.specs.Joined.{joined, parted};

use crate::scan;
use field128::joining;
use rules::Answer;

// How many elements were joined, and to how many of them one below p.
#[derive(Clone, Copy)]
struct Run {
    done: usize,
    below: u64,
}

// Joins share's elements to agg's, up to the first of agg's that is not below p. What was read had words below 2^64, which
// of a row nobody knows before it is read: so parting gives back the words, and not only the elements.
fn join_rows(agg: &mut [u64], share: &[u64]) -> Run
    requires { Whole agg.old × (length agg.old ≡ length share.now) }
    ensures agg_after { agg.new ≡ take (2 * result.done) (words_of (by_element joined (elements_of agg.old) (elements_of share.now))) ++ drop (2 * result.done) agg.old }
    ensures done_value { result.done ≡ first_bad p128 (elements_of agg.old) }
    ensures below { Below (2 ^ 64) (take (2 * result.done) agg.old) × Below (2 ^ 128) (take result.done (elements_of share.now)) }
    ensures below_le_done { (result.below ≤ result.done) × ((result.below ≡ result.done → Below p128 (take result.done (elements_of share.now))) × (Below p128 (take result.done (elements_of share.now)) → result.below ≡ result.done)) }
{
    let n = agg.len() / 2;
    let mut below = 0;
    for i in 0..n {
        let a = crate::read(agg, i);
        if scan::is_bad(a) {
            return Run { done: i, below };
        }
        let sum = joining::join(a, crate::element(share, i));
        crate::store(agg, i, sum.made);
        below += sum.below;
    }
    Run { done: n, below }
}

// Parts the first n of share's elements from agg's.
fn part_rows(agg: &mut [u64], share: &[u64], n: usize)
    requires { (Whole agg.old × (length agg.old ≡ length share.now)) × (n ≤ length (elements_of agg.old)) }
    ensures { agg.new ≡ take (2 * n) (words_of (by_element parted (elements_of agg.old) (elements_of share.now))) ++ drop (2 * n) agg.old }
{
    for i in 0..n {
        let e = joining::part(crate::element(agg, i), crate::element(share, i));
        crate::store(agg, i, e);
    }
}

// Adds share to agg by element, where rule 12 is met; the elements of share are counted on from those of agg.
pub fn add_elements(agg: &mut [u64], share: &[u64]) -> Answer
    requires { Whole agg.old × (length agg.old ≡ length share.now) }
    ensures { outcome result agg.new ≡ finish (elements_rule p128 (elements_of agg.old ++ elements_of share.now)) (words_of (add_rows p128 (elements_of agg.old) (elements_of share.now))) agg.old }
{
    let n = agg.len() / 2;
    let run = join_rows(agg, share);
    if run.below == n as u64 {
        return Answer::accepted();
    }
    part_rows(agg, share, run.done);
    crate::or_elements(Answer::accepted(), agg, share)
}
