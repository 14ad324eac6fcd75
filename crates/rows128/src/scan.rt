// How rule 12 is tested: the first element of a row that is not below p. A good row is run through once, with no
// branch on its elements but the verdict at its end, and only a row with a bad one is searched.
ghost use Rattle.std.specs.Prelude.{◌≡◌, ◌^◌, ◌<◌, if◌then◌else◌, nat_eq, nat_le};
ghost use Rattle.rows.specs.Rows.{first_bad, Below};
ghost use Rattle.field128.specs.Field128.{p128, number, number_of, elements_of};

use field128::Element;

// What wraps the upper word of each number from p on that has this lower word, and of no other: 2^128 - p is
// 28 * 2^64 - 1.
fn beyond(low: u64) -> u64
    ensures { result ≡ (if nat_eq low 0 then 27 else 28) }
{
    if low == 0 { 27 } else { 28 }
}

// The last upper word that a number below p has beside this lower word.
fn last_upper(low: u64) -> u64
    ensures { result ≡ (if nat_eq low 0 then 18446744073709551588 else 18446744073709551587) }
{
    if low == 0 {
        field128::P_HIGH
    } else {
        field128::P_HIGH - 1
    }
}

// Whether an element is not below p. LLVM makes two comparisons and a carry of it: it goes beside other work on an
// element, where or_carry is for a row in vectors.
pub fn is_bad(e: Element) -> bool
    ensures { result ≡ nat_le p128 (number_of e) }
{
    last_upper(e.low) < e.high
}

// What was seen so far, and an element: 2^63 or more just where seen is, or where the element is not below p. By bits
// alone, as rows::scan has it.
pub fn or_carry(seen: u64, low: u64, high: u64) -> u64
    ensures seen_bound { result < 2 ^ 63 → (seen < 2 ^ 63) × (number low high < p128) }
    ensures upper_bound { (seen < 2 ^ 63) × (number low high < p128) → result < 2 ^ 63 }
{
    let sum = std::num::wrapping_add_u64(high, beyond(low));
    seen | (high & (u64::MAX - sum))
}

// 2^63 or more just where an element of a row is not below p.
#[tactic(auto, using(field128::proofs::Pairs::elements_length))]
pub fn carries(row: &[u64]) -> u64
    ensures below { result < 2 ^ 63 → Below p128 (elements_of row.now) }
    ensures upper_bound { Below p128 (elements_of row.now) → result < 2 ^ 63 }
{
    let n = row.len() / 2;
    let mut seen = 0;
    for i in 0..n {
        let e = crate::element(row, i);
        seen = or_carry(seen, e.low, e.high);
    }
    seen
}

// The index of the first element that is not below p, or their number where there is none.
#[tactic(auto, using(field128::proofs::Pairs::elements_length))]
fn search(row: &[u64]) -> usize
    ensures { result ≡ first_bad p128 (elements_of row.now) }
{
    let n = row.len() / 2;
    for i in 0..n {
        if is_bad(crate::element(row, i)) {
            return i;
        }
    }
    n
}

// The same: only a row with a carry is searched.
pub fn first_bad(row: &[u64]) -> usize
    ensures { result ≡ first_bad p128 (elements_of row.now) }
{
    if carries(row) < 1 << 63 {
        return row.len() / 2;
    }
    search(row)
}
