// Internal: what encoding over Field128 tests and writes is small where it is accepted: results of tests, and the squared
// norm. It is handed on as Field64's, whose rules and writers then serve both. No branch depends on a number.
#![tactic(auto)]

ghost use Rattle.std.specs.Prelude.{◌≡◌, ◌-◌, ◌*◌, ◌^◌, ◌<◌, ◌≤◌, cond, map, length};
ghost use Rattle.field64.specs.Field.{p64};
ghost use Rattle.rows.specs.Rows.{Below};
ghost use Rattle.field128.specs.Field128.{p128, number_of, elements_of};
ghost use Rattle.narrow.specs.Narrow.{flag_above, class_of, Sorted, sorted_result, narrowed, narrowed_norm};

use field128::Element;

// A result out of range, for any bound.
const OUT: u64 = 0x8000_0000_0000_0000;

// 1 where n is above a bound, or else 0. By bits: of a test LLVM makes a branch. n is above where its high word has the
// highest bit or 0 less that word has, or where its low word has or the bound less that word.
fn above(n: Element, bound: u64) -> u64
    requires { bound < 2 ^ 63 }
    ensures { result ≡ flag_above bound (number_of n) }
{
    let less_high = std::num::wrapping_sub_u64(0, n.high);
    let rest = std::num::wrapping_sub_u64(bound, n.low);
    (n.high | less_high | n.low | rest) >> 63
}

// Where a result lies.
fn class_of(r: Element, bound: u64) -> u64
    requires { (number_of r < p128) × ((0 < bound) × (bound ≤ 2 ^ 48)) }
    ensures { result ≡ class_of bound (number_of r) }
{
    above(field128::complement(r), bound - 1) + above(r, bound) * 0x1_0000_0000
}

// A result as Field64's, by the digits of where it lies.
fn narrow_result(r: Element, f: u64, g: u64) -> u64
    requires { (number_of r < p128) × Sorted (number_of r) f g }
    ensures { result ≡ sorted_result (number_of r) f g }
{
    let c = field128::complement(r);
    let negative = f * OUT + (1 - f) * field64::P - (1 - f) * c.low;
    (1 - g) * r.low + g * negative
}

// Where each result lies.
fn write_classes(results: &[u64], bound: u64, row: &mut [u64])
    requires results_len { length results.now ≡ 2 * length row.old }
    requires below { Below p128 (elements_of results.now) × ((0 < bound) × (bound ≤ 2 ^ 48)) }
    ensures { row.new ≡ map (class_of bound) (elements_of results.now) }
{
    for t in 0..row.len() {
        row[t] = class_of(rows128::element(results, t), bound);
    }
}

// The results of tests as Field64's, over a row of as many words. What tells where each lies is written first and read
// again, so that LLVM does not know it for 0 or 1 and leaves the products: of a choice it would make a branch.
pub fn narrow_results(results: &[u64], bound: u64, row: &mut [u64])
    requires results_len { length results.now ≡ 2 * length row.old }
    requires below { Below p128 (elements_of results.now) × ((0 < bound) × (bound ≤ 2 ^ 48)) }
    ensures { row.new ≡ map (narrowed bound) (elements_of results.now) }
{
    write_classes(results, bound, row);
    for t in 0..row.len() {
        let class = row[t];
        let f = class % 0x1_0000_0000;
        let g = class / 0x1_0000_0000;
        row[t] = narrow_result(rows128::element(results, t), f, g);
    }
}

// A squared norm modulo p as one word.
pub fn narrow_norm(v: Element) -> u64
    ensures { result ≡ narrowed_norm (number_of v) }
{
    if v.high == 0 { v.low } else { u64::MAX }
}
