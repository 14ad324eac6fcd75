// Internal: elements of Field128 by limbs of 43 bits, the lowest first. A test's result is a sum of
// coordinates, some of them taken off, and of 65536 limbs that is less than 2^59 in size: so Field64 holds
// it, a word modulo 2^64 too, and a test on elements is three tests on their limbs. A function here asks its
// caller for what it does not test itself.
#![tactic(auto)]

ghost use Rattle.std.specs.Prelude.{◌≡◌, ◌*◌, ◌%◌, ◌^◌, ◌<◌, ◌≤◌, length};
ghost use Rattle.field64.specs.Field.{p64, add_mod};
ghost use Rattle.rows.specs.Rows.{Below};
ghost use Rattle.field128.specs.Field128.{p128, number_of, elements_of, words_of, Whole};
ghost use Rattle.limbs.specs.Limbs.{limb, limbs, modulus_of, joined, joined_rows, SameLength};

use field128::{Element, Wide};

// What a result on low, middle or high limbs is raised by: together 2^18 times the modulus of Field128.
const RAISE_LOW: u64 = 0x1000_0000_0004_0000;

const RAISE_MIDDLE: u64 = 0x0fff_f1ff_fffe_0000;

const RAISE_HIGH: u64 = 0x0fff_ffff_fffe_0000;

// Limb k of an element.
pub fn limb_of(x: Element, k: u64) -> u64
    requires { k ≤ 2 }
    ensures { result ≡ limb k (number_of x) }
{
    if k == 0 {
        return x.low % 0x800_0000_0000;
    }
    if k == 1 {
        return x.high % 0x40_0000 * 0x20_0000 + x.low / 0x800_0000_0000;
    }
    x.high / 0x40_0000
}

// Writes limb k of each element.
pub fn write_limbs(words: &[u64], k: u64, row: &mut [u64])
    requires { (k ≤ 2) × (length row.old ≡ length (elements_of words.now)) }
    ensures { row.new ≡ limbs k (elements_of words.now) }
{
    for i in 0..row.len() {
        row[i] = limb_of(rows128::element(words, i), k);
    }
}

// 2^43 times n.
fn shifted(n: u64) -> Element
    ensures { number_of result ≡ 2 ^ 43 * n }
{
    Element {
        low: n % 0x20_0000 * 0x800_0000_0000,
        high: n / 0x20_0000,
    }
}

// 2^86 times n, modulo p.
fn shifted_twice(n: u64) -> Element
    ensures { number_of result ≡ 2 ^ 43 * (2 ^ 43 * n) % p128 }
{
    field128::product::reduce(Wide {
        w0: 0,
        w1: n % 0x400_0000_0000 * 0x40_0000,
        w2: n / 0x400_0000_0000,
        w3: 0,
    })
}

// A sum raised, modulo p of Field64 where it is reduced, else modulo 2^64. By bits, so that no branch on it is
// left in the machine code.
fn raised(reduced: bool, sum: u64, raise: u64) -> u64
    requires { (sum < modulus_of reduced) × ((0 < raise) × (raise < p64)) }
    ensures { result ≡ add_mod (modulus_of reduced) sum raise }
{
    if reduced {
        field64::sub_by_bits(sum, field64::P - raise)
    } else {
        std::num::wrapping_add_u64(sum, raise)
    }
}

// A test's result by its results on the three limbs.
pub fn join(reduced: bool, low: u64, middle: u64, high: u64) -> Element
    requires { (low < modulus_of reduced) × ((middle < modulus_of reduced) × (high < modulus_of reduced)) }
    ensures { number_of result ≡ joined (modulus_of reduced) low middle high }
{
    let below = Element {
        low: raised(reduced, low, RAISE_LOW),
        high: 0,
    };
    let lower = field128::add(below, shifted(raised(reduced, middle, RAISE_MIDDLE)));
    field128::add(lower, shifted_twice(raised(reduced, high, RAISE_HIGH)))
}

// Writes the results of tests by those on the three limbs.
pub fn join_rows(reduced: bool, low: &[u64], middle: &[u64], high: &[u64], results: &mut [u64])
    requires whole { Whole results.old × SameLength (length (elements_of results.old)) low.now middle.now high.now }
    requires below { Below (modulus_of reduced) low.now × (Below (modulus_of reduced) middle.now × Below (modulus_of reduced) high.now) }
    ensures { results.new ≡ words_of (joined_rows (modulus_of reduced) low.now middle.now high.now) }
{
    for i in 0..low.len() {
        rows128::store(results, i, join(reduced, low[i], middle[i], high[i]));
    }
}
