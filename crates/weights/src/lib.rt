// Internal: few tests on a group of columns, by weights: each coordinate times 0, 1 or 2, less all of them once. A function
// here asks its caller for what it does not test itself.
#![tactic(auto)]

ghost use Rattle.std.specs.Prelude.{◌≡◌, ◌+◌, ◌*◌, ◌≤◌, ◌<◌, length};
ghost use Rattle.field64.specs.Field.{p64, add_mod, mul_mod};
ghost use Rattle.field64.specs.Sums.{total};
ghost use Rattle.rows.specs.Rows.{Below, by_element};
ghost use Rattle.flp.specs.Tests.{test_of};
ghost use Rattle.groups.specs.Groups.{add_group};
ghost use Rattle.weights.specs.Weights.{PairWeights, written_at, weights_of};

use sums::Halves;

// The weights of the pairs: what a pair makes of a coordinate is so many times the coordinate, less it.
const PAIR_0: u64 = 0;

const PAIR_1: u64 = 1;

const PAIR_2: u64 = 1;

const PAIR_3: u64 = 2;

// By half a byte, the weights of its two pairs, and a 0: an entry of three words is copied by one move
// of sixteen bytes, one of two is not.
const PAIRS: [u64; 48] = [
    PAIR_0, PAIR_0, 0, PAIR_1, PAIR_0, 0, PAIR_2, PAIR_0, 0, PAIR_3, PAIR_0, 0, PAIR_0, PAIR_1, 0,
    PAIR_1, PAIR_1, 0, PAIR_2, PAIR_1, 0, PAIR_3, PAIR_1, 0, PAIR_0, PAIR_2, 0, PAIR_1, PAIR_2, 0,
    PAIR_2, PAIR_2, 0, PAIR_3, PAIR_2, 0, PAIR_0, PAIR_3, 0, PAIR_1, PAIR_3, 0, PAIR_2, PAIR_3, 0,
    PAIR_3, PAIR_3, 0,
];

// The sum of the elements.
fn plain_sum(xs: &[u64]) -> u64
    requires { length xs.now ≤ 256 }
    ensures { result ≡ total p64 xs.now }
{
    let mut sum = Halves::none();
    for &x in xs {
        sum = sum.plus(x, 1);
    }
    sum.reduced()
}

// The sum of the elements, each times its weight.
fn weighed_sum(xs: &[u64], weights: &[u64]) -> u64
    requires { (length xs.now ≤ 256) × ((length xs.now ≡ length weights.now) × Below 3 weights.now) }
    ensures { result ≡ total p64 (by_element (mul_mod p64) xs.now weights.now) }
{
    let mut sum = Halves::none();
    for (&x, &w) in xs.iter().zip(weights) {
        sum = sum.plus(x, w);
    }
    sum.reduced()
}

// Writes the weights of a byte's four pairs from start on, by the table of those of half a byte.
fn write_byte(byte: u8, table: &[u64], start: usize, weights: &mut [u64])
    requires { PairWeights table.now × ((48 ≤ length table.now) × (start + 4 ≤ length weights.old)) }
    ensures { weights.new ≡ written_at byte start weights.old }
{
    let low = 3 * (byte % 16) as usize;
    let high = 3 * (byte / 16) as usize;
    weights[start] = table[low];
    weights[start + 1] = table[low + 1];
    weights[start + 2] = table[high];
    weights[start + 3] = table[high + 1];
}

// Writes the weights of the bytes' pairs.
fn write_weights(bytes: &[u8], table: &[u64], weights: &mut [u64])
    requires { PairWeights table.now × ((48 ≤ length table.now) × (length weights.old ≡ 4 * length bytes.now)) }
    ensures { weights.new ≡ weights_of bytes.now }
{
    for (k, &byte) in bytes.iter().enumerate() {
        write_byte(byte, table, 4 * k, weights);
    }
}

// r with what a test's bytes make of these elements, whose plain sum is given: each times its weight,
// less each once. The table is PAIRS, copied once for all tests; the weights are spoilt.
fn add_bytes(
    r: u64,
    plain: u64,
    xs: &[u64],
    bytes: &[u8],
    table: &[u64],
    weights: &mut [u64],
) -> u64
    requires r_lt_p64 { (r < p64) × (plain ≡ total p64 xs.now) }
    requires below { Below p64 xs.now × ((length xs.now ≤ 256) × (length xs.now ≤ 4 * length bytes.now)) }
    requires pair_weights { PairWeights table.now × ((48 ≤ length table.now) × (length weights.old ≡ 4 * length bytes.now)) }
    ensures { result ≡ add_mod p64 r (test_of p64 xs.now bytes.now) }
{
    write_weights(bytes, table, weights);
    let count = xs.len();
    let weighed = weighed_sum(xs, &weights[0..count]);
    field64::sub(field64::add(r, weighed), plain)
}

// Adds to each result what n bytes of its test, from byte j on, make of these coordinates. The weights are spoilt.
pub fn add_weighed(
    xs: &[u64],
    per: usize,
    j: usize,
    n: usize,
    stream: &[u8],
    weights: &mut [u64],
    results: &mut [u64],
)
    requires per_in_bounds { (length results.old * per ≤ length stream.now) × ((j + n ≤ per) × (length weights.old ≡ 4 * n)) }
    requires below { Below p64 xs.now × ((length xs.now ≤ 256) × (length xs.now ≤ 4 * n)) }
    requires below_2 { Below p64 results.old }
    ensures { results.new ≡ add_group p64 per j n xs.now stream.now results.old }
{
    let table = PAIRS;
    let plain = plain_sum(xs);
    for t in 0..results.len() {
        let from = t * per + j;
        let to = from + n;
        results[t] = add_bytes(results[t], plain, xs, &stream[from..to], &table, weights);
    }
}
