// Internal: a block of tests that have few bytes in all, straight from the stream: what tables or a row of weights would save
// here is less than it takes to make them. A function here asks its caller for what it does not test itself.
#![tactic(auto)]

ghost use Rattle.std.specs.Prelude.{◌≡◌, ◌+◌, ◌*◌, ◌%◌, ◌^◌, ◌≤◌, ◌<◌, length};
ghost use Rattle.field64.specs.Field.{p64};
ghost use Rattle.rows.specs.Rows.{Below};
ghost use Rattle.flp.specs.Tests.{weighed, test_of, tests_of};
ghost use Rattle.byte_columns.specs.ByteColumns.{PlusPair, Summed};

use sums::Total;

// What a pair makes of a coordinate, modulo p: 3 adds it, 0 subtracts it, 1 and 2 skip it. All three are there before it is
// asked which: so no branch, which would often be mispredicted, is left in the machine code.
fn weighed_by(pair: u8, x: u64) -> u64
    requires { x < p64 }
    ensures { result % p64 ≡ weighed p64 pair x }
{
    let less = field64::P - x;
    let subtracted = if pair == 0 { less } else { 0 };
    if pair == 3 { x } else { subtracted }
}

// A sum with what its pair makes of element k.
fn plus_pair(sum: Total, xs: &[u64], k: usize, pair: u8) -> Total
    requires { Below p64 xs.now × ((k < length xs.now) × (sum.high + 1 < 2 ^ 64)) }
    ensures { PlusPair xs.now k pair sum result }
{
    sum.plus(weighed_by(pair, xs[k]))
}

// A sum with what the four pairs of byte j make of their elements.
fn plus_byte(sum: Total, xs: &[u64], bytes: &[u8], j: usize) -> Total
    requires summed { Summed xs.now bytes.now (4 * j) sum }
    requires below { Below p64 xs.now × ((4 * j + 4 ≤ length xs.now) × ((length xs.now ≤ 256) × (length xs.now ≤ 4 * length bytes.now))) }
    ensures { Summed xs.now bytes.now (4 * j + 4) result }
{
    let k = 4 * j;
    let byte = bytes[j];
    let one = plus_pair(sum, xs, k, byte % 4);
    let two = plus_pair(one, xs, k + 1, byte / 4 % 4);
    let three = plus_pair(two, xs, k + 2, byte / 16 % 4);
    plus_pair(three, xs, k + 3, byte / 64 % 4)
}

// A sum with what the last byte makes of its elements, where these are fewer than four.
fn plus_last(sum: Total, xs: &[u64], bytes: &[u8], j: usize) -> Total
    requires summed { Summed xs.now bytes.now (4 * j) sum }
    requires below { Below p64 xs.now × ((4 * j < length xs.now) × ((length xs.now < 4 * j + 4) × ((length xs.now ≤ 256) × (length xs.now ≤ 4 * length bytes.now)))) }
    ensures { Summed xs.now bytes.now (length xs.now) result }
{
    let k = 4 * j;
    let byte = bytes[j];
    let one = plus_pair(sum, xs, k, byte % 4);
    if xs.len() <= k + 1 {
        return one;
    }
    let two = plus_pair(one, xs, k + 1, byte / 4 % 4);
    if xs.len() <= k + 2 {
        return two;
    }
    plus_pair(two, xs, k + 2, byte / 16 % 4)
}

// The result of one test, with its bytes.
fn test_of(xs: &[u64], bytes: &[u8]) -> u64
    requires { Below p64 xs.now × ((length xs.now ≤ 256) × (length xs.now ≤ 4 * length bytes.now)) }
    ensures { result ≡ test_of p64 xs.now bytes.now }
{
    let whole = xs.len() / 4;
    let mut sum = Total::none();
    for j in 0..whole {
        sum = plus_byte(sum, xs, bytes, j);
    }
    if 4 * whole < xs.len() {
        return plus_last(sum, xs, bytes, whole).reduced();
    }
    sum.reduced()
}

// Runs a block of tests, as many as there are results, each with `per` bytes of the stream.
pub fn run_block(gradient: &[u64], per: usize, stream: &[u8], results: &mut [u64])
    requires per_in_bounds { (length results.old * per ≤ length stream.now) × ((length gradient.now ≤ 4 * per) × (per ≤ 64)) }
    requires below { Below p64 gradient.now }
    ensures { results.new ≡ tests_of p64 per (length results.old) stream.now gradient.now }
{
    for t in 0..results.len() {
        let start = t * per;
        let end = start + per;
        results[t] = test_of(gradient, &stream[start..end]);
    }
}
