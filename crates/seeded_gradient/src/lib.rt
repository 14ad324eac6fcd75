// Internal: what encoding reads from a gradient whose tests have the bytes of a seed: its squared norm and the results of the
// tests. A function here asks its caller for what it does not test itself.
#![tactic(auto)]

ghost use Rattle.std.specs.Prelude.{◌≡◌, ◌⊎◌, ◌*◌, ◌≤◌, ◌<◌, length};
ghost use Rattle.field64.specs.Field.{p64};
ghost use Rattle.sums.specs.Unreduced.{words_of};
ghost use Rattle.doubles.specs.Doubles.{floor_limit64, power};
ghost use Rattle.flp.specs.Tests.{tests_of};
ghost use Rattle.flp.specs.Encode.{elements, true_sq_norm_of};
ghost use Rattle.measurement.specs.Parts.{Usable};
ghost use Rattle.turboshake.specs.Stream.{drawn, after};
ghost use Rattle.wr_joint_rand.specs.WrJointRand.{wr_stream};

use sums::Sum;
use tiles::Taken;
use turboshake::Sponge;

// So many bytes are drawn at a time.
const BUFFER: usize = 8192;

// So many tests are enough for a block: they go by tables.
const MANY: usize = 7;

// How many tests the next block takes, of so many that are left: as many as fit the buffer. Where these are few, the
// coordinates would be converted again for every few, so they go by tiles.
fn block_len(per: usize, tests: usize) -> usize
    requires { (0 < per) × (0 < tests) }
    ensures { ((0 < result) × (result ≤ tests)) × ((result * per ≤ 8192) ⊎ (result ≤ 50)) }
{
    let fit = BUFFER / per;
    if fit < groups::at_most(tests, MANY) {
        return groups::at_most(tests, tiles::TESTS);
    }
    groups::at_most(tests, fit)
}

// A block of tests on a gradient's elements, with the next bytes of a stream. It is called from two places, so that
// LLVM does not lay it out within its caller, with its rows on the stack of every path there.
fn take_block(
    gradient: &[f64],
    scale: f64,
    frac_bits: u64,
    per: usize,
    stream: Sponge,
    results: &mut [u64],
) -> Taken
    requires usable { Usable floor_limit64 frac_bits gradient.now × (scale ≡ power frac_bits) }
    requires per_nonzero { ((0 < per) × (per ≤ 16384)) × (length gradient.now ≤ 4 * per) }
    requires at_bound { (stream.at < 168) × ((0 < length results.old) × (length results.old ≤ 256)) }
    requires fact { (length results.old * per ≤ 8192) ⊎ (length results.old ≤ 50) }
    ensures norm_value { words_of result.norm ≡ true_sq_norm_of frac_bits gradient.now }
    ensures next_value { (result.next ≡ after (length results.old * per) stream) × (result.next.at < 168) }
    ensures results_after { results.new ≡ tests_of p64 per (length results.old) (drawn (length results.old * per) stream) (elements p64 frac_bits gradient.now) }
{
    let mut buffer = [0u8; 8192];
    let mut row = [0u64; 256];
    let mut spare = [0u64; 256];
    let count = results.len() * per;
    if count <= BUFFER {
        let next = wr_joint_rand::draw(stream, count, &mut buffer);
        let norm = gradient_groups::norm_and_block(
            gradient, scale, frac_bits, per, &buffer, &mut row, &mut spare, results,
        );
        return Taken { next, norm };
    }
    let mut states = [0u64; 1300];
    tiles::run_block(
        gradient,
        scale,
        frac_bits,
        per,
        stream,
        &mut states,
        &mut buffer,
        &mut row,
        &mut spare,
        results,
    )
}

// The tests on a gradient's elements block by block, with the next bytes of a stream. Each block gives the squared
// norm: that of the first is the answer.
fn take_blocks(
    gradient: &[f64],
    scale: f64,
    frac_bits: u64,
    per: usize,
    stream: Sponge,
    results: &mut [u64],
) -> Sum
    requires usable { Usable floor_limit64 frac_bits gradient.now × (scale ≡ power frac_bits) }
    requires per_nonzero { ((0 < per) × (per ≤ 16384)) × (length gradient.now ≤ 4 * per) }
    requires at_bound { (stream.at < 168) × ((0 < length results.old) × (length results.old ≤ 256)) }
    ensures result_value { words_of result ≡ true_sq_norm_of frac_bits gradient.now }
    ensures results_after { results.new ≡ tests_of p64 per (length results.old) (drawn (length results.old * per) stream) (elements p64 frac_bits gradient.now) }
{
    let first = block_len(per, results.len());
    let taken = take_block(
        gradient,
        scale,
        frac_bits,
        per,
        stream,
        &mut results[0..first],
    );
    let mut state = taken.next;
    let mut t = first;
    // A step takes as many tests as the next block.
    while t < results.len() {
        let end = t + block_len(per, results.len() - t);
        let more = take_block(gradient, scale, frac_bits, per, state, &mut results[t..end]);
        state = more.next;
        t = end;
    }
    taken.norm
}

// The tests on a gradient's elements, with the bytes of a seed, and its squared norm without reduction.
pub fn norm_from_seed(
    gradient: &[f64],
    scale: f64,
    frac_bits: u64,
    per: usize,
    seed: &[u8],
    results: &mut [u64],
) -> Sum
    requires usable { Usable floor_limit64 frac_bits gradient.now × (scale ≡ power frac_bits) }
    requires seed_len { (length seed.now ≡ 16) × ((0 < length results.old) × (length results.old ≤ 256)) }
    requires per_nonzero { ((0 < per) × (per ≤ 16384)) × (length gradient.now ≤ 4 * per) }
    ensures result_value { words_of result ≡ true_sq_norm_of frac_bits gradient.now }
    ensures results_after { results.new ≡ tests_of p64 per (length results.old) (wr_stream (length results.old * per) seed.now) (elements p64 frac_bits gradient.now) }
{
    let stream = wr_joint_rand::stream_of(seed);
    let count = results.len() * per;
    if count <= 1024 {
        let mut buffer = [0u8; 1024];
        wr_joint_rand::draw(stream, count, &mut buffer);
        return gradient::norm_and_tests(gradient, scale, frac_bits, per, &buffer, results);
    }
    take_blocks(gradient, scale, frac_bits, per, stream, results)
}
