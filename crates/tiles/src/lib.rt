// Internal: the wraparound tests of a long gradient, with the bytes of a stream that no row holds: not even those of
// one test. A block of tests goes over the coordinates together, tile by tile, so that each coordinate is converted
// once for the whole block. The stream has the bytes of one test after those of the other: each test of the block draws
// from a state of its own, and the first thing is to run through the stream for these. The states are kept in one row
// of words, which the caller lends. A function here asks its caller for what it does not test itself.
#![tactic(auto)]

ghost use Rattle.std.specs.Prelude.{◌≡◌, ◌*◌, ◌≤◌, ◌<◌, length};
ghost use Rattle.field64.specs.Field.{p64};
ghost use Rattle.sums.specs.Unreduced.{words_of};
ghost use Rattle.doubles.specs.Doubles.{floor_limit64, power};
ghost use Rattle.flp.specs.Tests.{tests_of};
ghost use Rattle.flp.specs.Encode.{elements, true_sq_norm_of};
ghost use Rattle.measurement.specs.Parts.{Usable};
ghost use Rattle.gradient_groups.specs.Spare.{SpareRows};
ghost use Rattle.turboshake.specs.Stream.{drawn, after};
ghost use Rattle.stream_states.specs.States.{states_of, tile_of, all_after, Ready};
ghost use Rattle.tiles.specs.Tiles.{BlockRows};

use stream_states::WORDS;
use sums::Sum;
use turboshake::Sponge;

// So many tests, at the most, are a block.
pub const TESTS: usize = 50;

// So many bytes of each test, at the most, are a tile.
const WIDTH: usize = 128;

// What a block gives: the stream after its bytes, and the squared norm without reduction.
#[derive(Clone, Copy)]
pub struct Taken {
    pub next: Sponge,
    pub norm: Sum,
}

// The tests tile by tile, with rows that may be spoilt, and the squared norm. Each state goes on to its test's end.
fn run_tiles(
    gradient: &[f64],
    scale: f64,
    frac_bits: u64,
    per: usize,
    states: &mut [u64],
    buffer: &mut [u8],
    row: &mut [u64],
    spare: &mut [u64],
    results: &mut [u64],
) -> Sum
    requires usable { Usable floor_limit64 frac_bits gradient.now × (scale ≡ power frac_bits) }
    requires per_bound { (per ≤ 16384) × (length gradient.now ≤ 4 * per) }
    requires block_rows { BlockRows (length results.old) states.old buffer.old × SpareRows row.old spare.old }
    requires ready { Ready (states_of (length results.old) states.old) }
    ensures result_value { words_of result ≡ true_sq_norm_of frac_bits gradient.now }
    ensures results_after { results.new ≡ tests_of p64 per (length results.old) (tile_of per (states_of (length results.old) states.old)) (elements p64 frac_bits gradient.now) }
    ensures states_after { states_of (length results.old) states.new ≡ all_after per (states_of (length results.old) states.old) }
{
    rows::zero_row(results);
    let count = results.len();
    let mut norm = Sum::none();
    let mut j = 0;
    // A step takes as many bytes as a group is wide.
    while j < per {
        let group = groups::group_from(j, WIDTH, per, gradient.len());
        let first = group.first;
        let last = group.last;
        let n = group.end - j;
        stream_states::draw_tile(count, n, states, buffer);
        norm = gradient_groups::add_block(
            &gradient[first..last],
            scale,
            frac_bits,
            n,
            buffer,
            row,
            spare,
            results,
            norm,
        );
        j = group.end;
    }
    norm
}

// Runs a block of tests on the gradient's elements, each with the next bytes of a stream. The rows are spoilt, and
// nothing depends on what they held.
pub fn run_block(
    gradient: &[f64],
    scale: f64,
    frac_bits: u64,
    per: usize,
    stream: Sponge,
    states: &mut [u64],
    buffer: &mut [u8],
    row: &mut [u64],
    spare: &mut [u64],
    results: &mut [u64],
) -> Taken
    requires usable { Usable floor_limit64 frac_bits gradient.now × (scale ≡ power frac_bits) }
    requires per_bound { (per ≤ 16384) × (length gradient.now ≤ 4 * per) }
    requires block_rows { BlockRows (length results.old) states.old buffer.old × SpareRows row.old spare.old }
    requires at_bound { (stream.at < 168) × (0 < length results.old) }
    ensures norm_value { words_of result.norm ≡ true_sq_norm_of frac_bits gradient.now }
    ensures next_value { (result.next ≡ after (length results.old * per) stream) × (result.next.at < 168) }
    ensures results_after { results.new ≡ tests_of p64 per (length results.old) (drawn (length results.old * per) stream) (elements p64 frac_bits gradient.now) }
{
    let count = results.len();
    stream_states::find_starts(stream, per, count, states);
    let norm = run_tiles(
        gradient, scale, frac_bits, per, states, buffer, row, spare, results,
    );
    let from = (count - 1) * WORDS;
    let to = from + WORDS;
    let next = stream_states::load(&states[from..to]);
    Taken { next, norm }
}
