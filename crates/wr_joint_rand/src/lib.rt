// Internal: the bytes of the wraparound tests come in a row, or from a seed of 16 bytes. A seed's are drawn into a buffer, as
// many tests at a time as fit: no row holds them all. A function here asks its caller for what it does not test itself.
#![tactic(auto)]

ghost use Rattle.std.specs.Prelude.{◌≡◌, ◌*◌, ◌≤◌, ◌<◌, length, take};
ghost use Rattle.field64.specs.Field.{p64};
ghost use Rattle.rows.specs.Rows.{Below, row_rule};
ghost use Rattle.flp.specs.Tests.{tests_of};
ghost use Rattle.turboshake.specs.Stream.{drawn, after, stream_of};
ghost use Rattle.xof.specs.Xof.{algorithm_id, dst, before_binder};
ghost use Rattle.wr_joint_rand.specs.WrJointRand.{wr_stream, stream_from};

use rules::Answer;
use turboshake::Sponge;

// The bytes in a seed.
const SEED_LEN: u64 = 16;

// Rule 7 of the row: as long as the stream, or as a seed.
pub fn check_row(seeded: bool, row: &[u8], stream_len: u64) -> Answer
    requires { 0 < stream_len }
    ensures { result ≡ row_rule 2 (length (stream_from seeded stream_len row.now)) stream_len }
{
    if seeded {
        return rows::check_len(2, row.len(), SEED_LEN);
    }
    rows::check_len(2, row.len(), stream_len)
}

// A seed's stream, from its first byte on.
pub fn stream_of(seed: &[u8]) -> Sponge
    requires { length seed.now ≡ 16 }
    ensures { (result ≡ stream_of (before_binder seed.now (dst algorithm_id 8)) 1) × (result.at < 168) }
{
    xof::into_seed_stream(xof::init(xof::seed_of(seed), xof::USAGE_WR_JOINT_RAND))
}

// Fills the first bytes of a buffer with so many bytes of a stream, and gives the stream after them.
pub fn draw(stream: Sponge, count: usize, buffer: &mut [u8]) -> Sponge
    requires { (stream.at < 168) × (count ≤ length buffer.old) }
    ensures { (take count buffer.new ≡ drawn count stream) × ((result ≡ after count stream) × (result.at < 168)) }
{
    stream.fill(&mut buffer[..count])
}

// The tests on elements, with the next bytes of a stream.
fn run_blocks(gradient: &[u64], per: usize, stream: Sponge, buffer: &mut [u8], results: &mut [u64])
    requires at_bound { (stream.at < 168) × (((0 < per) × (per ≤ length buffer.old)) × (length buffer.old ≤ 16384)) }
    requires below { Below p64 gradient.now × ((length gradient.now ≤ 4 * per) × (length results.old ≤ 256)) }
    ensures { results.new ≡ tests_of p64 per (length results.old) (drawn (length results.old * per) stream) gradient.now }
{
    let most = buffer.len() / per;
    let mut state = stream;
    let mut t = 0;
    // A step takes as many tests as the buffer holds.
    while t < results.len() {
        let end = groups::at_most(t + most, results.len());
        state = draw(state, (end - t) * per, buffer);
        columns::run_block(gradient, per, buffer, &mut results[t..end]);
        t = end;
    }
}

// The tests on elements, with the bytes of a seed.
pub fn run_from_seed(gradient: &[u64], per: usize, seed: &[u8], results: &mut [u64])
    requires seed_len { (length seed.now ≡ 16) × ((0 < length results.old) × (length results.old ≤ 256)) }
    requires below { Below p64 gradient.now × (((0 < per) × (per ≤ 16384)) × (length gradient.now ≤ 4 * per)) }
    ensures { results.new ≡ tests_of p64 per (length results.old) (wr_stream (length results.old * per) seed.now) gradient.now }
{
    let stream = stream_of(seed);
    if results.len() * per <= 1024 {
        let mut buffer = [0u8; 1024];
        run_blocks(gradient, per, stream, &mut buffer, results);
        return;
    }
    let mut buffer = [0u8; 16384];
    run_blocks(gradient, per, stream, &mut buffer, results);
}
