// Internal: states of a stream, kept in one row of words, from each of which one test of a block draws its bytes. A function
// here asks its caller for what it does not test itself.
#![tactic(auto)]

ghost use Rattle.std.specs.Prelude.{◌≡◌, ◌*◌, ◌≤◌, ◌<◌, length, take};
ghost use Rattle.turboshake.specs.Stream.{drawn, after};
ghost use Rattle.stream_states.specs.States.{state_of, states_of, starts_of, tile_of, all_after, Ready};

use turboshake::Sponge;

// The words of a state: its lanes, and its place in the block. They are copied one by one, which LLVM makes a run of moves:
// the library's copy would be a call.
pub const WORDS: usize = 26;

// The state that 26 words hold.
pub fn load(words: &[u64]) -> Sponge
    requires { length words.now ≡ 26 }
    ensures { result ≡ state_of words.now }
{
    let mut lanes = [0u64; 25];
    for i in 0..25 {
        lanes[i] = words[i];
    }
    Sponge {
        lanes,
        at: words[25] as usize,
    }
}

// Writes a state to 26 words.
fn save(state: Sponge, words: &mut [u64])
    requires { length words.old ≡ 26 }
    ensures { state_of words.new ≡ state }
{
    for i in 0..25 {
        words[i] = state.lanes[i];
    }
    words[25] = state.at as u64;
}

// Saves the states from which the tests of a block draw. The bytes of the last test are not run through: its state
// comes to their end when they are drawn.
pub fn find_starts(stream: Sponge, per: usize, count: usize, states: &mut [u64])
    requires at_bound { (stream.at < 168) × (per ≤ 16384) }
    requires count_nonzero { ((0 < count) × (count ≤ 50)) × (count * 26 ≤ length states.old) }
    ensures { states_of count states.new ≡ starts_of per count stream }
{
    let last = count - 1;
    let mut next = stream;
    for t in 0..last {
        let from = t * WORDS;
        let to = from + WORDS;
        save(next, &mut states[from..to]);
        next = next.skip(per);
    }
    let from = last * WORDS;
    let to = from + WORDS;
    save(next, &mut states[from..to]);
}

// Fills a row with the next bytes of a state, and saves the state after them in its place.
fn draw_piece(words: &mut [u64], piece: &mut [u8])
    requires { (length words.old ≡ 26) × ((state_of words.old).at < 168) }
    ensures piece_after { piece.new ≡ drawn (length piece.old) (state_of words.old) }
    ensures words_after { state_of words.new ≡ after (length piece.old) (state_of words.old) }
{
    let state = load(words);
    let next = state.fill(piece);
    save(next, words);
}

// Draws the next n bytes of each test, side by side.
pub fn draw_tile(count: usize, n: usize, states: &mut [u64], buffer: &mut [u8])
    requires count_bound { (count ≤ 50) × ((n ≤ 128) × (count * n ≤ length buffer.old)) }
    requires count_in_bounds { (count * 26 ≤ length states.old) × Ready (states_of count states.old) }
    ensures buffer_after { take (count * n) buffer.new ≡ tile_of n (states_of count states.old) }
    ensures states_after { states_of count states.new ≡ all_after n (states_of count states.old) }
{
    for t in 0..count {
        let from = t * n;
        let to = from + n;
        let start = t * WORDS;
        let end = start + WORDS;
        draw_piece(&mut states[start..end], &mut buffer[from..to]);
    }
}
