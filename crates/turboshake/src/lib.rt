// Internal: TurboSHAKE128 of RFC 9861. A message goes in by pieces, and the output comes out by pieces. A function here
// asks its caller for what it does not test itself; `turbo_shake128`, which takes the message whole, asks nothing.
#![tactic(auto)]

ghost use Rattle.std.specs.Prelude.{◌≡◌, ◌++◌, ◌+◌, ◌*◌, ◌^◌, ◌<◌, ◌≤◌, length, get_or, take, drop};
ghost use Rattle.turboshake.specs.TurboShake.{low_bytes, bytes_of, turbo_shake128};
ghost use Rattle.turboshake.specs.Stream.{sponge, moved, xor_byte, absorb_all, start, finished, drawn, after};

// The bytes in a block.
const RATE: usize = 168;

// The lanes, and the place in the block of the next byte.
#[derive(Clone, Copy)]
pub struct Sponge {
    pub lanes: [u64; 25],
    pub at: usize,
}

// Xors b into byte at of the lanes.
fn put(lanes: &mut [u64; 25], at: usize, b: u8)
    requires { at < 168 }
    ensures { lanes.new ≡ xor_byte at lanes.old b }
{
    lanes[at / 8] ^= (b as u64) << (8 * (at % 8));
}

// The place n bytes on. At the block's end the lanes are permuted.
fn advance(lanes: &mut [u64; 25], at: usize, n: usize) -> usize
    requires { at + n ≤ 168 }
    ensures { (sponge lanes.new result ≡ moved n (sponge lanes.old at)) × (result < 168) }
{
    let next = at + n;
    if next == RATE {
        keccak::permute(lanes);
        return 0;
    }
    next
}

// Absorbs the eight bytes of w, low byte first, and gives the next place.
fn put_word(lanes: &mut [u64; 25], at: usize, w: u64) -> usize
    requires { at < 168 }
    ensures { (sponge lanes.new result ≡ absorb_all (low_bytes 8 w) (sponge lanes.old at)) × (result < 168) }
{
    let q = at / 8;
    let skip = at % 8;
    if skip == 0 {
        lanes[q] ^= w;
        return advance(lanes, at, 8);
    }
    lanes[q] ^= w << (8 * skip);
    let next = advance(lanes, at, 8 - skip);
    lanes[next / 8] ^= w >> (64 - 8 * skip);
    next + skip
}

// The number whose bytes are the eight from i on. LLVM makes one load of them.
fn read_lane(bytes: &[u8], i: usize) -> u64
    requires { i + 8 ≤ length bytes.now }
    ensures { (low_bytes 8 result ≡ take 8 (drop i bytes.now)) × (result < 2 ^ 64) }
{
    let lane = [
        bytes[i],
        bytes[i + 1],
        bytes[i + 2],
        bytes[i + 3],
        bytes[i + 4],
        bytes[i + 5],
        bytes[i + 6],
        bytes[i + 7],
    ];
    u64::from_le_bytes(lane)
}

// Xors a whole block of a row, from i on, into the lanes.
fn put_block(lanes: &mut [u64; 25], bytes: &[u8], i: usize)
    requires { i + 168 ≤ length bytes.now }
    ensures { moved 168 (sponge lanes.new 0) ≡ absorb_all (take 168 (drop i bytes.now)) (sponge lanes.old 0) }
{
    for q in 0..21 {
        lanes[q] ^= read_lane(bytes, i + 8 * q);
    }
}

// Xors the next bytes of a row, from i on, into the lanes and gives how many: a whole block or a whole lane where it is
// next and there are so many bytes.
fn put_next(lanes: &mut [u64; 25], at: usize, bytes: &[u8], i: usize) -> usize
    requires { (at < 168) × (i < length bytes.now) }
    ensures { ((0 < result) × (at + result ≤ 168)) × ((i + result ≤ length bytes.now) × (moved result (sponge lanes.new at) ≡ absorb_all (take result (drop i bytes.now)) (sponge lanes.old at))) }
{
    let left = bytes.len() - i;
    if at == 0 && RATE <= left {
        put_block(lanes, bytes, i);
        return RATE;
    }
    if at % 8 == 0 && 8 <= left {
        lanes[at / 8] ^= read_lane(bytes, i);
        return 8;
    }
    put(lanes, at, bytes[i]);
    1
}

// Writes the eight bytes of w from i on.
fn write_lane(w: u64, i: usize, out: &mut [u8])
    requires { i + 8 ≤ length out.old }
    ensures { out.new ≡ take i out.old ++ (low_bytes 8 w ++ drop (i + 8) out.old) }
{
    out[i..i + 8].copy_from_slice(&w.to_le_bytes());
}

// Writes a whole block from i on.
fn write_block(lanes: &[u64; 25], i: usize, out: &mut [u8])
    requires { i + 168 ≤ length out.old }
    ensures { out.new ≡ take i out.old ++ (drawn 168 (sponge lanes.now 0) ++ drop (i + 168) out.old) }
{
    for q in 0..21 {
        write_lane(lanes[q], i + 8 * q, out);
    }
}

// Writes the next bytes of the block from i on and gives how many: the whole block or a whole lane where it is next and
// there is room.
fn write_next(lanes: &[u64; 25], at: usize, i: usize, out: &mut [u8]) -> usize
    requires { (at < 168) × (i < length out.old) }
    ensures { ((0 < result) × (at + result ≤ 168)) × ((i + result ≤ length out.old) × (out.new ≡ take i out.old ++ (drawn result (sponge lanes.now at) ++ drop (i + result) out.old))) }
{
    let room = out.len() - i;
    if at == 0 && RATE <= room {
        write_block(lanes, i, out);
        return RATE;
    }
    let w = lanes[at / 8];
    if at % 8 == 0 && 8 <= room {
        write_lane(w, i, out);
        return 8;
    }
    out[i] = ((w >> (8 * (at % 8))) % 256) as u8;
    1
}

impl Sponge {
    pub fn new() -> Sponge
        ensures { (result ≡ start) × (result.at < 168) }
    {
        Sponge {
            lanes: [0; 25],
            at: 0,
        }
    }

    // The state with more bytes of the message.
    pub fn absorb(self, bytes: &[u8]) -> Sponge
        requires { self.at < 168 }
        ensures { (result ≡ absorb_all bytes.now self) × (result.at < 168) }
    {
        let mut lanes = self.lanes;
        let mut at = self.at;
        let mut i = 0;
        // Steps are of a block, a lane or a byte.
        while i < bytes.len() {
            let n = put_next(&mut lanes, at, bytes, i);
            at = advance(&mut lanes, at, n);
            i += n;
        }
        Sponge { lanes, at }
    }

    // The state with numbers, each as eight bytes, low byte first.
    pub fn absorb_words(self, words: &[u64]) -> Sponge
        requires { self.at < 168 }
        ensures { (result ≡ absorb_all (bytes_of words.now) self) × (result.at < 168) }
    {
        let mut lanes = self.lanes;
        let mut at = self.at;
        for &word in words {
            at = put_word(&mut lanes, at, word);
        }
        Sponge { lanes, at }
    }

    // The message is whole: the output starts.
    pub fn finish(self, d: u8) -> Sponge
        requires { self.at < 168 }
        ensures { (result ≡ finished d self) × (result.at < 168) }
    {
        let mut lanes = self.lanes;
        let at = self.at;
        put(&mut lanes, at, d);
        put(&mut lanes, 167, 0x80);
        keccak::permute(&mut lanes);
        Sponge { lanes, at: 0 }
    }

    // Fills a row with the next bytes of the output.
    pub fn fill(self, out: &mut [u8]) -> Sponge
        requires { self.at < 168 }
        ensures { (out.new ≡ drawn (length out.old) self) × ((result ≡ after (length out.old) self) × (result.at < 168)) }
    {
        let mut lanes = self.lanes;
        let mut at = self.at;
        let mut i = 0;
        // Steps are of a block, a lane or a byte.
        while i < out.len() {
            let n = write_next(&lanes, at, i, out);
            at = advance(&mut lanes, at, n);
            i += n;
        }
        Sponge { lanes, at }
    }

    // The state n bytes of the output on: for bytes that nobody wants yet.
    pub fn skip(self, n: usize) -> Sponge
        requires { (self.at < 168) × (n + 168 < 2 ^ 64) }
        ensures { (result ≡ after n self) × (result.at < 168) }
    {
        let mut lanes = self.lanes;
        let place = self.at + n;
        for _ in 0..place / RATE {
            keccak::permute(&mut lanes);
        }
        Sponge {
            lanes,
            at: place % RATE,
        }
    }
}

// Fills a row with the output for a message and the domain byte d, 0x01 to 0x7f.
pub fn turbo_shake128(message: &[u8], d: u8, out: &mut [u8])
    ensures { out.new ≡ turbo_shake128 message.now d (length out.old) }
{
    Sponge::new().absorb(message).finish(d).fill(out);
}
