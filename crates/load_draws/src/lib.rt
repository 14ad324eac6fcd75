// The state of a load, and what is drawn from it: a made-up gradient, and its stream (docs/PINE.md, "A load").
#![tactic(auto)]

ghost use Rattle.std.specs.Prelude.{◌≡◌, map, length};
ghost use Rattle.load_draws.specs.Draws.{step, states, after, coordinate, stream_byte, gradient_of, stream_of};

// The state after x.
fn step(x: u64) -> u64
    ensures { result ≡ step x }
{
    let a = x ^ (x << 13);
    let b = a ^ (a >> 7);
    b ^ (b << 17)
}

// (x mod 65536 - 32768) / 65536.
fn coordinate(x: u64) -> f64
    ensures { result ≡ coordinate x }
{
    let low = x % 65536;
    if low < 32768 {
        -((32768 - low) as f64) / 65536.0
    } else {
        (low - 32768) as f64 / 65536.0
    }
}

// Fills a row with coordinates, and gives the state that the last is drawn from.
fn fill_gradient(seed: u64, row: &mut [f64]) -> u64
    ensures { (row.new ≡ map coordinate (states (length row.old) seed)) × (result ≡ after (length row.old) seed) }
{
    let mut x = seed;
    for place in row.iter_mut() {
        x = step(x);
        *place = coordinate(x);
    }
    x
}

// Fills a row with the stream's bytes.
fn fill_stream(state: u64, row: &mut [u8])
    ensures { row.new ≡ map stream_byte (states (length row.old) state) }
{
    let mut s = state;
    for byte in row.iter_mut() {
        s = step(s);
        *byte = (s % 256) as u8;
    }
}

// The gradient and the stream that a seed makes.
pub fn draw(seed: u64, gradient: &mut [f64], stream: &mut [u8])
    ensures { (gradient.new ≡ gradient_of seed (length gradient.old) (length stream.old)) × (stream.new ≡ stream_of seed (length gradient.old) (length stream.old)) }
{
    let state = fill_gradient(seed, gradient);
    fill_stream(state, stream);
}
