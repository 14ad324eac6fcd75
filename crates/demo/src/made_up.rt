// What the program makes up: gradients, nonces, seeds, and joint randomness. A small xorshift generator stands
// in for randomness: a real report needs a cryptographic source.
ghost use Rattle.std.specs.Prelude.{◌<◌};
ghost use Rattle.field64.specs.Field.{p64};

use crate::key::Key;
use crate::report::Gradient;

// What a generator is for. Each key has one for each, so that a report can be made again.
#[derive(Clone, Copy)]
enum Purpose {
    Gradient = 1,
    Nonce = 2,
    Seeds = 3,
    JointRand = 4,
}

#[derive(Drop)]
struct Generator {
    state: u64,
}

impl Generator {
    fn new(key: Key, purpose: Purpose) -> Generator {
        let a = field64::mul(key.index() as u64, 0x9e37_79b9_7f4a_7c15);
        let b = field64::mul(purpose as u64, 0xbf58_476d_1ce4_e5b9);
        let mut generator = Generator {
            state: a.wrapping_add(b),
        };
        generator.next();
        generator.next();
        generator.next();
        generator
    }

    fn next(&mut self) -> u64 {
        let a = self.state ^ (self.state << 13);
        let b = a ^ (a >> 7);
        self.state = b ^ (b << 17);
        self.state
    }

    // From -1 to 1, a multiple of 1/4: exact with 2 fractional bits, and three of them stay within the norm bound
    // of 7/4.
    fn coordinate(&mut self) -> f64 {
        let m = self.next() % 9;
        if m < 4 {
            -(std::num::nearest_u64_to_f64(4 - m) / 4.0)
        } else {
            std::num::nearest_u64_to_f64(m - 4) / 4.0
        }
    }

    fn bytes<const N: usize>(mut self) -> [u8; N] {
        std::array::from_fn(|_| (self.next() % 256) as u8)
    }
}

// A number modulo p.
pub fn element(n: u64) -> u64
    ensures { result < p64 }
{
    if n < field64::P { n } else { n - field64::P }
}

pub fn gradient(key: Key) -> Gradient {
    let mut generator = Generator::new(key, Purpose::Gradient);
    std::array::from_fn(|_| generator.coordinate())
}

// One for each report. Everybody may know it.
pub fn nonce(key: Key) -> [u8; 16] {
    Generator::new(key, Purpose::Nonce).bytes()
}

// The five seeds must be fresh for each report, and secret: whoever has the first, and the leader's share, has
// the gradient.
pub fn seeds(key: Key) -> [u8; 80] {
    Generator::new(key, Purpose::Seeds).bytes()
}

// In PINE the servers draw it from the second seed given, which the client can't foresee when it fixes its report.
pub fn joint_rand(key: Key) -> [u64; 3] {
    let mut generator = Generator::new(key, Purpose::JointRand);
    std::array::from_fn(|_| element(generator.next()))
}
