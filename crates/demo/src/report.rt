// A report, from the client's gradient to the two servers' full shares. What its rows held before does not matter.
use crate::key::Key;
use crate::made_up;
use crate::made_up::element;
use crate::refusal::{Refusal, check};
use flp::Circuit;
use pine::PineParam;

// The lengths that these parameters derive; main tests them.
pub const DIMENSION: usize = 3;

pub const ENCODED_LEN: usize = 31;

pub const TESTS: usize = 2;

pub const INPUT_LEN: usize = 33;

// The bytes of a seed, and of the two that are given.
const SEED_LEN: usize = 16;

const GIVEN_LEN: usize = 32;

pub type Gradient = [f64; DIMENSION];

// The two servers.
#[derive(Clone, Copy)]
pub enum Side {
    Leader,
    Helper,
}

// The rows of a report: a full share for the leader and one for the helper, of N elements, and the two seeds that both
// are given.
#[derive(Clone, Copy)]
pub struct Report<const N: usize> {
    pub key: Key,
    pub leader: [u64; N],
    pub helper: [u64; N],
    pub given: [u8; GIVEN_LEN],
}

// Three coordinates with 2 fractional bits. norm_bound is that of a gradient times 2^2. Of the two wraparound
// tests both must succeed. The multiplier of their bound is the standard one, 8.7. A real report has more of
// everything: these are small, so that the day can be run step by step.
pub fn param() -> PineParam {
    PineParam::standard(7, 3, 2, 4, 2, 2, 2)
}

impl<const N: usize> Report<N> {
    // Rows that hold the same throughout.
    pub fn filled(key: Key, element: u64, byte: u8) -> Report<N> {
        Report {
            key,
            leader: [element; N],
            helper: [element; N],
            given: [byte; GIVEN_LEN],
        }
    }

    pub fn share(&self, side: Side) -> &[u64] {
        match side {
            Side::Leader => &self.leader,
            Side::Helper => &self.helper,
        }
    }

    // 1. The client makes its report with one call: the gradient is encoded, as field numbers and the bits that show
    // its norm and its tests to be in range, and that measurement is cut in two, a share for the leader and one for
    // the helper. Both servers are given two seeds more. What a server adds to its share later is not touched.
    pub fn cut(&mut self, param: PineParam) -> Result<(), Refusal> {
        let gradient = made_up::gradient(self.key);
        let nonce = made_up::nonce(self.key);
        let seeds = made_up::seeds(self.key);
        if N < TESTS {
            return Err(Refusal::SHORT);
        }
        let encoded_len = N - TESTS;
        check(cut::cut(
            param,
            &gradient,
            &nonce,
            &seeds,
            &mut self.leader[..encoded_len],
            &mut self.helper[..encoded_len],
            &mut self.given,
        ))
    }

    // All three steps: the first that is refused is the last. Whether the report was made, and is valid.
    pub fn is_made(&mut self, param: PineParam) -> bool {
        self.cut(param).is_ok()
            && test(param, &self.given, &mut self.leader).is_ok()
            && test(param, &self.given, &mut self.helper).is_ok()
            && self.is_valid(param)
    }

    fn is_valid(&self, param: PineParam) -> bool {
        let mut full = [0; N];
        for (x, (&leader, &helper)) in full.iter_mut().zip(self.leader.iter().zip(&self.helper)) {
            *x = field64::add(element(leader), element(helper));
        }
        circuits_are_zero(param, self.key, &full) && has_parts(param, &full)
    }
}

// 2. A server runs the wraparound tests alone on the first d elements of its share, with the first seed given,
// and puts the results behind it: that is its full share.
pub fn test(param: PineParam, given: &[u8; GIVEN_LEN], share: &mut [u64]) -> Result<(), Refusal> {
    let Some((encoded, results)) = share.split_last_chunk_mut::<TESTS>() else {
        return Err(Refusal::SHORT);
    };
    let Some(gradient) = encoded.first_chunk::<DIMENSION>() else {
        return Err(Refusal::SHORT);
    };
    check(wr_tests::run_wr_tests_seed(param, gradient, &given[..SEED_LEN], results))
}

fn is_zero(circuit: Circuit) -> bool {
    circuit.answer.number == 0 && circuit.value == 0
}

// 3. Both circuits are 0 on the sum of the two full shares. (Servers that must not see that sum show
// the same by the FLP's proof.)
fn circuits_are_zero(param: PineParam, key: Key, full: &[u64]) -> bool {
    let joint_rand = made_up::joint_rand(key);
    is_zero(validity::valid(param, 1, full, &joint_rand))
        && is_zero(validity::valid_sq_norm_equal(param, 1, full))
}

// Whether a result is from -bound + 1 to bound, the upper half of the elements being the negative numbers.
fn is_in_range(result_of_test: u64, bound: u64) -> bool {
    let above = field64::add(element(result_of_test), element(bound));
    0 < above && (above - 1) / 2 < bound
}

// What the parts of the sum hold: the checked elements are bits, and as many results as must be are in range.
// A call that hands back a part puts number and place in two lent numbers.
fn has_parts(param: PineParam, full: &[u64]) -> bool {
    let mut number = 0;
    let mut place = 0;
    let checked = parts::checked_part(param, full, &mut number, &mut place);
    let results = parts::results_part(param, full, &mut number, &mut place);
    let pine = params::derive(param).pine;
    let bound = pine.wr_test_bound();
    let in_range = results.iter().filter(|&&x| is_in_range(x, bound)).count();
    number == 0 && checked.iter().all(|&x| x <= 1) && pine.num_wr_successes <= in_range as u64
}
