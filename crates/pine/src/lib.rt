// The parameters of PINE: the inputs and the record derived from them (pine/mod.rs of the Rust).
// The rules on the inputs, and the public calls, are in params.
#![tactic(auto)]

ghost use Rattle.std.specs.Prelude.{◌≡◌};
ghost use Rattle.pine.specs.Param.{standard};

use record::{Lengths, Pine};
use rules::Answer;

pub mod record;

// Which of the wraparound tests must be in range for a gradient to be encoded.
#[derive(Clone, Copy)]
pub enum WrTestRule {
    // All of them, as in the Rust.
    Every,
    // At least num_wr_successes. A test that is out of range is written as zeros, and does not count.
    Enough,
}

// The inputs: the seven of the Rust, as it names them; its ALPHA as a fraction; the rule of the tests; and the switch
// for the true squared norm.
#[derive(Clone, Copy)]
pub struct PineParam {
    pub norm_bound: u64,
    pub dimension: u64,
    pub frac_bits: u64,
    pub chunk_len: u64,
    pub chunk_len_sq_norm_equal: u64,
    pub num_wr_tests: u64,
    pub num_wr_successes: u64,
    // The wraparound tests' bound is the smallest power of two not below ceil(alpha · norm_bound) + 1.
    pub alpha_numerator: u16,
    pub alpha_denominator: u16,
    pub wr_test_rule: WrTestRule,
    // Whether the squared norm without reduction, too, must be within norm_bound squared.
    pub true_sq_norm: bool,
}

impl PineParam {
    // The inputs with which all is as in the Rust: its ALPHA, 8.7; every test in range; no bound of the true norm.
    pub fn standard(
        norm_bound: u64,
        dimension: u64,
        frac_bits: u64,
        chunk_len: u64,
        chunk_len_sq_norm_equal: u64,
        num_wr_tests: u64,
        num_wr_successes: u64,
    ) -> PineParam
        ensures { result ≡ standard norm_bound dimension frac_bits chunk_len chunk_len_sq_norm_equal num_wr_tests num_wr_successes }
    {
        PineParam {
            norm_bound,
            dimension,
            frac_bits,
            chunk_len,
            chunk_len_sq_norm_equal,
            num_wr_tests,
            num_wr_successes,
            alpha_numerator: 87,
            alpha_denominator: 10,
            wr_test_rule: WrTestRule::Every,
            true_sq_norm: false,
        }
    }
}

// The record and every length; all 0 beside a refusal.
#[repr(C)]
#[derive(Clone, Copy)]
pub struct Derived {
    pub answer: Answer,
    pub pine: Pine,
    pub stream_len: u64,
    pub flp: Lengths,
    pub flp_sq_norm_equal: Lengths,
}
