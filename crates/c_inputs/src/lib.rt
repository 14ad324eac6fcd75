// Internal: the inputs as C has them. A row's length and a number cross to C as they are; an enum and a bool do not, for C may
// put any byte there.
#![tactic(auto)]

ghost use Rattle.std.specs.Prelude.{◌≡◌};
ghost use Rattle.c_inputs.specs.Bytes.{rule_of, switch_of, param_of};

use pine::{PineParam, WrTestRule};

// The inputs as C has them. The rule of the tests and the switch are one byte each: 0 for the first rule
// or off, any other for the second or on.
#[repr(C)]
#[derive(Clone, Copy)]
pub struct Inputs {
    pub norm_bound: u64,
    pub dimension: u64,
    pub frac_bits: u64,
    pub chunk_len: u64,
    pub chunk_len_sq_norm_equal: u64,
    pub num_wr_tests: u64,
    pub num_wr_successes: u64,
    pub alpha_numerator: u16,
    pub alpha_denominator: u16,
    pub wr_test_rule: u8,
    pub true_sq_norm: u8,
}

fn rule_of(byte: u8) -> WrTestRule
    ensures { result ≡ rule_of byte }
{
    if byte == 0 {
        WrTestRule::Every
    } else {
        WrTestRule::Enough
    }
}

fn switch_of(byte: u8) -> bool
    ensures { result ≡ switch_of byte }
{
    if byte == 0 { false } else { true }
}

pub fn param_of(inputs: Inputs) -> PineParam
    ensures { result ≡ param_of inputs }
{
    let wr_test_rule = rule_of(inputs.wr_test_rule);
    PineParam {
        norm_bound: inputs.norm_bound,
        dimension: inputs.dimension,
        frac_bits: inputs.frac_bits,
        chunk_len: inputs.chunk_len,
        chunk_len_sq_norm_equal: inputs.chunk_len_sq_norm_equal,
        num_wr_tests: inputs.num_wr_tests,
        num_wr_successes: inputs.num_wr_successes,
        alpha_numerator: inputs.alpha_numerator,
        alpha_denominator: inputs.alpha_denominator,
        wr_test_rule,
        true_sq_norm: switch_of(inputs.true_sq_norm),
    }
}
