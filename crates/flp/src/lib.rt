// The definitions and laws of the FLP of PINE (pine/flp.rs of the Rust): encoding a gradient, the
// wraparound tests, the two validity circuits and the parts of the vector that they read. The calls
// are in the crates wr_tests, encode, parts and validity.
#![tactic(auto)]

use rules::Answer;

// What a circuit answers: its value and how many gadget calls it made, both 0 beside a refusal.
#[repr(C)]
#[derive(Clone, Copy)]
pub struct Circuit {
    pub answer: Answer,
    pub value: u64,
    pub gadget_calls: u64,
}
