// A broken probe, whose readings are far too large: their squared norm is p, which modulo p is 0.
use crate::refusal::{Outcome, check};
use crate::report;
use pine::PineParam;

// Which squared norm is bounded.
#[derive(Clone, Copy)]
pub enum SquaredNorm {
    // That modulo p alone.
    Reduced,
    // The true one, too, which is not taken modulo p.
    True,
}

// Times 2^2 the first two coordinates are 2^32 - 1 and 2^16, and the sum of their squares is p. One stream
// in 16 leaves both out of both tests, as this one does: it was chosen, and is lent in a seed's place to the call
// that encodes alone. A client that could choose would get such a report through.
// 12. The switch asks for the bound of the true squared norm.
pub fn encode(bounded: SquaredNorm) -> Outcome {
    let param = PineParam {
        true_sq_norm: matches!(bounded, SquaredNorm::True),
        ..report::param()
    };
    let gradient = [1073741823.75f64, 16384.0, 0.0];
    let stream = [0x05u8, 0x06];
    let mut measurement = [0u64; report::ENCODED_LEN];
    let mut results = [0u64; report::TESTS];
    let answer = encode::encode_with_wr_joint_rand(
        param,
        &gradient,
        &stream,
        &mut measurement,
        &mut results,
    );
    Outcome {
        result: check(answer),
        accepted: "encoded",
    }
}
