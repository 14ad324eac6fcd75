// Internal: the derived record, which answers for its own lengths. A function here asks its caller
// for accepted inputs, or for a record that was derived from such; params::derive tests them. It serves
// every field whose norm bounds have 32 bits: the record and the lengths, in elements, are the same.
ghost use Rattle.std.specs.Prelude.{◌≡◌, ◌+◌, ◌*◌, ◌^◌, ◌<◌, ◌≤◌};
ghost use Rattle.pine.specs.Record.{digits, ceil_div, power_above, test_exponent_of, bound_in, proof_len_of, verifier_len_of, prove_rand_len_of, stream_len_of, pine_of, Derivable, FromDerivable, no_pine, no_lengths, lengths_main, lengths_norm};

use crate::PineParam;

// The derived record: the inputs that later calls read, and what follows from them.
#[repr(C)]
#[derive(Clone, Copy)]
pub struct Pine {
    pub dimension: u64,
    pub frac_bits: u64,
    // 2^frac_bits
    pub scale: f64,
    pub chunk_len: u64,
    pub chunk_len_sq_norm_equal: u64,
    pub num_wr_tests: u64,
    pub num_wr_successes: u64,
    pub sq_norm_bound: u64,
    pub sq_norm_bits: u64,
    // The wraparound tests' bound is 2 to this power: wr_test_bound().
    pub wr_test_exponent: u8,
    pub wr_test_bits: u64,
    pub bit_checked_len: u64,
    pub encoded_input_len: u64,
    pub input_len: u64,
    pub gadget_calls: u64,
    pub gadget_calls_sq_norm_equal: u64,
}

// The lengths of one circuit's vectors, in elements.
#[repr(C)]
#[derive(Clone, Copy)]
pub struct Lengths {
    pub input_len: u64,
    pub proof_len: u64,
    pub verifier_len: u64,
    pub joint_rand_len: u64,
    pub prove_rand_len: u64,
    pub query_rand_len: u64,
}

// The number of n's binary digits.
fn bits(n: u64) -> u64
    ensures { result ≡ digits n }
{
    64 - u64::leading_zeros(n) as u64
}

// ceil(length / chunk_len).
fn chunk_count(chunk_len: u64, length: u64) -> u64
    requires { (0 < chunk_len) × ((chunk_len ≤ 65536) × (length ≤ 4294967296)) }
    ensures { result ≡ ceil_div length chunk_len }
{
    (length + (chunk_len - 1)) / chunk_len
}

// The smallest power of two not below n + 1.
fn power_above(n: u64) -> u64
    requires { n < 4611686018427387904 }
    ensures { result ≡ power_above n }
{
    1 << bits(n)
}

// The exponent of the smallest power of two not below ceil(numerator · norm_bound / denominator) + 1.
fn wr_test_exponent(numerator: u16, denominator: u16, norm_bound: u64) -> u8
    requires { (0 < denominator) × (norm_bound ≤ 4294967295) }
    ensures { result ≡ test_exponent_of numerator denominator norm_bound }
{
    let num = numerator as u64;
    let den = denominator as u64;
    bits((num * norm_bound + (den - 1)) / den) as u8
}

// The proof length of a circuit whose one gadget has so many inputs and is called so often.
fn proof_len(arity: u64, calls: u64) -> u64
    requires { (arity ≤ 131072) × (calls < 4294967296) }
    ensures { result ≡ proof_len_of arity calls }
{
    arity + 2 * (power_above(calls) - 1) + 1
}

impl Pine {
    pub fn new(param: PineParam) -> Pine
        requires { Derivable param }
        ensures { result ≡ pine_of param }
    {
        let sq_norm_bound = param.norm_bound * param.norm_bound;
        let sq_norm_bits = bits(sq_norm_bound);
        let exponent = wr_test_exponent(
            param.alpha_numerator,
            param.alpha_denominator,
            param.norm_bound,
        );
        let wr_test_bits = exponent as u64 + 1;
        let bit_checked_len = 2 * sq_norm_bits + (1 + wr_test_bits) * param.num_wr_tests;
        let encoded_input_len = param.dimension + bit_checked_len;
        Pine {
            dimension: param.dimension,
            frac_bits: param.frac_bits,
            scale: doubles::scale_of(param.frac_bits),
            chunk_len: param.chunk_len,
            chunk_len_sq_norm_equal: param.chunk_len_sq_norm_equal,
            num_wr_tests: param.num_wr_tests,
            num_wr_successes: param.num_wr_successes,
            sq_norm_bound,
            sq_norm_bits,
            wr_test_exponent: exponent,
            wr_test_bits,
            bit_checked_len,
            encoded_input_len,
            input_len: encoded_input_len + param.num_wr_tests,
            gadget_calls: chunk_count(param.chunk_len, bit_checked_len)
                + chunk_count(param.chunk_len, param.num_wr_tests),
            gadget_calls_sq_norm_equal: chunk_count(param.chunk_len_sq_norm_equal, param.dimension),
        }
    }

    // What stands beside a refusal.
    pub fn none() -> Pine
        ensures { result ≡ no_pine }
    {
        Pine {
            dimension: 0,
            frac_bits: 0,
            scale: 0.0,
            chunk_len: 0,
            chunk_len_sq_norm_equal: 0,
            num_wr_tests: 0,
            num_wr_successes: 0,
            sq_norm_bound: 0,
            sq_norm_bits: 0,
            wr_test_exponent: 0,
            wr_test_bits: 0,
            bit_checked_len: 0,
            encoded_input_len: 0,
            input_len: 0,
            gadget_calls: 0,
            gadget_calls_sq_norm_equal: 0,
        }
    }

    // b, the bound of the wraparound tests; 0 where the record holds none, as beside a refusal. It asks for nothing.
    pub fn wr_test_bound(self) -> u64
        ensures { result ≡ bound_in self }
    {
        let exponent = self.wr_test_exponent as u64;
        if rules::outside(exponent, 63) {
            return 0;
        }
        1 << exponent
    }

    // The bytes of the stream: for each test a pair of bits for each coordinate, in whole bytes.
    pub fn stream_len(self) -> u64
        requires { FromDerivable self }
        ensures { result ≡ stream_len_of self.num_wr_tests self.dimension }
    {
        self.num_wr_tests * chunk_count(4, self.dimension)
    }

    // The lengths of PineType, whose gadget multiplies a chunk of pairs.

    pub fn input_len(self) -> u64
        ensures { result ≡ self.input_len }
    {
        self.input_len
    }

    pub fn proof_len(self) -> u64
        requires { FromDerivable self }
        ensures { result ≡ proof_len_of (2 * self.chunk_len) self.gadget_calls }
    {
        proof_len(2 * self.chunk_len, self.gadget_calls)
    }

    pub fn verifier_len(self) -> u64
        requires { FromDerivable self }
        ensures { result ≡ verifier_len_of (2 * self.chunk_len) }
    {
        2 * self.chunk_len + 2
    }

    pub fn joint_rand_len(self) -> u64
        ensures { result ≡ 3 }
    {
        3
    }

    pub fn prove_rand_len(self) -> u64
        requires { FromDerivable self }
        ensures { result ≡ prove_rand_len_of (2 * self.chunk_len) }
    {
        2 * self.chunk_len
    }

    pub fn query_rand_len(self) -> u64
        ensures { result ≡ 1 }
    {
        1
    }

    // The lengths of PineTypeSquaredNormEqual, whose gadget squares a chunk.

    pub fn input_len_sq_norm_equal(self) -> u64
        ensures { result ≡ self.input_len }
    {
        self.input_len
    }

    pub fn proof_len_sq_norm_equal(self) -> u64
        requires { FromDerivable self }
        ensures { result ≡ proof_len_of self.chunk_len_sq_norm_equal self.gadget_calls_sq_norm_equal }
    {
        proof_len(
            self.chunk_len_sq_norm_equal,
            self.gadget_calls_sq_norm_equal,
        )
    }

    pub fn verifier_len_sq_norm_equal(self) -> u64
        requires { FromDerivable self }
        ensures { result ≡ verifier_len_of self.chunk_len_sq_norm_equal }
    {
        self.chunk_len_sq_norm_equal + 2
    }

    pub fn joint_rand_len_sq_norm_equal(self) -> u64
        ensures { result ≡ 0 }
    {
        0
    }

    pub fn prove_rand_len_sq_norm_equal(self) -> u64
        ensures { result ≡ prove_rand_len_of self.chunk_len_sq_norm_equal }
    {
        self.chunk_len_sq_norm_equal
    }

    pub fn query_rand_len_sq_norm_equal(self) -> u64
        ensures { result ≡ 1 }
    {
        1
    }

    // All of the first, and all of the second.

    pub fn lengths(self) -> Lengths
        requires { FromDerivable self }
        ensures { result ≡ lengths_main self }
    {
        Lengths {
            input_len: self.input_len(),
            proof_len: self.proof_len(),
            verifier_len: self.verifier_len(),
            joint_rand_len: self.joint_rand_len(),
            prove_rand_len: self.prove_rand_len(),
            query_rand_len: self.query_rand_len(),
        }
    }

    pub fn lengths_sq_norm_equal(self) -> Lengths
        requires { FromDerivable self }
        ensures { result ≡ lengths_norm self }
    {
        Lengths {
            input_len: self.input_len_sq_norm_equal(),
            proof_len: self.proof_len_sq_norm_equal(),
            verifier_len: self.verifier_len_sq_norm_equal(),
            joint_rand_len: self.joint_rand_len_sq_norm_equal(),
            prove_rand_len: self.prove_rand_len_sq_norm_equal(),
            query_rand_len: self.query_rand_len_sq_norm_equal(),
        }
    }
}

impl Lengths {
    // What stands beside a refusal.
    pub fn none() -> Lengths
        ensures { result ≡ no_lengths }
    {
        Lengths {
            input_len: 0,
            proof_len: 0,
            verifier_len: 0,
            joint_rand_len: 0,
            prove_rand_len: 0,
            query_rand_len: 0,
        }
    }
}
