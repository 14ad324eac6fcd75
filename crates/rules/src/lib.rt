// What every call answers: the number and the place of the first rule broken, or 0 and 0. Here stand
// the rules' numbers, by name, and the order by which the first refusal decides. The table of the rules
// is in docs/PINE.md, "The rules"; what each says is defined where it applies: in the specs/ of pine (1
// to 6, and 19), doubles (4, and 8, 12 and 23 of one number), rows (7 and 12), flp (8 to 11, 13, 17, 20
// and 21), layout (14), file_add (15 and 16), sampler (18), load_report (22) and vdaf (23).
#![tactic(auto)]

ghost use Rattle.std.specs.Prelude.{◌≡◌, cond, eqb};
ghost use Rattle.rules.specs.Rules.{answer, accepted, refuse, first, out_of};

// num_wr_successes above num_wr_tests.
pub const NUM_WR_SUCCESSES: u64 = 1;

pub const NORM_BOUND: u64 = 2;

pub const DIMENSION: u64 = 3;

pub const FRAC_BITS: u64 = 4;
// Of either chunk length.
pub const CHUNK_LEN: u64 = 5;

pub const NUM_WR_TESTS: u64 = 6;
// A row's length is other than derived.
pub const ROW_LEN: u64 = 7;
// A coordinate is NaN, infinite or subnormal.
pub const COORDINATE: u64 = 8;

pub const GRADIENT_LEN: u64 = 9;
// The squared norm, as a field number, is above its bound.
pub const SQ_NORM: u64 = 10;
// A wraparound test's result is out of range.
pub const WR_TEST: u64 = 11;
// An element is not below the field's modulus.
pub const ELEMENT: u64 = 12;

pub const NUM_SHARES: u64 = 13;
// Bytes that are no file of this dimension, or a count and rows that make none.
pub const FILE_LAYOUT: u64 = 14;
// A new key for a file that holds as many as it may.
pub const FILE_FULL: u64 = 15;
// A count of reports that is already the largest.
pub const REPORT_COUNT: u64 = 16;
// The floor of a coordinate lies beyond the field's limit.
pub const FLOOR: u64 = 17;
// Too few of the values drawn for a share are below the field's modulus.
pub const DRAWS: u64 = 18;
// A number of the multiplier alpha is 0.
pub const ALPHA: u64 = 19;
// Fewer wraparound tests are in range than are to succeed.
pub const WR_TESTS_IN_RANGE: u64 = 20;
// The squared norm without reduction is above its bound.
pub const TRUE_SQ_NORM: u64 = 21;
// The seed of a load is 0.
pub const LOAD_SEED: u64 = 22;
// An element is too large to be decoded.
pub const SIZE: u64 = 23;

// The rule that was broken and its place, or 0 and 0.
#[repr(C)]
#[derive(Clone, Copy)]
pub struct Answer {
    pub number: u64,
    pub place: u64,
}

impl Answer {
    pub fn accepted() -> Answer
        ensures { result ≡ accepted }
    {
        Answer {
            number: 0,
            place: 0,
        }
    }

    // The refusal of a rule where it is broken.
    pub fn refuse_if(broken: bool, number: u64, place: u64) -> Answer
        ensures { result ≡ refuse broken number place }
    {
        if broken {
            Answer { number, place }
        } else {
            Answer {
                number: 0,
                place: 0,
            }
        }
    }

    // This answer where it is a refusal, or else the next.
    pub fn or(self, next: Answer) -> Answer
        ensures { result ≡ first self next }
    {
        if self.number == 0 { next } else { self }
    }
}

// Whether x is 0 or above max.
pub fn outside(x: u64, max: u64) -> bool
    ensures { result ≡ out_of x max }
{
    x == 0 || max < x
}
