// A double as an element of Field64, and back. specs/Doubles.antt says what the two public calls,
// f64_to_field and field_to_f64, answer for any arguments. The other pub functions are for the crates
// above: rule 4, the scale 2^frac_bits, which a row's caller makes once, and what loops over rows call
// with it.
#![tactic(auto)]

ghost use Rattle.std.specs.Prelude.{◌≡◌, ◌-◌, ◌*◌, ◌/◌, ◌^◌, ◌<◌, ◌≤◌, true, false, not};
ghost use Rattle.field64.specs.Field.{p64};
ghost use Rattle.doubles.specs.Doubles.{frac_bits_rule, floor_limit64, size_limit64, power, unusable, coordinate_rule, element, encoded, coordinate_of, centred, decoded, decoded_of};
ghost use Rattle.doubles.specs.Steps.{floor_mod, within_limit, within, near, size_of, normal_size, small};

use rules::Answer;

// The largest frac_bits.
pub const MAX_FRAC_BITS: u64 = 30;

// (p - 1) / 2, and as a double.
const HALF: u64 = 0x7fff_ffff_8000_0000;

const LIMIT: f64 = 9223372034707292160.0;

// 3 * 2^51, and its bit pattern.
const MIDDLE: f64 = 6755399441055744.0;

const MIDDLE_BITS: u64 = 0x4338_0000_0000_0000;

// 3 * 2^83.
const HIGH_MIDDLE: f64 = 29014219670751100192948224.0;

// The bit patterns of 2^84 and 2^52; 2^84 + 2^63 + 2^52.
const HIGH_DIGITS: u64 = 0x4530_0000_0000_0000;

const LOW_DIGITS: u64 = 0x4330_0000_0000_0000;

const DIGITS_SUM: f64 = 19342822341709703277445120.0;

// An element, which is 0 beside a refusal.
#[repr(C)]
#[derive(Clone, Copy)]
pub struct Coordinate {
    pub answer: Answer,
    pub element: u64,
}

// A double, which is +0 beside a refusal.
#[repr(C)]
#[derive(Clone, Copy)]
pub struct Decoded {
    pub answer: Answer,
    pub value: f64,
}

// Rule 4.
pub fn check_frac_bits(frac_bits: u64) -> Answer
    ensures { result ≡ frac_bits_rule frac_bits }
{
    Answer::refuse_if(MAX_FRAC_BITS < frac_bits, rules::FRAC_BITS, 0)
}

// 2^frac_bits.
pub fn scale_of(frac_bits: u64) -> f64
    requires { frac_bits ≤ 30 }
    ensures { result ≡ power frac_bits }
{
    (1u64 << frac_bits) as f64
}

// Whether a, which is not negative, is neither subnormal nor infinite nor a NaN.
fn normal_size(a: f64) -> bool
    ensures { result ≡ normal_size a }
{
    if a < 2.2250738585072014e-308 {
        false
    } else {
        a < 1.0 / 0.0
    }
}

// The size of x; a zero or a NaN stays as it is.
fn size(x: f64) -> f64
    ensures { result ≡ size_of x }
{
    if x < 0.0 { -x } else { x }
}

// Whether x is zero, or normal. In this order no branch on the sign is left in the machine code.
pub fn usable(x: f64) -> bool
    ensures { result ≡ not (unusable x) }
{
    if normal_size(size(x)) {
        return true;
    }
    x == 0.0
}

// 2^64 - p where the highest bit of n is 1, or else 0.
fn gap_of(n: u64) -> u64
    ensures { result ≡ n / 2 ^ 63 * (2 ^ 64 - p64) }
{
    std::num::wrapping_sub_u64(0, n >> 63) >> 32
}

// The floor of w modulo 2^64. From 2^52 to 2^53 the doubles are the whole numbers, and their bit
// patterns count on with them. So w + MIDDLE is the floor of w and MIDDLE, or one more; taking MIDDLE
// off again is exact, and shows which.
fn near_floor(w: f64) -> u64
    requires { near w ≡ true }
    ensures { result ≡ floor_mod (2 ^ 64) w }
{
    let y = w + MIDDLE;
    let bits = f64::to_bits(y);
    let floor = if w < y - MIDDLE { bits - 1 } else { bits };
    std::num::wrapping_sub_u64(floor, MIDDLE_BITS)
}

// The same, of any w below 2^64 in size. From 2^84 to 2^85 the doubles are the multiples of 2^32. So
// w + HIGH_MIDDLE is HIGH_MIDDLE and a multiple of 2^32 close to w, which its lower bits count; what w is
// beside that has no more digits than w, or is below 2^32, and is exact.
pub fn far_floor(w: f64) -> u64
    requires { within_limit (2 ^ 64 - 1) w ≡ true }
    ensures { result ≡ floor_mod (2 ^ 64) w }
{
    let y = w + HIGH_MIDDLE;
    let low = near_floor(w - (y - HIGH_MIDDLE));
    std::num::wrapping_add_u64(f64::to_bits(y) << 32, low)
}

// The same, of w up to (p - 1) / 2 in size.
fn floor_word(w: f64) -> u64
    requires { within w ≡ true }
    ensures { result ≡ floor_mod (2 ^ 64) w }
{
    far_floor(w)
}

// The same modulo p, with no branch on the sign or the exponent, so that a loop over a row runs on
// vectors.
fn floor_to_field(w: f64) -> u64
    requires { within w ≡ true }
    ensures { result ≡ floor_mod p64 w }
{
    let word = floor_word(w);
    std::num::wrapping_sub_u64(word, gap_of(word))
}

// Whether w is finite and its floor not beyond (p - 1) / 2 either way. From 2^53 on a double is its
// own floor, so that w is compared in its place.
fn within_limit(w: f64) -> bool
    ensures { result ≡ within w }
{
    if -LIMIT <= w { w <= LIMIT } else { false }
}

// Rules 8 and 17 of x at the scale 2^frac_bits.
pub fn check_coordinate(x: f64, scale: f64, frac_bits: u64) -> Answer
    requires { scale ≡ power frac_bits }
    ensures { result ≡ coordinate_rule floor_limit64 x frac_bits }
{
    if !usable(x) {
        return Answer {
            number: rules::COORDINATE,
            place: 0,
        };
    }
    if !within_limit(x * scale) {
        return Answer {
            number: rules::FLOOR,
            place: 0,
        };
    }
    Answer::accepted()
}

// 1 where x is subnormal.
pub fn small_flag(x: f64) -> u64
    ensures { (result ≤ 1) × (result ≡ 0 → small x ≡ false) }
{
    let nonzero = if x == 0.0 { 0 } else { 1 };
    if size(x) < 2.2250738585072014e-308 {
        nonzero
    } else {
        0
    }
}

// 0 for an x at the scale 2^frac_bits that rules 8 and 17 leave, or else 1: in this form a loop over a
// row runs on vectors.
pub fn refused(x: f64, scale: f64, frac_bits: u64) -> u64
    requires { scale ≡ power frac_bits }
    ensures { (result ≤ 1) × (result ≡ 0 → (coordinate_rule floor_limit64 x frac_bits).number ≡ 0) }
{
    let small = small_flag(x);
    if within_limit(x * scale) { small } else { 1 }
}

// The element of x at the scale 2^frac_bits.
pub fn element_of(x: f64, scale: f64, frac_bits: u64) -> u64
    requires fact_1 { (coordinate_rule floor_limit64 x frac_bits).number ≡ 0 }
    requires fact_2 { scale ≡ power frac_bits }
    ensures { result ≡ element p64 x frac_bits }
{
    floor_to_field(x * scale)
}

// x at the scale 2^frac_bits, by rules 8 and 17.
pub fn encode(x: f64, scale: f64, frac_bits: u64) -> Coordinate
    requires { scale ≡ power frac_bits }
    ensures { result ≡ encoded p64 floor_limit64 x frac_bits }
{
    let answer = check_coordinate(x, scale, frac_bits);
    if answer.number != 0 {
        return Coordinate { answer, element: 0 };
    }
    Coordinate {
        answer,
        element: element_of(x, scale, frac_bits),
    }
}

// The double nearest to y read as a centred number. HALF - y has its highest bit where that is y - p;
// raised is the number and 2^63, and its halves are written as the digits of two doubles. What is taken
// off is exact, and only the last sum rounds.
fn centred_of(y: u64) -> f64
    requires { y < p64 }
    ensures { result ≡ centred p64 y }
{
    let word = std::num::wrapping_add_u64(y, gap_of(std::num::wrapping_sub_u64(HALF, y)));
    let raised = std::num::wrapping_add_u64(word, 0x8000_0000_0000_0000);
    let high = f64::from_bits(HIGH_DIGITS + (raised >> 32));
    let low = f64::from_bits(LOW_DIGITS + raised % 0x1_0000_0000);
    high - DIGITS_SUM + low
}

// The double of y at the scale 2^frac_bits.
pub fn decode(y: u64, scale: f64, frac_bits: u64) -> f64
    requires fact_1 { y < p64 }
    requires fact_2 { scale ≡ power frac_bits }
    ensures { result ≡ decoded p64 y frac_bits }
{
    centred_of(y) / scale
}

// The double x as a field number.
pub fn f64_to_field(x: f64, frac_bits: u64) -> Coordinate
    ensures { result ≡ coordinate_of p64 floor_limit64 x frac_bits }
{
    if MAX_FRAC_BITS < frac_bits {
        return Coordinate {
            answer: Answer {
                number: rules::FRAC_BITS,
                place: 0,
            },
            element: 0,
        };
    }
    encode(x, scale_of(frac_bits), frac_bits)
}

// The field number y as a double.
pub fn field_to_f64(y: u64, frac_bits: u64) -> Decoded
    ensures { result ≡ decoded_of p64 size_limit64 y frac_bits }
{
    if MAX_FRAC_BITS < frac_bits {
        return Decoded {
            answer: Answer {
                number: rules::FRAC_BITS,
                place: 0,
            },
            value: 0.0,
        };
    }
    if field64::P <= y {
        return Decoded {
            answer: Answer {
                number: rules::ELEMENT,
                place: 0,
            },
            value: 0.0,
        };
    }
    Decoded {
        answer: Answer::accepted(),
        value: decode(y, scale_of(frac_bits), frac_bits),
    }
}
