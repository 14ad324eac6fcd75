// A double as an element of Field128, and back: crates/doubles defines both over any field. The two public
// calls are f64_to_field and field_to_f64; the other pub functions are for the crates above, as there.
#![tactic(auto)]

ghost use Rattle.std.specs.Prelude.{◌≡◌, ◌<◌, ◌≤◌, true, false, not, ◌==◌, nat_le, nat_lt, unsigned_abs};
ghost use Rattle.std.specs.Float.Ieee.{lt};
ghost use Rattle.field128.specs.Field128.{p128, number_of};
ghost use Rattle.doubles.specs.Doubles.{mod_p, floor_of, power, plus_zero, coordinate_rule, element, encoded, coordinate_of, size_rule, centred, decoded, decoded_of};
ghost use Rattle.doubles.specs.Steps.{floor_at, within_limit};
ghost use Rattle.doubles128.specs.Doubles128.{floor_limit128, size_limit128, coordinate_in};
ghost use Rattle.doubles128.specs.Steps.{flag, limbs_of, large};

use doubles::Decoded;
use field128::Element;
use rules::Answer;

// 2^64.
const LIMIT: f64 = 18446744073709551616.0;

// p - 2^32 of Field64.
const MINUS_2_32: u64 = 0xffff_fffe_0000_0001;

// The upper word of p - 2^64.
const MINUS_2_64: u64 = 0xffff_ffff_ffff_ffe3;

// The bit patterns of 2^84 and 2^52; 2^84 + 2^64 + 2^52.
const HIGH_DIGITS: u64 = 0x4530_0000_0000_0000;

const LOW_DIGITS: u64 = 0x4330_0000_0000_0000;

const DIGITS_SUM: f64 = 19342831565081740132220928.0;

// An element, which is 0 beside a refusal.
#[repr(C)]
#[derive(Clone, Copy)]
pub struct Coordinate128 {
    pub answer: Answer,
    pub element: Element,
}

// A whole number's 32 lowest bits, and the rest as a number of Field64.
#[derive(Clone, Copy)]
pub struct Limbs {
    pub low: u64,
    pub high: u64,
}

// 1 where x is not 0.
fn nonzero(x: u64) -> u64
    ensures { result ≡ flag (not (x == 0)) }
{
    if x == 0 { 0 } else { 1 }
}

// 1 where w is negative, and not a zero.
fn sign_of(w: f64) -> u64
    ensures { result ≡ flag (lt w plus_zero) }
{
    if w < 0.0 { 1 } else { 0 }
}

// 1 where a is below b.
fn less(a: u64, b: u64) -> u64
    ensures { result ≡ flag (nat_lt a b) }
{
    if a < b { 1 } else { 0 }
}

// Whether w is finite and its floor not beyond 2^64 - 1 either way. From 2^53 on a double is its own
// floor, so that w is compared in its place.
fn within_limit(w: f64) -> bool
    ensures { result ≡ within_limit floor_limit128 w }
{
    if -LIMIT < w { w < LIMIT } else { false }
}

// The limbs of the floor of w, which is the word that far_floor gives, less 2^64 where w is negative.
pub fn floor_limbs(w: f64) -> Limbs
    requires { within_limit floor_limit128 w ≡ true }
    ensures { result ≡ limbs_of (floor_at w) }
{
    let word = doubles::far_floor(w);
    let sign = sign_of(w);
    let gap = sign * MINUS_2_32;
    let high = (word >> 32) + gap;
    Limbs {
        low: word % 0x1_0000_0000,
        high,
    }
}

// The size of the floor of w.
pub fn size_of(w: f64) -> u64
    requires { within_limit floor_limit128 w ≡ true }
    ensures { result ≡ unsigned_abs (floor_at w) }
{
    let word = doubles::far_floor(w);
    if w < 0.0 {
        std::num::wrapping_sub_u64(0, word)
    } else {
        word
    }
}

// The floor of w modulo p. Where it is negative, that is p - 2^64 and its word: their low words, 1 and the
// word, may carry.
fn floor_to_field(w: f64) -> Element
    requires { within_limit floor_limit128 w ≡ true }
    ensures { number_of result ≡ mod_p p128 (floor_at w) }
{
    let sign = sign_of(w);
    let low = std::num::wrapping_add_u64(doubles::far_floor(w), sign);
    let carry = less(low, sign);
    let high = sign * MINUS_2_64 + carry;
    Element { low, high }
}

// Rules 8 and 17 of x at the scale 2^frac_bits.
pub fn check_coordinate(x: f64, scale: f64, frac_bits: u64) -> Answer
    requires { scale ≡ power frac_bits }
    ensures { result ≡ coordinate_rule floor_limit128 x frac_bits }
{
    if !doubles::usable(x) {
        return Answer {
            number: rules::COORDINATE,
            place: 0,
        };
    }
    if !within_limit(x * scale) {
        return Answer {
            number: rules::FLOOR,
            place: 0,
        };
    }
    Answer::accepted()
}

// 0 for an x at the scale 2^frac_bits that rules 8 and 17 leave, or else 1: in this form a loop over a
// row runs on vectors.
pub fn refused(x: f64, scale: f64, frac_bits: u64) -> u64
    requires { scale ≡ power frac_bits }
    ensures { (result ≤ 1) × (result ≡ 0 → (coordinate_rule floor_limit128 x frac_bits).number ≡ 0) }
{
    let small = doubles::small_flag(x);
    if within_limit(x * scale) { small } else { 1 }
}

// The element of x at the scale 2^frac_bits.
pub fn element_of(x: f64, scale: f64, frac_bits: u64) -> Element
    requires fact_1 { (coordinate_rule floor_limit128 x frac_bits).number ≡ 0 }
    requires fact_2 { scale ≡ power frac_bits }
    ensures { number_of result ≡ element p128 x frac_bits }
{
    floor_to_field(x * scale)
}

// The limbs of its floor.
pub fn limbs_of(x: f64, scale: f64, frac_bits: u64) -> Limbs
    requires fact_1 { (coordinate_rule floor_limit128 x frac_bits).number ≡ 0 }
    requires fact_2 { scale ≡ power frac_bits }
    ensures { result ≡ limbs_of (floor_of x frac_bits) }
{
    floor_limbs(x * scale)
}

// The size of its floor.
pub fn coordinate_size(x: f64, scale: f64, frac_bits: u64) -> u64
    requires fact_1 { (coordinate_rule floor_limit128 x frac_bits).number ≡ 0 }
    requires fact_2 { scale ≡ power frac_bits }
    ensures { result ≡ unsigned_abs (floor_of x frac_bits) }
{
    size_of(x * scale)
}

// x at the scale 2^frac_bits, by rules 8 and 17.
pub fn encode(x: f64, scale: f64, frac_bits: u64) -> Coordinate128
    requires { scale ≡ power frac_bits }
    ensures { coordinate_in result ≡ encoded p128 floor_limit128 x frac_bits }
{
    let answer = check_coordinate(x, scale, frac_bits);
    if answer.number != 0 {
        return Coordinate128 {
            answer,
            element: Element { low: 0, high: 0 },
        };
    }
    Coordinate128 {
        answer,
        element: element_of(x, scale, frac_bits),
    }
}

// Whether y is not below p, whose lower word is 1.
fn reaches_p(y: Element) -> bool
    ensures { result ≡ nat_le p128 (number_of y) }
{
    field128::P_HIGH + 1 - nonzero(y.low) <= y.high
}

// 1 where rule 23 refuses y, since neither y nor p - y is a single word; or else 0. p - y is one from
// (2^64 - 29) * 2^64 + 2 on. The upper word is compared once: of two tests LLVM makes two branches.
pub fn size_flag(y: Element) -> u64
    requires { number_of y < p128 }
    ensures { result ≡ flag (large (number_of y)) }
{
    let step = less(1, y.low);
    let middle = std::num::wrapping_sub_u64(y.high, 1);
    less(middle, field128::P_HIGH - 1 - step)
}

// Rule 23, of one element.
pub fn check_size(y: Element) -> Answer
    requires { number_of y < p128 }
    ensures { result ≡ size_rule p128 size_limit128 (number_of y) }
{
    Answer::refuse_if(0 < size_flag(y), rules::SIZE, 0)
}

// The double nearest to y read as a centred number, which is y or a negative number by y's upper word, and
// modulo 2^64 is y's lower word, or that less 1. The halves of it and 2^64 are written as the digits of two
// doubles. What is taken off is exact, and only the last sum rounds.
fn centred_of(y: Element) -> f64
    requires fact_1 { number_of y < p128 }
    requires fact_2 { large (number_of y) ≡ false }
    ensures { result ≡ centred p128 (number_of y) }
{
    let sign = nonzero(y.high);
    let word = std::num::wrapping_sub_u64(y.low, sign);
    let upper = (1 - sign) * 0x1_0000_0000 + (word >> 32);
    let high = f64::from_bits(HIGH_DIGITS + upper);
    let low = f64::from_bits(LOW_DIGITS + word % 0x1_0000_0000);
    high - DIGITS_SUM + low
}

// The double of y at the scale 2^frac_bits.
pub fn decode(y: Element, scale: f64, frac_bits: u64) -> f64
    requires fact_1 { number_of y < p128 }
    requires fact_2 { large (number_of y) ≡ false }
    requires fact_3 { scale ≡ power frac_bits }
    ensures { result ≡ decoded p128 (number_of y) frac_bits }
{
    centred_of(y) / scale
}

// The double x as a field number.
pub fn f64_to_field(x: f64, frac_bits: u64) -> Coordinate128
    ensures { coordinate_in result ≡ coordinate_of p128 floor_limit128 x frac_bits }
{
    if doubles::MAX_FRAC_BITS < frac_bits {
        return Coordinate128 {
            answer: Answer {
                number: rules::FRAC_BITS,
                place: 0,
            },
            element: Element { low: 0, high: 0 },
        };
    }
    encode(x, doubles::scale_of(frac_bits), frac_bits)
}

// The field number y as a double.
pub fn field_to_f64(y: Element, frac_bits: u64) -> Decoded
    ensures { result ≡ decoded_of p128 size_limit128 (number_of y) frac_bits }
{
    if doubles::MAX_FRAC_BITS < frac_bits {
        return Decoded {
            answer: Answer {
                number: rules::FRAC_BITS,
                place: 0,
            },
            value: 0.0,
        };
    }
    if reaches_p(y) {
        return Decoded {
            answer: Answer {
                number: rules::ELEMENT,
                place: 0,
            },
            value: 0.0,
        };
    }
    let answer = check_size(y);
    if answer.number != 0 {
        return Decoded { answer, value: 0.0 };
    }
    Decoded {
        answer,
        value: decode(y, doubles::scale_of(frac_bits), frac_bits),
    }
}
