// A number is added to an element before it is known to be one, and taken off again where it is none: so adding two rows
// takes one run, in which each number is tested beside its sum.
ghost use Rattle.std.specs.Prelude.{◌≡◌, ◌+◌, ◌*◌, ◌^◌, ◌<◌, if◌then◌else◌, nat_lt};
ghost use Rattle.field128.specs.Field128.{p128, number_of};
ghost use Rattle.field128.specs.Joined.{joined, parted};

use crate::{Element, P_HIGH, Wide, product, words};

// What is made of a number b, and 1 where b is below p, 0 where not.
#[derive(Clone, Copy)]
pub struct Tested {
    pub made: Element,
    pub below: u64,
}

// b - p modulo 2^128: it wraps where b is below p.
fn without_p(b: Element) -> Tested
    ensures p128_value { number_of result.made + p128 ≡ number_of b + result.below * 2 ^ 128 }
    ensures below_value { result.below ≡ (if nat_lt (number_of b) p128 then 1 else 0) }
{
    let l = words::minus(b.low, 1);
    let h = words::minus_with(b.high, P_HIGH, l.high);
    let made = Element {
        low: l.low,
        high: h.low,
    };
    Tested {
        made,
        below: h.high,
    }
}

// a + b modulo p, or modulo 2^128 where b is not below p. Where b is, a + (b - p) wraps just where a + b is not below p:
// LLVM makes of this three chains of carries, and no branch.
pub fn join(a: Element, b: Element) -> Tested
    requires { number_of a < p128 }
    ensures made_value { number_of result.made ≡ joined (number_of a) (number_of b) }
    ensures below_value { result.below ≡ (if nat_lt (number_of b) p128 then 1 else 0) }
{
    let t = without_p(b);
    let rest = t.made;
    let less_low = words::plus(a.low, rest.low);
    let less = words::plus_with(rest.high, a.high, less_low.high);
    let whole_low = words::plus(a.low, b.low);
    let whole = words::plus_with(a.high, b.high, whole_low.high);
    let made = Element {
        low: words::pick(less.high, whole_low.low, less_low.low),
        high: words::pick(less.high, whole.low, less.low),
    };
    Tested {
        made,
        below: t.below,
    }
}

// What b was joined to, of the sum r.
pub fn part(r: Element, b: Element) -> Element
    ensures { number_of result ≡ parted (number_of r) (number_of b) }
{
    let t = without_p(b);
    if t.below == 1 {
        let of_field = product::reduce(Wide {
            w0: r.low,
            w1: r.high,
            w2: 0,
            w3: 0,
        });
        return crate::sub(of_field, b);
    }
    let low = words::minus(r.low, b.low);
    let high = words::minus_with(r.high, b.high, low.high);
    Element {
        low: low.low,
        high: high.low,
    }
}
