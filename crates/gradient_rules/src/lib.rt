// Internal: the rules on a gradient, 8 with 17, 9, 21, 10, and 11 or 20. A function here asks its caller for what it does
// not test itself.
#![tactic(auto)]

ghost use Rattle.std.specs.Prelude.{◌≡◌, ◌≤◌};
ghost use Rattle.rules.specs.Rules.{accepted, first};
ghost use Rattle.field64.specs.Field.{p64};
ghost use Rattle.sums.specs.Unreduced.{words_of};
ghost use Rattle.doubles.specs.Doubles.{floor_limit64, power};
ghost use Rattle.flp.specs.Encode.{coordinates_rule, gradient_len_rule, true_sq_norm_rule, sq_norm_rule, count_in_range, every_rule, enough_rule, range_rule};

use pine::WrTestRule;
use rules::Answer;
use sums::Sum;

// Rules 8 and 17: the first coordinate that either refuses.
fn search(gradient: &[f64], scale: f64, frac_bits: u64) -> Answer
    requires { scale ≡ power frac_bits }
    ensures { result ≡ coordinates_rule floor_limit64 frac_bits 0 gradient.now }
{
    for (i, &x) in gradient.iter().enumerate() {
        let answer = doubles::check_coordinate(x, scale, frac_bits);
        if answer.number != 0 {
            return Answer {
                number: answer.number,
                place: i as u64,
            };
        }
    }
    Answer::accepted()
}

// How many coordinates rules 8 and 17 refuse, with no branch on one.
fn count_refused(gradient: &[f64], scale: f64, frac_bits: u64) -> u64
    requires { scale ≡ power frac_bits }
    ensures { result ≡ 0 → accepted ≡ coordinates_rule floor_limit64 frac_bits 0 gradient.now }
{
    let mut count = 0;
    for &x in gradient {
        count += doubles::refused(x, scale, frac_bits);
    }
    count
}

// Rules 8 and 17: only a gradient with a coordinate that is refused is searched.
pub fn check_coordinates(gradient: &[f64], scale: f64, frac_bits: u64) -> Answer
    requires { scale ≡ power frac_bits }
    ensures { result ≡ coordinates_rule floor_limit64 frac_bits 0 gradient.now }
{
    if count_refused(gradient, scale, frac_bits) == 0 {
        return Answer::accepted();
    }
    search(gradient, scale, frac_bits)
}

// Rule 9.
pub fn check_gradient_len(len: usize, dimension: u64) -> Answer
    ensures { result ≡ gradient_len_rule len dimension }
{
    if len as u64 == dimension {
        Answer::accepted()
    } else {
        Answer {
            number: rules::GRADIENT_LEN,
            place: 0,
        }
    }
}

// Rule 11: the first result out of range.
fn search_results(results: &[u64], bound: u64) -> Answer
    requires { bound ≤ p64 }
    ensures { result ≡ every_rule p64 bound 0 results.now }
{
    let found = results
        .iter()
        .position(|&r| !measurement::in_range(r, bound));
    match found {
        Some(t) => Answer {
            number: rules::WR_TEST,
            place: t as u64,
        },
        None => Answer::accepted(),
    }
}

// How many results are in range, with no branch on one.
fn count_in_range(results: &[u64], bound: u64) -> u64
    requires { bound ≤ p64 }
    ensures { result ≡ count_in_range p64 bound results.now }
{
    let mut count = 0;
    for &r in results {
        count += measurement::in_range(r, bound) as u64;
    }
    count
}

// Rule 11: only results of which one is out of range are searched.
fn check_every(results: &[u64], bound: u64) -> Answer
    requires { bound ≤ p64 }
    ensures { result ≡ every_rule p64 bound 0 results.now }
{
    if count_in_range(results, bound) == results.len() as u64 {
        return Answer::accepted();
    }
    search_results(results, bound)
}

// Rule 20.
fn check_enough(results: &[u64], bound: u64, successes: u64) -> Answer
    requires { bound ≤ p64 }
    ensures { result ≡ enough_rule p64 bound successes results.now }
{
    let count = count_in_range(results, bound);
    Answer::refuse_if(count < successes, rules::WR_TESTS_IN_RANGE, count)
}

// The one of the two that the inputs name.
fn check_results(rule: WrTestRule, results: &[u64], bound: u64, successes: u64) -> Answer
    requires { bound ≤ p64 }
    ensures { result ≡ range_rule rule p64 bound successes results.now }
{
    match rule {
        WrTestRule::Every => check_every(results, bound),
        WrTestRule::Enough => check_enough(results, bound, successes),
    }
}

// Rule 21, on the squared norm without reduction.
fn check_true_norm(on: bool, norm: Sum, sq_norm_bound: u64) -> Answer
    ensures { result ≡ true_sq_norm_rule on (words_of norm) sq_norm_bound }
{
    if on {
        let above = norm.above(sq_norm_bound);
        return Answer::refuse_if(above, rules::TRUE_SQ_NORM, 0);
    }
    Answer::accepted()
}

// Rules 21 and 10. v is the squared norm modulo p.
pub fn check_norm(true_sq_norm: bool, norm: Sum, v: u64, sq_norm_bound: u64) -> Answer
    ensures { result ≡ first (true_sq_norm_rule true_sq_norm (words_of norm) sq_norm_bound) (sq_norm_rule v sq_norm_bound) }
{
    let unreduced = check_true_norm(true_sq_norm, norm, sq_norm_bound);
    let reduced = Answer::refuse_if(sq_norm_bound < v, rules::SQ_NORM, 0);
    unreduced.or(reduced)
}

// Rules 21, 10, and 11 or 20.
pub fn check_norm_and_tests(
    true_sq_norm: bool,
    norm: Sum,
    v: u64,
    sq_norm_bound: u64,
    rule: WrTestRule,
    results: &[u64],
    bound: u64,
    successes: u64,
) -> Answer
    requires { bound ≤ p64 }
    ensures { result ≡ first (true_sq_norm_rule true_sq_norm (words_of norm) sq_norm_bound) (first (sq_norm_rule v sq_norm_bound) (range_rule rule p64 bound successes results.now)) }
{
    let of_norm = check_norm(true_sq_norm, norm, v, sq_norm_bound);
    let of_tests = check_results(rule, results, bound, successes);
    of_norm.or(of_tests)
}
