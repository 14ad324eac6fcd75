// Internal: rules 8 and 17 on a gradient over Field128, as crates/gradient_rules has them over Field64. A function here
// asks its caller for what it does not test itself.
#![tactic(auto)]

ghost use Rattle.std.specs.Prelude.{◌≡◌};
ghost use Rattle.rules.specs.Rules.{accepted};
ghost use Rattle.doubles.specs.Doubles.{power};
ghost use Rattle.flp.specs.Encode.{coordinates_rule};
ghost use Rattle.doubles128.specs.Doubles128.{floor_limit128};

use rules::Answer;

// The first coordinate that either refuses.
fn search(gradient: &[f64], scale: f64, frac_bits: u64) -> Answer
    requires { scale ≡ power frac_bits }
    ensures { result ≡ coordinates_rule floor_limit128 frac_bits 0 gradient.now }
{
    for (i, &x) in gradient.iter().enumerate() {
        let answer = doubles128::check_coordinate(x, scale, frac_bits);
        if answer.number != 0 {
            return Answer {
                number: answer.number,
                place: i as u64,
            };
        }
    }
    Answer::accepted()
}

// How many coordinates the two refuse, with no branch on one.
fn count_refused(gradient: &[f64], scale: f64, frac_bits: u64) -> u64
    requires { scale ≡ power frac_bits }
    ensures { result ≡ 0 → accepted ≡ coordinates_rule floor_limit128 frac_bits 0 gradient.now }
{
    let mut count = 0;
    for &x in gradient {
        count += doubles128::refused(x, scale, frac_bits);
    }
    count
}

// Rules 8 and 17: only a gradient with a coordinate that is refused is searched.
pub fn check_coordinates(gradient: &[f64], scale: f64, frac_bits: u64) -> Answer
    requires { scale ≡ power frac_bits }
    ensures { result ≡ coordinates_rule floor_limit128 frac_bits 0 gradient.now }
{
    if count_refused(gradient, scale, frac_bits) == 0 {
        return Answer::accepted();
    }
    search(gradient, scale, frac_bits)
}
