// The inputs of PINE over Field128: the rules on them, and the record derived from them. Every length of the
// record is in elements, as over Field64; a row of n elements has 2n words.
#![tactic(auto)]

ghost use Rattle.std.specs.Prelude.{◌≡◌};
ghost use Rattle.pine.specs.Param.{param_answer};
ghost use Rattle.pine.specs.Record.{derive_of};
ghost use Rattle.params128.specs.Field128.{Field128};

use pine::{Derived, PineParam};
use rules::Answer;

// Rules 1 to 6, then 19.
pub fn check_param(param: PineParam) -> Answer
    ensures { result ≡ param_answer Field128 param }
{
    params::check_param_within(param, 4294967295, 65536, 256)
}

// The record and every length, from the inputs.
pub fn derive(param: PineParam) -> Derived
    ensures { result ≡ derive_of Field128 param }
{
    params::derive_beside(check_param(param), param)
}
