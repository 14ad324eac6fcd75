// Internal: the parts of a full vector, cut by the derived record. A function here asks its caller that
// the part is inside the row, as it is where the rules of a part or of a circuit are met.
ghost use Rattle.std.specs.Prelude.{◌≡◌, ◌+◌, ◌≤◌, length, take, drop};
ghost use Rattle.parts.specs.Places.{gradient_in, checked_in, results_in};

use pine::record::Pine;

// len elements of a row, from start on.
pub fn between<'a>(row: &'a [u64], start: u64, len: u64) -> &'a [u64]
    requires { start + len ≤ length row.now }
    ensures { result.now ≡ take len (drop start row.now) }
{
    let from = start as usize;
    let end = from + len as usize;
    &row[from..end]
}

pub fn gradient<'a>(pine: Pine, full: &'a [u64]) -> &'a [u64]
    requires { pine.dimension ≤ length full.now }
    ensures { result.now ≡ gradient_in pine full.now }
{
    between(full, 0, pine.dimension)
}

// The L checked elements.
pub fn checked<'a>(pine: Pine, full: &'a [u64]) -> &'a [u64]
    requires { pine.dimension + pine.bit_checked_len ≤ length full.now }
    ensures { result.now ≡ checked_in pine full.now }
{
    between(full, pine.dimension, pine.bit_checked_len)
}

// The results of the tests.
pub fn results<'a>(pine: Pine, full: &'a [u64]) -> &'a [u64]
    requires { pine.encoded_input_len + pine.num_wr_tests ≤ length full.now }
    ensures { result.now ≡ results_in pine full.now }
{
    between(full, pine.encoded_input_len, pine.num_wr_tests)
}
