// Internal: writing a measurement, part by part. A function here asks its caller for what it does not
// test itself.
#![tactic(auto)]

ghost use Rattle.std.specs.Prelude.{◌≡◌, cond, [], ◌∷◌, ◌++◌, ◌+◌, ◌-◌, ◌*◌, ◌≤◌, ◌<◌, length};
ghost use Rattle.field64.specs.Field.{p64, add_mod, sub_mod};
ghost use Rattle.doubles.specs.Doubles.{floor_limit64, power};
ghost use Rattle.pine.specs.Record.{bound_in};
ghost use Rattle.rows.specs.Rows.{Below};
ghost use Rattle.flp.specs.Bits.{bits};
ghost use Rattle.flp.specs.Encode.{elements, in_range, success, test_bits};
ghost use Rattle.measurement.specs.Parts.{Usable, checked_of};

use pine::record::Pine;

// Writes the gradient's elements over a row of as many.
pub fn write_elements(gradient: &[f64], scale: f64, frac_bits: u64, row: &mut [u64])
    requires usable { Usable floor_limit64 frac_bits gradient.now }
    requires scale_value { scale ≡ power frac_bits }
    requires row_len { length row.old ≡ length gradient.now }
    ensures { row.new ≡ elements p64 frac_bits gradient.now }
{
    for k in 0..row.len() {
        row[k] = doubles::element_of(gradient[k], scale, frac_bits);
    }
}

// Writes the low bits of a number over a row, low bit first.
pub fn write_bits(value: u64, row: &mut [u64])
    ensures { row.new ≡ bits (length row.old) value }
{
    let mut rest = value;
    for x in row.iter_mut() {
        *x = rest % 2;
        rest = rest / 2;
    }
}

// Writes one test over a row of w + 1 elements: w bits of a number, then the success bit.
fn write_test(w: usize, value: u64, success: u64, row: &mut [u64])
    requires { length row.old ≡ w + 1 }
    ensures { row.new ≡ bits w value ++ (success ∷ []) }
{
    write_bits(value, &mut row[..w]);
    row[w] = success;
}

// Whether a result lies from -b + 1 to b. Both comparisons are made, whatever the first says: the sign of a result
// decides no branch.
pub fn in_range(r: u64, bound: u64) -> bool
    requires { bound ≤ p64 }
    ensures { result ≡ in_range p64 bound r }
{
    (r <= bound) | (field64::P - bound < r)
}

// The number that is written for a result: result + b - 1, or 0 where it is out of range. By a product, with no branch.
fn number_of(r: u64, bound: u64, hit: bool) -> u64
    requires { (r < p64) × ((0 < bound) × (bound ≤ p64)) }
    ensures { result ≡ cond hit (add_mod p64 r (bound - 1)) 0 }
{
    field64::add(r, bound - 1) * (hit as u64)
}

// The success bit of a test that is in range or not, so many of these still to be given.
fn success_bit(hit: bool, left: u64) -> u64
    ensures { result ≡ success hit left }
{
    (hit & (left != 0)) as u64
}

// Writes the test bits over a row of w + 1 elements for each result: w bits of its number, then the
// success bit, which the first tests in range have.
fn write_tests(w: usize, bound: u64, successes: u64, results: &[u64], row: &mut [u64])
    requires row_len { length row.old ≡ (1 + w) * length results.now }
    requires below { Below p64 results.now × ((0 < bound) × (bound ≤ p64)) }
    ensures { row.new ≡ test_bits p64 w bound successes results.now }
{
    let mut left = successes;
    let mut start = 0;
    for &r in results {
        let hit = in_range(r, bound);
        let value = number_of(r, bound, hit);
        let success = success_bit(hit, left);
        let end = start + w + 1;
        write_test(w, value, success, &mut row[start..end]);
        left -= success;
        start = end;
    }
}

// Writes what follows the gradient over the rest of the row: v and u as bits, then, past these, the
// test bits.
pub fn write_checked(
    q: usize,
    v: u64,
    u: u64,
    w: usize,
    bound: u64,
    successes: u64,
    results: &[u64],
    rest: &mut [u64],
)
    requires rest_len { length rest.old ≡ 2 * q + (1 + w) * length results.now }
    requires below { Below p64 results.now × ((0 < bound) × (bound ≤ p64)) }
    ensures { rest.new ≡ checked_of p64 q v u w bound successes results.now }
{
    let norm = q + q;
    write_bits(v, &mut rest[..q]);
    write_bits(u, &mut rest[q..norm]);
    write_tests(w, bound, successes, results, &mut rest[norm..]);
}

// Writes the measurement: the gradient's elements, then the checked elements into the rest of the
// row.
pub fn write_measurement(
    pine: Pine,
    gradient: &[f64],
    v: u64,
    results: &[u64],
    measurement: &mut [u64],
)
    requires usable { Usable floor_limit64 pine.frac_bits gradient.now }
    requires scale_value { pine.scale ≡ power pine.frac_bits }
    requires measurement_len { length measurement.old ≡ length gradient.now + (2 * pine.sq_norm_bits + (1 + pine.wr_test_bits) * length results.now) }
    requires below { Below p64 results.now × ((0 < bound_in pine) × (bound_in pine ≤ p64)) }
    requires v_lt_p64 { (v < p64) × (pine.sq_norm_bound < p64) }
    ensures { measurement.new ≡ elements p64 pine.frac_bits gradient.now ++ checked_of p64 pine.sq_norm_bits v (sub_mod p64 pine.sq_norm_bound v) pine.wr_test_bits (bound_in pine) pine.num_wr_successes results.now }
{
    let d = gradient.len();
    write_elements(gradient, pine.scale, pine.frac_bits, &mut measurement[..d]);
    let u = field64::sub(pine.sq_norm_bound, v);
    write_checked(
        pine.sq_norm_bits as usize,
        v,
        u,
        pine.wr_test_bits as usize,
        pine.wr_test_bound(),
        pine.num_wr_successes,
        results,
        &mut measurement[d..],
    );
}

// Copies a row over another of the same length.
pub fn copy_row(from: &[u64], to: &mut [u64])
    requires { length to.old ≡ length from.now }
    ensures { to.new ≡ from.now }
{
    // By index: the library's copy may be a call of memmove, which the archive does not take from a C library.
    for i in 0..to.len() {
        to[i] = from[i];
    }
}
