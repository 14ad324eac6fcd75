// Internal: writing a measurement over Field128. The bits are written as Field64's, one word each, and then spread: an
// element is two words. A function here asks its caller for what it does not test itself.
#![tactic(auto)]

ghost use Rattle.std.specs.Prelude.{◌≡◌, ◌++◌, ◌+◌, ◌*◌, ◌/◌, ◌≤◌, ◌<◌, length, take};
ghost use Rattle.field64.specs.Field.{p64, sub_mod};
ghost use Rattle.doubles.specs.Doubles.{power};
ghost use Rattle.pine.specs.Record.{bound_in};
ghost use Rattle.rows.specs.Rows.{Below};
ghost use Rattle.flp.specs.Encode.{elements};
ghost use Rattle.field128.specs.Field128.{p128, words_of, Whole};
ghost use Rattle.doubles128.specs.Doubles128.{floor_limit128};
ghost use Rattle.measurement.specs.Parts.{Usable, checked_of};

use field128::Element;
use pine::record::Pine;

// Writes the gradient's elements over a row for as many.
fn write_elements(gradient: &[f64], scale: f64, frac_bits: u64, row: &mut [u64])
    requires usable { Usable floor_limit128 frac_bits gradient.now }
    requires scale_value { scale ≡ power frac_bits }
    requires row_len { length row.old ≡ 2 * length gradient.now }
    ensures { row.new ≡ words_of (elements p128 frac_bits gradient.now) }
{
    for (k, &x) in gradient.iter().enumerate() {
        let e = doubles128::element_of(x, scale, frac_bits);
        rows128::store(row, k, e);
    }
}

// A word as an element.
fn widened(low: u64) -> Element
    ensures { (result.low ≡ low) × (result.high ≡ 0) }
{
    Element { low, high: 0 }
}

// Spreads the first half of a row over the whole of it: each word becomes an element. From the back, so that no word is
// written over before it is read.
fn spread(row: &mut [u64])
    requires { Whole row.old }
    ensures { row.new ≡ words_of (take (length row.old / 2) row.old) }
{
    for i in (0..row.len() / 2).rev() {
        let e = widened(row[i]);
        rows128::store(row, i, e);
    }
}

// Writes what follows the gradient over a row for it: v and u as bits, then the test bits.
fn write_rest(
    q: usize,
    v: u64,
    u: u64,
    w: usize,
    bound: u64,
    successes: u64,
    results: &[u64],
    rest: &mut [u64],
)
    requires rest_len { length rest.old ≡ 2 * (2 * q + (1 + w) * length results.now) }
    requires below { Below p64 results.now × ((0 < bound) × (bound ≤ p64)) }
    ensures { rest.new ≡ words_of (checked_of p64 q v u w bound successes results.now) }
{
    let half = rest.len() / 2;
    measurement::write_checked(q, v, u, w, bound, successes, results, &mut rest[..half]);
    spread(rest);
}

// Writes the measurement: the gradient's elements, then the checked elements into the rest of the row. The results are
// Field64's, as narrow gives them.
pub fn write_measurement(
    pine: Pine,
    gradient: &[f64],
    v: u64,
    results: &[u64],
    measurement: &mut [u64],
)
    requires usable { Usable floor_limit128 pine.frac_bits gradient.now }
    requires scale_value { pine.scale ≡ power pine.frac_bits }
    requires measurement_len { length measurement.old ≡ 2 * (length gradient.now + (2 * pine.sq_norm_bits + (1 + pine.wr_test_bits) * length results.now)) }
    requires below { Below p64 results.now × ((0 < bound_in pine) × (bound_in pine ≤ p64)) }
    requires v_lt_p64 { (v < p64) × (pine.sq_norm_bound < p64) }
    ensures { measurement.new ≡ words_of (elements p128 pine.frac_bits gradient.now ++ checked_of p64 pine.sq_norm_bits v (sub_mod p64 pine.sq_norm_bound v) pine.wr_test_bits (bound_in pine) pine.num_wr_successes results.now) }
{
    let front = 2 * gradient.len();
    write_elements(
        gradient,
        pine.scale,
        pine.frac_bits,
        &mut measurement[..front],
    );
    let u = field64::sub(pine.sq_norm_bound, v);
    write_rest(
        pine.sq_norm_bits as usize,
        v,
        u,
        pine.wr_test_bits as usize,
        pine.wr_test_bound(),
        pine.num_wr_successes,
        results,
        &mut measurement[front..],
    );
}
