// Internal: many tests on a group of columns of Field128's elements, by tables: what each half of a byte makes of the limbs
// of its two coordinates, modulo 2^64, made once for all tests. A byte of a test is read once for its three limbs, and no
// sum is reduced. A function here asks its caller for what it does not test itself.
#![tactic(auto)]

ghost use Rattle.std.specs.Prelude.{◌≡◌, ℕ, ◌+◌, ◌*◌, ◌%◌, ◌^◌, ◌<◌, ◌≤◌, length, drop, slice_index};
ghost use Rattle.field128.specs.Field128.{elements_of};
ghost use Rattle.groups.specs.Groups.{add_group};
ghost use Rattle.tables.specs.Tables.{Entry, Undoes, Tables, entries_at, entries_of, less_group};
ghost use Rattle.limbs.specs.Limbs.{limbs};
ghost use Rattle.limb_tables.specs.LimbTables.{LimbTables};

// So many tests, at the most, are too few for tables.
pub const FEW: usize = 2;

// So many bytes of each test, at the most, are a group.
pub const WIDTH: usize = 8;

// Where the tables of the middle limbs begin, and those of the high ones: two of sixteen entries to a byte of a group.
const MIDDLE: usize = 256;

const HIGH: usize = 512;

// What the entries of a test's bytes make for each limb.
#[derive(Clone, Copy)]
struct Sums {
    low: u64,
    middle: u64,
    high: u64,
}

// What is to be taken off a sum for two coordinates, by their pairs: pair of a + 4 * pair of b.
fn table(a: u64, b: u64) -> [u64; 16]
    ensures { Undoes (2 ^ 64) a b result }
{
    let na = std::num::wrapping_sub_u64(0, a);
    let nb = std::num::wrapping_sub_u64(0, b);
    let pp = std::num::wrapping_add_u64(a, b);
    let pm = std::num::wrapping_sub_u64(a, b);
    let mp = std::num::wrapping_sub_u64(0, pm);
    let mm = std::num::wrapping_sub_u64(0, pp);
    [pp, b, b, mp, a, 0, 0, na, a, 0, 0, na, pm, nb, nb, mm]
}

// Writes the table of two coordinates from start on.
fn write_table(a: u64, b: u64, start: usize, tables: &mut [u64])
    requires { start + 16 ≤ length tables.old }
    ensures by_index { (k : ℕ) → k < 16 → Entry (2 ^ 64) a b k (slice_index tables.new (start + k)) }
    ensures by_index_2 { (i : ℕ) → i < start → slice_index tables.new i ≡ slice_index tables.old i }
{
    tables::write_entries(table(a, b), start, tables);
}

// The word at k, or 0 past the end.
fn at(row: &[u64], k: usize) -> u64
    ensures { result ≡ slice_index row.now k }
{
    if k < row.len() { row[k] } else { 0 }
}

// Writes tables of a row's words from base on, each for the next two of them.
fn write_tables(xs: &[u64], count: usize, base: usize, tables: &mut [u64])
    requires { base + 16 * count ≤ length tables.old }
    ensures tables { Tables (2 ^ 64) count xs.now (drop base tables.new) }
    ensures by_index { (i : ℕ) → i < base → slice_index tables.new i ≡ slice_index tables.old i }
{
    for i in 0..count {
        let a = at(xs, 2 * i);
        let b = at(xs, 2 * i + 1);
        write_table(a, b, base + 16 * i, tables);
    }
}

// Writes the tables of limb k of these coordinates, for n bytes, from base on. The row, for the limbs, is spoilt.
fn write_limb(part: &[u64], k: u64, base: usize, n: usize, row: &mut [u64], tables: &mut [u64])
    requires k_bound { (k ≤ 2) × (length row.old ≡ length (elements_of part.now)) }
    requires n_in_bounds { base + 32 * n ≤ length tables.old }
    ensures tables { Tables (2 ^ 64) (2 * n) (limbs k (elements_of part.now)) (drop base tables.new) }
    ensures by_index { (i : ℕ) → i < base → slice_index tables.new i ≡ slice_index tables.old i }
{
    limbs::write_limbs(part, k, row);
    write_tables(row, 2 * n, base, tables);
}

// The same of every limb.
fn write_limbs(part: &[u64], n: usize, row: &mut [u64], tables: &mut [u64])
    requires row_len { length row.old ≡ length (elements_of part.now) }
    requires n_bound { (n ≤ 8) × (768 ≤ length tables.old) }
    ensures { LimbTables (2 * n) (elements_of part.now) tables.new }
{
    write_limb(part, 0, 0, n, row, tables);
    write_limb(part, 1, MIDDLE, n, row, tables);
    write_limb(part, 2, HIGH, n, row, tables);
}

// A sum with the entries of the two halves of a byte, in the two tables from start on, those of its limb beginning at base.
fn plus_byte(sum: u64, byte: u8, base: usize, start: usize, tables: &[u64]) -> u64
    requires { base + start + 32 ≤ length tables.now }
    ensures { result ≡ (sum + entries_at (drop base tables.now) start byte) % 2 ^ 64 }
{
    let i = base + start + (byte % 16) as usize;
    let k = base + start + 16 + (byte / 16) as usize;
    let with_low = std::num::wrapping_add_u64(sum, tables[i]);
    std::num::wrapping_add_u64(with_low, tables[k])
}

// The entries of the bytes of a test, each in the next two tables, for each limb.
fn sums_of(bytes: &[u8], tables: &[u64]) -> Sums
    requires { (length bytes.now ≤ 8) × (768 ≤ length tables.now) }
    ensures low_value { result.low ≡ entries_of (drop 0 tables.now) 0 bytes.now % 2 ^ 64 }
    ensures middle_value { result.middle ≡ entries_of (drop 256 tables.now) 0 bytes.now % 2 ^ 64 }
    ensures high_value { result.high ≡ entries_of (drop 512 tables.now) 0 bytes.now % 2 ^ 64 }
{
    let mut low = 0;
    let mut middle = 0;
    let mut high = 0;
    for (k, &byte) in bytes.iter().enumerate() {
        low = plus_byte(low, byte, 0, 32 * k, tables);
        middle = plus_byte(middle, byte, MIDDLE, 32 * k, tables);
        high = plus_byte(high, byte, HIGH, 32 * k, tables);
    }
    Sums { low, middle, high }
}

// Takes the entries of n bytes of each test, from byte j on, off its three sums.
fn less_group(
    tables: &[u64],
    per: usize,
    j: usize,
    n: usize,
    stream: &[u8],
    low: &mut [u64],
    middle: &mut [u64],
    high: &mut [u64],
)
    requires per_in_bounds { (length low.old * per ≤ length stream.now) × ((j + n ≤ per) × ((n ≤ 8) × (768 ≤ length tables.now))) }
    requires middle_len { (length middle.old ≡ length low.old) × (length high.old ≡ length low.old) }
    ensures low_after { low.new ≡ less_group (2 ^ 64) (drop 0 tables.now) per j n stream.now low.old }
    ensures middle_after { middle.new ≡ less_group (2 ^ 64) (drop 256 tables.now) per j n stream.now middle.old }
    ensures high_after { high.new ≡ less_group (2 ^ 64) (drop 512 tables.now) per j n stream.now high.old }
{
    for t in 0..low.len() {
        let start = t * per + j;
        let end = start + n;
        let sums = sums_of(&stream[start..end], tables);
        low[t] = std::num::wrapping_sub_u64(low[t], sums.low);
        middle[t] = std::num::wrapping_sub_u64(middle[t], sums.middle);
        high[t] = std::num::wrapping_sub_u64(high[t], sums.high);
    }
}

// Adds to each sum what n bytes of its test, from byte j on, make of a limb of these coordinates. The row, for the limbs,
// is spoilt, and so are the tables.
pub fn add_tabled(
    part: &[u64],
    per: usize,
    j: usize,
    n: usize,
    stream: &[u8],
    row: &mut [u64],
    tables: &mut [u64],
    low: &mut [u64],
    middle: &mut [u64],
    high: &mut [u64],
)
    requires per_in_bounds { (length low.old * per ≤ length stream.now) × ((j + n ≤ per) × ((n ≤ 8) × (768 ≤ length tables.old))) }
    requires row_len { length row.old ≡ length (elements_of part.now) }
    requires middle_len { (length middle.old ≡ length low.old) × (length high.old ≡ length low.old) }
    ensures low_after { low.new ≡ add_group (2 ^ 64) per j n (limbs 0 (elements_of part.now)) stream.now low.old }
    ensures middle_after { middle.new ≡ add_group (2 ^ 64) per j n (limbs 1 (elements_of part.now)) stream.now middle.old }
    ensures high_after { high.new ≡ add_group (2 ^ 64) per j n (limbs 2 (elements_of part.now)) stream.now high.old }
{
    write_limbs(part, n, row, tables);
    less_group(tables, per, j, n, stream, low, middle, high);
}
