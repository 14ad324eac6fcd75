// Internal: many tests on a group of columns, by tables: what each half of a byte makes of its two coordinates, made once for
// all tests. A function here asks its caller for what it does not test itself.
#![tactic(auto)]

ghost use Rattle.std.specs.Prelude.{◌≡◌, ℕ, ◌+◌, ◌*◌, ◌^◌, ◌≤◌, ◌<◌, length, get_or};
ghost use Rattle.field64.specs.Field.{p64};
ghost use Rattle.sums.specs.Unreduced.{total_of};
ghost use Rattle.rows.specs.Rows.{Below};
ghost use Rattle.groups.specs.Groups.{add_group};
ghost use Rattle.tables.specs.Tables.{Entry, Undoes, Tables, entries_at, less_entries, less_group};

use sums::Total;

// What is to be taken off a result for two coordinates, by their pairs: pair of a + 4 * pair of b. Entries are added as
// whole numbers, so that p less a number serves for its negative: of 0 it is p, and there is no test that could become a
// branch.
fn table(a: u64, b: u64) -> [u64; 16]
    requires { (a < p64) × (b < p64) }
    ensures { Undoes p64 a b result }
{
    let na = field64::P - a;
    let nb = field64::P - b;
    let pp = field64::add(a, b);
    let pm = field64::sub(a, b);
    let mp = field64::P - pm;
    let mm = field64::P - pp;
    [pp, b, b, mp, a, 0, 0, na, a, 0, 0, na, pm, nb, nb, mm]
}

// Writes a table's entries from start on, and leaves what stands before them.
pub fn write_entries(entries: [u64; 16], start: usize, tables: &mut [u64])
    requires { start + 16 ≤ length tables.old }
    ensures by_index { (k : ℕ) → k < 16 → get_or tables.new (start + k) 0 ≡ get_or entries k 0 }
    ensures by_index_2 { (i : ℕ) → i < start → get_or tables.new i 0 ≡ get_or tables.old i 0 }
{
    tables[start..start + 16].copy_from_slice(&entries);
}

// Writes the table of two coordinates from start on.
fn write_table(a: u64, b: u64, start: usize, tables: &mut [u64])
    requires { ((a < p64) × (b < p64)) × (start + 16 ≤ length tables.old) }
    ensures by_index { (k : ℕ) → k < 16 → Entry p64 a b k (get_or tables.new (start + k) 0) }
    ensures by_index_2 { (i : ℕ) → i < start → get_or tables.new i 0 ≡ get_or tables.old i 0 }
{
    write_entries(table(a, b), start, tables);
}

// The element at k, or 0 past the end.
fn at(row: &[u64], k: usize) -> u64
    requires { Below p64 row.now }
    ensures { (result < p64) × (result ≡ get_or row.now k 0) }
{
    if k < row.len() { row[k] } else { 0 }
}

// Writes the first tables of a group's coordinates, each for the next two of them.
fn write_tables(xs: &[u64], count: usize, tables: &mut [u64])
    requires { Below p64 xs.now × (16 * count ≤ length tables.old) }
    ensures { Tables p64 count xs.now tables.new }
{
    for i in 0..count {
        let a = at(xs, 2 * i);
        let b = at(xs, 2 * i + 1);
        write_table(a, b, 16 * i, tables);
    }
}

// A sum with the entries of the two halves of a byte, in the two tables from start on.
fn plus_byte(sum: Total, byte: u8, start: usize, tables: &[u64]) -> Total
    requires { (start + 32 ≤ length tables.now) × (sum.high + 2 < 2 ^ 64) }
    ensures { (total_of result ≡ total_of sum + entries_at tables.now start byte) × (result.high ≤ sum.high + 2) }
{
    let i = start + (byte % 16) as usize;
    let k = start + 16 + (byte / 16) as usize;
    let with_low = sum.plus(tables[i]);
    with_low.plus(tables[k])
}

// r less the entries of the bytes of a test, each in the next two tables.
fn less_bytes(r: u64, bytes: &[u8], tables: &[u64]) -> u64
    requires { (r < p64) × (32 * length bytes.now ≤ length tables.now) }
    ensures { result ≡ less_entries p64 tables.now bytes.now r }
{
    let mut sum = Total::none();
    for (k, &byte) in bytes.iter().enumerate() {
        sum = plus_byte(sum, byte, 32 * k, tables);
    }
    field64::sub(r, sum.reduced())
}

// Takes the entries of n bytes of each test, from byte j on, off its result.
fn less_group(tables: &[u64], per: usize, j: usize, n: usize, stream: &[u8], results: &mut [u64])
    requires per_in_bounds { (length results.old * per ≤ length stream.now) × ((j + n ≤ per) × (32 * n ≤ length tables.now)) }
    requires below { Below p64 results.old }
    ensures { results.new ≡ less_group p64 tables.now per j n stream.now results.old }
{
    for t in 0..results.len() {
        let start = t * per + j;
        let end = start + n;
        results[t] = less_bytes(results[t], &stream[start..end], tables);
    }
}

// Adds to each result what n bytes of its test, from byte j on, make of these coordinates. The tables are spoilt.
pub fn add_tabled(
    xs: &[u64],
    per: usize,
    j: usize,
    n: usize,
    stream: &[u8],
    tables: &mut [u64],
    results: &mut [u64],
)
    requires per_in_bounds { (length results.old * per ≤ length stream.now) × ((j + n ≤ per) × (32 * n ≤ length tables.old)) }
    requires below { Below p64 xs.now }
    requires below_2 { Below p64 results.old }
    ensures { results.new ≡ add_group p64 per j n xs.now stream.now results.old }
{
    write_tables(xs, 2 * n, tables);
    less_group(tables, per, j, n, stream, results);
}
