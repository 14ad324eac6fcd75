// How rule 12 is tested: the first element of a row that is not below p. A good row is run through once, with no
// branch on its elements but the verdict at its end, and only a row with a bad one is searched.
ghost use Rattle.std.specs.Prelude.{◌≡◌, ◌^◌, ◌<◌, length};
ghost use Rattle.field64.specs.Field.{p64};
ghost use Rattle.rows.specs.Rows.{first_bad, Below};

// A row is run through by blocks of so many elements: LLVM then has their number, and lays the loop out without turns.
const BLOCK: usize = 64;

// What was seen so far, and x: 2^63 or more just where seen is, or where x is not below p. Adding 2^32 - 1
// to such an x wraps, and of the two numbers only x has its highest bit. By bits alone, so that a loop
// runs on vectors.
pub fn or_carry(seen: u64, x: u64) -> u64
    ensures seen_bound { result < 2 ^ 63 → (seen < 2 ^ 63) × (x < p64) }
    ensures upper_bound { (seen < 2 ^ 63) × (x < p64) → result < 2 ^ 63 }
{
    let sum = std::num::wrapping_add_u64(x, 0xffff_ffff);
    seen | (x & (u64::MAX - sum))
}

// 2^63 or more just where an element of a part is not below p.
fn part_carries(part: &[u64]) -> u64
    ensures below { result < 2 ^ 63 → Below p64 part.now }
    ensures upper_bound { Below p64 part.now → result < 2 ^ 63 }
{
    let mut seen = 0;
    for &x in part {
        seen = or_carry(seen, x);
    }
    seen
}

// The same of any row. For rows that are longer than a cache, too: it reads straight on.
pub fn carries(row: &[u64]) -> u64
    ensures below { result < 2 ^ 63 → Below p64 row.now }
    ensures upper_bound { Below p64 row.now → result < 2 ^ 63 }
{
    let mut seen = 0;
    let mut at = 0;
    while BLOCK <= row.len() - at {
        let end = at + BLOCK;
        seen = seen | part_carries(&row[at..end]);
        at = end;
    }
    seen | part_carries(&row[at..])
}

// The index of the first element that is not below p, or the length where there is none.
fn search(row: &[u64]) -> usize
    ensures { result ≡ first_bad p64 row.now }
{
    row.iter()
        .position(|&x| x >= field64::P)
        .unwrap_or(row.len())
}

// The same: only a row with a carry is searched.
pub fn first_bad(row: &[u64]) -> usize
    ensures { result ≡ first_bad p64 row.now }
{
    if carries(row) < 1 << 63 {
        return row.len();
    }
    search(row)
}
