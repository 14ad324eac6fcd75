// Internal: the lines of a load's text (docs/PINE.md, "A load").
#![tactic(auto)]

ghost use Rattle.std.specs.Prelude.{◌≡◌, ◌≤◌, length, drop};
ghost use Rattle.load_text.specs.Text.{ends_at, digits_from, first_line, up_to, load_limits, numbers_of};
ghost use Rattle.load_text.specs.Steps.{line_in, Appends, numbers_if};

// The greatest number of each line.
const LIMITS: [u64; 12] = [
    u64::MAX,
    u64::MAX,
    u64::MAX,
    u64::MAX,
    u64::MAX,
    u64::MAX,
    u64::MAX,
    u64::MAX,
    65535,
    65535,
    1,
    1,
];

// A number that was read, with the index after its newline.
#[derive(Clone, Copy)]
pub struct Read {
    pub value: u64,
    pub next: usize,
}

// The newline at an index, after the digits of n.
fn end(text: &[u8], at: usize, n: u64, most: u64) -> Option<Read>
    requires { n ≤ most }
    ensures { line_in text.now result ≡ up_to most (ends_at n (drop at text.now)) }
{
    if *text.get(at)? != b'\n' {
        return None;
    }
    Some(Read {
        value: n,
        next: at + 1,
    })
}

// A number with a digit more; none where it is above most.
fn append(n: u64, d: u64, most: u64) -> Option<u64>
    ensures { Appends n d most result }
{
    if most / 10 < n {
        return None;
    }
    let tens = n * 10;
    if most - tens < d {
        return None;
    }
    Some(tens + d)
}

// Any further digits from an index on, after those of first, and the newline.
fn digits_from(text: &[u8], at: usize, first: u64, most: u64) -> Option<Read>
    ensures { line_in text.now result ≡ up_to most (digits_from first (drop at text.now)) }
{
    if most < first {
        return None;
    }
    let mut n = first;
    for i in at..text.len() {
        let b = text[i];
        if !b.is_ascii_digit() {
            return end(text, i, n, most);
        }
        n = append(n, (b - b'0') as u64, most)?;
    }
    None
}

// The number of the line that begins at an index.
fn first_line(text: &[u8], at: usize, most: u64) -> Option<Read>
    ensures { line_in text.now result ≡ up_to most (first_line (drop at text.now)) }
{
    let b = *text.get(at)?;
    if !b.is_ascii_digit() {
        return None;
    }
    if b == b'0' {
        return end(text, at + 1, 0, most);
    }
    digits_from(text, at + 1, (b - b'0') as u64, most)
}

// The numbers of a load's lines; false for other text.
pub fn read_numbers(text: &[u8], row: &mut [u64]) -> bool
    requires { length row.old ≡ 12 }
    ensures { numbers_if result row.new ≡ numbers_of load_limits text.now }
{
    let limits = LIMITS;
    let mut at = 0;
    for k in 0..12 {
        let Some(line) = first_line(text, at, limits[k]) else {
            return false;
        };
        row[k] = line.value;
        at = line.next;
    }
    text.len() <= at
}
