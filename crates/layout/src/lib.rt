// Internal: the layout of a day's file, as rules 7 and 14 test it. A function here asks its caller for
// what it does not test itself.
#![tactic(auto)]

ghost use Rattle.std.specs.Prelude.{◌≡◌, ◌&&◌, ◌+◌, ◌*◌, ◌≤◌, ◌<◌, ◌^◌, length};
ghost use Rattle.field64.specs.Field.{p64};
ghost use Rattle.rows.specs.Rows.{row_rule};
ghost use Rattle.octets.specs.Octets.{elements_in, filled};
ghost use Rattle.entries.specs.File.{count_in, all_below, is_rows, is_file, file_len, header};
ghost use Rattle.layout.specs.Layout.{file_rule};

use rules::Answer;

// Rule 7, of a row of units: its length is to be unit * count, which may be too large for 64 bits.
pub fn check_units(place: u64, len: u64, unit: u64, count: u64) -> Answer
    requires { 0 < unit }
    ensures { result ≡ row_rule place len (unit * count) }
{
    let whole = len / unit == count && len % unit == 0;
    Answer::refuse_if(!whole, rules::ROW_LEN, place)
}

// The entry count in the first two bytes, 0 if there are fewer.
pub fn count_of(file: &[u8]) -> u64
    ensures { (result ≡ count_in file.now) × (result < 2 ^ 16) }
{
    if file.len() < 2 {
        return 0;
    }
    octets::number2(file[0], file[1])
}

// The length of a file of so many entries.
pub fn file_len(dimension: u64, count: u64) -> u64
    requires { (dimension ≤ 65536) × (count < 65536) }
    ensures { result ≡ file_len dimension count }
{
    6 + count * (12 + 8 * dimension)
}

// Whether each of the elements in two rows of bytes is below p. Each is tested, with no branch, so that the
// loop runs on vectors; and the rows are read side by side, since memory gives two faster than one.
fn both_below(left: &[u8], right: &[u8], count: usize) -> bool
    requires { (length left.now ≡ 8 * count) × (length right.now ≡ 8 * count) }
    ensures { result ≡ all_below p64 (elements_in count left.now) && all_below p64 (elements_in count right.now) }
{
    let mut in_left = 0;
    let mut in_right = 0;
    for i in 0..count {
        let at = 8 * i;
        in_left = rows::scan::or_carry(in_left, octets::number8(&left[at..at + 8]));
        in_right = rows::scan::or_carry(in_right, octets::number8(&right[at..at + 8]));
    }
    in_left < 1 << 63 && in_right < 1 << 63
}

// The same of one row, by its halves. The middle element of an odd count is in both.
fn elements_below(bytes: &[u8], count: usize) -> bool
    requires { length bytes.now ≡ 8 * count }
    ensures { result ≡ all_below p64 (elements_in count bytes.now) }
{
    let start = count / 2;
    let half = count - start;
    let right = 8 * start;
    let left_end = 8 * half;
    both_below(&bytes[0..left_end], &bytes[right..], half)
}

// Whether the rows of a file make one: contents as bytes, and so many elements as bytes.
pub fn is_rows_in(count: usize, contents: &[u8], elements: usize, bodies: &[u8]) -> bool
    requires { (length contents.now ≡ 12 * count) × (length bodies.now ≡ 8 * elements) }
    ensures { result ≡ is_rows p64 count contents.now (elements_in elements bodies.now) }
{
    if 1024 < count {
        return false;
    }
    entries::keys_rise(contents, count) && elements_below(bodies, elements)
}

// Whether bytes are a file of this dimension.
pub fn is_file(dimension: u64, file: &[u8]) -> bool
    requires { dimension ≤ 65536 }
    ensures { result ≡ is_file p64 dimension file.now }
{
    if file.len() < 6 {
        return false;
    }
    let written = octets::number4(file[2], file[3], file[4], file[5]);
    if written != dimension {
        return false;
    }
    let count = count_of(file);
    let expected = file_len(dimension, count);
    if file.len() as u64 != expected {
        return false;
    }
    let start = 6 + 12 * (count as usize);
    is_rows_in(
        count as usize,
        &file[6..start],
        (dimension * count) as usize,
        &file[start..],
    )
}

// Rule 14, of a file.
pub fn check_file(dimension: u64, file: &[u8]) -> Answer
    requires { dimension ≤ 65536 }
    ensures { result ≡ file_rule dimension file.now }
{
    Answer::refuse_if(!is_file(dimension, file), rules::FILE_LAYOUT, 0)
}

// Writes the count and the dimension into the first six bytes.
pub fn put_header(row: &mut [u8], count: u64, dimension: u64) -> usize
    requires { 6 ≤ length row.old }
    ensures { (row.new ≡ filled (header count dimension) row.old) × (result ≡ 6) }
{
    let at = octets::put_number(row, 0, 2, count);
    octets::put_number(row, at, 4, dimension)
}
