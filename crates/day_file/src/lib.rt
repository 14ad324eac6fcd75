// The day's file (docs/PINE.md, "The day's file"): aggregates by address and valve in one row of bytes,
// read, written, and its greatest length. Each public call takes any arguments; a function named check_*
// decides its answer and writes nothing.
#![tactic(auto)]

ghost use Rattle.std.specs.Prelude.{◌≡◌, ◌+◌, ◌*◌, ◌≤◌, ◌<◌, min, length};
ghost use Rattle.rules.specs.Rules.{first};
ghost use Rattle.field64.specs.Field.{p64};
ghost use Rattle.rows.specs.Rows.{row_rule};
ghost use Rattle.rows.specs.Outcome.{outcome};
ghost use Rattle.entries.specs.File.{is_rows, file_len, file_from};
ghost use Rattle.layout.specs.Layout.{rows_rule};
ghost use Rattle.day_file.specs.Calls.{read_outcome, read_answer, read_of, write_answer, write_of, max_of};

use pine::PineParam;
use rules::Answer;

// A length in bytes, which is 0 beside a refusal.
#[repr(C)]
#[derive(Clone, Copy)]
pub struct FileLen {
    pub answer: Answer,
    pub len: u64,
}

// ---- the greatest length

fn at_most_1024(reports: u32) -> u64
    ensures { result ≡ min reports 1024 }
{
    if reports < 1024 { reports as u64 } else { 1024 }
}

// The greatest length that a file begun empty can have after so many added reports.
pub fn file_max(param: PineParam, reports: u32) -> FileLen
    ensures { result ≡ max_of param reports }
{
    let answer = params::check_param(param);
    if answer.number != 0 {
        return FileLen { answer, len: 0 };
    }
    let entries = at_most_1024(reports);
    FileLen {
        answer,
        len: layout::file_len(param.dimension, entries),
    }
}

// ---- reading

fn check_read(param: PineParam, file: &[u8], contents: usize, bodies: usize) -> Answer
    ensures { result ≡ read_answer param file.now contents bodies }
{
    let inputs = params::check_param(param);
    if inputs.number != 0 {
        return inputs;
    }
    let count = layout::count_of(file);
    let contents_len = layout::check_units(2, contents as u64, 12, count);
    let bodies_len = layout::check_units(3, bodies as u64, param.dimension, count);
    let lens = contents_len.or(bodies_len);
    if lens.number != 0 {
        return lens;
    }
    layout::check_file(param.dimension, file)
}

// Splits a file into contents, 12 bytes an entry, and the elements of its bodies.
pub fn file_read(param: PineParam, file: &[u8], contents: &mut [u8], bodies: &mut [u64]) -> Answer
    ensures { read_outcome result contents.new bodies.new ≡ read_of param file.now contents.old bodies.old }
{
    let answer = check_read(param, file, contents.len(), bodies.len());
    if answer.number != 0 {
        return answer;
    }
    let start = 6 + contents.len();
    octets::copy_bytes(&file[6..start], contents);
    octets::read_elements(&file[start..], bodies);
    answer
}

// ---- writing

// Whether a count and its rows make a file.
fn is_rows(count: u64, contents: &[u8], bodies: &[u64]) -> bool
    requires { length contents.now ≡ 12 * count }
    ensures { result ≡ is_rows p64 count contents.now bodies.now }
{
    if 1024 < count {
        return false;
    }
    entries::keys_rise(contents, count as usize) && rows::scan::carries(bodies) < 1 << 63
}

// Rule 14, of a count and its rows.
fn check_rows(count: u64, contents: &[u8], bodies: &[u64]) -> Answer
    requires { length contents.now ≡ 12 * count }
    ensures { result ≡ rows_rule count contents.now bodies.now }
{
    Answer::refuse_if(!is_rows(count, contents, bodies), rules::FILE_LAYOUT, 0)
}

// Rule 7, of the file that is to be written.
fn check_file_len(len: u64, dimension: u64, count: u64) -> Answer
    requires { dimension ≤ 65536 }
    ensures { result ≡ row_rule 3 len (file_len dimension count) }
{
    if len < 6 {
        return Answer {
            number: rules::ROW_LEN,
            place: 3,
        };
    }
    layout::check_units(3, len - 6, 12 + 8 * dimension, count)
}

// Rule 7, of the three rows.
fn check_write_lens(
    dimension: u64,
    count: u64,
    contents: usize,
    bodies: usize,
    file: usize,
) -> Answer
    requires { (0 < dimension) × (dimension ≤ 65536) }
    ensures { result ≡ first (row_rule 1 contents (12 * count)) (first (row_rule 2 bodies (dimension * count)) (row_rule 3 file (file_len dimension count))) }
{
    let contents_len = layout::check_units(1, contents as u64, 12, count);
    let bodies_len = layout::check_units(2, bodies as u64, dimension, count);
    let file_len = check_file_len(file as u64, dimension, count);
    contents_len.or(bodies_len.or(file_len))
}

fn check_write(param: PineParam, count: u64, contents: &[u8], bodies: &[u64], file: usize) -> Answer
    ensures { result ≡ write_answer param count contents.now bodies.now file }
{
    let inputs = params::check_param(param);
    if inputs.number != 0 {
        return inputs;
    }
    let lens = check_write_lens(param.dimension, count, contents.len(), bodies.len(), file);
    if lens.number != 0 {
        return lens;
    }
    check_rows(count, contents, bodies)
}

// Writes a file over a row of its length.
fn write_file(dimension: u64, count: u64, contents: &[u8], bodies: &[u64], file: &mut [u8])
    requires { length file.old ≡ 6 + (length contents.now + 8 * length bodies.now) }
    ensures { file.new ≡ file_from dimension count contents.now bodies.now }
{
    let start = layout::put_header(file, count, dimension);
    let at = octets::put_bytes(file, start, contents);
    octets::put_elements(file, at, bodies);
}

// Writes a file of so many entries from its contents and the elements of its bodies.
pub fn file_write(
    param: PineParam,
    count: u64,
    contents: &[u8],
    bodies: &[u64],
    file: &mut [u8],
) -> Answer
    ensures { outcome result file.new ≡ write_of param count contents.now bodies.now file.old }
{
    let answer = check_write(param, count, contents, bodies, file.len());
    if answer.number != 0 {
        return answer;
    }
    write_file(param.dimension, count, contents, bodies, file);
    answer
}
