// Sampling a share from a stream: its values below p, eight bytes each, up to a limit of draws (`into_field_vec` of the
// Rust, which draws on). `sample` takes the stream in a row and asks for nothing. The others are internal: they ask their
// caller for what they do not test themselves.
#![tactic(auto)]

ghost use Rattle.std.specs.Prelude.{◌≡◌, ◌+◌, ◌*◌, ◌/◌, ◌^◌, ◌≤◌, ◌<◌, min, length, take, leb};
ghost use Rattle.field64.specs.Field.{p64};
ghost use Rattle.pine.specs.Param.{Field64};
ghost use Rattle.rows.specs.Outcome.{outcome};
ghost use Rattle.sampler.specs.Sampler.{kept_of, values_of, sample_of};
ghost use Rattle.sampler.specs.Drawing.{to_come, DrewNext, DrewFrom, DrewRow};

use pine::PineParam;
use pine::record::Pine;
use rules::Answer;
use turboshake::Sponge;

// So many values are drawn at most beyond those that are wanted.
pub const MORE_DRAWS: u64 = 64;

// The values that are drawn at a time: three blocks of a sponge.
const PIECE: usize = 63;

// A stream after draws, how many are still allowed, and how many values were taken.
#[derive(Clone, Copy)]
pub struct Draws {
    pub stream: Sponge,
    pub left: usize,
    pub count: usize,
}

// Moves the values below p to the row's front, in their order, and gives how many there are. Nearly all are, so that it
// is by no branch.
fn keep(row: &mut [u64]) -> usize
    ensures { (take result row.new ≡ kept_of p64 row.old) × (result ≡ length (kept_of p64 row.old)) }
{
    let mut k = 0;
    for i in 0..row.len() {
        let v = row[i];
        row[k] = v;
        k += (v < field64::P) as usize;
    }
    k
}

// Reads as many values as the row has, and keeps those below p.
fn read_and_keep(bytes: &[u8], row: &mut [u64]) -> usize
    requires { length bytes.now ≡ 8 * length row.old }
    ensures { (take result row.new ≡ values_of p64 (length row.old) bytes.now) × (result ≡ length (values_of p64 (length row.old) bytes.now)) }
{
    octets::read_elements(bytes, row);
    keep(row)
}

// How many values to draw next: no more than are wanted, so that each that is kept has its place in the row.
fn next_draws(wanted: usize, left: usize) -> usize
    ensures { result ≡ min (min wanted left) 63 }
{
    groups::at_most(groups::at_most(wanted, left), PIECE)
}

// ---- from a stream that a sponge gives

// Draws as many values as the row has, by way of their bytes, and keeps those below p.
fn draw_next(from: Draws, bytes: &mut [u8], row: &mut [u64]) -> Draws
    requires at_bound { (from.stream.at < 168) × (length bytes.old ≡ 8 * length row.old) }
    requires row_len_bound { (length row.old ≤ from.left) × (from.count + length row.old < 2 ^ 64) }
    ensures { DrewNext p64 from result (length row.old) row.new }
{
    let n = row.len();
    let stream = from.stream.fill(bytes);
    let kept = read_and_keep(bytes, row);
    Draws {
        stream,
        left: from.left - n,
        count: from.count + kept,
    }
}

// The same until the row is full, or no draw is left.
fn draw_by(stream: Sponge, left: usize, bytes: &mut [u8], row: &mut [u64]) -> Draws
    requires { (stream.at < 168) × (length bytes.old ≡ 504) }
    ensures { DrewFrom p64 stream left result row.new }
{
    let mut drew = Draws {
        stream,
        left,
        count: 0,
    };
    let mut n = next_draws(row.len(), left);
    // The steps are as many as skipped values make necessary.
    while 0 < n {
        let at = drew.count;
        let end = at + n;
        let size = 8 * n;
        drew = draw_next(drew, &mut bytes[..size], &mut row[at..end]);
        n = next_draws(row.len() - drew.count, drew.left);
    }
    drew
}

// Draws values below p into a row, until it is full or no draw is left.
pub fn draw(stream: Sponge, left: usize, row: &mut [u64]) -> Draws
    requires { stream.at < 168 }
    ensures { DrewFrom p64 stream left result row.new }
{
    let mut bytes = [0u8; 8 * PIECE];
    draw_by(stream, left, &mut bytes, row)
}

// The same for a row that is to be full. Where no draw is left before it is, it has zeros.
pub fn draw_row(stream: Sponge, left: usize, row: &mut [u64]) -> Draws
    requires { stream.at < 168 }
    ensures { DrewRow p64 (to_come p64 left stream) result row.new }
{
    let drew = draw(stream, left, row);
    if drew.count < row.len() {
        rows::zero_row(row);
        return drew;
    }
    drew
}

// Whether so many values below p are among those that may still be drawn.
pub fn has_values(stream: Sponge, left: usize, wanted: usize) -> bool
    requires { stream.at < 168 }
    ensures { result ≡ leb wanted (length (to_come p64 left stream)) }
{
    let mut spare = [0u64; PIECE];
    let mut state = stream;
    let mut draws = left;
    let mut rest = wanted;
    // Each step takes the draws that the one before left.
    while 0 < rest {
        let n = groups::at_most(rest, PIECE);
        let drew = draw(state, draws, &mut spare[..n]);
        if drew.count < n {
            return false;
        }
        state = drew.stream;
        draws = drew.left;
        rest -= n;
    }
    true
}

// ---- from a stream that is lent

// How many values of a row of bytes are below p.
fn count_values(bytes: &[u8]) -> usize
    ensures { result ≡ length (values_of p64 (length bytes.now / 8) bytes.now) }
{
    let mut count = 0;
    for value in bytes.chunks_exact(8) {
        count += (octets::number8(value) < field64::P) as usize;
    }
    count
}

// Fills a row with the first values below p of a row of bytes that has so many.
fn take_values(bytes: &[u8], row: &mut [u64])
    requires { length row.old ≤ length (values_of p64 (length bytes.now / 8) bytes.now) }
    ensures { row.new ≡ take (length row.old) (values_of p64 (length bytes.now / 8) bytes.now) }
{
    let mut used = 0;
    let mut count = 0;
    // The steps are as many as skipped values make necessary.
    while count < row.len() {
        let n = groups::at_most(row.len() - count, bytes.len() / 8 - used);
        let at = 8 * used;
        let end = at + 8 * n;
        let stop = count + n;
        count += read_and_keep(&bytes[at..end], &mut row[count..stop]);
        used += n;
    }
}

// Samples a share from a lent stream of exactly as many bytes as are drawn at most.
pub fn sample(param: PineParam, stream: &[u8], share: &mut [u64]) -> Answer
    ensures { outcome result share.new ≡ sample_of Field64 param stream.now share.old }
{
    let inputs = params::check_param(param);
    if inputs.number != 0 {
        return inputs;
    }
    let pine = Pine::new(param);
    let most = pine.encoded_input_len + MORE_DRAWS;
    let row_1 = rows::check_len(1, stream.len(), 8 * most);
    let row_2 = rows::check_len(2, share.len(), pine.encoded_input_len);
    let early = row_1.or(row_2);
    if early.number != 0 {
        return early;
    }
    let late = Answer::refuse_if(count_values(stream) < share.len(), rules::DRAWS, 0);
    if late.number != 0 {
        return late;
    }
    take_values(stream, share);
    late
}
