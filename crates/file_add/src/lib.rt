// Adding a report to a day's file (docs/PINE.md, "The day's file"). The public call takes any arguments; a function
// named check_* decides its answer and writes nothing.
#![tactic(auto)]

ghost use Rattle.std.specs.Prelude.{◌≡◌, true, false, cond, not, ◌&&◌, leb, ◌+◌, ◌-◌, ◌*◌, ◌≤◌, ◌<◌, ◌^◌, length, take, drop};
ghost use Rattle.rules.specs.Rules.{refuse, first};
ghost use Rattle.field64.specs.Field.{p64};
ghost use Rattle.rows.specs.Rows.{row_rule, elements_rule, Below};
ghost use Rattle.octets.specs.Octets.{from_bytes, element_bytes, elements_in, pasted, filled};
ghost use Rattle.entries.specs.File.{key_in, rising, count_in, keys_in, entries_in, is_file, held, file_of, added};
ghost use Rattle.file_add.specs.Add.{add_answer, add_outcome, add_of};
ghost use Rattle.file_add.specs.Steps.{place_of, place_in, place_rules, contents_with, body_with, bodies_with, AddReady};

use day_file::FileLen;
use pine::PineParam;
use rules::Answer;

// Where a key is in contents, or would be: an index, whether the key is there, and its reports, 0 if not.
#[derive(Clone, Copy)]
pub struct Place {
    pub index: usize,
    pub held: bool,
    pub reports: u64,
}

// The count of reports of entry i of contents.
fn reports_at(contents: &[u8], i: usize) -> u64
    requires { 12 * i + 12 ≤ length contents.now }
    ensures { (result ≡ from_bytes (take 4 (drop 8 (drop (12 * i) contents.now)))) × (result < 2 ^ 32) }
{
    let at = 12 * i;
    octets::number4(
        contents[at + 8],
        contents[at + 9],
        contents[at + 10],
        contents[at + 11],
    )
}

fn place_of(contents: &[u8], count: usize, key: u64) -> Place
    requires { (length contents.now ≡ 12 * count) × (rising (keys_in count contents.now) ≡ true) }
    ensures { (result ≡ place_of count contents.now key) × (result.reports < 2 ^ 32) }
{
    let index = entries::find(contents, count, key);
    if index < count {
        let there = entries::key_at(contents, index);
        if there == key {
            let reports = reports_at(contents, index);
            return Place {
                index,
                held: true,
                reports,
            };
        }
    }
    Place {
        index,
        held: false,
        reports: 0,
    }
}

// In a file.
fn place_in(file: &[u8], dimension: u64, key: &[u8]) -> Place
    requires { (is_file p64 dimension file.now ≡ true) × (8 ≤ length key.now) }
    ensures { (result ≡ place_in file.now (key_in key.now)) × (result.reports < 2 ^ 32) }
{
    let count = layout::count_of(file);
    let start = 6 + 12 * (count as usize);
    place_of(&file[6..start], count as usize, entries::key_number(key))
}

// ---- rules

// Rules 15 and 16.
fn check_place(count: u64, place: Place) -> Answer
    ensures { result ≡ place_rules count place }
{
    let room = check_room(count, place.held);
    let reports = Answer::refuse_if(
        place.reports == 4294967295,
        rules::REPORT_COUNT,
        place.index as u64,
    );
    room.or(reports)
}

fn check_room(count: u64, held: bool) -> Answer
    ensures { result ≡ refuse (not held && leb 1024 count) 15 0 }
{
    if held {
        return Answer::accepted();
    }
    Answer::refuse_if(1024 <= count, rules::FILE_FULL, 0)
}

// Rule 7, of the share and the second row.
fn check_lens(dimension: u64, old: usize, share: usize, second: usize) -> Answer
    requires { (dimension ≤ 65536) × (old < 2 ^ 63) }
    ensures { result ≡ first (row_rule 2 share dimension) (row_rule 3 second (old + (12 + 8 * dimension))) }
{
    let share_len = rows::check_len(2, share, dimension);
    let second_len = rows::check_len(3, second, old as u64 + (12 + 8 * dimension));
    share_len.or(second_len)
}

// The rules after 14.
fn check_report(dimension: u64, key: &[u8], old: &[u8], share: &[u64]) -> Answer
    requires { (is_file p64 dimension old.now ≡ true) × (8 ≤ length key.now) }
    ensures { result ≡ first (elements_rule p64 share.now) (place_rules (count_in old.now) (place_in old.now (key_in key.now))) }
{
    let elements = rows::check_elements(share, 0);
    let count = layout::count_of(old);
    let place = place_in(old, dimension, key);
    let report = check_place(count, place);
    elements.or(report)
}

fn check_add(param: PineParam, key: &[u8], old: &[u8], share: &[u64], second: usize) -> Answer
    requires { length key.now ≡ 8 }
    ensures { result ≡ add_answer param key.now old.now share.now second }
{
    let inputs = params::check_param(param);
    if inputs.number != 0 {
        return inputs;
    }
    let lens = check_lens(param.dimension, old.len(), share.len(), second);
    if lens.number != 0 {
        return lens;
    }
    let file = layout::check_file(param.dimension, old);
    if file.number != 0 {
        return file;
    }
    check_report(param.dimension, key, old, share)
}

// ---- writing

// Writes contents with an entry from index on, up to next.
fn put_contents(
    row: &mut [u8],
    at: usize,
    contents: &[u8],
    key: &[u8],
    reports: u64,
    index: usize,
    next: usize,
) -> usize
    requires index_le_next { (index ≤ next) × (12 * next ≤ length contents.now) }
    requires key_len { (length key.now ≡ 8) × (at + (12 * index + (12 + (length contents.now - 12 * next))) ≤ length row.old) }
    ensures { (row.new ≡ pasted at (contents_with contents.now key.now reports index next) row.old) × (result ≡ at + length (contents_with contents.now key.now reports index next)) }
{
    let from = 12 * index;
    let to = 12 * next;
    let key_at = octets::put_bytes(row, at, &contents[0..from]);
    let reports_at = octets::put_bytes(row, key_at, key);
    let rest_at = octets::put_number(row, reports_at, 4, reports);
    octets::put_bytes(row, rest_at, &contents[to..])
}

// Writes a body: a new one is the share, another its sum with the share.
fn put_body(row: &mut [u8], at: usize, old: &[u8], share: &[u64]) -> usize
    requires share_in_bounds { (at + 8 * length share.now ≤ length row.old) × (Below p64 share.now) }
    requires len { (length old.now ≡ 0 → ⊥) → (length old.now ≡ 8 * length share.now) × (Below p64 (elements_in (length share.now) old.now)) }
    ensures { (row.new ≡ pasted at (element_bytes (body_with old.now share.now)) row.old) × (result ≡ at + 8 * length share.now) }
{
    if old.len() == 0 {
        return octets::put_elements(row, at, share);
    }
    octets::put_sums(row, at, old, share)
}

// Writes bodies with a new one in the place of the bytes between from and to.
fn put_bodies(
    row: &mut [u8],
    at: usize,
    bodies: &[u8],
    share: &[u64],
    from: usize,
    to: usize,
) -> usize
    requires from_le_to { (from ≤ to) × (to ≤ length bodies.now) }
    requires to_in_bounds { (at + (from + (8 * length share.now + (length bodies.now - to))) ≤ length row.old) × (Below p64 share.now) }
    requires bodies_len { (length (take (to - from) (drop from bodies.now)) ≡ 0 → ⊥) → (length (take (to - from) (drop from bodies.now)) ≡ 8 * length share.now) × (Below p64 (elements_in (length share.now) (take (to - from) (drop from bodies.now)))) }
    ensures { (row.new ≡ pasted at (bodies_with bodies.now share.now from to) row.old) × (result ≡ at + length (bodies_with bodies.now share.now from to)) }
{
    let body_at = octets::put_bytes(row, at, &bodies[0..from]);
    let rest_at = put_body(row, body_at, &bodies[from..to], share);
    octets::put_bytes(row, rest_at, &bodies[to..])
}

// The index after a place's entry.
fn after(place: Place) -> usize
    requires { place.index < 65536 }
    ensures { result ≡ place.index + cond place.held 1 0 }
{
    if place.held {
        place.index + 1
    } else {
        place.index
    }
}

// Writes the file with the report added into the second row, and gives its length.
fn write_added(dimension: u64, key: &[u8], old: &[u8], share: &[u64], second: &mut [u8]) -> usize
    requires { AddReady dimension key.now old.now share.now (length second.old) }
    ensures { (second.new ≡ filled (file_of dimension (added p64 dimension key.now share.now (entries_in dimension old.now))) second.old) × (result ≡ length (file_of dimension (added p64 dimension key.now share.now (entries_in dimension old.now)))) }
{
    let count = layout::count_of(old);
    let start = 6 + 12 * (count as usize);
    let place = place_in(old, dimension, key);
    let index = place.index;
    let next = after(place);
    let unit = dimension as usize;
    let at = layout::put_header(second, count + 1 - (next - index) as u64, dimension);
    let bodies_at = put_contents(
        second,
        at,
        &old[6..start],
        key,
        place.reports + 1,
        index,
        next,
    );
    put_bodies(
        second,
        bodies_at,
        &old[start..],
        share,
        8 * (unit * index),
        8 * (unit * next),
    )
}

// Adds a report of a key to a file: its count is one more, its body the sum with the share; a new key
// starts from 0 and zeros. Writes the new file into the second row and gives its length.
pub fn file_add(
    param: PineParam,
    key: [u8; 8],
    old: &[u8],
    share: &[u64],
    second: &mut [u8],
) -> FileLen
    ensures { add_outcome result.answer result.len second.new ≡ add_of param key old.now share.now second.old }
{
    let answer = check_add(param, &key, old, share, second.len());
    if answer.number != 0 {
        return FileLen { answer, len: 0 };
    }
    let len = write_added(param.dimension, &key, old, share, second);
    FileLen {
        answer,
        len: len as u64,
    }
}
