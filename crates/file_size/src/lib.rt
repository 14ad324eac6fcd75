// The exact size of a day's file from the keys of its reports (docs/PINE.md, "The day's file"), with no row but the keys
// and no heap. The public call takes any arguments.
#![tactic(auto)]

ghost use Rattle.std.specs.Prelude.{◌≡◌, true, [], ◌+◌, ◌*◌, ◌/◌, ◌≤◌, ◌<◌, length, get_or, take};
ghost use Rattle.rules.specs.Rules.{first};
ghost use Rattle.pine.specs.Param.{Field64, param_answer};
ghost use Rattle.rows.specs.Rows.{row_rule};
ghost use Rattle.entries.specs.File.{rising, held, index};
ghost use Rattle.file_size.specs.Size.{size_up_to, size_of};
ghost use Rattle.file_size.specs.Steps.{run, run_of, numbers_in, moved, Again, Begun, Holding, Stepped};

use day_file::FileLen;
use pine::PineParam;
use rules::Answer;

// How many keys and counts are held after a key, or the refusal that it meets.
#[derive(Clone, Copy)]
pub struct Step {
    pub answer: Answer,
    pub held: usize,
}

// The index of the first of n keys that is not below key; the n keys rise.
fn find(keys: &[u64], n: usize, key: u64) -> usize
    requires { (n ≤ length keys.now) × (rising (take n keys.now) ≡ true) }
    ensures { result ≡ index key (take n keys.now) }
{
    // By hand: the library's `partition_point` takes each half by its data, without a branch, and took up to four times as
    // long where the keys of a day come in turn.
    let mut low = 0;
    let mut high = n;
    while low < high {
        let middle = low + (high - low) / 2;
        if keys[middle] < key {
            low = middle + 1;
        } else {
            high = middle;
        }
    }
    low
}

// Whether the key is among the n keys, i being the index of the first that is not below it.
fn is_at(keys: &[u64], n: usize, i: usize, key: u64) -> bool
    requires { (n ≤ length keys.now) × (i ≡ index key (take n keys.now)) }
    ensures { result ≡ held key (take n keys.now) }
{
    i < n && keys[i] == key
}

// Puts x in at i, and moves what follows up to n by one.
fn insert(row: &mut [u64], i: usize, n: usize, x: u64)
    requires { (i ≤ n) × (n < length row.old) }
    ensures { row.new ≡ moved i n x row.old }
{
    let mut carried = x;
    let mut at = i;
    // By steps: of `copy_within` LLVM makes a call of memmove, which the archive may not take from a C library.
    while at <= n {
        let next = row[at];
        row[at] = carried;
        carried = next;
        at += 1;
    }
}

// Counts one report more of the key at i.
fn again(counts: &mut [u64], n: usize, i: usize, most: u32) -> Step
    requires { (i < length counts.old) × (get_or counts.old i 0 ≤ most) }
    ensures { Again most counts.old n i result.answer result.held counts.new }
{
    let count = counts[i];
    if count == most as u64 {
        return Step {
            answer: Answer {
                number: rules::REPORT_COUNT,
                place: i as u64,
            },
            held: n,
        };
    }
    counts[i] = count + 1;
    Step {
        answer: Answer::accepted(),
        held: n,
    }
}

// Takes in a new key at i, where there is room.
fn begin(keys: &mut [u64], counts: &mut [u64], n: usize, i: usize, key: u64) -> Step
    requires { (i ≤ n) × (length keys.old ≡ 1024) × (length counts.old ≡ 1024) × (n ≤ 1024) }
    ensures { Begun keys.old counts.old n i key result.answer result.held keys.new counts.new }
{
    if 1024 <= n {
        return Step {
            answer: Answer {
                number: rules::FILE_FULL,
                place: 0,
            },
            held: n,
        };
    }
    insert(keys, i, n, key);
    insert(counts, i, n, 1);
    Step {
        answer: Answer::accepted(),
        held: n + 1,
    }
}

// One key more.
fn take_key(keys: &mut [u64], counts: &mut [u64], n: usize, key: u64, most: u32) -> Step
    requires { Holding most keys.old counts.old n }
    ensures { Stepped most keys.old counts.old n key result.answer result.held keys.new counts.new }
{
    let i = find(keys, n, key);
    if is_at(keys, n, i, key) {
        return again(counts, n, i, most);
    }
    begin(keys, counts, n, i, key)
}

// Counts the keys of a list in two rows of 1024.
fn count_in(list: &[u8], keys: &mut [u64], counts: &mut [u64], most: u32) -> Step
    requires { (length keys.old ≡ 1024) × (length counts.old ≡ 1024) × (0 < most) }
    ensures { (run result.answer result.held ≡ run_of most [] [] (numbers_in (length list.now / 8) list.now)) × (result.held ≤ 1024) }
{
    let total = list.len() / 8;
    let mut n = 0;
    for i in 0..total {
        let at = 8 * i;
        let key = entries::key_number(&list[at..at + 8]);
        let next = take_key(keys, counts, n, key, most);
        if next.answer.number != 0 {
            return Step {
                answer: next.answer,
                held: 0,
            };
        }
        n = next.held;
    }
    Step {
        answer: Answer::accepted(),
        held: n,
    }
}

// The same in two rows of its own, 16 KiB.
fn count_keys(list: &[u8], most: u32) -> Step
    requires { 0 < most }
    ensures { (run result.answer result.held ≡ run_of most [] [] (numbers_in (length list.now / 8) list.now)) × (result.held ≤ 1024) }
{
    let mut keys = [0u64; 1024];
    let mut counts = [0u64; 1024];
    count_in(list, &mut keys, &mut counts, most)
}

// Rules 1 to 7.
fn check_list(param: PineParam, len: usize) -> Answer
    ensures { result ≡ first (param_answer Field64 param) (row_rule 1 len (8 * (len / 8))) }
{
    let inputs = params::check_param(param);
    let list_len = rows::check_len(1, len, 8 * (len as u64 / 8));
    inputs.or(list_len)
}

// The exact length of the file that adding reports of these keys makes, or the refusal that adding
// would meet first, where a key has `most` reports at most. Internal: a small limit makes rule 16 run.
pub fn size_up_to(param: PineParam, keys: &[u8], most: u32) -> FileLen
    requires { 0 < most }
    ensures { result ≡ size_up_to most param keys.now }
{
    let inputs = check_list(param, keys.len());
    if inputs.number != 0 {
        return FileLen {
            answer: inputs,
            len: 0,
        };
    }
    let counted = count_keys(keys, most);
    if counted.answer.number != 0 {
        return FileLen {
            answer: counted.answer,
            len: 0,
        };
    }
    FileLen {
        answer: counted.answer,
        len: layout::file_len(param.dimension, counted.held as u64),
    }
}

// The same for a file, whose counts have 32 bits.
pub fn file_size(param: PineParam, keys: &[u8]) -> FileLen
    ensures { result ≡ size_of param keys.now }
{
    size_up_to(param, keys, 4294967295)
}
