// The commands that cut a report in two, and that sample a share alone.
use answers::print::{Bytes, Elements};
use answers::{Answered, answer_lent};
use case_inputs::{Case, Lens};
use lines::field::Field;
use lines::row;
use std::io::Write;

// The bytes of the two seeds that are given.
const GIVEN: u64 = 32;

#[inline(never)]
pub fn cut<W: Write>(mut case: Case<'_>, out: &mut W) -> Answered {
    let mut gradient = [0.0f64; 8192];
    let mut nonce = [0u8; 262144];
    let mut seeds = [0u8; 262144];
    let mut leader = [0u64; 16384];
    let mut helper = [0u64; 16384];
    let mut given = [0u8; 262144];
    let param = case.param()?;
    let gradient = case.words.doubles(&mut gradient)?;
    let nonce = case.words.bytes(&mut nonce)?;
    let seeds = case.words.bytes(&mut seeds)?;
    let len = Lens::of(Field::Field64, param).measurement;
    let [l, h, g] = case.words.end_with([len, len, GIVEN])?;
    let leader = row::lend(&mut leader, l)?;
    let helper = row::lend(&mut helper, h)?;
    let given = row::lend(&mut given, g)?;
    let answer = cut::cut(param, gradient, nonce, seeds, leader, helper, given);
    let kept = row::is_filled(leader) && row::is_filled(helper) && row::is_filled(given);
    let leader = Elements(Field::Field64, leader);
    let helper = Elements(Field::Field64, helper);
    let given = Bytes(given);
    answer_lent(out, answer, kept, format_args!("{leader} {helper} {given}"))
}

#[inline(never)]
pub fn sample<W: Write>(mut case: Case<'_>, out: &mut W) -> Answered {
    let mut stream = [0u8; 262144];
    let mut share = [0u64; 16384];
    let param = case.param()?;
    let stream = case.words.bytes(&mut stream)?;
    let lens = Lens::of(Field::Field64, param);
    let [len] = case.words.end_with([lens.measurement])?;
    let share = row::lend(&mut share, len)?;
    let answer = sampler::sample(param, stream, share);
    let kept = row::is_filled(share);
    answer_lent(out, answer, kept, Elements(Field::Field64, share))
}
