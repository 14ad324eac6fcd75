// A day on the farm, a tutorial of the calls that take a report from its gradient to the sums: two controllers
// with twelve valves each, a report of each valve, two servers. report.rt, day_files.rt, filing.rt, trial.rt and
// probe.rt have the steps, numbered 1 to 12.
#![tactic(auto)]

mod day;
mod day_files;
mod filing;
mod key;
mod made_up;
mod probe;
mod refusal;
mod report;
mod table;
mod trial;

use crate::day::{AGAIN, Day};
use crate::day_files::DayFile;
use crate::filing::Servers;
use crate::key::{KEYS, Key, VALVES};
use crate::probe::SquaredNorm;
use crate::refusal::{Failure, Outcome};
use crate::report::Side;
use pine::WrTestRule;
use std::io;
use std::io::Write;

// Whether the lengths of the rows here are those that the parameters derive.
fn lengths_are_derived() -> bool {
    let derived = params::derive(report::param());
    let pine = derived.pine;
    derived.answer.number == 0
        && pine.dimension == report::DIMENSION as u64
        && pine.encoded_input_len == report::ENCODED_LEN as u64
        && pine.num_wr_tests == report::TESTS as u64
        && pine.input_len == report::INPUT_LEN as u64
        && derived.flp.joint_rand_len == 3
}

// Whether all reports are valid: a server files no other.
fn first_day<W: Write>(writer: &mut W, day: &mut Day) -> io::Result<bool> {
    writeln!(
        writer,
        "day 1: each report made with one call, in fresh rows"
    )?;
    let valid = day.first();
    writeln!(
        writer,
        "{valid} of {KEYS} reports cut, tested by both servers, and valid"
    )?;
    Ok(valid == KEYS)
}

// What the two servers' files hold: their contents, and their bodies.
fn show_files<W: Write>(writer: &mut W, leader: &DayFile, helper: &DayFile) -> Result<(), Failure> {
    let (contents, leader) = leader.read()?;
    let (helper_contents, helper) = helper.read()?;
    let servers = Servers { leader, helper };
    let reports = contents.all_reports();
    let helper_reports = helper_contents.all_reports();
    writeln!(
        writer,
        "the two servers' files, by address and valve: {reports} and {helper_reports} reports"
    )?;
    table::bodies(writer, &contents, &servers, Key::at(VALVES))?;
    table::print(writer, &contents, &servers)?;
    sums(writer, &servers)?;
    Ok(())
}

fn show_lengths<W: Write>(writer: &mut W, leader: &DayFile, helper: &DayFile) -> io::Result<()> {
    let leader_len = leader.bytes().len();
    let helper_len = helper.bytes().len();
    let most = day_file::file_max(report::param(), KEYS as u32).len;
    writeln!(
        writer,
        "each server files its shares alone: {leader_len} and {helper_len} bytes, at most {most}"
    )
}

fn filed<W: Write>(writer: &mut W, day: &Day) -> Result<(), Failure> {
    let leader = DayFile::of(&day.reports, Side::Leader)?;
    let helper = DayFile::of(&day.reports, Side::Helper)?;
    show_lengths(writer, &leader, &helper)?;
    show_files(writer, &leader, &helper)?;
    let key = Key::at(2);
    let damaged = Outcome {
        result: day.damaged(key, &leader),
        accepted: "filed",
    };
    writeln!(writer, "a damaged report of {key}: {damaged}")?;
    Ok(())
}

fn second_day<W: Write>(writer: &mut W, day: &Day) -> io::Result<()> {
    writeln!(
        writer,
        "day 2: controller 1, valves 1 to {AGAIN}: the same reports, in rows left from the last caller"
    )?;
    let same = day.second();
    writeln!(
        writer,
        "{same} of {AGAIN} reports equal, element by element, those made in fresh rows"
    )
}

fn sums<W: Write>(writer: &mut W, servers: &Servers) -> io::Result<()> {
    let equal = servers.true_keys();
    writeln!(
        writer,
        "{equal} of {KEYS} keys: the decoded row equals the true sums in all 3 coordinates"
    )
}

fn withdrawal<W: Write>(
    writer: &mut W,
    day: &Day,
    servers: &mut Servers,
    key: Key,
) -> Result<(), Failure> {
    writeln!(writer, "{key} withdraws after the sums have begun")?;
    table::without(writer, servers, key)?;
    servers.withdraw(day.report(key))?;
    table::nothing_left(writer, servers, key)
}

// A valve that files, and the next, whose test misses.
fn trial_block<W: Write>(
    writer: &mut W,
    servers: &mut Servers,
    key: Key,
    missing: Key,
) -> Result<(), Failure> {
    let pine = params::derive(trial::param(WrTestRule::Every)).pine;
    let bound = pine.wr_test_bound();
    let encoded_len = pine.encoded_input_len;
    writeln!(
        writer,
        "a trial block with the multiplier 1/3: the tests' bound is {bound}, not 64, and a measurement has {encoded_len} elements"
    )?;
    let first = trial::cut(key);
    let second = trial::cut(missing);
    let valve = missing.valve + 1;
    writeln!(writer, "{key}: {first}; valve {valve}: {second}")?;
    let filed = if trial::is_filed(missing, servers) {
        "cut, tested by both servers, valid and filed"
    } else {
        "not filed"
    };
    writeln!(
        writer,
        "where 1 of the 2 tests is enough, valve {valve}: {filed}"
    )?;
    table::filed_again(writer, servers, missing)
}

// The servers that keep their aggregates themselves.
fn aggregates<W: Write>(writer: &mut W, day: &Day) -> Result<(), Failure> {
    writeln!(
        writer,
        "two servers that keep their aggregates without a file"
    )?;
    let mut servers = Servers::of(&day.reports)?;
    sums(writer, &servers)?;
    let tenth = Key::at(9);
    withdrawal(writer, day, &mut servers, tenth)?;
    trial_block(writer, &mut servers, Key::at(8), tenth)
}

fn broken_probe<W: Write>(writer: &mut W) -> io::Result<()> {
    let reduced = probe::encode(SquaredNorm::Reduced);
    let bounded = probe::encode(SquaredNorm::True);
    writeln!(
        writer,
        "a broken probe, whose squared norm modulo p is 0: {reduced}; with the switch for the true one: {bounded}"
    )
}

fn whole_day<W: Write>(writer: &mut W) -> Result<(), Failure> {
    if !lengths_are_derived() {
        writeln!(
            writer,
            "the parameters derive other lengths than these rows have"
        )?;
        return Ok(());
    }
    writeln!(
        writer,
        "d 3, f 2, n 7, T 2, K 2: a measurement has 31 elements, a full share 33"
    )?;
    let mut day = Day::fresh();
    if first_day(writer, &mut day)? {
        filed(writer, &day)?;
        second_day(writer, &day)?;
        aggregates(writer, &day)?;
        broken_probe(writer)?;
    }
    Ok(())
}

fn main(rt: HostRuntime) -> io::Result<()> {
    let mut writer = io::writer(&rt);
    match whole_day(&mut writer) {
        Ok(()) => Ok(()),
        Err(Failure::Io(error)) => Err(error),
        Err(Failure::Refused(refusal)) => writeln!(writer, "a call was {refusal}"),
    }
}
