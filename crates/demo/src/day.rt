// A day's reports, one of each key, in the keys' order.
use crate::day_files::DayFile;
use crate::key::{KEYS, Key};
use crate::refusal::Refusal;
use crate::report;
use crate::report::{ENCODED_LEN, INPUT_LEN, Report, param};

// What a row that was left from the last caller holds.
const LEFT_OVER: u64 = 0xa5a5_a5a5_a5a5_a5a5;

const LEFT_OVER_BYTE: u8 = 0xa5;

// How many valves report again on the second day.
pub const AGAIN: usize = 6;

#[derive(Drop)]
pub struct Day {
    pub reports: [Report<INPUT_LEN>; KEYS],
}

impl Day {
    // Fresh rows.
    pub fn fresh() -> Day {
        Day {
            reports: std::array::from_fn(|index| Report::filled(Key::at(index), 0, 0)),
        }
    }

    pub fn report(&self, key: Key) -> &Report<INPUT_LEN> {
        &self.reports[key.index()]
    }

    // The first day: how many reports were made, and are valid.
    pub fn first(&mut self) -> usize {
        let mut valid = 0;
        for report in self.reports.iter_mut() {
            if report.is_made(param()) {
                valid += 1;
            }
        }
        valid
    }

    // The second day, of the first valves of controller 1, in one set of rows, which are not fresh: how many reports
    // equal, element by element, the ones that were made in fresh rows.
    pub fn second(&self) -> usize {
        let mut again = Report::filled(Key::at(0), LEFT_OVER, LEFT_OVER_BYTE);
        let mut same = 0;
        for report in &self.reports[..AGAIN] {
            again.key = report.key;
            if again.cut(param()).is_ok() && is_cut_as(&again, report) {
                same += 1;
            }
        }
        same
    }

    // A damaged report: in the leader's share of a key an element is p, which is no field number. The tests and the
    // adding refuse it, and no row is changed.
    pub fn damaged(&self, key: Key, file: &DayFile) -> Result<(), Refusal> {
        let mut report = *self.report(key);
        report.leader[2] = field64::P;
        let tested = report::test(param(), &report.given, &mut report.leader);
        let filed = file.with(key, &report.leader);
        tested.and(filed).map(|_| ())
    }
}

// Whether two reports are the same in what the client sent.
fn is_cut_as(a: &Report<INPUT_LEN>, b: &Report<INPUT_LEN>) -> bool {
    a.leader[..ENCODED_LEN] == b.leader[..ENCODED_LEN]
        && a.helper[..ENCODED_LEN] == b.helper[..ENCODED_LEN]
        && a.given == b.given
}
