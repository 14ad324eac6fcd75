// A trial block of young trees, with tighter margins: another multiplier of the wraparound tests' bound.
use crate::filing::Servers;
use crate::key::Key;
use crate::refusal::Outcome;
use crate::report;
use crate::report::Report;
use pine::{PineParam, WrTestRule};

// A full share of these parameters.
const INPUT_LEN: usize = 25;

// The inputs of report.rt, with the multiplier 1/3 in place of 87/10. Of the two tests one must succeed.
pub fn param(wr_test_rule: WrTestRule) -> PineParam {
    PineParam {
        num_wr_successes: 1,
        alpha_numerator: 1,
        alpha_denominator: 3,
        wr_test_rule,
        ..report::param()
    }
}

// 10. A smaller bound makes a shorter measurement. It also refuses more reports, whose tests have results
// beyond it: such a client takes other seeds.
pub fn cut(key: Key) -> Outcome {
    let mut report = Report::<INPUT_LEN>::filled(key, 0, 0);
    Outcome {
        result: report.cut(param(WrTestRule::Every)),
        accepted: "cut",
    }
}

// 11. Or one test of two is enough: the one that misses is written as zeros, and the servers find the report
// valid. Whether it was filed.
pub fn is_filed(key: Key, servers: &mut Servers) -> bool {
    let param = param(WrTestRule::Enough);
    let mut report = Report::<INPUT_LEN>::filled(key, 0, 0);
    report.is_made(param) && servers.add(param, &report).is_ok()
}
