// The command on a load: the text of one, and what the program load writes for it.
use answers::print::Bytes;
use answers::{Answered, answer_lent};
use case_inputs::Case;
use lines::row;
use std::io::Write;

#[inline(never)]
pub fn load<W: Write>(mut case: Case<'_>, out: &mut W) -> Answered {
    let mut text = [0u8; 262144];
    let mut report = [0u8; load_report::MAX_REPORT_LEN];
    let text = case.words.bytes(&mut text)?;
    let derived = load_report::report_len(text) as u64;
    let [len] = case.words.end_with([derived])?;
    let report = row::lend(&mut report, len)?;
    let answer = load_report::write_report(text, report);
    let kept = row::is_filled(report);
    answer_lent(out, answer, kept, Bytes(report))
}
