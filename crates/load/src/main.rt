// Reads the text of a load from standard input, and writes its report (docs/LOAD.md).
#![tactic(auto)]

ghost use Rattle.std.specs.Prelude.{◌≡◌, ◌≤◌, IfOk, length};

use std::io;
use std::io::{Read, Write};

// More bytes than the text of a load can have (`long_nothing`, load_report/proofs/Reported.antt): where the input has more, both
// it and these are other text.
const TEXT: usize = 256;

// Writes the report of a text, with a row that has room for it.
fn answer<W: Write>(writer: &mut W, text: &[u8], out: &mut [u8]) -> io::Result<()>
    requires { length out.old ≡ 15744 }
{
    let n = load_report::report_len(text);
    load_report::write_report(text, &mut out[..n]);
    writer.write_all(&out[..n])
}

// Fills a row from its start, and answers how many bytes came: fewer than it has only where the input ended.
fn read_full<R: Read>(reader: &mut R, row: &mut [u8]) -> io::Result<usize>
    ensures { IfOk result (λ n. n ≤ length row.new) }
{
    let mut have = 0;
    // No count: a read gives as many bytes as it has.
    while have < row.len() {
        let got = reader.read(&mut row[have..])?;
        if got == 0 {
            return Ok(have);
        }
        have += got;
    }
    Ok(have)
}

fn main(rt: HostRuntime) -> io::Result<()> {
    let mut text = [0u8; TEXT];
    let mut out = [0u8; load_report::MAX_REPORT_LEN];
    let n = read_full(&mut rt.reader(), &mut text)?;
    answer(&mut io::writer(&rt), &text[..n], &mut out)
}
