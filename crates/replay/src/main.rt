// Reads cases from standard input, one a line, and writes a line for each: what the library answers,
// or `bad` for a malformed case. Blank lines and lines that begin with # have no answer.
#![tactic(auto)]

use answers::buffered::Buffered;
use std::io;
use std::io::{Read, Write};

mod cases;
mod cuts;
mod loads;
mod values;

ghost use Rattle.std.specs.Prelude.{◌<◌, ◌≤◌, length, IfOk, IfSome};

// How far the input is read.
#[derive(Clone, Copy)]
struct Progress {
    // How many bytes of the buffer are of a line whose end is still to come.
    have: usize,
    // Whether they are of a line that is too long for the buffer, and was answered.
    skipping: bool,
}

// The place of the first newline from `from` on.
fn line_end(bytes: &[u8], from: usize) -> Option<usize>
    requires { from ≤ length bytes.now }
    ensures { IfSome result (λ end. end < length bytes.now) }
{
    let end = bytes[from..].iter().position(|b| *b == b'\n')?;
    Some(from + end)
}

// Answers each line that ends among the bytes: none ends before progress.have.
fn answer_lines<W: Write>(bytes: &[u8], progress: Progress, out: &mut W) -> io::Result<Progress>
    requires { progress.have ≤ length bytes.now }
    ensures { IfOk result (λ next. next.have ≤ length bytes.now) }
{
    let mut rest = bytes;
    let mut searched = progress.have;
    let mut skipping = progress.skipping;
    // By no split of all bytes, since the first of them are searched already.
    while let Some(end) = line_end(rest, searched) {
        if !skipping {
            cases::answer(&rest[..end], out)?;
        }
        skipping = false;
        rest = &rest[end + 1..];
        searched = 0;
    }
    Ok(Progress {
        have: rest.len(),
        skipping,
    })
}

fn replay<R: Read, W: Write>(reader: &mut R, buffer: &mut [u8], out: &mut W) -> io::Result<()> {
    let mut progress = Progress {
        have: 0,
        skipping: false,
    };
    // A proved loop has to end, and nothing says that the input does: no run uses up so many turns.
    for _ in 0..u64::MAX {
        let had = progress.have;
        let end = had + reader.read(&mut buffer[had..])?;
        if end == had {
            if !progress.skipping {
                cases::answer(&buffer[..had], out)?;
            }
            break;
        }
        progress = answer_lines(&buffer[..end], progress, out)?;
        if progress.have == buffer.len() {
            // A line fills the whole buffer: it is answered at once, and what follows of it is skipped.
            if !progress.skipping {
                cases::bad(out)?;
            }
            progress = Progress {
                have: 0,
                skipping: true,
            };
        }
        buffer.copy_within(end - progress.have..end, 0);
    }
    out.flush()
}

// A line is answered where it and its newline fit the input buffer.
fn main(rt: HostRuntime) -> io::Result<()> {
    let mut input = [0u8; 1048576];
    let mut output = [0u8; 65536];
    let mut writer = io::writer(&rt);
    let mut out = Buffered::new(&mut writer, &mut output);
    replay(&mut rt.reader(), &mut input, &mut out)
}
