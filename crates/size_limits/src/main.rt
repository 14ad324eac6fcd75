// The exact size at its limits: 1024 keys and 1025; and, since nobody runs a list of 2^32 reports, rule 16 by
// the same function with a smaller largest count. Dimension 1, so 20 bytes an entry. The file stdout has the
// answers, worked out by hand.
#![tactic(auto)]

ghost use Rattle.std.specs.Prelude.{◌<◌};

use day_file::FileLen;
use pine::PineParam;
use std::io;
use std::io::Write;

fn print<W: Write>(writer: &mut W, size: FileLen) -> io::Result<()> {
    let answer = size.answer;
    if answer.number == 0 {
        writeln!(writer, "ok {}", size.len)
    } else {
        writeln!(writer, "refused {} {}", answer.number, answer.place)
    }
}

fn show<W: Write>(writer: &mut W, keys: &[u8], most: u32) -> io::Result<()>
    requires { 0 < most }
{
    print(
        writer,
        file_size::size_up_to(PineParam::standard(1, 1, 0, 1, 1, 1, 1), keys, most),
    )
}

// Of the first keys, in so many bytes.
fn show_first<W: Write>(writer: &mut W, keys: &[u8], n: usize) -> io::Result<()> {
    if n <= keys.len() {
        show(writer, &keys[..n], 1)?;
    }
    Ok(())
}

// Keys that rise, in a row of zeros.
fn fill(keys: &mut [u8]) {
    for i in 0..keys.len() / 8 {
        keys[8 * i] = (i / 256 % 256) as u8;
        keys[8 * i + 1] = (i % 256) as u8;
    }
}

fn main(rt: HostRuntime) -> io::Result<()> {
    let mut writer = io::writer(&rt);
    show(&mut writer, b"", 1)?;
    show(
        &mut writer,
        b"farm-3v1farm-3v1farm-1v1farm-2v1farm-3v1farm-1v1",
        1,
    )?;
    show(
        &mut writer,
        b"farm-3v1farm-3v1farm-1v1farm-2v1farm-3v1farm-1v1",
        2,
    )?;
    show(
        &mut writer,
        b"farm-3v1farm-3v1farm-1v1farm-2v1farm-3v1farm-1v1",
        3,
    )?;
    show(
        &mut writer,
        b"farm-3v1farm-3v1farm-1v1farm-2v1farm-3v1farm-1v",
        3,
    )?;
    let mut keys = [0u8; 8200];
    fill(&mut keys);
    show_first(&mut writer, &keys, 8192)?;
    show_first(&mut writer, &keys, 8200)
}
