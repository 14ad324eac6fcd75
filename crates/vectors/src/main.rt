// Writes the outputs that the file stdout has from elsewhere, as oracle/vectors makes it: the RFC's examples, outputs
// about a block's end for messages about a block's end, and prio's XofTurboShake128.
#![tactic(auto)]

ghost use Rattle.std.specs.Prelude.{◌<◌, ◌≤◌};

use std::io;
use std::io::Write;
use turboshake::Sponge;

// Lengths about a block's end.
const LENGTHS: [usize; 8] = [0, 1, 167, 168, 169, 335, 336, 337];

// Fills a row with 0, 1, .., 250, 0, 1, ..
fn pattern(row: &mut [u8]) {
    for (i, byte) in row.iter_mut().enumerate() {
        *byte = (i % 251) as u8;
    }
}

// Writes a line with a row's bytes.
fn print<W: Write>(writer: &mut W, row: &[u8]) -> io::Result<()> {
    for byte in row {
        write!(writer, "{byte:02x}")?;
    }
    writeln!(writer)
}

// The state after n bytes of the pattern, which go in by rows.
fn absorb_pattern(n: usize) -> Sponge
    ensures { result.at < 168 }
{
    let mut row = [0; 251];
    pattern(&mut row);
    let mut sponge = Sponge::new();
    for _ in 0..n / 251 {
        sponge = sponge.absorb(&row);
    }
    sponge.absorb(&row[..n % 251])
}

// Writes the next 32 bytes of output.
fn show_next<W: Write>(writer: &mut W, sponge: Sponge) -> io::Result<()>
    requires { sponge.at < 168 }
{
    let mut out = [0; 32];
    sponge.fill(&mut out);
    print(writer, &out)
}

// Writes 32 bytes of output, those after 100 * rows bytes, which come out by rows.
fn show<W: Write>(writer: &mut W, message: Sponge, d: u8, rows: usize) -> io::Result<()>
    requires { message.at < 168 }
{
    let mut skipped = [0; 100];
    let mut sponge = message.finish(d);
    for _ in 0..rows {
        sponge = sponge.fill(&mut skipped);
    }
    show_next(writer, sponge)
}

// The RFC's examples.
fn show_examples<W: Write>(writer: &mut W) -> io::Result<()> {
    show(writer, absorb_pattern(0), 0x07, 0)?;
    show(writer, absorb_pattern(0), 0x07, 100)?;
    // The powers of 17.
    for n in [1, 17, 289, 4913, 83521, 1419857] {
        show(writer, absorb_pattern(n), 0x07, 0)?;
    }
    for length in [1, 3, 7] {
        show(writer, Sponge::new().absorb(&[0xff; 7][..length]), 0x06, 0)?;
    }
    Ok(())
}

// n bytes of output for m bytes of the pattern.
fn show_cut<W: Write>(writer: &mut W, m: usize, n: usize) -> io::Result<()>
    requires { (m ≤ 337) × (n ≤ 337) }
{
    let mut message = [0; 337];
    let mut out = [0; 337];
    pattern(&mut message);
    turboshake::turbo_shake128(&message[..m], 1, &mut out[..n]);
    print(writer, &out[..n])
}

fn show_cuts<W: Write>(writer: &mut W) -> io::Result<()> {
    for m in LENGTHS {
        for n in LENGTHS {
            show_cut(writer, m, n)?;
        }
    }
    Ok(())
}

// Of XofTurboShake128: seed, binder, usage and length go by k.
fn show_xof<W: Write>(writer: &mut W, k: usize) -> io::Result<()>
    requires { k < 64 }
{
    let mut row = [0; 448];
    let mut out = [0; 700];
    pattern(&mut row);
    let seed = xof::seed_of(&row[k..k + 16]);
    xof::fill(seed, (300 * k) as u16, &row[..7 * k], &mut out[..11 * k]);
    print(writer, &out[..11 * k])
}

fn show_xofs<W: Write>(writer: &mut W) -> io::Result<()> {
    for k in 0..64 {
        show_xof(writer, k)?;
    }
    Ok(())
}

// Of XofTurboShake128: a usage by its name, and a binder of so many bytes of the pattern and 42 numbers.
fn show_usage<W: Write>(writer: &mut W, usage: u16, before: usize) -> io::Result<()>
    requires { before ≤ 251 }
{
    let mut row = [0; 251];
    pattern(&mut row);
    let numbers = [0x0123_4567_89ab_cdef; 42];
    let binder = xof::init([5; 16], usage)
        .absorb(&row[..before])
        .absorb_words(&numbers);
    show_next(writer, xof::into_seed_stream(binder))
}

fn main(rt: HostRuntime) -> io::Result<()> {
    let mut writer = io::writer(&rt);
    show_examples(&mut writer)?;
    show_cuts(&mut writer)?;
    show_xofs(&mut writer)?;
    show_usage(&mut writer, xof::USAGE_MEAS_SHARE, 0)?;
    show_usage(&mut writer, xof::USAGE_VF_JOINT_RAND_SEED, 1)?;
    show_usage(&mut writer, xof::USAGE_VF_JOINT_RAND_PART, 17)?;
    show_usage(&mut writer, xof::USAGE_WR_JOINT_RAND, 20)?;
    show_usage(&mut writer, xof::USAGE_WR_JOINT_RAND_SEED, 141)?;
    show_usage(&mut writer, xof::USAGE_WR_JOINT_RAND_PART, 143)
}
