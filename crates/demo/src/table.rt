// The table of a day, from what both servers' files hold: a line for each valve, with both controllers, and
// one for all valves. Of each sum it shows coordinate 0, as the two servers' bodies give it and as the gradients
// do, and whether the two rows are equal.
use crate::day_files::{Contents, Entry};
use crate::filing::Servers;
use crate::key::{Controller, Key, VALVES};
use crate::made_up;
use crate::refusal::{Failure, Refusal};
use crate::report::{DIMENSION, Gradient};
use std::io::Write;
use std::{fmt, io};

// A sum as the servers' aggregates give it, and as it should be.
#[derive(Clone, Copy)]
struct Compared {
    decoded: Gradient,
    expected: Gradient,
}

impl fmt::Display for Compared {
    fn fmt<W: fmt::Write>(&self, f: &mut fmt::Formatter<W>) -> fmt::Result {
        let decoded = self.decoded[0];
        let expected = self.expected[0];
        let equality = if self.decoded == self.expected {
            "equal"
        } else {
            "other"
        };
        write!(f, "     {decoded:6.2} {expected:6.2} {equality}")
    }
}

// The true sum over a controller's valves, but for the key that was withdrawn.
fn true_total(controller: Controller, withdrawn: Option<Key>) -> Gradient {
    let mut total = [0.0; DIMENSION];
    for valve in 0..VALVES {
        let key = Key { controller, valve };
        if withdrawn != Some(key) {
            let gradient = made_up::gradient(key);
            for (sum, &x) in total.iter_mut().zip(&gradient) {
                *sum += x;
            }
        }
    }
    total
}

fn of_key(servers: &Servers, key: Key) -> Result<Compared, Refusal> {
    Ok(Compared {
        decoded: servers.sum(key).decode()?,
        expected: made_up::gradient(key),
    })
}

fn of_controller(servers: &Servers, controller: Controller) -> Result<Compared, Refusal> {
    Ok(Compared {
        decoded: servers.total(controller)?.decode()?,
        expected: true_total(controller, None),
    })
}

// All valves of a controller, where a key is withdrawn after they were merged.
pub fn without<W: Write>(writer: &mut W, servers: &Servers, withdrawn: Key) -> Result<(), Failure> {
    let mut total = servers.total(withdrawn.controller)?;
    total.unmerge(&servers.sum(withdrawn))?;
    let compared = Compared {
        decoded: total.decode()?,
        expected: true_total(withdrawn.controller, Some(withdrawn)),
    };
    writeln!(writer, "  {compared} all valves, without it")?;
    Ok(())
}

// A key that was filed again.
pub fn filed_again<W: Write>(writer: &mut W, servers: &Servers, again: Key) -> Result<(), Failure> {
    let compared = of_key(servers, again)?;
    writeln!(writer, "  {compared} its valve")?;
    Ok(())
}

// What is left of a key.
pub fn nothing_left<W: Write>(writer: &mut W, servers: &Servers, key: Key) -> Result<(), Failure> {
    let compared = Compared {
        decoded: servers.sum(key).decode()?,
        expected: [0.0; DIMENSION],
    };
    writeln!(writer, "  {compared} its valve")?;
    Ok(())
}

// An entry of both files: with what its two bodies begin, which alone is random, and what they give together.
pub fn bodies<W: Write>(
    writer: &mut W,
    contents: &Contents,
    servers: &Servers,
    key: Key,
) -> Result<(), Failure> {
    let Entry {
        address,
        valve,
        reports,
    } = contents.entry(key);
    let sum = servers.sum(key);
    let leader = sum.leader[0];
    let helper = sum.helper[0];
    let decoded = sum.decode()?[0];
    writeln!(
        writer,
        "{address}, valve {valve}, reports {reports}: its bodies begin with {leader:016x} and {helper:016x}, together{decoded:6.2}"
    )?;
    Ok(())
}

fn head<W: Write>(writer: &mut W, contents: &Contents) -> io::Result<()> {
    let first = contents.entry(Key::at(0)).address;
    let second = contents.entry(Key::at(VALVES)).address;
    writeln!(
        writer,
        "coordinate 0 of each sum, and whether all 3 are equal"
    )?;
    writeln!(writer, "      controller 1            controller 2")?;
    writeln!(writer, "      {first}       {second}")?;
    writeln!(writer, "valve decoded   true          decoded   true")
}

pub fn print<W: Write>(
    writer: &mut W,
    contents: &Contents,
    servers: &Servers,
) -> Result<(), Failure> {
    head(writer, contents)?;
    for valve in 0..VALVES {
        let one = Key::at(valve);
        let number = contents.entry(one).valve;
        let first = of_key(servers, one)?;
        let second = of_key(servers, Key::at(VALVES + valve))?;
        writeln!(writer, "{number:2}{first}{second}")?;
    }
    let first = of_controller(servers, Controller::First)?;
    let second = of_controller(servers, Controller::Second)?;
    writeln!(writer, "  {first}{second} all valves, merged")?;
    Ok(())
}
