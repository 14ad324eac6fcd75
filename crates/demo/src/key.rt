// The keys of a day: a controller and one of its valves, two controllers with twelve valves each.
ghost use Rattle.std.specs.Prelude.{◌<◌};

use std::fmt;

pub const VALVES: usize = 12;

pub const KEYS: usize = 24;

#[derive(Clone, Copy, PartialEq, Eq)]
pub enum Controller {
    First,
    Second,
}

// Both are counted from 0, but printed from 1.
#[derive(Clone, Copy, PartialEq, Eq)]
pub struct Key {
    pub controller: Controller,
    pub valve: usize,
    ghost in_range: { valve < 12 },
}

// A controller's address, in hexadecimal with colons.
#[derive(Clone, Copy)]
pub struct Address(pub [u8; 6]);

impl Controller {
    fn number(self) -> u8 {
        match self {
            Controller::First => 1,
            Controller::Second => 2,
        }
    }
}

impl Key {
    // The key that stands so far behind the first, the valves of the first controller before those of the second.
    pub fn at(index: usize) -> Key {
        let controller = if index < VALVES {
            Controller::First
        } else {
            Controller::Second
        };
        Key {
            controller,
            valve: index % VALVES,
        }
    }

    pub fn index(self) -> usize
        ensures { result < 24 }
    {
        match self.controller {
            Controller::First => self.valve,
            Controller::Second => VALVES + self.valve,
        }
    }

    // The controller's address, and the number of the valve, low byte first.
    pub fn bytes(self) -> [u8; 8] {
        let valve = (self.valve + 1) as u8;
        [2, 0, 0, 0, 0, self.controller.number(), valve, 0]
    }
}

impl fmt::Display for Key {
    fn fmt<W: fmt::Write>(&self, f: &mut fmt::Formatter<W>) -> fmt::Result {
        let controller = self.controller.number();
        let valve = self.valve + 1;
        write!(f, "controller {controller}, valve {valve}")
    }
}

impl fmt::Display for Address {
    fn fmt<W: fmt::Write>(&self, f: &mut fmt::Formatter<W>) -> fmt::Result {
        let [a, b, c, d, e, g] = self.0;
        write!(f, "{a:02x}:{b:02x}:{c:02x}:{d:02x}:{e:02x}:{g:02x}")
    }
}
