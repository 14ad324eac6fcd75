// A server's file of the day: its aggregates by the controller's whole address and the valve, so that two
// controllers whose valves have the same numbers stay apart.
ghost use Rattle.std.specs.Prelude.{◌≤◌};

use crate::filing::{Aggregates, gradient_part};
use crate::key::{Address, KEYS, Key, VALVES};
use crate::refusal::{Refusal, check};
use crate::report::{DIMENSION, INPUT_LEN, Report, Side, param};

// An entry has 12 bytes of contents, and three elements.
const CONTENTS: usize = 12;

const ENTRY: usize = 36;

// The bytes of a file with no entries.
const BEGUN: usize = 6;

// Room for the file of 25 keys: an entry more than there are.
const ROOM: usize = 906;

#[derive(Clone, Copy)]
pub struct DayFile {
    bytes: [u8; ROOM],
    len: usize,
    ghost in_room: { len ≤ 906 },
}

// The contents of a file's entries, in the keys' order.
#[derive(Clone, Copy)]
pub struct Contents {
    entries: [[u8; CONTENTS]; KEYS],
}

// What the contents of an entry say: a controller's address, a valve, and how many reports were added.
#[derive(Clone, Copy)]
pub struct Entry {
    pub address: Address,
    pub valve: u16,
    pub reports: u32,
}

impl DayFile {
    // A file is begun with no entries.
    fn begun() -> Result<DayFile, Refusal> {
        let mut bytes = [0; ROOM];
        check(day_file::file_write(param(), 0, &[], &[], &mut bytes[..BEGUN]))?;
        Ok(DayFile { bytes, len: BEGUN })
    }

    pub fn bytes(&self) -> &[u8] {
        &self.bytes[..self.len]
    }

    // 4. A server adds the gradient part of its full share to its file, by the key. The new file is in a second
    // row, which has room for an entry more.
    pub fn with(&self, key: Key, share: &[u64]) -> Result<DayFile, Refusal> {
        let gradient = gradient_part(param(), share)?;
        let room = self.len + ENTRY;
        if ROOM < room {
            return Err(Refusal::SHORT);
        }
        let mut bytes = [0; ROOM];
        let added = file_add::file_add(
            param(),
            key.bytes(),
            self.bytes(),
            gradient,
            &mut bytes[..room],
        );
        check(added.answer)?;
        let len = ROOM.min(added.len as usize);
        Ok(DayFile { bytes, len })
    }

    // A server files the shares of a day, alone. The controllers report in turn, one valve after the other.
    pub fn of(reports: &[Report<INPUT_LEN>; KEYS], side: Side) -> Result<DayFile, Refusal> {
        let mut file = DayFile::begun()?;
        let (ones, others) = reports.split_at(VALVES);
        for (one, other) in ones.iter().zip(others) {
            file = file.with(one.key, one.share(side))?;
            file = file.with(other.key, other.share(side))?;
        }
        Ok(file)
    }

    // 5. At the day's end a file is read: the contents of its entries, and their bodies, in the keys' order.
    pub fn read(&self) -> Result<(Contents, Aggregates), Refusal> {
        let mut contents = Contents {
            entries: [[0; CONTENTS]; KEYS],
        };
        let mut bodies = Aggregates {
            rows: [[0; DIMENSION]; KEYS],
        };
        check(day_file::file_read(
            param(),
            self.bytes(),
            contents.entries.as_flattened_mut(),
            bodies.rows.as_flattened_mut(),
        ))?;
        Ok((contents, bodies))
    }
}

impl Contents {
    pub fn entry(&self, key: Key) -> Entry {
        entry_of(self.entries[key.index()])
    }

    // The reports of all keys.
    pub fn all_reports(&self) -> u32 {
        self.entries.iter().fold(
            0,
            |n: u32, &contents| n.saturating_add(entry_of(contents).reports),
        )
    }
}

fn entry_of(contents: [u8; CONTENTS]) -> Entry {
    let [a, b, c, d, e, f, v, w, r, s, t, u] = contents;
    Entry {
        address: Address([a, b, c, d, e, f]),
        valve: u16::from_le_bytes([v, w]),
        reports: u32::from_le_bytes([r, s, t, u]),
    }
}
