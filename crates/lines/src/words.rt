// Reads the words of a line. Runs of ASCII whitespace part them.
ghost use Rattle.std.specs.Prelude.{◌≤◌, ◌<◌, IfOk};

use crate::field::Field;
use crate::patterns::double_of;
use crate::row;
use std::num::TryFromIntError;

// A word is missing, or is not of the form asked for, or is one too many.
#[derive(Clone, Copy)]
pub struct Malformed;

impl From<TryFromIntError> for Malformed {
    fn from(_error: TryFromIntError) -> Malformed {
        Malformed
    }
}

// The value of a digit.
fn digit<const BASE: u32>(b: u8) -> Result<u32, Malformed>
    requires least { 2 ≤ BASE }
    requires most { BASE ≤ 36 }
    ensures { IfOk result (λ d. d < BASE) }
{
    char::from(b).to_digit(BASE).ok_or(Malformed)
}

// The number below 2^64 that a word's digits stand for. Digit by digit: the library's `from_str_radix` takes a sign, and a word
// only as UTF-8, so that it would be read twice.
fn number<const BASE: u32>(word: &[u8]) -> Result<u64, Malformed>
    requires least { 2 ≤ BASE }
    requires most { BASE ≤ 36 }
{
    if word.is_empty() {
        return Err(Malformed);
    }
    let mut n: u64 = 0;
    for &b in word {
        let shifted = n.checked_mul(u64::from(BASE)).ok_or(Malformed)?;
        n = shifted
            .checked_add(u64::from(digit::<BASE>(b)?))
            .ok_or(Malformed)?;
    }
    Ok(n)
}

// The same below 2^128, of hexadecimal digits.
fn wide_number(word: &[u8]) -> Result<u128, Malformed> {
    if word.is_empty() {
        return Err(Malformed);
    }
    let mut n: u128 = 0;
    for &b in word {
        if n >> 124 != 0 {
            return Err(Malformed);
        }
        n = n << 4 | u128::from(digit::<16>(b)?);
    }
    Ok(n)
}

// A word without the 0x that may stand before it.
fn after_0x(word: &[u8]) -> &[u8] {
    word.strip_prefix(b"0x").unwrap_or(word)
}

// The words that are still to be read.
#[derive(Clone, Copy)]
pub struct Words<'a> {
    rest: &'a [u8],
}

impl<'a> Words<'a> {
    pub fn of(line: &'a [u8]) -> Words<'a> {
        Words { rest: line }
    }

    // The next word, if one is left.
    pub fn word(&mut self) -> Option<&'a [u8]> {
        let text = self.rest.trim_ascii_start();
        let end = text
            .iter()
            .position(|b| b.is_ascii_whitespace())
            .unwrap_or(text.len());
        let (word, rest) = text.split_at(end);
        self.rest = rest;
        if word.is_empty() { None } else { Some(word) }
    }

    pub fn decimal(&mut self) -> Result<u64, Malformed> {
        number::<10>(self.word().ok_or(Malformed)?)
    }

    // A hexadecimal number below 2^128. 0x may stand before it.
    pub fn wide_hex(&mut self) -> Result<u128, Malformed> {
        wide_number(after_0x(self.word().ok_or(Malformed)?))
    }

    // A hexadecimal number below 2^64.
    pub fn hex(&mut self) -> Result<u64, Malformed> {
        number::<16>(after_0x(self.word().ok_or(Malformed)?))
    }

    pub fn double(&mut self) -> Result<f64, Malformed> {
        Ok(double_of(self.hex()?))
    }

    // A count, and as many items, which fill the start of a row.
    fn items<'r, T: Drop, F: Fn(&mut Words<'a>) -> Result<T, Malformed>>(
        &mut self,
        row: &'r mut [T],
        item: F,
    ) -> Result<&'r mut [T], Malformed>
    where
        F: Drop,
        requires { F.IsAlwaysCallable item }
    {
        let read = row::first(row, self.decimal()?)?;
        for place in read.iter_mut() {
            *place = item(self)?;
        }
        Ok(read)
    }

    // A count, and as many hexadecimal numbers, which fill the start of a row.
    pub fn elements<'r>(&mut self, row: &'r mut [u64]) -> Result<&'r mut [u64], Malformed> {
        self.items(row, |words| words.hex())
    }

    // The same of numbers of two words. Their words may also stand one by one behind `words`, where
    // there may be an odd number of them.
    fn wide_elements<'r>(&mut self, row: &'r mut [u64]) -> Result<&'r mut [u64], Malformed> {
        let mut ahead = *self;
        if ahead.word() == Some(b"words".as_slice()) {
            *self = ahead;
            return self.elements(row);
        }
        let (pairs, _) = row.as_chunks_mut::<2>();
        let read = self.items(pairs, |words| Ok(halves(words.wide_hex()?)))?;
        Ok(read.as_flattened_mut())
    }

    pub fn elements_of<'r>(
        &mut self,
        field: Field,
        row: &'r mut [u64],
    ) -> Result<&'r mut [u64], Malformed> {
        match field {
            Field::Field64 => self.elements(row),
            Field::Field128 => self.wide_elements(row),
        }
    }

    // A count, and the bit patterns of as many doubles, which fill the start of a row.
    pub fn doubles<'r>(&mut self, row: &'r mut [f64]) -> Result<&'r mut [f64], Malformed> {
        self.items(row, |words| words.double())
    }

    // Two hexadecimal digits a byte, or - for no bytes, which fill the start of a row.
    pub fn bytes<'r>(&mut self, row: &'r mut [u8]) -> Result<&'r mut [u8], Malformed> {
        let digits = match self.word() {
            None => return Err(Malformed),
            Some(b"-") => b"",
            Some(digits) => digits,
        };
        let (pairs, []) = digits.as_chunks::<2>() else {
            return Err(Malformed);
        };
        let read = row.get_mut(..pairs.len()).ok_or(Malformed)?;
        for (byte, &[high, low]) in read.iter_mut().zip(pairs) {
            *byte = (16 * digit::<16>(high)? + digit::<16>(low)?) as u8;
        }
        Ok(read)
    }

    // That the line ends here, or has the tail `out N..`, which is passed over.
    pub fn end(mut self) -> Result<(), Malformed> {
        match self.word() {
            None | Some(b"out") => Ok(()),
            Some(_) => Err(Malformed),
        }
    }

    // The same. The numbers of the tail replace those at the start of lens, and there may not be more.
    pub fn end_with<const N: usize>(mut self, mut lens: [u64; N]) -> Result<[u64; N], Malformed> {
        self.end()?;
        // Past `out`.
        let _ = self.word();
        for len in &mut lens {
            let Some(word) = self.word() else {
                return Ok(lens);
            };
            *len = number::<10>(word)?;
        }
        match self.word() {
            None => Ok(lens),
            Some(_) => Err(Malformed),
        }
    }
}

// The two words of a number, the low one first.
pub fn halves(n: u128) -> [u64; 2] {
    [(n & 0xffff_ffff_ffff_ffff) as u64, (n >> 64) as u64]
}
