// How rows are printed: a count and each element, or the digits of bytes.
use lines::field::Field;
use lines::patterns::pattern_of;
use std::fmt;

// Each element is a hexadecimal number.
#[derive(Clone, Copy)]
pub struct Elements<'a>(pub Field, pub &'a [u64]);

impl fmt::Display for Elements<'_> {
    fn fmt<W: fmt::Write>(&self, f: &mut fmt::Formatter<W>) -> fmt::Result {
        let Elements(field, row) = *self;
        match field {
            Field::Field64 => {
                write!(f, "{}", row.len())?;
                for element in row {
                    write!(f, " {element:x}")?;
                }
            }
            Field::Field128 => {
                let (pairs, _) = row.as_chunks::<2>();
                write!(f, "{}", pairs.len())?;
                for [low, high] in pairs {
                    write!(f, " {:x}", wide(*low, *high))?;
                }
            }
        }
        Ok(())
    }
}

// The number of two words.
pub fn wide(low: u64, high: u64) -> u128 {
    u128::from(high) << 64 | u128::from(low)
}

// Each double is its bit pattern.
#[derive(Clone, Copy)]
pub struct Doubles<'a>(pub &'a [f64]);

impl fmt::Display for Doubles<'_> {
    fn fmt<W: fmt::Write>(&self, f: &mut fmt::Formatter<W>) -> fmt::Result {
        write!(f, "{}", self.0.len())?;
        for double in self.0 {
            write!(f, " {:016x}", pattern_of(*double))?;
        }
        Ok(())
    }
}

// Two digits a byte, or - for no bytes.
#[derive(Clone, Copy)]
pub struct Bytes<'a>(pub &'a [u8]);

impl fmt::Display for Bytes<'_> {
    fn fmt<W: fmt::Write>(&self, f: &mut fmt::Formatter<W>) -> fmt::Result {
        if self.0.is_empty() {
            return write!(f, "-");
        }
        for byte in self.0 {
            write!(f, "{byte:02x}")?;
        }
        Ok(())
    }
}
