// Rows that are lent to a call: what one holds before the call, and whether it holds it still.
use crate::words::Malformed;

// A type of elements that rows are lent of.
pub trait Lendable: Copy + PartialEq {
    // What each element of a lent row is before the call.
    const MARK: Self;
}

impl Lendable for u8 {
    const MARK: u8 = 0xa5;
}

impl Lendable for u64 {
    const MARK: u64 = 0xa5a5_a5a5_a5a5_a5a5;
}

impl Lendable for f64 {
    const MARK: f64 = -1234.5;
}

pub fn is_filled<T: Lendable>(row: &[T]) -> bool {
    row.iter().all(|x| *x == T::MARK)
}

// So many elements at the start of a row, if it has them.
pub fn first<T>(row: &mut [T], len: u64) -> Result<&mut [T], Malformed> {
    row.get_mut(..usize::try_from(len)?).ok_or(Malformed)
}

// So many elements at the start of a row, if it has them, filled for a call.
pub fn lend<T: Lendable>(row: &mut [T], len: u64) -> Result<&mut [T], Malformed> {
    let lent = first(row, len)?;
    lent.fill_with(|| T::MARK);
    Ok(lent)
}

// A copy of a row at the start of another, if that has room.
pub fn copy<'a>(from: &[u64], to: &'a mut [u64]) -> Result<&'a mut [u64], Malformed> {
    let copied = to.get_mut(..from.len()).ok_or(Malformed)?;
    copied.copy_from_slice(from);
    Ok(copied)
}
