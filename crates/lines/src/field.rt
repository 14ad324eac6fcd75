// The field that a case is over. An element of the second is two words of a row, the low one first.
#[derive(Clone, Copy)]
pub enum Field {
    Field64,
    Field128,
}

impl Field {
    // The words of so many elements.
    pub fn words(self, elements: u64) -> u64 {
        match self {
            Field::Field64 => elements,
            Field::Field128 => elements.wrapping_mul(2),
        }
    }
}
