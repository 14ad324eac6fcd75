// A double's bit pattern, either way. from_bits and to_bits are not defined at a NaN, of which there
// is one only here, so it has a branch of its own.
ghost use Rattle.std.specs.Prelude.{◌≡◌};
ghost use Rattle.std.specs.Float.{binary64};
ghost use Rattle.std.specs.Float.Ieee.{of_bits};

pub fn double_of(pattern: u64) -> f64
    ensures { result ≡ of_bits binary64 pattern }
{
    if 0x7ff0_0000_0000_0000 < pattern % 0x8000_0000_0000_0000 {
        0.0 / 0.0
    } else {
        f64::from_bits(pattern)
    }
}

pub fn pattern_of(x: f64) -> u64 {
    if x.is_nan() {
        0x7ff8_0000_0000_0000
    } else {
        x.to_bits()
    }
}
