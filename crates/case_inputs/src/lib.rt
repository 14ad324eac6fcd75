// Of `replay`: the inputs of a case, and the lengths of the rows that its call is lent.
#![tactic(auto)]

use lines::field::Field;
use lines::words::{Malformed, Words};
use pine::{Derived, PineParam, WrTestRule};

// The inputs that may stand before a case, `with NUM DEN RULE SWITCH`.
#[derive(Clone, Copy)]
struct Setting {
    alpha_numerator: u16,
    alpha_denominator: u16,
    wr_test_rule: WrTestRule,
    true_sq_norm: bool,
}

impl Setting {
    // Where nothing stands before the case.
    fn standard() -> Setting {
        Setting {
            alpha_numerator: 87,
            alpha_denominator: 10,
            wr_test_rule: WrTestRule::Every,
            true_sq_norm: false,
        }
    }

    // The four numbers behind `with`.
    fn read(words: &mut Words<'_>) -> Result<Setting, Malformed> {
        Ok(Setting {
            alpha_numerator: u16::try_from(words.decimal()?)?,
            alpha_denominator: u16::try_from(words.decimal()?)?,
            wr_test_rule: match words.decimal()? {
                0 => WrTestRule::Every,
                1 => WrTestRule::Enough,
                _ => return Err(Malformed),
            },
            true_sq_norm: match words.decimal()? {
                0 => false,
                1 => true,
                _ => return Err(Malformed),
            },
        })
    }
}

// A case as far as it is not read.
#[derive(Clone, Copy)]
pub struct Case<'a> {
    setting: Setting,
    pub words: Words<'a>,
}

impl<'a> Case<'a> {
    pub fn of(line: &'a [u8]) -> Result<Case<'a>, Malformed> {
        let mut words = Words::of(line);
        let mut ahead = words;
        let mut setting = Setting::standard();
        if ahead.word() == Some(b"with".as_slice()) {
            setting = Setting::read(&mut ahead)?;
            words = ahead;
        }
        Ok(Case { setting, words })
    }

    // The seven inputs that come next, with those of the setting.
    pub fn param(&mut self) -> Result<PineParam, Malformed> {
        let setting = self.setting;
        Ok(PineParam {
            norm_bound: self.words.decimal()?,
            dimension: self.words.decimal()?,
            frac_bits: self.words.decimal()?,
            chunk_len: self.words.decimal()?,
            chunk_len_sq_norm_equal: self.words.decimal()?,
            num_wr_tests: self.words.decimal()?,
            num_wr_successes: self.words.decimal()?,
            alpha_numerator: setting.alpha_numerator,
            alpha_denominator: setting.alpha_denominator,
            wr_test_rule: setting.wr_test_rule,
            true_sq_norm: setting.true_sq_norm,
        })
    }
}

pub fn derive(field: Field, param: PineParam) -> Derived {
    match field {
        Field::Field64 => params::derive(param),
        Field::Field128 => params128::derive(param),
    }
}

// The dimension, and derived lengths of rows in words: 0 where the inputs are refused.
#[derive(Clone, Copy)]
pub struct Lens {
    pub dimension: u64,
    pub aggregate: u64,
    pub measurement: u64,
    pub results: u64,
}

impl Lens {
    pub fn of(field: Field, param: PineParam) -> Lens {
        let pine = derive(field, param).pine;
        Lens {
            dimension: pine.dimension,
            aggregate: field.words(pine.dimension),
            measurement: field.words(pine.encoded_input_len),
            results: field.words(pine.num_wr_tests),
        }
    }
}
