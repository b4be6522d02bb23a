// What the program `example` prints with: bytes in hexadecimal, and what errors, registers, gains and timebases are called.
// rust/harness/tests/example.rs reads the output.
// Proved: every function returns.
#![tactic(auto)]

mod bytes;
mod register;

pub use bytes::{Bytes, Column, Image};
use errors::Error;
use frame::{Gain, Timebase};
pub use register::RegisterName;
use std::fmt;

/// An error by its number and its name.
#[derive(Clone, Copy, Debug)]
pub struct Refusal(pub Error);

impl fmt::Display for Refusal {
    fn fmt<W: fmt::Write>(&self, f: &mut fmt::Formatter<W>) -> fmt::Result {
        let number = self.0.number();
        match self.0 {
            Error::I2c(_) => write!(f, "{number} I2c"),
            error => write!(f, "{number} {error:?}"),
        }
    }
}

// A gain and a timebase have a fixed text each, so these are functions; the types above put theirs together as they are printed.

/// What of the full amplitude a gain leaves.
pub fn gain(gain: Gain) -> &'static str {
    match gain {
        Gain::Full => "1",
        Gain::Half => "1/2",
        Gain::Quarter => "1/4",
        Gain::Eighth => "1/8",
    }
}

/// How long a timebase is.
pub fn timebase(timebase: Timebase) -> &'static str {
    match timebase {
        Timebase::Ms5_44 => "5.44 ms",
        Timebase::Ms21_76 => "21.76 ms",
        Timebase::Ms43_52 => "43.52 ms",
        Timebase::Ms87_04 => "87.04 ms",
    }
}
