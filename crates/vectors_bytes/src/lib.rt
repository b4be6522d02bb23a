// What the replay of the stored sample stands on: lines of hexadecimal fields, numbers and kinds in bytes, and how lent bytes are filled.
// Proved: every function is safe and returns; of a line that is read there are as many fields as blanks part (specs/Lines.antt).
#![tactic(auto)]

mod hex;

pub use hex::{Fields, ReadError, read};

/// How a lent byte is filled.
pub const MARKER: u8 = 0xA5;

/// The number with these bytes, the most significant first.
pub fn number(bytes: &[u8]) -> u64 {
    bytes.iter().fold(0, |n, x| (n << 8) | u64::from(*x))
}

/// A number that no kind has.
#[derive(Clone, Copy, Debug, PartialEq, Eq)]
pub struct UnknownKind(pub u8);

/// The kind that a case's first field tells in one byte, if there is such a kind.
pub fn kind<K: TryFrom<u8, Error = UnknownKind>>(field: &[u8]) -> Option<K> {
    match field {
        [number] => K::try_from(*number).ok(),
        _ => None,
    }
}
