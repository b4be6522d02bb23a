// The fields of a byte: the value of `width` bits from bit `shift` up, and the byte with that field replaced. It is what the
// attribute `bitfield` of registers.rs stands for, whose body is in no listed file; document 01, "Settings to registers", says
// what it does: fields fill from bit 0 up, and `with_` alters its own field.
//
// Proved: each function equals its definition in specs/Field.antt for every byte, shift, width and value. A field ends with the
// byte, and a value counts as far as its field is wide. proofs/Own.antt: the field then reads the value, and every other bit is
// as it was; proofs/Named.antt says the same of the fields of a register by their names. Nothing is left out.
#![tactic(auto)]

ghost use Rattle.std.specs.Prelude.{◌≡◌, ◌%◌, ◌^◌, ◌<◌, ◌≤◌};
ghost use Rattle.field.specs.Field.{get_of, with_of, flag_of, code_of};

// Where a field that is updated on the chip lies: its first bit, and how many bits it has. The functions below take the two
// numbers, as most getters and `with_` write them for a field that has no `Place`, which would be longer there and say no more.
#[derive(Debug, Clone, Copy, PartialEq, Eq)]
pub struct Place {
    pub shift: u8,
    pub width: u8,
}

// The field's value.
#[tactic(auto, using(crate::proofs::Shifts::get_is))]
pub fn get(b: u8, shift: u8, width: u8) -> u8
    ensures { result ≡ get_of b shift width }
{
    low(u16::from(b) >> shift.min(8), width.min(8)) as u8
}

// The byte with the field replaced.
#[tactic(auto, using(crate::proofs::Shifts::with_is, crate::proofs::Shifts::with_lt))]
pub fn with(b: u8, shift: u8, width: u8, value: u8) -> u8
    ensures { result ≡ with_of b shift width value }
{
    let s = shift.min(8);
    let w = width.min(8 - s);
    let x = u16::from(b);
    let high = x >> (s + w);
    let mid = (high << w) | low(u16::from(value), w);
    ((mid << s) | low(x, s)) as u8
}

// Whether the bit at `shift` is set.
#[tactic(auto, unfolding(crate::specs::Field::flag_of))]
pub fn flag(b: u8, shift: u8) -> bool
    ensures { result ≡ flag_of b shift }
{
    0 < get(b, shift, 1)
}

// The byte with the bit at `shift` set or cleared.
pub fn with_flag(b: u8, shift: u8, on: bool) -> u8
    ensures { result ≡ with_of b shift 1 (code_of on) }
{
    with(b, shift, 1, u8::from(on))
}

// The `n` low bits.
#[tactic(auto, using(crate::proofs::Shifts::low_is))]
fn low(x: u16, n: u8) -> u16
    requires { n ≤ 8 }
    ensures { result ≡ x % 2 ^ n }
{
    x & ((1 << n) - 1)
}
