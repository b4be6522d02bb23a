// The bytes of a frame, packed and unpacked by shifts and masks (the body of `build` in waveform/frame.rs; document 01, 'Points, frames,
// sequences' and 'Which form goes where').
// Proved: each is the arithmetic that its contract says, for every argument; src/lib.rt ties it to document 01's bytes.
ghost use Rattle.std.specs.Prelude.{◌≡◌, ◌+◌, ◌*◌, ◌/◌, ◌%◌, ltb, leb};

// Gain code in bits 6..5, timebase code in bits 4..3, low three bits of the number in bits 2..0.
#[tactic(auto, using(crate::proofs::Packed::packed_first))]
pub(crate) fn first(gain: u8, timebase: u8, id: u8) -> u8
    ensures { result ≡ gain % 4 * 32 + timebase % 4 * 8 + id % 8 }
{
    ((gain & 3) << 5) | ((timebase & 3) << 3) | (id & 7)
}

// Bit 7 set, loop count in bits 6..3, bits 2..1 as given, bit 3 of the number in bit 0.
#[tactic(auto, using(crate::proofs::Packed::packed_second))]
pub(crate) fn second(count: u8, frequency: u8, id: u8) -> u8
    ensures { result ≡ 128 + count % 16 * 8 + frequency % 8 / 2 * 2 + id / 8 % 2 }
{
    0x80 | ((count & 15) << 3) | (((frequency & 7) >> 1) << 1) | ((id >> 3) & 1)
}

// Frequency-present in bit 2, bit 8 of the frequency in bit 1.
pub(crate) fn frequency(hz: u16) -> u8
    ensures { result ≡ 4 + hz / 256 % 2 * 2 }
{
    0x04 | ((((hz >> 8) & 1) as u8) << 1)
}

// The low eight bits.
pub(crate) fn low_byte(hz: u16) -> u8
    ensures { result ≡ hz % 256 }
{
    (hz & 0xFF) as u8
}

// Whether a number has its bit 3, for which the first byte has no room.
pub(crate) fn is_above_7(id: u8) -> bool
    ensures { result ≡ leb 8 (id % 16) }
{
    8 <= (id & 15)
}

// Bit 7: of the byte behind a frame's first one, whether it is the frame's second.
pub(crate) fn is_second(b: u8) -> bool
    ensures { result ≡ leb 128 b }
{
    0x80 <= b
}

// The gain code of a first byte.
pub(crate) fn gain_in(a: u8) -> u8
    ensures { result ≡ a / 32 % 4 }
{
    (a >> 5) & 3
}

// The timebase code of a first byte.
pub(crate) fn timebase_in(a: u8) -> u8
    ensures { result ≡ a / 8 % 4 }
{
    (a >> 3) & 3
}

// The low three bits of the number, from a first byte.
pub(crate) fn low_number_in(a: u8) -> u8
    ensures { result ≡ a % 8 }
{
    a & 7
}

// The number of four bits, from a second and a first byte.
pub(crate) fn number_in(b: u8, a: u8) -> u8
    ensures { result ≡ b % 2 * 8 + a % 8 }
{
    ((b & 1) << 3) | (a & 7)
}

// The loop count of a second byte.
pub(crate) fn count_in(b: u8) -> u8
    ensures { result ≡ b / 8 % 16 }
{
    (b >> 3) & 15
}

// Bit 2 of a second byte: whether a frequency is there.
pub(crate) fn has_frequency(b: u8) -> bool
    ensures { result ≡ ltb 0 (b / 4 % 2) }
{
    0 < (b >> 2) & 1
}

// Bit 1 of a second byte: bit 8 of the frequency.
pub(crate) fn has_high_bit(b: u8) -> bool
    ensures { result ≡ ltb 0 (b / 2 % 2) }
{
    0 < (b >> 1) & 1
}

// The frequency of a second and a third byte.
pub(crate) fn frequency_in(b: u8, c: u8) -> u16
    ensures { result ≡ b / 2 % 2 * 256 + c }
{
    ((((b >> 1) & 1) as u16) << 8) | (c as u16)
}
