// Copying bytes into a lent buffer: `copy_whole` for items (every `encode_into` of waveform/*.rs), images and their lists, `copy_into` where
// as much is copied as fits, `lay` where bytes fit at a place; single bytes by index; what an array with a count shows. And (in proofs/) the laws
// that several crates cite: tests computed over all small numbers, lists that show a part of an array. Document 02, CR 5: "copy the whole item and answer its length, or copy nothing".
// Proved: they leave and answer what specs/Whole.antt, Copied.antt and Lists.antt say, for any buffer and any bytes; `WholeOrNothing`.
#![tactic(auto)]

ghost use Rattle.std.specs.Prelude.{◌≡◌, min, length, set, take};
ghost use Rattle.errors.specs.Told.{gives};
ghost use Rattle.errors.specs.Number.{told};
ghost use Rattle.laws.specs.Copied.{copied, over_or_none, placed};
ghost use Rattle.laws.specs.Lists.{at};
ghost use Rattle.laws.specs.Whole.{whole, whole_out, length_of};

use errors::Error;

// Copies as much of the bytes as fits and answers how many that were.
pub fn copy_into(buffer: &mut [u8], bytes: &[u8]) -> usize
    ensures value { result ≡ min (length bytes.now) (length buffer.old) }
    ensures buffer_after { buffer.new ≡ copied buffer.old bytes.now }
{
    let n = bytes.len().min(buffer.len());
    buffer[..n].copy_from_slice(&bytes[..n]);
    n
}

// Copies all bytes, or none where the buffer is shorter.
pub fn copy_whole(buffer: &mut [u8], bytes: &[u8]) -> Result<usize, Error>
    ensures result_value { told result ≡ length_of (whole buffer.old (gives bytes.now)) }
    ensures buffer_after { buffer.new ≡ whole_out buffer.old (gives bytes.now) }
{
    if buffer.len() < bytes.len() {
        return Err(Error::BufferTooShort);
    }
    Ok(copy_into(buffer, bytes))
}

// Copies as much of the bytes as fits from an index on.
pub fn copy_at(buffer: &mut [u8], at: usize, bytes: &[u8])
    ensures { buffer.new ≡ placed buffer.old at bytes.now }
{
    if at < buffer.len() {
        copy_into(&mut buffer[at..], bytes);
    }
}

// Lays all bytes over the buffer's from an index on, or none where they do not fit.
#[tactic(auto, unfolding(crate::specs::Copied::over_or_none))]
pub fn lay(buffer: &mut [u8], at: usize, bytes: &[u8])
    ensures { buffer.new ≡ over_or_none buffer.old at bytes.now }
{
    if at <= buffer.len() && bytes.len() <= buffer.len() - at {
        buffer[at..at + bytes.len()].copy_from_slice(bytes);
    }
}

// Stores a byte at an index, if the buffer has one.
pub fn store(buffer: &mut [u8], i: usize, x: u8)
    ensures { buffer.new ≡ set buffer.old i x }
{
    // by `if let Some(b) = buffer.get_mut(i)` it was tried: what the buffer is after the store stays open
    if i < buffer.len() {
        buffer[i] = x;
    }
}

// The byte at an index, 0 past the end.
pub fn byte_at(bytes: &[u8], i: usize) -> u8
    ensures { result ≡ at bytes.now i }
{
    bytes.get(i).copied().unwrap_or(0)
}

// What an array shows whose first `len` elements are in use: all of it for a length that is greater.
pub fn shown<T: Copy>(items: &[T], len: u8) -> &[T]
    ensures value { result.now ≡ take len items.now }
    ensures len { length result.now ≡ min len (length items.now) }
{
    &items[..usize::from(len).min(items.len())]
}
