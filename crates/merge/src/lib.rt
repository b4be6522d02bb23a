// Two images into one (document 02, CR 7; no Rust file): the first's snippets and sequences, then the second's, whose frames name their snippets by
// numbers raised by the first's count.
// Proved: `merge` hands out the image of specs/Merged.antt whole, or nothing, for any slices and any buffer; specs/Merge.antt: each sequence plays
// what it played, and each refusal is told exactly under its condition.
#![tactic(auto)]

ghost use Rattle.std.specs.Prelude.{◌≡◌, ◌≤◌, ltb, cond, map, take, Ok, IsOkAnd};
ghost use Rattle.std.specs.List.{list_any};
ghost use Rattle.errors.specs.Told.{told_number};
ghost use Rattle.errors.specs.Number.{answer_number};
ghost use Rattle.laws.specs.Bytes.{All};
ghost use Rattle.laws.specs.Lists.{joined};
ghost use Rattle.laws.specs.Whole.{whole, whole_out};
ghost use Rattle.content.specs.ReadImage.{read_image};
ghost use Rattle.readings.specs.InPlace.{items_at, frames_in};
ghost use Rattle.merge.specs.Merged.{raised, merged_item};
ghost use Rattle.merge.specs.InPlace.{Raisable, raised_bytes, Keeps};

use errors::Error;
use frame::{FrameBuilder, FrameFields};
use memory::{MAX_SEQUENCES, MAX_SNIPPETS};
use pool::{Kept, Pool};
use reader::ReadFrames;
use sequence::MAX_SEQUENCE_BYTES;

// Puts the merged image to the front of `image`. Refused with NotAnImage, MissingSnippet, TooManySnippets, TooManySequences, WaveformMemoryFull, or
// last BufferTooShort; then `image` stays.
pub fn merge(first: &[u8], second: &[u8], image: &mut [u8]) -> Result<(), Error>
    ensures answer { answer_number result
        ≡ told_number (whole image.old (merged_item (read_image first.now) (read_image second.now))) }
    ensures image { image.new ≡ whole_out image.old (merged_item (read_image first.now) (read_image second.now)) }
{
    let (s, q) = readings::header(first)?;
    let (t, r) = readings::header(second)?;
    test_numbers(first, s, q)?;
    test_numbers(second, t, r)?;
    let mut kept = Kept::new();
    keep_snippets(&mut kept.snippets, first, s)?;
    keep_snippets(&mut kept.snippets, second, t)?;
    keep_sequences(&mut kept.sequences, first, s, q, 0)?;
    keep_sequences(&mut kept.sequences, second, t, r, s)?;
    kept.image(image)
}

// ---- the numbers in an image of s snippets and q sequences

// MissingSnippet where a frame's is above s.
fn test_numbers(image: &[u8], s: u8, q: u8) -> Result<(), Error>
    ensures { answer_number result
        ≡ cond (list_any (λ f. ltb s f.snippet_id) (joined (map frames_in (items_at image.now s q)))) 25 0 }
{
    for i in 0..usize::from(q) {
        if is_above(readings::item(image, usize::from(s) + i), s) {
            return Err(Error::MissingSnippet);
        }
    }
    Ok(())
}

// Whether a number of the frames that the bytes are is above this one.
fn is_above(bytes: &[u8], s: u8) -> bool
    ensures { result ≡ list_any (λ f. ltb s f.snippet_id) (frames_in bytes.now) }
{
    for frame in ReadFrames::new(bytes) {
        if let Ok(frame) = frame {
            if s < FrameFields::from(frame).snippet_id {
                return true;
            }
        }
    }
    false
}

// ---- the items, put behind those that are kept

// Inlined, since only in `merge` it is seen that the pool and the image do not overlap: else the archive needs `memmove`.
#[inline(always)]
fn keep_snippets(pool: &mut Pool<MAX_SNIPPETS>, image: &[u8], s: u8) -> Result<(), Error>
    ensures { Keeps 15 6 (items_at image.now 0 s) pool.old (answer_number result) pool.new }
{
    for i in 0..usize::from(s) {
        pool.push(readings::item(image, i), Error::TooManySnippets)?;
    }
    Ok(())
}

// Their frames' numbers raised by `count`.
fn keep_sequences(
    pool: &mut Pool<MAX_SEQUENCES>,
    image: &[u8],
    s: u8,
    q: u8,
    count: u8,
) -> Result<(), Error>
    requires { All (All (Raisable count)) (map frames_in (items_at image.now s q)) }
    ensures { Keeps 16 7 (map (raised_bytes count) (items_at image.now s q)) pool.old (answer_number result) pool.new }
{
    for i in 0..usize::from(q) {
        let (bytes, len) = raised_sequence(readings::item(image, usize::from(s) + i), count)?;
        pool.push(&bytes[..len], Error::TooManySequences)?;
    }
    Ok(())
}

// A sequence's bytes, its frames raised, and how many they are.
fn raised_sequence(bytes: &[u8], count: u8) -> Result<([u8; MAX_SEQUENCE_BYTES], usize), Error>
    requires { All (Raisable count) (frames_in bytes.now) }
    ensures { IsOkAnd result (λ r. (r.1 ≤ 96) × (take r.1 r.0 ≡ raised_bytes count bytes.now)) }
{
    let mut out = [0; MAX_SEQUENCE_BYTES];
    let mut len = 0;
    for frame in ReadFrames::new(bytes) {
        if let Ok(frame) = frame {
            let frame = raised(frame, count)?.build();
            laws::copy_at(&mut out, len, frame.as_bytes());
            len += frame.byte_len();
        }
    }
    Ok((out, len))
}

// The frame with its number raised; silence stays as it is.
fn raised(frame: FrameBuilder, count: u8) -> Result<FrameBuilder, Error>
    requires { Raisable count frame }
    ensures { result ≡ Ok (raised count frame) }
{
    let fields = FrameFields::from(frame);
    if fields.snippet_id == 0 {
        return Ok(frame);
    }
    let mut raised = FrameBuilder::new(fields.snippet_id + count)?
        .gain(fields.gain)
        .timebase(fields.timebase);
    if let Some(loops) = fields.loop_count {
        raised = raised.loop_count(loops)?;
    }
    if let Some(hz) = fields.frequency_hz {
        raised = raised.frequency_hz(hz)?;
    }
    Ok(raised)
}
