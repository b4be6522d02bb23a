// What an image is read back to, as numbers and bytes for C (added; no Rust file; document 01, 'The hundred bytes'): the counts, and the
// points and frames one by one, read where they stand in the lent bytes; or all lists at once, as the reader makes them. And the bytes of each
// item, from which `page` prints.
// Proved: each is that of the content that the reader's contract speaks of, for any bytes and any indexes; how it is one number is
// specs/Readings.antt, how all are bytes specs/Lists.antt, and that no two are confused specs/Telling.antt. `header`, `item` and the private
// functions answer specs/InPlace.antt and specs/Laying.antt.
#![tactic(auto)]

ghost use Rattle.std.specs.Prelude.{◌≡◌, ◌+◌, ◌*◌, ◌≤◌, length};
ghost use Rattle.laws.specs.Whole.{whole_out};
ghost use Rattle.laws.specs.Lists.{low_bytes};
ghost use Rattle.errors.specs.Number.{told};
ghost use Rattle.errors.specs.Packed.{packed};
ghost use Rattle.content.specs.ReadImage.{read_image};
ghost use Rattle.reader.specs.Reading.{padded};
ghost use Rattle.reader.specs.Walk.{snippet_fits};
ghost use Rattle.readings.specs.InPlace.{sequence_fits, kept, header_of, item_at, NthFrame};
ghost use Rattle.readings.specs.Readings.{counts_answer, point_answer, frame_answer};
ghost use Rattle.readings.specs.Lists.{words_bytes, lists_item, lists_answer};
ghost use Rattle.readings.specs.Laying.{laid_bytes};

use errors::Error;
use frame::FrameBuilder;
use reader::{Gather, Lists, ReadFrames};

// How many bytes all lists of an image are.
pub const LISTS_SIZE: usize = 703;

// Where an image has no such point. No Option: `point_answer` and `frame_answer`, which C's functions promise, have these two words.
const NO_POINT: u32 = 256;

// Where an image has no such frame.
const NO_FRAME: u64 = 1 << 48;

// C reads all lists at fixed places, so that it can lay a struct over their bytes: the offsets stay.
// In the bytes of all lists, behind the points: the ends of the snippets.
const POINT_ENDS: usize = 96;

// Then the frames.
const FRAMES: usize = 111;

// 96 frames of six bytes each.
const FRAMES_SIZE: usize = 576;

// Then the ends of the sequences.
const FRAME_ENDS: usize = 687;

// 256 times the number of snippets and the number of sequences; 18 * 65536 for what is no image.
pub fn counts(image: &[u8]) -> u32
    ensures { result ≡ packed 16 (counts_answer (read_image image.now)) }
{
    errors::word(read_counts(image))
}

// The byte of the j-th point of the i-th snippet, both counted from 0, or 256 where there is none; 18 * 65536 for what is no image.
pub fn point(image: &[u8], i: usize, j: usize) -> u32
    ensures { result ≡ packed 16 (point_answer (read_image image.now) i j) }
{
    errors::word(read_point(image, i, j))
}

// The fields of the j-th frame of the i-th sequence as one number, or 2 to the power of 48 where there is none; 18 times 2 to the power
// of 56 for what is no image.
pub fn frame(image: &[u8], i: usize, j: usize) -> u64
    ensures { result ≡ packed 56 (frame_answer (read_image image.now) i j) }
{
    match header(image) {
        Ok((s, q)) if i < usize::from(q) => match nth_frame(item(image, usize::from(s) + i), j) {
            Some(frame) => frame.word(),
            None => NO_FRAME,
        },
        Ok(_) => NO_FRAME,
        // A refusal stands above the 56 bits of a frame; here alone, since no other answer has as many.
        Err(error) => u64::from(error.number()) << 56,
    }
}

// All lists of an image at once: the points' bytes and the ends of the snippets, six bytes for each frame and the ends of the sequences,
// LISTS_SIZE bytes in all. Answers as `counts` does, or 24 * 65536 where they have no room; a refusal leaves the buffer.
pub fn lists(image: &[u8], out: &mut [u8]) -> u32
    ensures answer { result ≡ packed 16 (lists_answer out.old (read_image image.now)) }
    ensures buffer { out.new ≡ whole_out out.old (lists_item (read_image image.now)) }
{
    errors::word(write_lists(image, out))
}

// ---- the counts and a point, or a refusal

fn read_counts(image: &[u8]) -> Result<u32, Error>
    ensures { told result ≡ counts_answer (read_image image.now) }
{
    let (s, q) = header(image)?;
    Ok(both(s, q))
}

// The two numbers in one.
fn both(s: u8, q: u8) -> u32
    ensures { result ≡ s * 256 + q }
{
    u32::from(u16::from_be_bytes([s, q]))
}

fn read_point(image: &[u8], i: usize, j: usize) -> Result<u32, Error>
    ensures { told result ≡ point_answer (read_image image.now) i j }
{
    let (s, _) = header(image)?;
    if usize::from(s) <= i {
        return Ok(NO_POINT);
    }
    match item(image, i).get(j) {
        Some(byte) => Ok(u32::from(*byte)),
        None => Ok(NO_POINT),
    }
}

// ---- all lists in bytes

// Writes them and answers the counts.
fn write_lists(image: &[u8], out: &mut [u8]) -> Result<u32, Error>
    ensures answer { told result ≡ lists_answer out.old (read_image image.now) }
    ensures buffer { out.new ≡ whole_out out.old (lists_item (read_image image.now)) }
{
    let lists = reader::read(image)?;
    laws::copy_whole(out, &lay(&lists))?;
    Ok(both(lists.snippets.count, lists.sequences.count))
}

fn lay(lists: &Lists) -> [u8; LISTS_SIZE]
    ensures { result ≡ laid_bytes lists.now.snippets lists.now.sequences }
{
    let mut out = [0u8; LISTS_SIZE];
    laws::lay(&mut out, 0, &lists.snippets.items);
    laws::lay(&mut out, POINT_ENDS, &lists.snippets.ends);
    laws::lay(&mut out, FRAMES, &frame_bytes(lists.sequences.as_slice()));
    laws::lay(&mut out, FRAME_ENDS, &lists.sequences.ends);
    out
}

// The frames, six bytes each, then zeros.
fn frame_bytes(frames: &[FrameBuilder]) -> [u8; FRAMES_SIZE]
    requires { length frames.now ≤ 96 }
    ensures { result ≡ padded 576 0 (words_bytes frames.now) }
{
    let mut out = [0u8; FRAMES_SIZE];
    // As `chunks_exact_mut(6).zip(frames)` it was tried: what the bytes are after the loop stayed open.
    for (i, frame) in frames.iter().enumerate() {
        let six = low_bytes(frame.word());
        laws::lay(&mut out, 6 * i, &six);
    }
    out
}

// The six low bytes of a number, the lowest first.
fn low_bytes(w: u64) -> [u8; 6]
    ensures { result ≡ low_bytes 6 w }
{
    let [a, b, c, d, e, f, _, _] = w.to_le_bytes();
    [a, b, c, d, e, f]
}

// ---- whether bytes are an image

// The numbers of snippets and of sequences, or NotAnImage. Nothing else is kept.
pub fn header(image: &[u8]) -> Result<(u8, u8), Error>
    ensures { result ≡ header_of (read_image image.now) }
{
    reader::scan(image, &mut Snippets, &mut Sequences)
}

// Snippets that are read and not kept.
#[derive(Clone, Copy)]
struct Snippets;

impl Gather for Snippets {
    ghost step = { λ bytes o. kept (snippet_fits bytes) o };

    fn add(&mut self, item: &[u8]) -> Result<(), Error> {
        if reader::snippet_fits(item) {
            Ok(())
        } else {
            Err(Error::NotAnImage)
        }
    }
}

// Sequences that are read and not kept.
#[derive(Clone, Copy)]
struct Sequences;

impl Gather for Sequences {
    ghost step = { λ bytes o. kept (sequence_fits bytes) o };

    fn add(&mut self, item: &[u8]) -> Result<(), Error> {
        if item.is_empty() {
            return Err(Error::NotAnImage);
        }
        for frame in ReadFrames::new(item) {
            frame?;
        }
        Ok(())
    }
}

// ---- an image's items, snippets and sequences counted together

// The bytes of the k-th item of an image, where they stand (proofs/Standing.antt). Of other bytes, what the pointers say of them.
pub fn item(image: &[u8], k: usize) -> &[u8]
    ensures { result.now ≡ item_at image.now k }
{
    // by parts and not by index: 2 + k would not fit for every k
    let pointers = &image[k.min(image.len())..];
    let last = if k == 0 {
        1 + usize::from(laws::byte_at(image, 0)) + usize::from(laws::byte_at(image, 1))
    } else {
        usize::from(laws::byte_at(pointers, 1))
    };
    let end = (usize::from(laws::byte_at(pointers, 2)) + 1).min(image.len());
    &image[(last + 1).min(end)..end]
}

// The j-th of the frames that the bytes are.
fn nth_frame(bytes: &[u8], j: usize) -> Option<FrameBuilder>
    ensures { NthFrame bytes.now j result }
{
    ReadFrames::new(bytes).nth(j)?.ok()
}
