// Snippets and sequences kept in bytes until an image is built of them (added; no Rust file): of each kind their number, their lengths, and their
// bytes one after the other. Document 01, 'The hundred bytes'.
// Proved: `push` puts an item behind the others, `image` tests and lays out what the builder's `build` does. Every pool is made by `new` and `push`,
// so that it keeps some items (specs/Kept.antt); nothing is asked of a caller.
#![tactic(auto)]

ghost use Rattle.std.specs.Prelude.{◌≡◌, ◌+◌, ◌≤◌, ◌<◌, cond, ltb, length, sum, take};
ghost use Rattle.errors.specs.Number.{answer_number, error_number};
ghost use Rattle.laws.specs.Copied.{over};
ghost use Rattle.pool.specs.Kept.{ends, no_items, nothing_kept, Pushed, Fits, image_from, ImageLaid};

use errors::Error;
use memory::{MAX_MEMORY_SIZE, MAX_SEQUENCES, MAX_SNIPPETS};

// Bytes and not `WaveformMemoryBuilder`: with that an image took 1.6 times the Rust's instructions, and 0.9 with these, both by an older kit
// (docs/DECISIONS.md, 'Speed'). A hundred have room, since an image of more is refused. Arrays beside a count: there is no heap, and the kit's
// `arrayvec::ArrayVec` is not `Copy`, as these are.
#[derive(Clone, Copy)]
pub struct Pool<const MOST: usize> {
    count: usize,
    // A length above 255 counts as 255, which no image has room for.
    lens: [u8; MOST],
    bytes: [u8; MAX_MEMORY_SIZE],
    // How many bytes the items are; more than a hundred count as 101.
    used: u8,
}

// The snippets and the sequences that an image is built of.
#[derive(Clone, Copy)]
pub struct Kept {
    pub snippets: Pool<MAX_SNIPPETS>,
    pub sequences: Pool<MAX_SEQUENCES>,
}

impl<const MOST: usize> Pool<MOST> {
    fn new() -> Self
        ensures { result ≡ no_items MOST }
    {
        Pool {
            count: 0,
            lens: [0; MOST],
            bytes: [0; MAX_MEMORY_SIZE],
            used: 0,
        }
    }

    // Puts an item behind the others, as far as its bytes have room, or answers `full` where there is no room for its length.
    pub fn push(&mut self, bytes: &[u8], full: Error) -> Result<(), Error>
        ensures value { answer_number result ≡ cond (ltb self.old.count MOST) 0 (error_number full) }
        ensures pushed { Pushed MOST bytes.now self.old self.new }
    {
        let n = self.count;
        if MOST <= n {
            return Err(full);
        }
        let used = usize::from(self.used);
        let at = used.min(MAX_MEMORY_SIZE);
        laws::copy_into(&mut self.bytes[at..], bytes);
        self.lens[n] = bytes.len().min(255) as u8;
        self.count += 1;
        self.used = (used + bytes.len().min(101)).min(101) as u8;
        Ok(())
    }

    // The lengths of the items.
    fn lens(&self) -> &[u8]
        ensures value { result.now ≡ take self.now.count self.now.lens }
        ensures upper_bound { length result.now ≤ MOST }
    {
        &self.lens[..self.count.min(MOST)]
    }
}

impl Kept {
    pub fn new() -> Kept
        ensures { result ≡ nothing_kept }
    {
        Kept {
            snippets: Pool::new(),
            sequences: Pool::new(),
        }
    }

    // Tests no snippets, no sequences, then the size; the image of what is kept goes whole to the front of the buffer.
    pub fn image(&self, buffer: &mut [u8]) -> Result<(), Error>
        ensures { ImageLaid self.now buffer.old (answer_number result) buffer.new }
    {
        let snippets = self.snippets.lens();
        let sequences = self.sequences.lens();
        if snippets.is_empty() {
            return Err(Error::EmptySnippet);
        }
        if sequences.is_empty() {
            return Err(Error::EmptySequence);
        }
        let a = total(snippets);
        let b = total(sequences);
        let size = 2 + snippets.len() + sequences.len() + a + b;
        if MAX_MEMORY_SIZE < size {
            return Err(Error::WaveformMemoryFull);
        }
        let out = laid(
            snippets,
            &self.snippets.bytes[..a],
            sequences,
            &self.sequences.bytes[..b],
        );
        laws::copy_whole(buffer, &out).map(|_| ())
    }
}

// The lengths and the bytes of snippets and sequences as an image, in which they fit. Not by `memory`'s `image_of`: its items are values with bytes
// of their own, one laid after the other, and these lie end to end already and are copied at once.
fn laid(
    snippet_lens: &[u8],
    snippets: &[u8],
    sequence_lens: &[u8],
    sequences: &[u8],
) -> [u8; MAX_MEMORY_SIZE]
    requires { Fits snippet_lens.now snippets.now sequence_lens.now sequences.now }
    ensures { result
        ≡ image_from snippet_lens.now snippets.now sequence_lens.now sequences.now }
{
    let s = snippet_lens.len();
    let q = sequence_lens.len();
    let at = 2 + s + q;
    let next = at + snippets.len();
    let mut out = [0u8; MAX_MEMORY_SIZE];
    out[0] = s as u8;
    out[1] = q as u8;
    let last = pointers(&mut out, 2, snippet_lens, 1 + s + q);
    pointers(&mut out, 2 + s, sequence_lens, last);
    laws::lay(&mut out, at, snippets);
    laws::lay(&mut out, next, sequences);
    out
}

// Stores the index of each item's last byte, where the byte before the first item stands at `before`, and answers the last index.
// `out[at..].iter_mut().zip(lens)` was tried: the bound of `last` stays open, and nothing is known of what an adapter of `iter_mut` leaves.
fn pointers(out: &mut [u8], at: usize, lens: &[u8], before: usize) -> usize
    requires { (length out.old ≡ 100) × (at + length lens.now ≤ 100) × (before + sum lens.now < 256) }
    ensures value { result ≡ before + sum lens.now }
    ensures out_after { out.new ≡ over out.old at (ends before lens.now) }
{
    let mut last = before;
    for (i, len) in lens.iter().enumerate() {
        last += usize::from(*len);
        out[at + i] = last as u8;
    }
    last
}

// How many bytes items of these lengths take.
fn total(lens: &[u8]) -> usize
    requires { length lens.now ≤ 16 }
    ensures value { result ≡ sum lens.now }
    ensures upper_bound { result < 4096 }
{
    lens.iter().map(|len| usize::from(*len)).sum()
}
