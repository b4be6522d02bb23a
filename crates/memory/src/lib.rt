// The waveform memory, its image and its builder (waveform/memory.rs; document 01, 'The hundred bytes').
// Proved: each function answers what specs/ says of its arguments, whatever the counts hold; `build` lays out the image over zeros,
// and its tail stays zero; the acceleration flag changes nothing. `[Option<Snippet>; 15]` is an array of structs with a count: the builder
// appends only, so that the count says which there are. No function here takes a closure.
#![tactic(auto)]

ghost use Rattle.std.specs.Prelude.{◌≡◌, ℕ, List, map, ◌+◌, ◌*◌, ◌≤◌, ◌<◌, cond, ltb, leb, length, set, take};
ghost use Rattle.laws.specs.Copied.{over_or_none};
ghost use Rattle.laws.specs.Lists.{joined};
ghost use Rattle.errors.specs.Number.{error_number, answer_number, handed_by, built_by};
ghost use Rattle.snippet.specs.Snippet.{snippet_bytes};
ghost use Rattle.sequence.specs.Sequence.{sequence_bytes};
ghost use Rattle.memory.specs.Image.{image_bytes};
ghost use Rattle.memory.specs.Laid.{laid, HasRoom, ImageFits};
ghost use Rattle.memory.specs.Memory.{snippet_items, sequence_items, new_memory, with_snippet, with_sequence, built_memory, no_memory, loaded};
ghost use Rattle.memory.specs.Timebase.{timebase_bit, memory_timebase_at};

use errors::Error;
use sequence::Sequence;
use snippet::Snippet;

pub const MAX_MEMORY_SIZE: usize = 100;

pub const MAX_SNIPPETS: usize = 15;

pub const MAX_SEQUENCES: usize = 16;

// The first `len` bytes are the memory's: an array with its length, as in the Rust (no heap). The counts stand beside the bytes, since `from_bytes` stores any
// four values, also counts that the bytes do not say.
#[derive(Debug, Clone, Copy)]
pub struct WaveformMemory {
    data: [u8; MAX_MEMORY_SIZE],
    len: u8,
    num_snippets: u8,
    num_sequences: u8,
}

// The global timebase: 5.44, 21.76, 43.52, 87.04 ms or a quarter of these.
#[derive(Debug, Clone, Copy, PartialEq, Eq)]
pub enum WaveformMemoryTimebase {
    TIMEBASE_544_2176_4352_8704,
    TIMEBASE_136_544_2176_4352,
}

// Arrays with their counts, as document 01 asks of `[Option<Snippet>; 15]`: no heap.
#[derive(Debug, Clone, Copy)]
pub struct WaveformMemoryBuilder {
    snippets: [Snippet; MAX_SNIPPETS],
    sequences: [Sequence; MAX_SEQUENCES],
    num_snippets: u8,
    num_sequences: u8,
    acceleration_enabled: bool,
}

impl WaveformMemory {
    // The four values as they were stored, or a refusal for a length above a hundred.
    pub fn from_bytes(
        data: [u8; MAX_MEMORY_SIZE],
        len: u8,
        num_snippets: u8,
        num_sequences: u8,
    ) -> Result<WaveformMemory, Error>
        ensures { handed_by no_memory result ≡ loaded «data» len num_snippets num_sequences }
    {
        if MAX_MEMORY_SIZE < len as usize {
            return Err(Error::WaveformMemoryFull);
        }
        Ok(WaveformMemory {
            data,
            len,
            num_snippets,
            num_sequences,
        })
    }

    // How many of the hundred bytes are the memory's.
    pub fn len(&self) -> usize
        ensures { result ≡ self.now.len }
    {
        self.len as usize
    }

    // Whether none are.
    pub fn is_empty(&self) -> bool
        ensures { result ≡ ltb self.now.len 1 }
    {
        self.len < 1
    }

    // The hundred bytes, of which the first `len` are the memory's.
    pub fn bytes(&self) -> &[u8; MAX_MEMORY_SIZE]
        ensures value { result.now ≡ self.now.«data» }
        ensures len { length result.now ≡ 100 }
    {
        &self.data
    }

    // The memory's bytes, a hundred at most.
    pub fn as_bytes(&self) -> &[u8]
        ensures { result.now ≡ take self.now.len self.now.«data» }
    {
        laws::shown(&self.data, self.len)
    }

    // How many snippets it holds.
    pub fn num_snippets(&self) -> u8
        ensures { result ≡ self.now.num_snippets }
    {
        self.num_snippets
    }

    // How many sequences it holds.
    pub fn num_sequences(&self) -> u8
        ensures { result ≡ self.now.num_sequences }
    {
        self.num_sequences
    }
}

// The bit that `set_timebase` sends.
impl From<WaveformMemoryTimebase> for u8 {
    ghost from_gives = { λ timebase code. code ≡ timebase_bit timebase };

    fn from(timebase: WaveformMemoryTimebase) -> u8 {
        timebase as u8
    }
}

// A code past the last counts as the last.
impl From<u8> for WaveformMemoryTimebase {
    ghost from_gives = { λ code timebase. timebase ≡ memory_timebase_at code };

    fn from(code: u8) -> WaveformMemoryTimebase {
        match code {
            0 => WaveformMemoryTimebase::TIMEBASE_544_2176_4352_8704,
            _ => WaveformMemoryTimebase::TIMEBASE_136_544_2176_4352,
        }
    }
}

impl WaveformMemoryBuilder {
    // A builder that holds nothing.
    pub fn new(acceleration_enabled: bool) -> WaveformMemoryBuilder
        ensures { result ≡ new_memory acceleration_enabled }
    {
        WaveformMemoryBuilder {
            snippets: [Snippet::EMPTY; MAX_SNIPPETS],
            sequences: [Sequence::EMPTY; MAX_SEQUENCES],
            num_snippets: 0,
            num_sequences: 0,
            acceleration_enabled,
        }
    }

    // Appends a snippet, or TooManySnippets for a 16th.
    pub fn add_snippet(mut self, snippet: Snippet) -> Result<WaveformMemoryBuilder, Error>
        ensures { handed_by self result ≡ with_snippet self snippet }
    {
        append(
            &mut self.snippets,
            &mut self.num_snippets,
            snippet,
            Error::TooManySnippets,
        )?;
        Ok(self)
    }

    // The number of the next snippet, from 1.
    pub fn next_snippet_id(&self) -> u8
        ensures { result ≡ length (snippet_items self.now) + 1 }
    {
        self.snippets().len() as u8 + 1
    }

    // Appends a sequence, or TooManySequences for a 17th.
    pub fn add_sequence(mut self, sequence: Sequence) -> Result<WaveformMemoryBuilder, Error>
        ensures { handed_by self result ≡ with_sequence self sequence }
    {
        append(
            &mut self.sequences,
            &mut self.num_sequences,
            sequence,
            Error::TooManySequences,
        )?;
        Ok(self)
    }

    // The number of the next sequence, from 0.
    pub fn next_sequence_id(&self) -> u8
        ensures { result ≡ length (sequence_items self.now) }
    {
        self.sequences().len() as u8
    }

    // Tests no snippets, no sequences, then the size.
    #[tactic(auto, unfolding(crate::specs::Memory::built_memory))]
    pub fn build(self) -> Result<WaveformMemory, Error>
        ensures { built_by no_memory self result ≡ built_memory self }
    {
        let snippets = self.snippets();
        let sequences = self.sequences();
        if snippets.is_empty() {
            return Err(Error::EmptySnippet);
        }
        if sequences.is_empty() {
            return Err(Error::EmptySequence);
        }
        let size = 2 + snippets.len() + sequences.len() + total(snippets) + total(sequences);
        if MAX_MEMORY_SIZE < size {
            return Err(Error::WaveformMemoryFull);
        }
        let data = image_of(snippets, sequences);
        Ok(WaveformMemory {
            data,
            len: size as u8,
            num_snippets: snippets.len() as u8,
            num_sequences: sequences.len() as u8,
        })
    }

    // What it holds, fifteen snippets at most.
    fn snippets(&self) -> &[Snippet]
        ensures value { result.now ≡ take self.now.num_snippets self.now.snippets }
        ensures upper_bound { length result.now ≤ 15 }
    {
        laws::shown(&self.snippets, self.num_snippets)
    }

    // Sixteen sequences at most.
    fn sequences(&self) -> &[Sequence]
        ensures value { result.now ≡ take self.now.num_sequences self.now.sequences }
        ensures upper_bound { length result.now ≤ 16 }
    {
        laws::shown(&self.sequences, self.num_sequences)
    }
}

// One item more behind the others of an array, or `full`.
fn append<T: Copy>(items: &mut [T], count: &mut u8, item: T, full: Error) -> Result<(), Error>
    requires { length items.old < 256 }
    ensures answer { answer_number result ≡ cond (leb (length items.old) count.old) (error_number full) 0 }
    ensures items_after { items.new ≡ set items.old count.old item }
    ensures count_after { count.new ≡ cond (leb (length items.old) count.old) count.old (count.old + 1) }
{
    let n = usize::from(*count);
    if items.len() <= n {
        return Err(full);
    }
    items[n] = item;
    *count += 1;
    Ok(())
}

// ---- the image of snippets and sequences

// What an image is made of: a snippet or a sequence.
trait Item: Copy {
    ghost bytes_of: { Self → List ℕ };

    // How many bytes it has.
    fn size(&self) -> usize
        ensures value { result ≡ length (bytes_of self.now) }
        ensures upper_bound { result ≤ 96 };

    // Lays its bytes over an image's from an index on, or none where they do not fit.
    fn lay(&self, image: &mut [u8], at: usize)
        ensures { image.new ≡ over_or_none image.old at (bytes_of self.now) };
}

impl Item for Snippet {
    ghost bytes_of = { snippet_bytes };

    fn size(&self) -> usize {
        self.byte_len()
    }

    fn lay(&self, image: &mut [u8], at: usize) {
        laws::lay(image, at, &self.bytes()[..self.byte_len()]);
    }
}

impl Item for Sequence {
    ghost bytes_of = { sequence_bytes };

    fn size(&self) -> usize {
        self.byte_len()
    }

    fn lay(&self, image: &mut [u8], at: usize) {
        laws::lay(image, at, self.as_bytes());
    }
}

// How many bytes items take.
fn total<T: Item>(items: &[T]) -> usize
    requires { length items.now ≤ 16 }
    ensures value { result ≡ length (joined (map T.bytes_of items.now)) }
    ensures upper_bound { result ≤ 96 * length items.now }
{
    let mut sum = 0usize;
    for item in items {
        sum += item.size();
    }
    sum
}

// The image of snippets and sequences, which are a hundred bytes at most.
fn image_of(snippets: &[Snippet], sequences: &[Sequence]) -> [u8; MAX_MEMORY_SIZE]
    requires { ImageFits (map snippet_bytes snippets.now) (map sequence_bytes sequences.now) }
    ensures { result ≡ image_bytes (map snippet_bytes snippets.now) (map sequence_bytes sequences.now) }
{
    let s = snippets.len();
    let q = sequences.len();
    let mut image = [0u8; MAX_MEMORY_SIZE];
    image[0] = s as u8;
    image[1] = q as u8;
    let at = put(&mut image, snippets, 2, 2 + s + q);
    put(&mut image, sequences, 2 + s, at);
    image
}

// Puts items: end pointers from one index on, bytes from another, and answers the index behind them.
fn put<T: Item>(image: &mut [u8], items: &[T], pointer: usize, at: usize) -> usize
    requires { HasRoom image.old pointer at (map T.bytes_of items.now) }
    ensures value { result ≡ at + length (joined (map T.bytes_of items.now)) }
    ensures image_after { image.new ≡ laid image.old pointer at (map T.bytes_of items.now) }
{
    let mut next = at;
    // by index: an item goes into the same array, which an iterator over the pointers would hold, and a part that `split_at_mut` lends is longer to say
    for (i, item) in items.iter().enumerate() {
        let behind = next + item.size();
        image[pointer + i] = (behind - 1) as u8;
        item.lay(image, next);
        next = behind;
    }
    next
}
