// The reader of images (added; no Rust file; document 01, 'The hundred bytes'; demand 3): any bytes in, the lists whose image they are
// out, or 18.
// Proved: `read` answers the content that content/specs/ReadImage says, for any slice.
// The private functions answer specs/Flat.antt and specs/Walk.antt, which drop what finds no room; proofs/Capacity.antt: nothing is
// dropped, since a hundred bytes hold no more.
#![tactic(auto)]

mod items;

ghost use Rattle.std.specs.Prelude.{◌≡◌, ◌+◌, ◌≤◌, ◌<◌, List, ℕ, length, take, drop};
ghost use Rattle.std.specs.Iterator.{YieldsFirst, item_count};
ghost use Rattle.std.proofs.Math.Option.{Option};
ghost use Rattle.errors.specs.Number.{answer_number};
ghost use Rattle.content.specs.ReadImage.{on_option, read_image, counts_fit, all_zero};
ghost use Rattle.reader.specs.Reading.{reading_of, no_runs};
ghost use Rattle.reader.specs.Flat.{push_item, push_items, end_run};
ghost use Rattle.reader.specs.Walk.{Stepped, Walks, frames_from, frames_left, run_frames, snippet_fits, push_snippet, push_sequence, walk, Scans, scan};

use errors::Error;
use frame::FrameBuilder;

// Lists end to end, 96 elements and MOST lists at most: a list's end before the index in `ends`, and the first `count` are in use. Each is
// an array beside its count: no library crate has a heap, and the kit's `arrayvec::ArrayVec` is not `Copy`, as these lists are.
#[derive(Debug, Clone, Copy)]
pub struct Runs<T: Copy, const MOST: usize> {
    pub items: [T; 96],
    pub len: u8,
    pub ends: [u8; MOST],
    pub count: u8,
}

// The points of the snippets, as bytes.
pub type Points = Runs<u8, 15>;

// The frames of the sequences.
pub type Frames = Runs<FrameBuilder, 16>;

// The lists of an image.
#[derive(Debug, Clone, Copy)]
pub struct Lists {
    pub snippets: Points,
    pub sequences: Frames,
}

// ---- the lists

impl<T: Copy, const MOST: usize> Runs<T, MOST> {
    fn new(blank: T) -> Self
        ensures { result ≡ no_runs MOST blank }
    {
        Runs {
            items: [blank; 96],
            len: 0,
            ends: [0; MOST],
            count: 0,
        }
    }

    // One element more, where there is room.
    #[tactic(auto, unfolding(crate::specs::Flat::push_item))]
    fn push(&mut self, item: T)
        ensures { self.new ≡ push_item self.old item }
    {
        if self.len < 96 {
            self.items[usize::from(self.len)] = item;
            self.len += 1;
        }
    }

    // The elements of one list more.
    fn push_all(&mut self, list: &[T])
        ensures { self.new ≡ push_items self.old list.now }
    {
        for item in list {
            self.push(*item);
        }
    }

    // The list ends here.
    #[tactic(auto, unfolding(crate::specs::Flat::end_run))]
    fn end(&mut self)
        requires { MOST < 256 }
        ensures { self.new ≡ end_run self.old }
    {
        if usize::from(self.count) < MOST {
            self.ends[usize::from(self.count)] = self.len;
            self.count += 1;
        }
    }

    // The elements in use, end to end.
    pub fn as_slice(&self) -> &[T]
        ensures value { result.now ≡ take self.now.len self.now.items }
        ensures upper_bound { length result.now ≤ 96 }
    {
        laws::shown(&self.items, self.len)
    }
}

// ---- the frames of a sequence

// The frames that bytes are, one after the other: NotAnImage in place of what is none, or is one more than 32, and nothing behind it.
#[derive(Drop)]
pub struct ReadFrames<'a> {
    rest: &'a [u8],
    left: u8,
}

impl<'a> ReadFrames<'a> {
    #[inline]
    pub fn new(bytes: &'a [u8]) -> Self
        ensures { frames_left result ≡ frames_from 32 bytes.now }
    {
        ReadFrames {
            rest: bytes,
            left: 32,
        }
    }
}

impl<'a> Iterator for ReadFrames<'a> {
    type Item = Result<FrameBuilder, Error>;

    ghost next_gives = { YieldsFirst frames_left };

    ghost remaining = { item_count frames_left };

    #[inline]
    fn next(&mut self) -> Option<Result<FrameBuilder, Error>> {
        if self.rest.is_empty() {
            return None;
        }
        match FrameBuilder::read(self.rest) {
            Ok((frame, n)) if 0 < self.left => {
                self.rest = &self.rest[n..];
                self.left -= 1;
                Some(Ok(frame))
            }
            _ => {
                self.rest = &self.rest[..0];
                Some(Err(Error::NotAnImage))
            }
        }
    }
}

impl Frames {
    // The frames that the bytes are, 32 at most.
    fn push_frames(&mut self, bytes: &[u8]) -> Result<(), Error>
        ensures { Stepped (run_frames 32 bytes.now self.old) result self.new }
    {
        for frame in ReadFrames::new(bytes) {
            self.push(frame?);
        }
        Ok(())
    }
}

// ---- the items that end at the pointers

// Whether bytes are a snippet's: 1 to 16 points, each a byte.
#[inline]
pub fn snippet_fits(item: &[u8]) -> bool
    ensures { result ≡ snippet_fits item.now }
{
    1 <= item.len() && item.len() <= 16
}

// What an image's items of one kind are added to.
pub trait Gather {
    // The items with those bytes added, or none where they are no such item.
    ghost step: { List ℕ → Self → Option Self };

    fn add(&mut self, item: &[u8]) -> Result<(), Error>
        ensures { Stepped (step item.now self.old) result self.new };
}

impl Gather for Points {
    ghost step = { push_snippet };

    #[tactic(auto, unfolding(crate::specs::Walk::push_snippet))]
    fn add(&mut self, item: &[u8]) -> Result<(), Error> {
        if !snippet_fits(item) {
            return Err(Error::NotAnImage);
        }
        self.push_all(item);
        self.end();
        Ok(())
    }
}

impl Gather for Frames {
    ghost step = { push_sequence };

    #[tactic(auto, unfolding(crate::specs::Walk::push_sequence))]
    fn add(&mut self, item: &[u8]) -> Result<(), Error> {
        if item.is_empty() {
            return Err(Error::NotAnImage);
        }
        self.push_frames(item)?;
        self.end();
        Ok(())
    }
}

// Adds the items that end at these indexes of the image, and answers the index of the last one's last byte; the byte before the first
// stands at `first`.
fn walk<T: Gather>(image: &[u8], ends: &[u8], first: usize, items: &mut T) -> Result<usize, Error>
    ensures { Walks (walk T.step image.now first ends.now items.old) result items.new }
{
    let mut last = first;
    for end in ends {
        let end = usize::from(*end);
        if end <= last || image.len() <= end {
            return Err(Error::NotAnImage);
        }
        items.add(&image[last + 1..end + 1])?;
        last = end;
    }
    Ok(last)
}

// ---- the image

// Whether all bytes from an index on are zero; past the end there are none.
pub fn zero_from(image: &[u8], at: usize) -> bool
    ensures { result ≡ all_zero (drop at image.now) }
{
    image[at.min(image.len())..].iter().all(|byte| *byte < 1)
}

// 1 to 15 snippets, 1 to 16 sequences.
pub fn counts_fit(s: usize, q: usize) -> bool
    ensures { result ≡ counts_fit s q }
{
    1 <= s && s <= 15 && 1 <= q && q <= 16
}

// Adds an image's snippets and its sequences, and answers how many there are of each. A pair, in the order of the image's first two bytes.
pub fn scan<S: Gather, Q: Gather>(
    image: &[u8],
    snippets: &mut S,
    sequences: &mut Q,
) -> Result<(u8, u8), Error>
    ensures { Scans image.now (scan S.step Q.step image.now snippets.old sequences.old) result snippets.new sequences.new }
{
    if image.len() != 100 {
        return Err(Error::NotAnImage);
    }
    let s = usize::from(image[0]);
    let q = usize::from(image[1]);
    if !counts_fit(s, q) {
        return Err(Error::NotAnImage);
    }
    let last = walk(image, &image[2..2 + s], 1 + s + q, snippets)?;
    let last = walk(image, &image[2 + s..2 + s + q], last, sequences)?;
    if !zero_from(image, last + 1) {
        return Err(Error::NotAnImage);
    }
    Ok((image[0], image[1]))
}

// The lists whose image the bytes are, or NotAnImage. What no list shows, the bytes behind the lists, is as in a new array.
pub fn read(image: &[u8]) -> Result<Lists, Error>
    ensures answer_value { answer_number result ≡ on_option (read_image image.now) 18 (λ _. 0) }
    ensures value { result ≡ reading_of (read_image image.now) }
{
    let mut snippets = Points::new(0);
    let mut sequences = Frames::new(FrameBuilder::silence());
    scan(image, &mut snippets, &mut sequences)?;
    Ok(Lists {
        snippets,
        sequences,
    })
}
