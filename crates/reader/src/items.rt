// The points and the frames in what the reader answers, list by list and one by one (added; no Rust file; document 01, 'The hundred bytes').
// Proved: the i-th list, the j-th point of the i-th snippet and the j-th frame of the i-th sequence are those of the lists that the reader's
// contract speaks of (specs/Items.antt), for any indexes.
ghost use Rattle.std.specs.Prelude.{◌≡◌};
ghost use Rattle.std.specs.Option.{option_map};
ghost use Rattle.std.proofs.Math.ListN.{get_elem?};
ghost use Rattle.reader.specs.Items.{element, at_told, point_at_told};
ghost use Rattle.reader.specs.Reading.{runs_in};
ghost use Rattle.reader.specs.Places.{start_in};

use crate::{Frames, Points, Runs};
use frame::FrameBuilder;
use snippet::PwlPoint;

// Two indexes and no type of their own: C hands two numbers through to here.
impl Points {
    // The j-th point of the i-th snippet, both counted from 0, if there is one.
    pub fn point_at(&self, i: usize, j: usize) -> Option<PwlPoint>
        ensures { point_at_told result ≡ element (runs_in self.now) i j }
    {
        self.at(i, j).map(PwlPoint::from_byte)
    }
}

impl Frames {
    // The j-th frame of the i-th sequence, both counted from 0, if there is one.
    pub fn frame_at(&self, i: usize, j: usize) -> Option<FrameBuilder>
        ensures { at_told result ≡ element (runs_in self.now) i j }
    {
        self.at(i, j)
    }
}

impl<T: Copy, const MOST: usize> Runs<T, MOST> {
    // The j-th element of the i-th list.
    fn at(&self, i: usize, j: usize) -> Option<T>
        ensures { at_told result ≡ element (runs_in self.now) i j }
    {
        self.list(i)?.get(j).copied()
    }

    // The i-th list, counted from 0, if there is one.
    pub fn list(&self, i: usize) -> Option<&[T]>
        ensures { at_told (option_map (λ l. l.now) result) ≡ get_elem? (runs_in self.now) i }
    {
        let ends = laws::shown(&self.ends, self.count);
        let to = usize::from(*ends.get(i)?).min(96);
        let from = start(ends, i).min(to);
        // Of an array of any T the check knows no part with a start: of a slice of all it does.
        let items = &self.items[..];
        Some(&items[from..to])
    }
}

// Where the i-th list starts: at the end of the one before.
fn start(ends: &[u8], i: usize) -> usize
    ensures { result ≡ start_in 0 ends.now i }
{
    match i {
        0 => 0,
        _ => usize::from(laws::byte_at(ends, i - 1)),
    }
}
