// Points and snippets (waveform/snippet.rs; document 01, 'Points, frames, sequences').
// Proved: each function answers what specs/ says of its arguments, whatever the builder's fields hold; a builder that a call refuses is as it
// was. proofs/Points.antt: same kind, length and amplitude exactly when same byte.
// `bytes` (added) gives the bytes of all sixteen points, of which the first `byte_len` are the snippet's; `encode_into` copies all bytes or none
// (document 02, CR 5); no function here takes a closure.
#![tactic(auto)]

ghost use Rattle.std.specs.Prelude.{◌≡◌, true, false, map, ◌≤◌, length, take};
ghost use Rattle.laws.specs.Whole.{whole, whole_out, length_of};
ghost use Rattle.errors.specs.Number.{told, handed_by, built_by};
ghost use Rattle.errors.specs.Told.{gives};
ghost use Rattle.snippet.specs.Point.{point, point_told, ramp_in, timebases_in, amplitude_in};
ghost use Rattle.snippet.specs.Snippet.{point_of, pwl_byte, snippet_bytes, no_snippet, new_snippet, with_point, with_made, built_snippet};

use errors::Error;

pub const MAX_POINTS_PER_SNIPPET: usize = 16;

#[derive(Debug, Clone, Copy, PartialEq, Eq)]
pub struct PwlPoint {
    byte: u8,
}

// The first `len` points are the snippet's. An array with its count, as in the Rust, and so is the builder: no heap, and what allocates nothing in the kit (`arrayvec`) is not `Copy`.
#[derive(Debug, Clone, Copy)]
pub struct Snippet {
    points: [PwlPoint; MAX_POINTS_PER_SNIPPET],
    len: u8,
}

#[derive(Debug, Clone, Copy)]
pub struct SnippetBuilder {
    points: [PwlPoint; MAX_POINTS_PER_SNIPPET],
    len: u8,
}

impl PwlPoint {
    // The point that a byte says; every byte says one.
    pub fn from_byte(byte: u8) -> PwlPoint
        ensures { result ≡ point_of byte }
    {
        PwlPoint { byte }
    }

    pub fn ramp(timebases: u8, amplitude: u8) -> Result<PwlPoint, Error>
        ensures { point_told result ≡ point true timebases amplitude }
    {
        PwlPoint::new(true, timebases, amplitude)
    }

    pub fn step(timebases: u8, amplitude: u8) -> Result<PwlPoint, Error>
        ensures { point_told result ≡ point false timebases amplitude }
    {
        PwlPoint::new(false, timebases, amplitude)
    }

    // Whether it is a ramp is the point's own bit, as `is_ramp` gives it back; the Rust's `new` takes it so too.
    fn new(ramp: bool, timebases: u8, amplitude: u8) -> Result<PwlPoint, Error>
        ensures { point_told result ≡ point ramp timebases amplitude }
    {
        if timebases < 1 || 8 < timebases {
            return Err(Error::InvalidTimebase);
        }
        if 15 < amplitude {
            return Err(Error::InvalidAmplitude);
        }
        Ok(PwlPoint {
            byte: ((ramp as u8) << 7) | ((timebases - 1) << 4) | (amplitude & 0x0F),
        })
    }

    pub fn as_byte(self) -> u8
        ensures { result ≡ pwl_byte self }
    {
        self.byte
    }

    pub fn is_ramp(self) -> bool
        ensures { result ≡ ramp_in (pwl_byte self) }
    {
        (self.byte & 0x80) != 0
    }

    pub fn timebases(self) -> u8
        ensures { result ≡ timebases_in (pwl_byte self) }
    {
        ((self.byte >> 4) & 0x07) + 1
    }

    pub fn amplitude(self) -> u8
        ensures { result ≡ amplitude_in (pwl_byte self) }
    {
        self.byte & 0x0F
    }
}

impl Snippet {
    // A snippet without points, which no builder makes.
    pub const EMPTY: Snippet = Snippet {
        points: [PwlPoint { byte: 0 }; MAX_POINTS_PER_SNIPPET],
        len: 0,
    };

    // The points, in order.
    pub fn points(&self) -> &[PwlPoint]
        ensures { result.now ≡ take self.now.len self.now.points }
    {
        laws::shown(&self.points, self.len)
    }

    // All that the array holds, in use or not.
    pub fn all_points(&self) -> [PwlPoint; MAX_POINTS_PER_SNIPPET]
        ensures { result ≡ self.now.points }
    {
        let Snippet { points, .. } = self;
        *points
    }

    pub fn byte_len(&self) -> usize
        ensures value { result ≡ length (snippet_bytes self.now) }
        ensures upper_bound { result ≤ 16 }
    {
        self.points().len()
    }

    // The bytes of all sixteen points.
    pub fn bytes(&self) -> [u8; MAX_POINTS_PER_SNIPPET]
        ensures { result ≡ map pwl_byte self.now.points }
    {
        self.points.map(|p| p.byte)
    }

    // Copies all bytes and answers how many, or copies none and answers BufferTooShort.
    pub fn encode_into(&self, buffer: &mut [u8]) -> Result<usize, Error>
        ensures result_value { told result ≡ length_of (whole buffer.old (gives (snippet_bytes self.now))) }
        ensures buffer_after { buffer.new ≡ whole_out buffer.old (gives (snippet_bytes self.now)) }
    {
        laws::copy_whole(buffer, laws::shown(&self.bytes(), self.len))
    }
}

impl Default for SnippetBuilder {
    ghost is_default = { λ builder. builder ≡ new_snippet };

    fn default() -> SnippetBuilder {
        let Snippet { points, len } = Snippet::EMPTY;
        SnippetBuilder { points, len }
    }
}

impl SnippetBuilder {
    pub fn new() -> SnippetBuilder
        ensures { result ≡ new_snippet }
    {
        SnippetBuilder::default()
    }

    pub fn ramp(self, timebases: u8, amplitude: u8) -> Result<SnippetBuilder, Error>
        ensures { handed_by self result ≡ with_made self (point true timebases amplitude) }
    {
        self.point(PwlPoint::ramp(timebases, amplitude)?)
    }

    pub fn step(self, timebases: u8, amplitude: u8) -> Result<SnippetBuilder, Error>
        ensures { handed_by self result ≡ with_made self (point false timebases amplitude) }
    {
        self.point(PwlPoint::step(timebases, amplitude)?)
    }

    // A point that was made before.
    pub fn point(mut self, point: PwlPoint) -> Result<SnippetBuilder, Error>
        ensures { handed_by self result ≡ with_point self point }
    {
        let n = self.len as usize;
        if MAX_POINTS_PER_SNIPPET <= n {
            return Err(Error::TooManySnippets);
        }
        self.points[n] = point;
        self.len += 1;
        Ok(self)
    }

    pub fn build(self) -> Result<Snippet, Error>
        ensures { built_by no_snippet self result ≡ built_snippet self }
    {
        if self.len < 1 {
            return Err(Error::EmptySnippet);
        }
        let SnippetBuilder { points, len } = self;
        Ok(Snippet { points, len })
    }
}
