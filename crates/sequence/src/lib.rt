// Sequences and their builder (waveform/sequence.rs; document 01, 'Points, frames, sequences').
// The sequence under construction carries its 96 bytes with a length and a frame count.
// Proved: each function answers what specs/ says of its arguments, whatever the builder's fields hold; a builder that a call refuses is as it
// was. `encode_into` copies all bytes or none (document 02, CR 5); no function here takes a closure.
#![tactic(auto)]

ghost use Rattle.std.specs.Prelude.{◌≡◌, ◌≤◌, length};
ghost use Rattle.laws.specs.Whole.{whole, whole_out, length_of};
ghost use Rattle.errors.specs.Number.{told, handed_by, built_by};
ghost use Rattle.errors.specs.Told.{gives};
ghost use Rattle.sequence.specs.Sequence.{sequence_bytes, new_sequence, no_sequence, with_frame, built_sequence};

use errors::Error;
use frame::Frame;

pub const MAX_FRAMES_PER_SEQUENCE: u8 = 32;

pub const MAX_SEQUENCE_BYTES: usize = 96;

// The first `len` bytes are the sequence's. An array with its length, as in the Rust: no heap; so is the builder, as document 01
// asks ("carries its 96 bytes with a length and a frame count").
#[derive(Debug, Clone, Copy)]
pub struct Sequence {
    data: [u8; MAX_SEQUENCE_BYTES],
    len: u8,
}

#[derive(Debug, Clone, Copy)]
pub struct SequenceBuilder {
    data: [u8; MAX_SEQUENCE_BYTES],
    len: u8,
    frame_count: u8,
}

impl Sequence {
    // A sequence without frames, which no builder makes.
    pub const EMPTY: Sequence = Sequence {
        data: [0; MAX_SEQUENCE_BYTES],
        len: 0,
    };

    pub fn byte_len(&self) -> usize
        ensures value { result ≡ length (sequence_bytes self.now) }
        ensures upper_bound { result ≤ 96 }
    {
        self.as_bytes().len()
    }

    // The 96 bytes, of which the first `byte_len` are the sequence's.
    pub fn bytes(&self) -> &[u8; MAX_SEQUENCE_BYTES]
        ensures { result.now ≡ self.now.«data» }
    {
        let Sequence { data, .. } = self;
        data
    }

    // The sequence's bytes.
    pub fn as_bytes(&self) -> &[u8]
        ensures { result.now ≡ sequence_bytes self.now }
    {
        laws::shown(&self.data, self.len)
    }

    // Copies all bytes and answers how many, or copies none and answers BufferTooShort.
    pub fn encode_into(&self, buffer: &mut [u8]) -> Result<usize, Error>
        ensures result_value { told result ≡ length_of (whole buffer.old (gives (sequence_bytes self.now))) }
        ensures buffer_after { buffer.new ≡ whole_out buffer.old (gives (sequence_bytes self.now)) }
    {
        laws::copy_whole(buffer, self.as_bytes())
    }
}

impl Default for SequenceBuilder {
    ghost is_default = { λ builder. builder ≡ new_sequence };

    fn default() -> SequenceBuilder {
        SequenceBuilder {
            data: [0; MAX_SEQUENCE_BYTES],
            len: 0,
            frame_count: 0,
        }
    }
}

impl SequenceBuilder {
    pub fn new() -> SequenceBuilder
        ensures { result ≡ new_sequence }
    {
        SequenceBuilder::default()
    }

    // The 96 bytes are tested before the 32 frames.
    pub fn add_frame(mut self, frame: Frame) -> Result<SequenceBuilder, Error>
        ensures { handed_by self result ≡ with_frame self frame }
    {
        let at = self.len as usize;
        let n = frame.byte_len();
        if MAX_SEQUENCE_BYTES < at + n {
            return Err(Error::WaveformMemoryFull);
        }
        if MAX_FRAMES_PER_SEQUENCE <= self.frame_count {
            return Err(Error::TooManySequences);
        }
        self.data[at..at + n].copy_from_slice(frame.as_bytes());
        self.len += n as u8;
        self.frame_count += 1;
        Ok(self)
    }

    pub fn current_len(&self) -> usize
        ensures { result ≡ self.now.len }
    {
        self.len as usize
    }

    pub fn build(self) -> Result<Sequence, Error>
        ensures { built_by no_sequence self result ≡ built_sequence self }
    {
        if self.len < 1 {
            return Err(Error::EmptySequence);
        }
        let SequenceBuilder { data, len, .. } = self;
        Ok(Sequence { data, len })
    }
}
