// Frames and their builder (waveform/frame.rs; document 01, 'Points, frames, sequences').
// Proved: each function answers what specs/ says of its arguments, whatever the builder's fields hold; a builder that a call refuses is as it
// was. proofs/Frames.antt: frames agree, in the words of demand 3, exactly when their bytes are the same.
// proofs/Written.antt and Reading.antt: `read` (added) undoes `build`, and reads nothing else. `FrameFields` and `word` (added) give the fields by
// name and as one number. src/bits.rt packs and unpacks the bytes.
// `build` gives the frame itself, since it cannot refuse; `encode_into` copies all bytes or none (document 02, CR 5); no function here takes a
// closure.
#![tactic(auto)]

mod bits;

ghost use Rattle.std.specs.Prelude.{◌≡◌, ◌%◌, ◌+◌, ◌^◌, ◌≤◌, ◌<◌, length, IfErr};
ghost use Rattle.laws.specs.Whole.{whole, whole_out, length_of};
ghost use Rattle.errors.specs.Number.{told, handed_by};
ghost use Rattle.errors.specs.Told.{gives};
ghost use Rattle.frame.specs.Builder.{plain_frame, silent_frame, new_frame};
ghost use Rattle.frame.specs.Builder.{with_gain, with_timebase, with_loop_count, with_frequency};
ghost use Rattle.frame.specs.Read.{gain_at, timebase_at, fields_in, one_byte, two_bytes, three_bytes, second_at, first_frame, read_told};
ghost use Rattle.frame.specs.Frame.{gain_code, timebase_code, frame_bytes, built_frame};
ghost use Rattle.frame.specs.Word.{fields_of, frame_word};

use errors::Error;

const MAX_FRAME_BYTES: usize = 3;

#[derive(Debug, Clone, Copy, PartialEq, Eq, Default)]
pub enum Gain {
    #[default]
    Full,
    Half,
    Quarter,
    Eighth,
}

#[derive(Debug, Clone, Copy, PartialEq, Eq, Default)]
pub enum Timebase {
    #[default]
    Ms5_44,
    Ms21_76,
    Ms43_52,
    Ms87_04,
}

// The first `len` bytes are the frame's: an array with its length, as in the Rust: no heap.
#[derive(Debug, Clone, Copy)]
pub struct Frame {
    bytes: [u8; MAX_FRAME_BYTES],
    len: u8,
}

#[derive(Debug, Clone, Copy)]
pub struct FrameBuilder {
    snippet_id: u8,
    gain: Gain,
    timebase: Timebase,
    loop_count: Option<u8>,
    frequency: Option<u16>,
}

// The code in a frame's first byte.
impl From<Gain> for u8 {
    ghost from_gives = { λ gain code. code ≡ gain_code gain };

    fn from(gain: Gain) -> u8 {
        gain as u8
    }
}

// A code past the last counts as the last.
impl From<u8> for Gain {
    ghost from_gives = { λ code gain. gain ≡ gain_at code };

    fn from(code: u8) -> Gain {
        match code {
            0 => Gain::Full,
            1 => Gain::Half,
            2 => Gain::Quarter,
            _ => Gain::Eighth,
        }
    }
}

// The code in a frame's first byte.
impl From<Timebase> for u8 {
    ghost from_gives = { λ timebase code. code ≡ timebase_code timebase };

    fn from(timebase: Timebase) -> u8 {
        timebase as u8
    }
}

// A code past the last counts as the last.
impl From<u8> for Timebase {
    ghost from_gives = { λ code timebase. timebase ≡ timebase_at code };

    fn from(code: u8) -> Timebase {
        match code {
            0 => Timebase::Ms5_44,
            1 => Timebase::Ms21_76,
            2 => Timebase::Ms43_52,
            _ => Timebase::Ms87_04,
        }
    }
}

impl Frame {
    // How many bytes the frame has, three at most.
    pub fn byte_len(&self) -> usize
        ensures { result ≡ length (frame_bytes self.now) }
    {
        self.as_bytes().len()
    }

    // The three bytes, of which the first `byte_len` are the frame's.
    pub fn bytes(&self) -> &[u8; MAX_FRAME_BYTES]
        ensures { result.now ≡ self.now.bytes }
    {
        let Frame { bytes, .. } = self;
        bytes
    }

    // The frame's bytes.
    pub fn as_bytes(&self) -> &[u8]
        ensures { result.now ≡ frame_bytes self.now }
    {
        laws::shown(&self.bytes, self.len)
    }

    // Copies all bytes and answers how many, or copies none and answers BufferTooShort.
    pub fn encode_into(&self, buffer: &mut [u8]) -> Result<usize, Error>
        ensures result_value { told result ≡ length_of (whole buffer.old (gives (frame_bytes self.now))) }
        ensures buffer_after { buffer.new ≡ whole_out buffer.old (gives (frame_bytes self.now)) }
    {
        laws::copy_whole(buffer, self.as_bytes())
    }
}

impl FrameBuilder {
    // A frame of a snippet, or InvalidSnippetId for a number that is 0 or above 15.
    pub fn new(snippet_id: u8) -> Result<FrameBuilder, Error>
        ensures { told result ≡ new_frame snippet_id }
    {
        if snippet_id < 1 || 15 < snippet_id {
            return Err(Error::InvalidSnippetId);
        }
        Ok(FrameBuilder::plain(snippet_id))
    }

    // The built-in silence, number 0.
    pub fn silence() -> FrameBuilder
        ensures { result ≡ silent_frame }
    {
        FrameBuilder::plain(0)
    }

    // Sets the gain.
    pub fn gain(self, gain: Gain) -> FrameBuilder
        ensures { result ≡ with_gain self gain }
    {
        FrameBuilder { gain, ..self }
    }

    // Sets the timebase.
    pub fn timebase(self, timebase: Timebase) -> FrameBuilder
        ensures { result ≡ with_timebase self timebase }
    {
        FrameBuilder { timebase, ..self }
    }

    // Sets the loop count, or InvalidLoopCount for one above 15.
    pub fn loop_count(self, count: u8) -> Result<FrameBuilder, Error>
        ensures { handed_by self result ≡ with_loop_count self count }
    {
        if 15 < count {
            return Err(Error::InvalidLoopCount);
        }
        Ok(FrameBuilder {
            loop_count: Some(count),
            ..self
        })
    }

    // Sets the frequency, or InvalidFrequency for one above 511.
    pub fn frequency_hz(self, freq_hz: u16) -> Result<FrameBuilder, Error>
        ensures { handed_by self result ≡ with_frequency self freq_hz }
    {
        if 511 < freq_hz {
            return Err(Error::InvalidFrequency);
        }
        Ok(FrameBuilder {
            frequency: Some(freq_hz),
            ..self
        })
    }

    // The frame of the fields set so far.
    pub fn build(self) -> Frame
        ensures { result ≡ built_frame self }
    {
        let id = self.snippet_id;
        let b1 = bits::first(u8::from(self.gain), u8::from(self.timebase), id);
        match (self.loop_count, self.frequency) {
            (count, Some(hz)) => {
                let b2 = bits::second(count.unwrap_or(0), bits::frequency(hz), id);
                Frame {
                    bytes: [b1, b2, bits::low_byte(hz)],
                    len: 3,
                }
            }
            (Some(count), None) => Frame {
                bytes: [b1, bits::second(count, 0, id), 0],
                len: 2,
            },
            (None, None) => {
                if bits::is_above_7(id) {
                    Frame {
                        bytes: [b1, bits::second(0, 0, id), 0],
                        len: 2,
                    }
                } else {
                    Frame {
                        bytes: [b1, 0, 0],
                        len: 1,
                    }
                }
            }
        }
    }

    // The Rust's defaults.
    fn plain(snippet_id: u8) -> FrameBuilder
        ensures { result ≡ plain_frame snippet_id }
    {
        FrameBuilder {
            snippet_id,
            gain: Gain::default(),
            timebase: Timebase::default(),
            loop_count: None,
            frequency: None,
        }
    }
}

// ---- a frame's fields, by name and as one number (added)

// What a builder holds; its own methods of these names set them.
#[derive(Debug, Clone, Copy, PartialEq, Eq)]
pub struct FrameFields {
    pub snippet_id: u8,
    pub gain: Gain,
    pub timebase: Timebase,
    pub loop_count: Option<u8>,
    pub frequency_hz: Option<u16>,
}

impl From<FrameBuilder> for FrameFields {
    ghost from_gives = { λ builder fields. fields ≡ fields_of builder };

    fn from(builder: FrameBuilder) -> FrameFields {
        FrameFields {
            snippet_id: builder.snippet_id,
            gain: builder.gain,
            timebase: builder.timebase,
            loop_count: builder.loop_count,
            frequency_hz: builder.frequency,
        }
    }
}

impl FrameBuilder {
    // One number of 48 bits: the snippet's number in bits 7..0, the gain's code in 15..8, the timebase's in 23..16, the
    // loop count in 31..24 (255 if absent), the frequency in 47..32 (65535 if absent). Not `From`, since a builder is no number: this is what C gets.
    pub fn word(self) -> u64
        ensures value { result ≡ frame_word self }
        ensures upper_bound { result < 2 ^ 48 }
    {
        let [low, high] = self.frequency.unwrap_or(65535).to_le_bytes();
        u64::from_le_bytes([
            self.snippet_id,
            self.gain.into(),
            self.timebase.into(),
            self.loop_count.unwrap_or(255),
            low,
            high,
            0,
            0,
        ])
    }
}

// ---- a frame read back from its bytes (added)

impl FrameBuilder {
    // The first frame of the bytes and how many of them it takes, or NotAnImage.
    #[tactic(auto, unfolding(crate::specs::Read::read_frame))]
    pub fn read(bytes: &[u8]) -> Result<(FrameBuilder, usize), Error>
        ensures value { read_told result ≡ first_frame bytes.now }
        ensures refusal { IfErr result (λ e. e ≡ Error.NotAnImage) }
    {
        match bytes {
            [a, rest @ ..] if !bits::is_second(*a) => match rest {
                [b, rest @ ..] if bits::is_second(*b) => FrameBuilder::read_second(*a, *b, rest),
                _ => Ok((FrameBuilder::one_byte(*a), 1)),
            },
            _ => Err(Error::NotAnImage),
        }
    }

    // A second byte says whether a third follows; bit 2 clear and bit 1 set is made by no builder.
    fn read_second(a: u8, b: u8, rest: &[u8]) -> Result<(FrameBuilder, usize), Error>
        ensures value { read_told result ≡ second_at a b rest.now }
        ensures refusal { IfErr result (λ e. e ≡ Error.NotAnImage) }
    {
        if !bits::has_frequency(b) {
            if !bits::has_high_bit(b) {
                return Ok((FrameBuilder::two_bytes(a, b), 2));
            }
            return Err(Error::NotAnImage);
        }
        match rest {
            [c, ..] => Ok((FrameBuilder::three_bytes(a, b, *c), 3)),
            [] => Err(Error::NotAnImage),
        }
    }

    fn one_byte(a: u8) -> FrameBuilder
        ensures { result ≡ one_byte a }
    {
        FrameBuilder::fields(a, bits::low_number_in(a), None, None)
    }

    fn two_bytes(a: u8, b: u8) -> FrameBuilder
        ensures { result ≡ two_bytes a b }
    {
        FrameBuilder::fields(a, bits::number_in(b, a), Some(bits::count_in(b)), None)
    }

    fn three_bytes(a: u8, b: u8, c: u8) -> FrameBuilder
        ensures { result ≡ three_bytes a b c }
    {
        let count = Some(bits::count_in(b));
        FrameBuilder::fields(
            a,
            bits::number_in(b, a),
            count,
            Some(bits::frequency_in(b, c)),
        )
    }

    // Gain and timebase from the first byte, the other fields as given.
    fn fields(a: u8, id: u8, loop_count: Option<u8>, frequency: Option<u16>) -> FrameBuilder
        ensures { result ≡ fields_in a id loop_count frequency }
    {
        FrameBuilder {
            snippet_id: id,
            gain: Gain::from(bits::gain_in(a)),
            timebase: Timebase::from(bits::timebase_in(a)),
            loop_count,
            frequency,
        }
    }
}
