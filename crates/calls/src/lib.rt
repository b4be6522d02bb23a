// Builder calls (added; no Rust file): the form in which they cross the boundary, and calls on one snippet, one frame and one sequence
// under construction. Document 01, 'The hundred bytes': each call gets what the last handed back; a refused call adds nothing.
// A frame is begun or not: `new` or `silence` begins it, a refused `new` leaves none, an accepted `add_frame` uses it up.
// Proved: `read` gives the call that the bytes say, `apply` the number and the builders that specs/Calls.antt says, for any bytes and
// builders. Lists of calls, and those that add to a memory, are run in `assemble`.
#![tactic(auto)]

ghost use Rattle.std.specs.Prelude.{◌≡◌};
ghost use Rattle.errors.specs.Number.{answer_number, told};
ghost use Rattle.errors.specs.Told.{handed};
ghost use Rattle.calls.specs.Calls.{first_record, call_of, said, said_by, none_number, called_by, started, frame_begun};

use errors::Error;
use frame::{FrameBuilder, Gain, Timebase};
use sequence::SequenceBuilder;
use snippet::{PwlPoint, SnippetBuilder};

// The last code of a gain or a timebase. Tested here: `From` takes every code, as it always did, so it cannot refuse one.
const LAST_CHOICE: u8 = 3;

// A builder call, or one that adds to a memory. specs/Said.antt has the calls, Calls.antt their codes.
#[derive(Debug, Clone, Copy, PartialEq, Eq)]
pub enum Call {
    NewSnippet,
    Ramp { timebases: u8, amplitude: u8 },
    Step { timebases: u8, amplitude: u8 },
    Point(PwlPoint),
    New(u8),
    Silence,
    Gain(Gain),
    Timebase(Timebase),
    LoopCount(u8),
    FrequencyHz(u16),
    NewSequence,
    AddFrame,
    AddSnippet,
    AddSequence,
}

// A snippet, a frame and a sequence under construction.
#[derive(Debug, Clone, Copy)]
pub struct Builders {
    pub snippet: SnippetBuilder,
    pub frame: Option<FrameBuilder>,
    pub sequence: SequenceBuilder,
}

impl Call {
    // The call that the first record says, by its code and two arguments; where it says none, and for a shorter record, NotSupported.
    // `read` and no `TryFrom`: of longer bytes it reads the first record.
    #[inline]
    pub fn read(calls: &[u8]) -> Result<Call, Error>
        ensures call { said_by result ≡ call_of (first_record calls.now) }
        ensures number { answer_number result ≡ none_number (call_of (first_record calls.now)) }
    {
        let [code, a, b, _, ..] = *calls else {
            return Err(Error::NotSupported);
        };
        Ok(match code {
            1 => Call::NewSnippet,
            2 => Call::Ramp {
                timebases: a,
                amplitude: b,
            },
            3 => Call::Step {
                timebases: a,
                amplitude: b,
            },
            4 => Call::Point(PwlPoint::from_byte(a)),
            5 => Call::New(a),
            6 => Call::Silence,
            7 if a <= LAST_CHOICE => Call::Gain(Gain::from(a)),
            8 if a <= LAST_CHOICE => Call::Timebase(Timebase::from(a)),
            9 => Call::LoopCount(a),
            10 => Call::FrequencyHz(u16::from_le_bytes([a, b])),
            11 => Call::NewSequence,
            12 => Call::AddFrame,
            13 => Call::AddSnippet,
            14 => Call::AddSequence,
            _ => return Err(Error::NotSupported),
        })
    }
}

impl Builders {
    // An empty snippet, no frame and an empty sequence.
    pub fn new() -> Builders
        ensures { result ≡ started }
    {
        Builders {
            snippet: SnippetBuilder::new(),
            frame: None,
            sequence: SequenceBuilder::new(),
        }
    }

    // Makes a call; one on a memory is none here.
    #[inline]
    pub fn apply(&mut self, call: Call) -> Result<(), Error>
        ensures { handed (answer_number result) self.new ≡ called_by self.old (said call) }
    {
        match call {
            Call::NewSnippet => self.snippet = SnippetBuilder::new(),
            Call::Ramp {
                timebases,
                amplitude,
            } => self.snippet = self.snippet.ramp(timebases, amplitude)?,
            Call::Step {
                timebases,
                amplitude,
            } => self.snippet = self.snippet.step(timebases, amplitude)?,
            Call::Point(point) => self.snippet = self.snippet.point(point)?,
            Call::New(number) => {
                self.frame = None;
                self.frame = Some(FrameBuilder::new(number)?);
            }
            Call::Silence => self.frame = Some(FrameBuilder::silence()),
            Call::Gain(gain) => self.frame = Some(self.begun()?.gain(gain)),
            Call::Timebase(timebase) => self.frame = Some(self.begun()?.timebase(timebase)),
            Call::LoopCount(count) => self.frame = Some(self.begun()?.loop_count(count)?),
            Call::FrequencyHz(hz) => self.frame = Some(self.begun()?.frequency_hz(hz)?),
            Call::NewSequence => self.sequence = SequenceBuilder::new(),
            Call::AddFrame => {
                self.sequence = self.sequence.add_frame(self.begun()?.build())?;
                self.frame = None;
            }
            Call::AddSnippet | Call::AddSequence => return Err(Error::NotSupported),
        }
        Ok(())
    }

    // The frame under construction.
    fn begun(&self) -> Result<FrameBuilder, Error>
        ensures { told result ≡ frame_begun self.now.frame }
    {
        self.frame.ok_or(Error::InvalidSnippetId)
    }
}
