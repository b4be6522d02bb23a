// Lists of builder calls run, and images built and read, by the types that Rattle programs have: `WaveformMemoryBuilder`, `reader::read`
// and its lists. The functions exported for C do the same over items kept in bytes and over the image in place; each function here
// answers in the form of the exported one with its name.
// Proved: every function is safe and returns.
#![tactic(auto)]

ghost use Rattle.std.specs.Prelude.{◌<◌};

use calls::{Builders, Call};
use errors::Error;
use memory::WaveformMemoryBuilder;
use reader::Lists;
use sequence::SequenceBuilder;
use snippet::SnippetBuilder;

// How many bytes the record of a call has.
const RECORD: usize = 4;

/// The word of no point. As that of no frame, told here and not by `readings`, with which what stands here is compared.
pub const NO_POINT: u64 = 1 << 8;

/// The word of no frame.
pub const NO_FRAME: u64 = 1 << 48;

// ---- a list of calls

// The builders that calls are made on.
#[derive(Clone, Copy)]
struct Run {
    builders: Builders,
    memory: WaveformMemoryBuilder,
}

impl Run {
    fn new() -> Run {
        Run {
            builders: Builders::new(),
            memory: WaveformMemoryBuilder::new(false),
        }
    }

    // Makes the call of a record. One that adds to the memory uses up the item under construction; a refused one leaves all as it was.
    fn call(&mut self, record: &[u8]) -> Result<(), Error> {
        match Call::read(record) {
            Call::AddSnippet => {
                let snippet = self.builders.snippet.build()?;
                self.memory = self.memory.add_snippet(snippet)?;
                self.builders.snippet = SnippetBuilder::new();
                Ok(())
            }
            Call::AddSequence => {
                let sequence = self.builders.sequence.build()?;
                self.memory = self.memory.add_sequence(sequence)?;
                self.builders.sequence = SequenceBuilder::new();
                Ok(())
            }
            call => self.builders.apply(call),
        }
    }

    // Copies the image whole.
    fn build(self, image: &mut [u8]) -> Result<usize, Error> {
        let memory = self.memory.build()?;
        laws::copy_whole(image, memory.bytes())
    }
}

/// How many calls there are; the answers to them go to the front of `answers`.
pub fn answers(calls: &[u8], answers: &mut [u8]) -> u64 {
    let mut run = Run::new();
    for (record, answer) in calls.chunks(RECORD).zip(answers.iter_mut()) {
        *answer = errors::number(run.call(record));
    }
    calls.len().div_ceil(RECORD) as u64
}

/// The build's answer; the image goes to the front of `image`.
pub fn assemble(calls: &[u8], image: &mut [u8]) -> u64 {
    let mut run = Run::new();
    for record in calls.chunks(RECORD) {
        let _ = run.call(record);
    }
    u64::from(errors::number(run.build(image)))
}

/// The first refusal with 256 times the place of its call, counted from 1, else as `assemble`.
pub fn assemble_strict(calls: &[u8], image: &mut [u8]) -> u64 {
    let mut run = Run::new();
    for (place, record) in (1..u64::MAX).zip(calls.chunks(RECORD)) {
        if let Err(e) = run.call(record) {
            return (place << 8) | u64::from(e.number());
        }
    }
    u64::from(errors::number(run.build(image)))
}

// ---- images read

/// 256 times how many snippets and how many sequences, or the refusal above them.
pub fn read_counts(image: &[u8]) -> u64 {
    told(image, 16, |lists| {
        (u64::from(lists.snippets.count) << 8) | u64::from(lists.sequences.count)
    })
}

/// The byte of a point, 256 where there is none, or the refusal above them.
pub fn read_point(image: &[u8], i: usize, j: usize) -> u64 {
    told(image, 16, |lists| {
        lists
            .snippets
            .point_at(i, j)
            .map_or(NO_POINT, |point| u64::from(point.as_byte()))
    })
}

/// The word of a frame's fields, 2 to the power of 48 where there is none, or the refusal above them.
pub fn read_frame(image: &[u8], i: usize, j: usize) -> u64 {
    told(image, 56, |lists| {
        lists
            .sequences
            .frame_at(i, j)
            .map_or(NO_FRAME, |frame| frame.word())
    })
}

// What is told of the lists whose image the bytes are, or the refusal above so many bits.
fn told<F: FnOnce(&Lists) -> u64>(image: &[u8], bits: u32, word: F) -> u64
    requires callable { F.IsAlwaysCallable word }
    requires few { bits < 64 }
{
    match reader::read(image) {
        Ok(lists) => word(&lists),
        Err(e) => u64::from(e.number()) << bits,
    }
}
