// The builder calls of the program `example`. Each is printed as it is made, with its refusal if it has one; a refused call adds nothing.
// Proved: every function returns.
#![tactic(auto)]

use errors::Error;
use frame::{Frame, FrameBuilder, FrameFields, Timebase};
use memory::{WaveformMemory, WaveformMemoryBuilder};
use sequence::SequenceBuilder;
use show::Refusal;
use snippet::SnippetBuilder;
use std::io;

// ---- snippets

pub fn new_snippet(rt: &impl Print, b: WaveformMemoryBuilder) -> io::Result<SnippetBuilder> {
    let id = b.next_snippet_id();
    print!(rt; "  snippet {id}  ")?;
    Ok(SnippetBuilder::new())
}

pub fn ramp(
    rt: &impl Print,
    s: SnippetBuilder,
    timebases: u8,
    amplitude: u8,
) -> io::Result<SnippetBuilder> {
    print!(rt; " ramp({timebases}, {amplitude})")?;
    or_as_before(rt, s, s.ramp(timebases, amplitude))
}

pub fn step(
    rt: &impl Print,
    s: SnippetBuilder,
    timebases: u8,
    amplitude: u8,
) -> io::Result<SnippetBuilder> {
    print!(rt; " step({timebases}, {amplitude})")?;
    or_as_before(rt, s, s.step(timebases, amplitude))
}

pub fn add_snippet(
    rt: &impl Print,
    b: WaveformMemoryBuilder,
    s: SnippetBuilder,
) -> io::Result<WaveformMemoryBuilder> {
    match s.build() {
        Ok(snippet) => {
            let points = snippet.byte_len();
            println!(rt; ": {points} points")?;
            or_as_before(rt, b, b.add_snippet(snippet))
        }
        Err(e) => refused(rt, b, e),
    }
}

// ---- sequences

pub fn new_sequence(rt: &impl Print, b: WaveformMemoryBuilder) -> io::Result<SequenceBuilder> {
    let id = b.next_sequence_id();
    println!(rt; "  sequence {id}")?;
    Ok(SequenceBuilder::new())
}

pub fn play(
    rt: &impl Print,
    q: SequenceBuilder,
    frame: FrameFields,
) -> io::Result<SequenceBuilder> {
    let snippet_id = frame.snippet_id;
    print!(rt; "    new({snippet_id})")?;
    match FrameBuilder::new(snippet_id) {
        Ok(f) => add_frame(rt, q, played(rt, f, frame)?),
        Err(e) => {
            let q = refused(rt, q, e)?;
            println!(rt)?;
            Ok(q)
        }
    }
}

// The calls after the first.
fn played(rt: &impl Print, f: FrameBuilder, frame: FrameFields) -> io::Result<Frame> {
    let gain = show::gain(frame.gain);
    let timebase = show::timebase(frame.timebase);
    print!(rt; " gain({gain}) timebase({timebase})")?;
    let mut f = f.gain(frame.gain).timebase(frame.timebase);
    if let Some(loop_count) = frame.loop_count {
        print!(rt; " loop_count({loop_count})")?;
        f = or_as_before(rt, f, f.loop_count(loop_count))?;
    }
    if let Some(frequency_hz) = frame.frequency_hz {
        print!(rt; " frequency_hz({frequency_hz})")?;
        f = or_as_before(rt, f, f.frequency_hz(frequency_hz))?;
    }
    Ok(f.build())
}

/// The built-in silence, which lasts two timebases.
pub fn pause(
    rt: &impl Print,
    q: SequenceBuilder,
    timebase: Timebase,
) -> io::Result<SequenceBuilder> {
    let length = show::timebase(timebase);
    print!(rt; "    silence() timebase({length})")?;
    add_frame(rt, q, FrameBuilder::silence().timebase(timebase).build())
}

fn add_frame(rt: &impl Print, q: SequenceBuilder, frame: Frame) -> io::Result<SequenceBuilder> {
    let q = or_as_before(rt, q, q.add_frame(frame))?;
    println!(rt)?;
    Ok(q)
}

pub fn add_sequence(
    rt: &impl Print,
    b: WaveformMemoryBuilder,
    q: SequenceBuilder,
) -> io::Result<WaveformMemoryBuilder> {
    match q.build() {
        Ok(sequence) => or_as_before(rt, b, b.add_sequence(sequence)),
        Err(e) => refused(rt, b, e),
    }
}

pub fn build(rt: &impl Print, b: WaveformMemoryBuilder) -> io::Result<WaveformMemory> {
    match b.build() {
        Ok(memory) => Ok(memory),
        Err(e) => {
            refused(rt, b, e)?;
            Err(io::Error::other("no image"))
        }
    }
}

// ---- what a call answers

// What a call made, or what it was made on if it was refused.
fn or_as_before<B: Copy>(rt: &impl Print, before: B, answer: Result<B, Error>) -> io::Result<B> {
    match answer {
        Ok(after) => Ok(after),
        Err(e) => refused(rt, before, e),
    }
}

fn refused<B: Copy>(rt: &impl Print, before: B, e: Error) -> io::Result<B> {
    print!(rt; " refused with {},", Refusal(e))?;
    Ok(before)
}
