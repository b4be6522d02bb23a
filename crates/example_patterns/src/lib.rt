// The two patterns of the program `example`. Proved: every function returns.
#![tactic(auto)]

use example_builders::{
    add_sequence, add_snippet, build, new_sequence, new_snippet, pause, play, ramp, step,
};
use frame::{FrameFields, Gain, Timebase};
use memory::{WaveformMemory, WaveformMemoryBuilder};
use sequence::SequenceBuilder;
use snippet::SnippetBuilder;
use std::io;

/// Two long swells, the second stronger.
pub fn shallow_ahead(rt: &impl Print) -> io::Result<WaveformMemory> {
    println!(rt; "\nshallow ahead: two long swells, the second stronger")?;
    let b = WaveformMemoryBuilder::new(false);
    let b = add_snippet(rt, b, swell(rt, new_snippet(rt, b)?)?)?;
    let weaker = FrameFields {
        snippet_id: 1,
        gain: Gain::Half,
        timebase: Timebase::Ms43_52,
        loop_count: Some(0),
        frequency_hz: Some(120),
    };
    let stronger = FrameFields {
        gain: Gain::Full,
        loop_count: Some(1),
        ..weaker
    };
    let q = new_sequence(rt, b)?;
    let q = play(rt, q, weaker)?;
    let q = pause(rt, q, Timebase::Ms87_04)?;
    let q = play(rt, q, stronger)?;
    build(rt, add_sequence(rt, b, q)?)
}

// One call is refused, and adds nothing.
fn swell(rt: &impl Print, s: SnippetBuilder) -> io::Result<SnippetBuilder> {
    let s = ramp(rt, s, 8, 3)?;
    let s = ramp(rt, s, 8, 7)?;
    let s = ramp(rt, s, 9, 0)?;
    ramp(rt, s, 4, 0)
}

/// Sequence 0 turns to port, sequence 1 to starboard.
pub fn turn_now(rt: &impl Print) -> io::Result<WaveformMemory> {
    println!(rt;
        "\nturn now: three sharp knocks, a pause and a thud to port; the other way round to starboard"
    )?;
    let b = WaveformMemoryBuilder::new(false);
    let b = add_snippet(rt, b, knock(rt, new_snippet(rt, b)?)?)?;
    let b = add_snippet(rt, b, thud(rt, new_snippet(rt, b)?)?)?;
    let port = end_in_thud(rt, knock_thrice(rt, new_sequence(rt, b)?)?)?;
    let b = add_sequence(rt, b, port)?;
    let starboard = knock_thrice(rt, begin_in_thud(rt, new_sequence(rt, b)?)?)?;
    let b = add_sequence(rt, b, starboard)?;
    build(rt, b)
}

fn knock(rt: &impl Print, s: SnippetBuilder) -> io::Result<SnippetBuilder> {
    let s = step(rt, s, 2, 7)?;
    step(rt, s, 2, 0)
}

fn thud(rt: &impl Print, s: SnippetBuilder) -> io::Result<SnippetBuilder> {
    let s = step(rt, s, 3, 7)?;
    ramp(rt, s, 8, 0)
}

// Each knock is stronger than the one before.
fn knock_thrice(rt: &impl Print, q: SequenceBuilder) -> io::Result<SequenceBuilder> {
    let mut q = q;
    for gain in [Gain::Quarter, Gain::Half, Gain::Full] {
        let knock = FrameFields {
            snippet_id: 1,
            gain,
            timebase: Timebase::Ms21_76,
            loop_count: Some(0),
            frequency_hz: Some(200),
        };
        q = play(rt, q, knock)?;
    }
    Ok(q)
}

// The thud of both sequences.
const THUD: FrameFields = FrameFields {
    snippet_id: 2,
    gain: Gain::Full,
    timebase: Timebase::Ms21_76,
    loop_count: Some(2),
    frequency_hz: Some(300),
};

fn end_in_thud(rt: &impl Print, q: SequenceBuilder) -> io::Result<SequenceBuilder> {
    let q = pause(rt, q, Timebase::Ms87_04)?;
    play(rt, q, THUD)
}

fn begin_in_thud(rt: &impl Print, q: SequenceBuilder) -> io::Result<SequenceBuilder> {
    let q = play(rt, q, THUD)?;
    pause(rt, q, Timebase::Ms87_04)
}
