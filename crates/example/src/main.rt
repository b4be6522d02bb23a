// The main job, printed: two patterns made by the builders, their images, the lists that the reader gives back, their pages for the binder,
// both in one image, and the driver on a simulated chip. rust/harness/tests/example.rs holds what `stdout` says against the published Rust,
// and the pages against a plain printer.
// Proved: every function returns.
#![tactic(auto)]

use memory::WaveformMemory;
use show::Image;
use std::io;

fn main(rt: HostRuntime) -> io::Result<()> {
    println!(rt;
        "1. Two patterns, by the builders: every call in order. A ramp or step has a length in timebases and an"
    )?;
    println!(rt; "   amplitude to reach; loop count 0 plays a frame once")?;
    let ahead = example_patterns::shallow_ahead(&rt)?;
    let turn = example_patterns::turn_now(&rt)?;
    println!(rt;
        "\n2. Their images, a hundred bytes each, in hexadecimal; an end pointer is the index of an item's last byte"
    )?;
    image(&rt, "shallow ahead", &ahead)?;
    image(&rt, "turn now", &turn)?;
    example_calls::ahead(&rt)?;
    println!(rt;
        "\n3. The same images, read back, their pages for the binder, and both in one image"
    )?;
    read(&rt, "shallow ahead", ahead.bytes())?;
    read(&rt, "turn now", turn.bytes())?;
    let damaged = changed(&turn, 0x02, 0xFF);
    read(&rt, "turn now with byte 02 changed to FF", &damaged)?;
    println!(rt; "\nthe page of shallow ahead and turn now in one image")?;
    example_lists::merged(&rt, ahead.bytes(), turn.bytes())?;
    println!(rt;
        "\nthe same with byte 13 of turn now changed to 1B, a frame of snippet 3, which turn now lacks"
    )?;
    let lacking = changed(&turn, 0x13, 0x1B);
    example_lists::merged(&rt, ahead.bytes(), &lacking)?;
    example_drive::drive(&rt, &ahead, &turn)
}

fn image(rt: &impl Print, title: &str, memory: &WaveformMemory) -> io::Result<()> {
    let bytes = memory.bytes();
    print!(rt; "\n{title}:")?;
    example_lists::layout(rt, bytes, memory.num_snippets(), memory.num_sequences())?;
    print!(rt; "{}", Image(bytes))
}

// The lists of an image, and its page.
fn read(rt: &impl Print, title: &str, image: &[u8]) -> io::Result<()> {
    println!(rt; "\n{title}")?;
    example_lists::read(rt, image)?;
    println!(rt; "\nthe page of {title}")?;
    example_lists::page(rt, image)
}

// The same image with one byte changed.
fn changed(memory: &WaveformMemory, at: usize, byte: u8) -> [u8; 100] {
    let mut bytes = *memory.bytes();
    if let Some(old) = bytes.get_mut(at) {
        *old = byte;
    }
    bytes
}
