// Where the parts of an image stand, the lists that the reader gives back, the page for the binder, and that of two images in one, printed.
// Proved: every function returns.
#![tactic(auto)]

mod text;

use reader::{Frames, Points};
use show::Refusal;
use snippet::PwlPoint;
use std::io;
use text::{FrameText, PointText};

/// The parts of the image of so many snippets and sequences, by its end pointers.
pub fn layout(rt: &impl Print, image: &[u8], snippets: u8, sequences: u8) -> io::Result<()> {
    let sequence_ends = 2 + usize::from(snippets);
    let data = sequence_ends + usize::from(sequences);
    let last_point = laws::byte_at(image, sequence_ends - 1);
    let last_frame = laws::byte_at(image, data - 1);
    print!(rt; " counts 00 to 01, end pointers 02 to {:02X}", data - 1)?;
    print!(rt; ", snippets {data:02X} to {last_point:02X}")?;
    let first_frame = last_point.saturating_add(1);
    print!(rt; ", sequences {first_frame:02X} to {last_frame:02X}, then zeros")
}

/// The lists whose image the bytes are, or the refusal.
pub fn read(rt: &impl Print, image: &[u8]) -> io::Result<()> {
    match reader::read(image) {
        Ok(lists) => {
            for i in 0..lists.snippets.count {
                snippet(rt, &lists.snippets, i)?;
            }
            for i in 0..lists.sequences.count {
                sequence(rt, &lists.sequences, i)?;
            }
            Ok(())
        }
        Err(e) => println!(rt; "  refused with {}", Refusal(e)),
    }
}

/// The page of the image as it is, or the refusal.
pub fn page(rt: &impl Print, image: &[u8]) -> io::Result<()> {
    let mut out = [0u8; page::PAGE_SIZE];
    match page::page(image, &mut out) {
        Ok(length) => rt.write_all(out.get(..length).unwrap_or(&[])),
        Err(e) => println!(rt; "  refused with {}", Refusal(e)),
    }
}

/// The page of the image that the two make, or the refusal.
pub fn merged(rt: &impl Print, first: &[u8], second: &[u8]) -> io::Result<()> {
    let mut image = [0u8; 100];
    match merge::merge(first, second, &mut image) {
        Ok(()) => page(rt, &image),
        Err(e) => println!(rt; "  refused with {}", Refusal(e)),
    }
}

fn snippet(rt: &impl Print, points: &Points, i: u8) -> io::Result<()> {
    print!(rt; "  snippet {} ", u16::from(i) + 1)?;
    let points = points.list(usize::from(i)).unwrap_or(&[]);
    for (j, byte) in points.iter().enumerate() {
        let before = if j == 0 { "  " } else { ", " };
        print!(rt; "{before}{}", PointText(PwlPoint::from_byte(*byte)))?;
    }
    println!(rt)
}

fn sequence(rt: &impl Print, frames: &Frames, i: u8) -> io::Result<()> {
    print!(rt; "  sequence {i}")?;
    for frame in frames.list(usize::from(i)).unwrap_or(&[]) {
        print!(rt; "\n    {}", FrameText(*frame))?;
    }
    println!(rt)
}
