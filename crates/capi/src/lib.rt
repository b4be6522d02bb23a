// The functions exported for C, on numbers and byte slices; include/da728x.h declares and explains each. Document 01, 'Rust forms without
// a counterpart': "The harness in Rust calls functions exported for C on numbers and byte slices". They reach snippet.rs, frame.rs,
// sequence.rs, registers.rs and, by `assemble`, what memory.rs builds; those of lib.rs are in `capi_driver`.
// Proved: every one is total, on any bytes and any lengths, and its contract equates the answer and every lent byte with a definition
// (in specs/ of the crates it calls); specs/Telling.antt: no answer misleads. Left out: the functions without an export of their own, which
// docs/DIFFERENCES.md lists.
#![tactic(auto)]

ghost use Rattle.std.specs.Prelude.{◌≡◌, ltb, min, length};
ghost use Rattle.errors.specs.Number.{told};
ghost use Rattle.errors.specs.Told.{told_number};
ghost use Rattle.errors.specs.Packed.{packed, Room};
ghost use Rattle.snippet.specs.Point.{point, point_told, ramp_in, timebases_in, amplitude_in};
ghost use Rattle.laws.specs.Copied.{copied};
ghost use Rattle.laws.specs.Whole.{whole, whole_out, length_of};
ghost use Rattle.calls.specs.Calls.{calls_in};
ghost use Rattle.assemble.specs.Lists.{answers_of, builders_of};
ghost use Rattle.assemble.specs.Items.{snippet_item, frame_item, sequence_item, image_item, strict_item, leniently, strictly};
ghost use Rattle.content.specs.ReadImage.{read_image};
ghost use Rattle.readings.specs.Readings.{counts_answer, point_answer, frame_answer};
ghost use Rattle.readings.specs.Lists.{lists_item, lists_answer};
ghost use Rattle.page.specs.Lines.{page_item};
ghost use Rattle.merge.specs.Merged.{merged_item};
ghost use Rattle.field.specs.Field.{code_of};
ghost use Rattle.field.specs.Layout.{readings, replacements};
ghost use Rattle.registers.specs.Table.{interrupts, actuator, control, trigger, read_only, addresses};

use errors::Error;
use snippet::PwlPoint;

// A point's answer as one number: the only one whose refusals stand above 8 bits, and in a `u16`.
fn word(made: Result<PwlPoint, Error>) -> u16
    ensures { result ≡ packed 8 (point_told made) }
{
    match made {
        Ok(p) => u16::from(p.as_byte()),
        Err(e) => u16::from(e.number()) << 8,
    }
}

#[unsafe(no_mangle)]
pub extern "C" fn da728x_point(ramp: u8, timebases: u8, amplitude: u8) -> u16
    ensures { result ≡ packed 8 (point (ltb 0 ramp) timebases amplitude) }
{
    word(if 0 < ramp {
        PwlPoint::ramp(timebases, amplitude)
    } else {
        PwlPoint::step(timebases, amplitude)
    })
}

#[unsafe(no_mangle)]
pub extern "C" fn da728x_point_is_ramp(byte: u8) -> u8
    ensures { result ≡ code_of (ramp_in byte) }
{
    PwlPoint::from_byte(byte).is_ramp() as u8
}

#[unsafe(no_mangle)]
pub extern "C" fn da728x_point_timebases(byte: u8) -> u8
    ensures { result ≡ timebases_in byte }
{
    PwlPoint::from_byte(byte).timebases()
}

#[unsafe(no_mangle)]
pub extern "C" fn da728x_point_amplitude(byte: u8) -> u8
    ensures { result ≡ amplitude_in byte }
{
    PwlPoint::from_byte(byte).amplitude()
}

// What encoding an item answers as one number.
fn length_word(r: Result<usize, Error>) -> u32
    requires { Room 16 (told r) }
    ensures { result ≡ packed 16 (told r) }
{
    errors::word(r.map(|n| n as u32))
}

// Builds the snippet and encodes it into the front of `out`; answers its length, or the refusal, and then `out` stays.
#[unsafe(no_mangle)]
#[tactic(auto, using(crate::proofs::Words::answer_room, crate::proofs::Words::few_snippet))]
pub extern "C" fn da728x_snippet(calls: &[u8], out: &mut [u8]) -> u32
    ensures answer { result ≡ packed 16 (length_of (whole out.old (snippet_item calls.now))) }
    ensures out { out.new ≡ whole_out out.old (snippet_item calls.now) }
{
    length_word(snippet_into(calls, out))
}

// Three functions, each beside its export: `?` needs a `Result`, which an export is not, and the items share no trait.
fn snippet_into(calls: &[u8], out: &mut [u8]) -> Result<usize, Error>
    ensures answer { told result ≡ length_of (whole out.old (snippet_item calls.now)) }
    ensures out { out.new ≡ whole_out out.old (snippet_item calls.now) }
{
    assemble::builders(calls).snippet.build()?.encode_into(out)
}

// Builds the frame and encodes it into the front of `out`; answers its length, or the refusal, and then `out` stays.
#[unsafe(no_mangle)]
pub extern "C" fn da728x_frame(calls: &[u8], out: &mut [u8]) -> u32
    ensures answer { result ≡ packed 16 (length_of (whole out.old (frame_item calls.now))) }
    ensures out { out.new ≡ whole_out out.old (frame_item calls.now) }
{
    length_word(frame_into(calls, out))
}

fn frame_into(calls: &[u8], out: &mut [u8]) -> Result<usize, Error>
    ensures answer { told result ≡ length_of (whole out.old (frame_item calls.now)) }
    ensures out { out.new ≡ whole_out out.old (frame_item calls.now) }
{
    assemble::builders(calls)
        .frame
        .ok_or(Error::InvalidSnippetId)?
        .build()
        .encode_into(out)
}

// Builds the sequence and encodes it into the front of `out`; answers its length, or the refusal, and then `out` stays.
#[unsafe(no_mangle)]
#[tactic(auto, using(crate::proofs::Words::answer_room, crate::proofs::Words::few_sequence))]
pub extern "C" fn da728x_sequence(calls: &[u8], out: &mut [u8]) -> u32
    ensures answer { result ≡ packed 16 (length_of (whole out.old (sequence_item calls.now))) }
    ensures out { out.new ≡ whole_out out.old (sequence_item calls.now) }
{
    length_word(sequence_into(calls, out))
}

fn sequence_into(calls: &[u8], out: &mut [u8]) -> Result<usize, Error>
    ensures answer { told result ≡ length_of (whole out.old (sequence_item calls.now)) }
    ensures out { out.new ≡ whole_out out.old (sequence_item calls.now) }
{
    assemble::builders(calls).sequence.build()?.encode_into(out)
}

// How many bytes the sequence under construction has.
#[unsafe(no_mangle)]
pub extern "C" fn da728x_current_len(calls: &[u8]) -> usize
    ensures { result ≡ (builders_of calls.now).sequence.len }
{
    assemble::builders(calls).sequence.current_len()
}

// Stores the answer to each call, and answers how many calls there are.
#[unsafe(no_mangle)]
pub extern "C" fn da728x_answers(calls: &[u8], answers: &mut [u8]) -> usize
    ensures count { result ≡ length (calls_in calls.now) }
    ensures answers { answers.new ≡ copied answers.old (answers_of calls.now) }
{
    assemble::answers(calls, answers)
}

// Builds the image of what the accepted calls added.
#[unsafe(no_mangle)]
pub extern "C" fn da728x_assemble(calls: &[u8], image: &mut [u8]) -> u8
    ensures answer { result ≡ leniently image.old calls.now }
    ensures image { image.new ≡ whole_out image.old (image_item calls.now) }
{
    errors::number(assemble::assemble(calls, image))
}

// Builds the image if no call is refused.
#[unsafe(no_mangle)]
pub extern "C" fn da728x_assemble_strict(calls: &[u8], image: &mut [u8]) -> u32
    ensures answer { result ≡ strictly image.old calls.now }
    ensures image { image.new ≡ whole_out image.old (strict_item calls.now) }
{
    match assemble::assemble_strict(calls, image) {
        Ok(()) => 0,
        Err(refusal) => refusal.number(),
    }
}

// How many snippets and sequences an image has.
#[unsafe(no_mangle)]
pub extern "C" fn da728x_read_counts(image: &[u8]) -> u32
    ensures { result ≡ packed 16 (counts_answer (read_image image.now)) }
{
    readings::counts(image)
}

// The byte of a point of an image.
#[unsafe(no_mangle)]
pub extern "C" fn da728x_read_point(image: &[u8], i: usize, j: usize) -> u32
    ensures { result ≡ packed 16 (point_answer (read_image image.now) i j) }
{
    readings::point(image, i, j)
}

// The fields of a frame of an image, as one number.
#[unsafe(no_mangle)]
pub extern "C" fn da728x_read_frame(image: &[u8], i: usize, j: usize) -> u64
    ensures { result ≡ packed 56 (frame_answer (read_image image.now) i j) }
{
    readings::frame(image, i, j)
}

// All lists of an image.
#[unsafe(no_mangle)]
pub extern "C" fn da728x_read_lists(image: &[u8], lists: &mut [u8]) -> u32
    ensures answer { result ≡ packed 16 (lists_answer lists.old (read_image image.now)) }
    ensures lists { lists.new ≡ whole_out lists.old (lists_item (read_image image.now)) }
{
    readings::lists(image, lists)
}

// Prints an image's page into the front of `out`; answers its length, or the refusal, and then `out` stays.
#[unsafe(no_mangle)]
#[tactic(auto, using(crate::proofs::Words::page_fits))]
pub extern "C" fn da728x_page(image: &[u8], out: &mut [u8]) -> u32
    ensures answer { result ≡ packed 16 (length_of (whole out.old (page_item (read_image image.now)))) }
    ensures out { out.new ≡ whole_out out.old (page_item (read_image image.now)) }
{
    length_word(page::page(image, out))
}

// Puts two images merged into one to the front of `image`; answers 0, or the refusal's number, and then `image` stays.
#[unsafe(no_mangle)]
pub extern "C" fn da728x_merge(first: &[u8], second: &[u8], image: &mut [u8]) -> u8
    ensures answer { result
        ≡ told_number (whole image.old (merged_item (read_image first.now) (read_image second.now))) }
    ensures image { image.new ≡ whole_out image.old (merged_item (read_image first.now) (read_image second.now)) }
{
    errors::number(merge::merge(first, second, image))
}

#[unsafe(no_mangle)]
pub extern "C" fn da728x_register_addresses(out: &mut [u8]) -> usize
    ensures value { result ≡ min (length addresses) (length out.old) }
    ensures out_after { out.new ≡ copied out.old addresses }
{
    let all = registers::Register::all();
    laws::copy_into(out, &all)
}

// The listings of the four groups stay eight functions: each is an export with a name that C calls, as all here are.
#[unsafe(no_mangle)]
pub extern "C" fn da728x_read_interrupts(byte: u8, out: &mut [u8]) -> usize
    ensures value { result ≡ min (length (readings interrupts byte)) (length out.old) }
    ensures out_after { out.new ≡ copied out.old (readings interrupts byte) }
{
    let values = registers_interrupts::fields(byte);
    laws::copy_into(out, &values)
}

#[unsafe(no_mangle)]
pub extern "C" fn da728x_replace_interrupts(byte: u8, value: u8, out: &mut [u8]) -> usize
    ensures value { result
        ≡ min (length (replacements read_only interrupts byte value)) (length out.old) }
    ensures out_after { out.new ≡ copied out.old (replacements read_only interrupts byte value) }
{
    let bytes = registers_interrupts::replaced(byte, value);
    laws::copy_into(out, &bytes)
}

#[unsafe(no_mangle)]
pub extern "C" fn da728x_read_actuator(byte: u8, out: &mut [u8]) -> usize
    ensures value { result ≡ min (length (readings actuator byte)) (length out.old) }
    ensures out_after { out.new ≡ copied out.old (readings actuator byte) }
{
    let values = registers_actuator::fields(byte);
    laws::copy_into(out, &values)
}

#[unsafe(no_mangle)]
pub extern "C" fn da728x_replace_actuator(byte: u8, value: u8, out: &mut [u8]) -> usize
    ensures value { result
        ≡ min (length (replacements read_only actuator byte value)) (length out.old) }
    ensures out_after { out.new ≡ copied out.old (replacements read_only actuator byte value) }
{
    let bytes = registers_actuator::replaced(byte, value);
    laws::copy_into(out, &bytes)
}

#[unsafe(no_mangle)]
pub extern "C" fn da728x_read_control(byte: u8, out: &mut [u8]) -> usize
    ensures value { result ≡ min (length (readings control byte)) (length out.old) }
    ensures out_after { out.new ≡ copied out.old (readings control byte) }
{
    let values = registers_control::fields(byte);
    laws::copy_into(out, &values)
}

#[unsafe(no_mangle)]
pub extern "C" fn da728x_replace_control(byte: u8, value: u8, out: &mut [u8]) -> usize
    ensures value { result
        ≡ min (length (replacements read_only control byte value)) (length out.old) }
    ensures out_after { out.new ≡ copied out.old (replacements read_only control byte value) }
{
    let bytes = registers_control::replaced(byte, value);
    laws::copy_into(out, &bytes)
}

#[unsafe(no_mangle)]
pub extern "C" fn da728x_read_trigger(byte: u8, out: &mut [u8]) -> usize
    ensures value { result ≡ min (length (readings trigger byte)) (length out.old) }
    ensures out_after { out.new ≡ copied out.old (readings trigger byte) }
{
    let values = registers_trigger::fields(byte);
    laws::copy_into(out, &values)
}

#[unsafe(no_mangle)]
pub extern "C" fn da728x_replace_trigger(byte: u8, value: u8, out: &mut [u8]) -> usize
    ensures value { result
        ≡ min (length (replacements read_only trigger byte value)) (length out.old) }
    ensures out_after { out.new ≡ copied out.old (replacements read_only trigger byte value) }
{
    let bytes = registers_trigger::replaced(byte, value);
    laws::copy_into(out, &bytes)
}
