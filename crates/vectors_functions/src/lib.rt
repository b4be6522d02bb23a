// The cases of the stored sample whose function drives no chip: it is called on what the case gives, and what it answers and leaves is
// compared with what the case tells. A list of calls that adds to a memory is also run, and an image also read, by value
// (`vectors_values`): such a case agrees only if both ways do.
// Proved: every function is safe and returns; `agrees` says yes to five fields only.
#![tactic(auto)]

ghost use Rattle.std.specs.Prelude.{◌≡◌, length, IsTrue};

mod kind;
mod walk;

use kind::Kind;
use laws::byte_at;
use vectors_bytes::{Fields, MARKER, number};

// Most cases leave no more bytes than these: a longer slice is lent, and filled with the marker, only to the others.
const SHORT: usize = 128;

// What a case gives and tells: the arguments, the list of calls or the image, the word answered, and what is left in the slice lent.
// A case of two images merged has the first in the place of the arguments; one of an image read has other fields in all places: `Reads`.
#[derive(Clone, Copy)]
struct Case<'a> {
    arguments: &'a [u8],
    input: &'a [u8],
    word: &'a [u8],
    out: &'a [u8],
}

/// Whether these fields are a case that drives no chip, and it agrees.
pub fn agrees(fields: &[Vec<u8>]) -> bool
    ensures { IsTrue result → length fields.now ≡ 5 }
{
    let [kind, arguments, input, word, out] = fields else {
        return false;
    };
    let case = Case {
        arguments,
        input,
        word,
        out,
    };
    vectors_bytes::kind(kind).is_some_and(|kind| case.agrees(kind))
}

/// Whether the fields of a line are such a case.
pub fn line_agrees(fields: &Fields) -> bool {
    if fields.len() != 5 {
        return false;
    }
    let case = Case {
        arguments: fields.get(1),
        input: fields.get(2),
        word: fields.get(3),
        out: fields.get(4),
    };
    vectors_bytes::kind(fields.get(0)).is_some_and(|kind| case.agrees(kind))
}

impl Case<'_> {
    // Whether the function of this kind, and the same by value if there is one, does what the case tells.
    fn agrees(&self, kind: Kind) -> bool {
        match kind {
            Kind::Reads => self.reads().exported() && self.reads().by_value(),
            _ => {
                self.leaves(|out| self.exported(kind, out))
                    && (!kind.has_values() || self.leaves(|out| self.by_value(kind, out)))
            }
        }
    }

    // Whether a call answers the word, and leaves these bytes in the slice lent, which it finds filled with the marker.
    fn leaves<F: FnOnce(&mut [u8]) -> u64>(&self, call: F) -> bool
        requires { F.IsAlwaysCallable call }
    {
        if self.out.len() <= SHORT {
            self.leaves_in(&mut [MARKER; SHORT], call)
        } else {
            self.leaves_in(&mut [MARKER; 4096], call)
        }
    }

    fn leaves_in<F: FnOnce(&mut [u8]) -> u64>(&self, lent: &mut [u8], call: F) -> bool
        requires { F.IsAlwaysCallable call }
    {
        let Some(out) = lent.get_mut(..self.out.len()) else {
            return false;
        };
        call(out) == number(self.word) && *out == *self.out
    }

    // What the function of this kind answers; 0 for `Reads`, which are several.
    fn exported(&self, kind: Kind, out: &mut [u8]) -> u64 {
        let calls = self.input;
        let a = byte_at(self.arguments, 0);
        let b = byte_at(self.arguments, 1);
        let c = byte_at(self.arguments, 2);
        match kind {
            Kind::Point => capi::da728x_point(a, b, c) as u64,
            Kind::PointIsRamp => capi::da728x_point_is_ramp(a) as u64,
            Kind::PointTimebases => capi::da728x_point_timebases(a) as u64,
            Kind::PointAmplitude => capi::da728x_point_amplitude(a) as u64,
            Kind::Snippet => capi::da728x_snippet(calls, out) as u64,
            Kind::Frame => capi::da728x_frame(calls, out) as u64,
            Kind::Sequence => capi::da728x_sequence(calls, out) as u64,
            Kind::CurrentLen => capi::da728x_current_len(calls) as u64,
            Kind::Answers => capi::da728x_answers(calls, out) as u64,
            Kind::Assemble => capi::da728x_assemble(calls, out) as u64,
            Kind::AssembleStrict => capi::da728x_assemble_strict(calls, out) as u64,
            Kind::Reads => 0,
            Kind::ReadLists => capi::da728x_read_lists(calls, out) as u64,
            Kind::Page => capi::da728x_page(calls, out) as u64,
            Kind::Merge => capi::da728x_merge(self.arguments, calls, out) as u64,
            Kind::RegisterAddresses => capi::da728x_register_addresses(out) as u64,
            Kind::ReadInterrupts => capi::da728x_read_interrupts(a, out) as u64,
            Kind::ReadActuator => capi::da728x_read_actuator(a, out) as u64,
            Kind::ReadControl => capi::da728x_read_control(a, out) as u64,
            Kind::ReadTrigger => capi::da728x_read_trigger(a, out) as u64,
            Kind::ReplaceInterrupts => capi::da728x_replace_interrupts(a, b, out) as u64,
            Kind::ReplaceActuator => capi::da728x_replace_actuator(a, b, out) as u64,
            Kind::ReplaceControl => capi::da728x_replace_control(a, b, out) as u64,
            Kind::ReplaceTrigger => capi::da728x_replace_trigger(a, b, out) as u64,
            Kind::VoltageSettings => capi_driver::da728x_voltage_settings(a) as u64,
            Kind::CurrentSettings => capi_driver::da728x_current_settings(a) as u64,
            Kind::FrequencySettings => {
                capi_driver::da728x_frequency_settings(u16::from_be_bytes([a, b]), c) as u64
            }
        }
    }

    // The same by value, where there is such a way (`has_values`).
    fn by_value(&self, kind: Kind, out: &mut [u8]) -> u64 {
        match kind {
            Kind::Answers => vectors_values::answers(self.input, out),
            Kind::Assemble => vectors_values::assemble(self.input, out),
            Kind::AssembleStrict => vectors_values::assemble_strict(self.input, out),
            _ => self.exported(kind, out),
        }
    }

    // What the fields are of a case of an image read.
    fn reads(&self) -> Reads<'_> {
        Reads {
            image: self.arguments,
            counts: self.input,
            points: self.word,
            frames: self.out,
        }
    }
}

// An image, and what a case tells of it: how many snippets and sequences, the words of all points and those of all frames.
#[derive(Clone, Copy)]
struct Reads<'a> {
    image: &'a [u8],
    counts: &'a [u8],
    points: &'a [u8],
    frames: &'a [u8],
}

impl Reads<'_> {
    // Whether the image has these, by the exported functions.
    fn exported(&self) -> bool {
        let image = self.image;
        capi::da728x_read_counts(image) as u64 == number(self.counts)
            && walk::points(
                self.points,
                |i, j| capi::da728x_read_point(image, i, j) as u64,
            )
            && walk::frames(self.frames, |i, j| capi::da728x_read_frame(image, i, j))
    }

    // The same by value.
    fn by_value(&self) -> bool {
        let image = self.image;
        vectors_values::read_counts(image) == number(self.counts)
            && walk::points(self.points, |i, j| vectors_values::read_point(image, i, j))
            && walk::frames(self.frames, |i, j| vectors_values::read_frame(image, i, j))
    }
}
