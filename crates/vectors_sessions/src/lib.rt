// The cases of the stored sample that drive the chip: a session is begun, run on the exchanges that the case tells, and asked for what
// it leaves.
// Proved: every function is safe and returns; `agrees` says yes to ten fields only.
#![tactic(auto)]

ghost use Rattle.std.specs.Prelude.{◌≡◌, length, IsTrue};

mod kind;
mod told;

use exchange::Reply;
use kind::Kind;
use laws::byte_at;
use vectors_bytes::{Fields, MARKER, number};

// More exchanges than a session makes.
const MOST: u64 = 128;

// What a case gives and tells: the record, the numbers among the arguments, the settings or the image, the number of the refusal, the
// exchanges, the word that the last answer is told, the read buffer, the record afterwards, and the word of the result.
#[derive(Clone, Copy)]
struct Case<'a> {
    record: &'a [u8],
    arguments: &'a [u8],
    input: &'a [u8],
    refusal: &'a [u8],
    exchanges: &'a [u8],
    told: &'a [u8],
    buffer: &'a [u8],
    after: &'a [u8],
    result: &'a [u8],
}

/// Whether these fields are a case that drives the chip, and it agrees.
pub fn agrees(fields: &[Vec<u8>]) -> bool
    ensures { IsTrue result → length fields.now ≡ 10 }
{
    let [
        kind,
        record,
        arguments,
        input,
        refusal,
        exchanges,
        told,
        buffer,
        after,
        result,
    ] = fields
    else {
        return false;
    };
    let case = Case {
        record,
        arguments,
        input,
        refusal,
        exchanges,
        told,
        buffer,
        after,
        result,
    };
    vectors_bytes::kind(kind).is_some_and(|kind| case.agrees(kind))
}

/// Whether the fields of a line are such a case.
pub fn line_agrees(fields: &Fields) -> bool {
    if fields.len() != 10 {
        return false;
    }
    let case = Case {
        record: fields.get(1),
        arguments: fields.get(2),
        input: fields.get(3),
        refusal: fields.get(4),
        exchanges: fields.get(5),
        told: fields.get(6),
        buffer: fields.get(7),
        after: fields.get(8),
        result: fields.get(9),
    };
    vectors_bytes::kind(fields.get(0)).is_some_and(|kind| case.agrees(kind))
}

impl Case<'_> {
    // Whether the session of this kind does what the case tells. The record is lent with the start and with each answer; bytes of the
    // marker, where the case has none.
    fn agrees(&self, kind: Kind) -> bool {
        let mut record = [MARKER; da728x::RECORD_SIZE];
        laws::copy_into(&mut record, self.record);
        let before = record;
        // one that the case leaves out is the record given, whatever its length, or that of the marker
        let after = match (self.after, self.record) {
            ([], []) => before.as_slice(),
            ([], given) => given,
            (after, _) => after,
        };
        let mut session = [MARKER; exchange::SESSION_SIZE];
        let refusal = self.begin(kind, &mut record, &mut session);
        // the first byte alone, whatever stands behind it
        if refusal != byte_at(self.refusal, 0) {
            return false;
        }
        let ended = if refusal == 0 {
            self.completes(&mut record, &mut session)
        } else {
            self.begins_nothing(&session)
        };
        ended && record.as_slice() == after
    }

    // Begins the session: 0 or the number of the refusal.
    fn begin(&self, kind: Kind, record: &mut [u8], session: &mut [u8]) -> u8 {
        let a = byte_at(self.arguments, 0);
        let b = byte_at(self.arguments, 1);
        let c = byte_at(self.arguments, 2);
        let ab = u16::from_be_bytes([a, b]);
        // A match and no table: the functions differ in what they take.
        match kind {
            Kind::New => capi_driver::da728x_new(a, b, session),
            Kind::Configure => capi_driver::da728x_configure(record, self.input, session),
            Kind::GetChipRev => capi_driver::da728x_get_chip_rev(record, session),
            Kind::GetEvents => capi_driver::da728x_get_events(record, session),
            Kind::GetStatus => capi_driver::da728x_get_status(record, session),
            Kind::SetFrequency => capi_driver::da728x_set_frequency(record, ab, session),
            Kind::SetOverrideValue => {
                capi_driver::da728x_set_override_value(record, a.cast_signed(), session)
            }
            Kind::SetTimebase => capi_driver::da728x_set_timebase(record, a, session),
            Kind::Enable => capi_driver::da728x_enable(record, session),
            Kind::Disable => capi_driver::da728x_disable(record, session),
            Kind::SetCustomDriveWaveform => {
                capi_driver::da728x_set_custom_drive_waveform(record, a, b, c, session)
            }
            Kind::UnlockWaveformMemory => {
                capi_driver::da728x_unlock_waveform_memory(record, session)
            }
            Kind::LockWaveformMemory => capi_driver::da728x_lock_waveform_memory(record, session),
            Kind::UploadWaveformMemory => {
                capi_driver::da728x_upload_waveform_memory(record, self.input, a, session)
            }
            Kind::ReadWaveformMemory => {
                let room = u16::from_be_bytes([c, byte_at(self.arguments, 3)]);
                capi_driver::da728x_read_waveform_memory(
                    record,
                    usize::from(ab),
                    usize::from(room),
                    session,
                )
            }
            Kind::SelectSequence => capi_driver::da728x_select_sequence(record, a, b, session),
            Kind::StartSequence => capi_driver::da728x_start_sequence(record, session),
            Kind::PlaySequence => capi_driver::da728x_play_sequence(record, a, b, session),
        }
    }

    // After a refusal the session is as it was lent, and nothing more is told.
    fn begins_nothing(&self, session: &[u8]) -> bool {
        self.exchanges.is_empty() && self.told.is_empty() && session.iter().all(|x| *x == MARKER)
    }

    // Whether the session makes the exchanges, and leaves the read buffer and the result.
    fn completes(&self, record: &mut [u8], session: &mut [u8]) -> bool {
        // Longer than any case's buffer, so that nothing is allocated.
        let mut lent = [MARKER; 512];
        let Some(buffer) = lent.get_mut(..self.buffer.len()) else {
            return false;
        };
        self.exchanged(record, session, buffer)
            && *buffer == *self.buffer
            && capi_driver::da728x_result(session) == number(self.result)
    }

    // Whether the session makes the exchanges and no other, and each answer is told the count so far; the last, the case's word.
    fn exchanged(&self, record: &mut [u8], session: &mut [u8], buffer: &mut [u8]) -> bool {
        let mut rest = self.exchanges;
        // Not `while`: that the session ends is not shown of these bytes; the number is the count told.
        for made in 1..=MOST {
            let mut sent = [MARKER; 40];
            let pending = capi_driver::da728x_pending(session, &mut sent);
            if pending == 0 {
                return rest.is_empty();
            }
            let Some((told, after)) = told::split(rest) else {
                return false;
            };
            if !told.is_pending(pending, &sent) {
                return false;
            }
            // C's numbers of a reply (include/da728x.h).
            let (kind, byte) = match told.reply {
                Reply::Done => (0, 0),
                Reply::Byte(byte) => (1, byte),
                Reply::Failed(code) => (2, code),
            };
            let word = capi_driver::da728x_answer(record, session, kind, byte, buffer);
            let expected = if after.is_empty() {
                number(self.told)
            } else {
                made << 16
            };
            if u64::from(word) != expected {
                return false;
            }
            rest = after;
        }
        false
    }
}
