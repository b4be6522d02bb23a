// The cases of the stored sample that upload and are cut, replayed on the proved chip, which is asked what it holds after each run.
// Proved: every function is safe and returns; `agrees` says yes to more than five fields only.
#![tactic(auto)]

ghost use Rattle.std.specs.Prelude.{◌<◌, length, IsTrue};

use chip::Chip;
use exchange::Exchange;
use laws::byte_at;
use vectors_bytes::{Fields, MARKER, number};

// The number of this kind of case.
const CUT: u64 = 0x32;

// Where a case's runs begin among its fields.
const FIRST_RUN: usize = 5;

// How a run ends: with the upload, with a session that is dropped, or with a failure of this code.
#[derive(Clone, Copy)]
enum End {
    Completed,
    Dropped,
    Failed(u8),
}

// The upload, the record and the session's bytes, which are lent to one run after the other, and the chip.
#[derive(Clone, Copy)]
struct Uploads<'a> {
    image: &'a [u8],
    lock_after: u8,
    record: [u8; da728x::RECORD_SIZE],
    session: [u8; exchange::SESSION_SIZE],
    chip: Chip,
}

/// Whether these fields are a case of uploads that are cut, and the chip holds after each run what the case tells.
pub fn agrees(fields: &[Vec<u8>]) -> bool
    ensures { IsTrue result → 5 < length fields.now }
{
    let [kind, record, lock_after, image, start, runs @ ..] = fields else {
        return false;
    };
    let Some(mut uploads) = Uploads::told(record, byte_at(lock_after, 0), image, start) else {
        return false;
    };
    for run in runs {
        if !uploads.agree(run) {
            return false;
        }
    }
    number(kind) == CUT && !runs.is_empty()
}

/// Whether the fields of a line are such a case.
pub fn line_agrees(fields: &Fields) -> bool {
    if number(fields.get(0)) != CUT || fields.len() <= FIRST_RUN {
        return false;
    }
    let lock_after = byte_at(fields.get(2), 0);
    let Some(mut uploads) = Uploads::told(fields.get(1), lock_after, fields.get(3), fields.get(4))
    else {
        return false;
    };
    (FIRST_RUN..fields.len()).all(|k| uploads.agree(fields.get(k)))
}

impl Uploads<'_> {
    // The upload that fields tell, and the chip as it is at first.
    fn told<'a>(
        record: &[u8],
        lock_after: u8,
        image: &'a [u8],
        start: &[u8],
    ) -> Option<Uploads<'a>> {
        let record = *record.first_chunk()?;
        let (unlocked, bytes) = start.split_first()?;
        Some(Uploads {
            image,
            lock_after,
            record,
            session: [MARKER; exchange::SESSION_SIZE],
            chip: Chip {
                address: record[0],
                bytes: *bytes.first_chunk()?,
                unlocked: 0 < *unlocked,
            },
        })
    }

    // Whether the run that a field tells goes as it says and leaves the chip that it says.
    fn agree(&mut self, run: &[u8]) -> bool {
        let Some((head, bytes)) = run.split_first_chunk::<5>() else {
            return false;
        };
        let [made, end, reached, code, unlocked] = *head;
        let end = match end {
            0 => End::Completed,
            1 => End::Dropped,
            _ => End::Failed(code),
        };
        self.run(made, usize::from(reached), end)
            && self.chip.bytes.as_slice() == bytes
            && self.chip.unlocked == (0 < unlocked)
    }

    // Runs the upload: so many exchanges, and as many bytes of the next as reach the chip before it ends. Whether it goes so.
    fn run(&mut self, made: u8, reached: usize, end: End) -> bool {
        let begun = capi_driver::da728x_upload_waveform_memory(
            &mut self.record,
            self.image,
            self.lock_after,
            &mut self.session,
        );
        if begun != 0 {
            return false;
        }
        for _ in 0..made {
            let Some(e) = self.pending() else {
                return false;
            };
            self.chip.transfer(&e, usize::from(e.len));
            // C's numbers of a reply and of a refusal (include/da728x.h): 0 is done, and nothing refused
            if self.answer(0, 0) != 0 {
                return false;
            }
        }
        let pending = self.pending();
        if let Some(e) = &pending {
            self.chip.transfer(e, reached);
        }
        match end {
            End::Completed => pending.is_none(),
            End::Dropped => pending.is_some(),
            End::Failed(code) => self.answer(2, code) == 17 && self.pending().is_none(),
        }
    }

    fn pending(&self) -> Option<Exchange> {
        let mut bytes = [MARKER; 33];
        let word = capi_driver::da728x_pending(&self.session, &mut bytes);
        let [_, wanted, address, len] = word.to_be_bytes();
        (word != 0).then_some(Exchange {
            address,
            bytes,
            len,
            wanted,
        })
    }

    // The number of the refusal that an answer is told.
    fn answer(&mut self, kind: u8, byte: u8) -> u8 {
        let mut unread = [MARKER; 1];
        let word = capi_driver::da728x_answer(
            &mut self.record,
            &mut self.session,
            kind,
            byte,
            &mut unread,
        );
        let [_, _, _, number] = word.to_be_bytes();
        number
    }
}
