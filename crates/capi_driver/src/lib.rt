// The functions exported for C that drive the chip (lib.rs; document 01, 'Exchanges' and 'Rust forms without a counterpart'), on numbers
// and byte slices; include/da728x.h declares and explains each. The caller lends the session's bytes and the record's; `da728x_pending`
// and `da728x_answer` run the session, and the answer that completes `new` or `configure` changes the record; so do the start of an
// upload and each answer that it takes (document 02, CR 10). The last three lead from a register's value back to settings (CR 12). Every one is
// total: any bytes, any lengths.
// Proved: the answer and every lent byte are those of the definitions of `driver` and `exchange` for the record that the bytes hold; how
// an answer is one number is specs/Words.antt, and proofs/Telling.antt: each word gives back its parts, and
// an upload sends the bytes that were handed in.
// Left out: nothing.
#![tactic(auto)]

ghost use Rattle.std.specs.Prelude.{◌≡◌, ltb, length, take};
ghost use Rattle.laws.specs.Copied.{copied};
ghost use Rattle.config.specs.Codes.{driving_at, variant_at};
ghost use Rattle.memory.specs.Timebase.{memory_timebase_at};
ghost use Rattle.da728x.specs.Record.{record_at, actuator_config_at, device_config_at};
ghost use Rattle.exchange.specs.Turn.{pending_of, report_of, turn_report, state_after, buffer_after};
ghost use Rattle.outcome.specs.Outcome.{change_by, outcome_of};
ghost use Rattle.driver.specs.Operations as spec;
ghost use Rattle.errors.specs.Number.{answer_number, handed_by};
ghost use Rattle.memory.specs.Memory.{no_memory};
ghost use Rattle.ranges.specs.Search.{voltage_range, imax_range, period_range};
ghost use Rattle.capi_driver.specs.Words.{exchange_word, reply_of, report_word, record_out, result_word, image_of, upload_of, range_word};

use da728x::DA728x;
use errors::Error;
use exchange::{Exchange, Reply, Turn};
use memory::{MAX_MEMORY_SIZE, WaveformMemory};
use outcome::{Change, Outcome};
use ranges::Range;

// What the bus answered, as a number: done, or a byte; any other is a failure.
const DONE: u8 = 0;

const BYTE: u8 = 1;

// The names, numbers and slices of all exports are C's: include/da728x.h says them, and C programs are linked to them.
#[unsafe(no_mangle)]
pub extern "C" fn da728x_new(address: u8, variant: u8, session: &mut [u8]) -> u8
    ensures value { result ≡ spec.start_number (spec.new address (variant_at variant)).start }
    ensures session_after { session.new ≡ spec.started_in session.old (spec.new address (variant_at variant)).start }
{
    errors::number(driver::new(address, variant.into(), session))
}

#[unsafe(no_mangle)]
pub extern "C" fn da728x_configure(record: &[u8], settings: &[u8], session: &mut [u8]) -> u8
    ensures value { result
        ≡ spec.start_number (spec.configure (record_at «record».now) (actuator_config_at settings.now 0)
        (device_config_at settings.now 18)).start }
    ensures session_after { session.new
        ≡ spec.started_in session.old (spec.configure (record_at «record».now) (actuator_config_at settings.now 0)
        (device_config_at settings.now 18)).start }
{
    // in this order, since with the actuator first the plan took 825 instructions for 793
    let d = da728x::device_config(settings);
    let a = da728x::actuator_config(settings);
    errors::number(driver::configure(&DA728x::chip_from_bytes(record), a, d, session))
}

#[unsafe(no_mangle)]
pub extern "C" fn da728x_get_chip_rev(record: &[u8], session: &mut [u8]) -> u8
    ensures value { result ≡ spec.start_number (spec.get_chip_rev (record_at «record».now)).start }
    ensures session_after { session.new ≡ spec.started_in session.old (spec.get_chip_rev (record_at «record».now)).start }
{
    errors::number(driver::get_chip_rev(&DA728x::from_bytes(record), session))
}

#[unsafe(no_mangle)]
pub extern "C" fn da728x_get_events(record: &[u8], session: &mut [u8]) -> u8
    ensures value { result ≡ spec.start_number (spec.get_events (record_at «record».now)).start }
    ensures session_after { session.new ≡ spec.started_in session.old (spec.get_events (record_at «record».now)).start }
{
    errors::number(driver::get_events(&DA728x::from_bytes(record), session))
}

#[unsafe(no_mangle)]
pub extern "C" fn da728x_get_status(record: &[u8], session: &mut [u8]) -> u8
    ensures value { result ≡ spec.start_number (spec.get_status (record_at «record».now)).start }
    ensures session_after { session.new ≡ spec.started_in session.old (spec.get_status (record_at «record».now)).start }
{
    errors::number(driver::get_status(&DA728x::from_bytes(record), session))
}

#[unsafe(no_mangle)]
pub extern "C" fn da728x_set_frequency(record: &[u8], frequency_hz: u16, session: &mut [u8]) -> u8
    ensures value { result ≡ spec.start_number (spec.set_frequency (record_at «record».now) frequency_hz).start }
    ensures session_after { session.new ≡ spec.started_in session.old (spec.set_frequency (record_at «record».now) frequency_hz).start }
{
    errors::number(driver::set_frequency(&DA728x::from_bytes(record), frequency_hz, session))
}

#[unsafe(no_mangle)]
pub extern "C" fn da728x_set_override_value(record: &[u8], value: i8, session: &mut [u8]) -> u8
    ensures value { result ≡ spec.start_number (spec.set_override_value (record_at «record».now) value).start }
    ensures session_after { session.new ≡ spec.started_in session.old (spec.set_override_value (record_at «record».now) value).start }
{
    errors::number(driver::set_override_value(&DA728x::from_bytes(record), value, session))
}

#[unsafe(no_mangle)]
pub extern "C" fn da728x_set_timebase(record: &[u8], timebase: u8, session: &mut [u8]) -> u8
    ensures value { result ≡ spec.start_number (spec.set_timebase (record_at «record».now) (memory_timebase_at timebase)).start }
    ensures session_after { session.new ≡ spec.started_in session.old (spec.set_timebase (record_at «record».now) (memory_timebase_at timebase)).start }
{
    errors::number(driver::set_timebase(&DA728x::from_bytes(record), timebase.into(), session))
}

#[unsafe(no_mangle)]
pub extern "C" fn da728x_enable(record: &[u8], session: &mut [u8]) -> u8
    ensures value { result ≡ spec.start_number (spec.enable (record_at «record».now)).start }
    ensures session_after { session.new ≡ spec.started_in session.old (spec.enable (record_at «record».now)).start }
{
    errors::number(driver::enable(&DA728x::from_bytes(record), session))
}

#[unsafe(no_mangle)]
pub extern "C" fn da728x_disable(record: &[u8], session: &mut [u8]) -> u8
    ensures value { result ≡ spec.start_number (spec.disable (record_at «record».now)).start }
    ensures session_after { session.new ≡ spec.started_in session.old (spec.disable (record_at «record».now)).start }
{
    errors::number(driver::disable(&DA728x::from_bytes(record), session))
}

#[unsafe(no_mangle)]
pub extern "C" fn da728x_set_custom_drive_waveform(
    record: &[u8],
    a: u8,
    b: u8,
    c: u8,
    session: &mut [u8],
) -> u8
    ensures value { result ≡ spec.start_number (spec.set_custom_drive_waveform (record_at «record».now) a b c).start }
    ensures session_after { session.new ≡ spec.started_in session.old (spec.set_custom_drive_waveform (record_at «record».now) a b c).start }
{
    let points = [a, b, c];
    errors::number(driver::set_custom_drive_waveform(&DA728x::from_bytes(record), points, session))
}

#[unsafe(no_mangle)]
pub extern "C" fn da728x_unlock_waveform_memory(record: &[u8], session: &mut [u8]) -> u8
    ensures value { result ≡ spec.start_number (spec.unlock_waveform_memory (record_at «record».now)).start }
    ensures session_after { session.new ≡ spec.started_in session.old (spec.unlock_waveform_memory (record_at «record».now)).start }
{
    errors::number(driver::unlock_waveform_memory(&DA728x::from_bytes(record), session))
}

#[unsafe(no_mangle)]
pub extern "C" fn da728x_lock_waveform_memory(record: &[u8], session: &mut [u8]) -> u8
    ensures value { result ≡ spec.start_number (spec.lock_waveform_memory (record_at «record».now)).start }
    ensures session_after { session.new ≡ spec.started_in session.old (spec.lock_waveform_memory (record_at «record».now)).start }
{
    errors::number(driver::lock_waveform_memory(&DA728x::from_bytes(record), session))
}

#[unsafe(no_mangle)]
pub extern "C" fn da728x_upload_waveform_memory(
    record: &mut [u8],
    image: &[u8],
    lock_after: u8,
    session: &mut [u8],
) -> u8
    ensures value { result ≡ spec.start_number (upload_of (record_at «record».old) image.now (ltb 0 lock_after)) }
    ensures record_after { «record».new
        ≡ record_out «record».old
        (spec.change_from session.old (upload_of (record_at «record».old) image.now (ltb 0 lock_after))) }
    ensures session_after { session.new
        ≡ spec.started_in session.old (upload_of (record_at «record».old) image.now (ltb 0 lock_after)) }
{
    errors::number(upload(record, image, 0 < lock_after, session))
}

// The record stays as it is where the image is refused.
fn upload(
    record: &mut [u8],
    image: &[u8],
    lock_after: bool,
    session: &mut [u8],
) -> Result<(), Error>
    ensures value { answer_number result ≡ spec.start_number (upload_of (record_at «record».old) image.now lock_after) }
    ensures record_after { «record».new
        ≡ record_out «record».old (spec.change_from session.old (upload_of (record_at «record».old) image.now lock_after)) }
    ensures session_after { session.new ≡ spec.started_in session.old (upload_of (record_at «record».old) image.now lock_after) }
{
    let memory = loaded(image)?;
    let mut driver = DA728x::chip_from_bytes(record);
    put(outcome::zeroing(session), record);
    driver::upload_waveform_memory(&mut driver, &memory, lock_after, session)
}

// The memory of an image's bytes, or the refusal of more than a hundred. No `TryFrom`: neither type is of this crate.
fn loaded(image: &[u8]) -> Result<WaveformMemory, Error>
    ensures { handed_by no_memory result ≡ image_of image.now }
{
    if MAX_MEMORY_SIZE < image.len() {
        return Err(Error::WaveformMemoryFull);
    }
    let mut data = [0u8; MAX_MEMORY_SIZE];
    laws::copy_into(&mut data, image);
    WaveformMemory::from_bytes(data, image.len() as u8, data[0], data[1])
}

#[unsafe(no_mangle)]
pub extern "C" fn da728x_read_waveform_memory(
    record: &[u8],
    len: usize,
    buffer_len: usize,
    session: &mut [u8],
) -> u8
    ensures value { result ≡ spec.start_number (spec.read_waveform_memory (record_at «record».now) len buffer_len).start }
    ensures session_after { session.new ≡ spec.started_in session.old (spec.read_waveform_memory (record_at «record».now) len buffer_len).start }
{
    errors::number(driver::read_waveform_memory(
        &DA728x::from_bytes(record),
        len,
        buffer_len,
        session,
    ))
}

#[unsafe(no_mangle)]
pub extern "C" fn da728x_select_sequence(
    record: &[u8],
    sequence_id: u8,
    loops: u8,
    session: &mut [u8],
) -> u8
    ensures value { result ≡ spec.start_number (spec.select_sequence (record_at «record».now) sequence_id loops).start }
    ensures session_after { session.new ≡ spec.started_in session.old (spec.select_sequence (record_at «record».now) sequence_id loops).start }
{
    errors::number(driver::select_sequence(
        &DA728x::from_bytes(record),
        sequence_id,
        loops,
        session,
    ))
}

#[unsafe(no_mangle)]
pub extern "C" fn da728x_start_sequence(record: &[u8], session: &mut [u8]) -> u8
    ensures value { result ≡ spec.start_number (spec.start_sequence (record_at «record».now)).start }
    ensures session_after { session.new ≡ spec.started_in session.old (spec.start_sequence (record_at «record».now)).start }
{
    errors::number(driver::start_sequence(&DA728x::from_bytes(record), session))
}

#[unsafe(no_mangle)]
pub extern "C" fn da728x_play_sequence(
    record: &[u8],
    sequence_id: u8,
    loops: u8,
    session: &mut [u8],
) -> u8
    ensures value { result ≡ spec.start_number (spec.play_sequence (record_at «record».now) sequence_id loops).start }
    ensures session_after { session.new ≡ spec.started_in session.old (spec.play_sequence (record_at «record».now) sequence_id loops).start }
{
    errors::number(driver::play_sequence(&DA728x::from_bytes(record), sequence_id, loops, session))
}

#[unsafe(no_mangle)]
pub extern "C" fn da728x_pending(session: &[u8], bytes: &mut [u8]) -> u32
    ensures value { result ≡ exchange_word (pending_of session.now) }
    ensures bytes_after { bytes.new
        ≡ copied bytes.old (take (pending_of session.now).len (pending_of session.now).bytes) }
{
    let Some(e) = exchange::pending(session) else {
        return 0;
    };
    laws::copy_into(bytes, e.sent());
    exchange_word(e)
}

// This and the other words below are for C, which gets one number; no `From`, since a number and a type of `exchange` or `outcome` are not of this crate.
fn exchange_word(e: Exchange) -> u32
    ensures { result ≡ exchange_word e }
{
    u32::from_le_bytes([e.len, e.address, e.wanted, 0])
}

#[tactic(auto, unfolding(driver::specs::Operations::change_after))]
#[unsafe(no_mangle)]
pub extern "C" fn da728x_answer(
    record: &mut [u8],
    session: &mut [u8],
    kind: u8,
    byte: u8,
    buffer: &mut [u8],
) -> u32
    ensures value { result ≡ report_word (report_of session.old (reply_of kind byte) (length buffer.old)) }
    ensures record_after { «record».new
        ≡ record_out «record».old
        (spec.change_after session.old (reply_of kind byte) (length buffer.old) (record_at «record».old)) }
    ensures session_after { session.new ≡ state_after session.old (reply_of kind byte) (length buffer.old) }
    ensures buffer_after { buffer.new ≡ buffer_after session.old (reply_of kind byte) buffer.old }
{
    let turn = exchange::answer(session, reply(kind, byte), buffer);
    let told = word(turn);
    store(record, session, turn);
    told
}

// The record after an answer that gave this turn; it is looked at only where it may change. Session and turn, the one lent and the other copied: a
// struct of both would be taken apart at once.
#[tactic(auto, unfolding(outcome::specs::Outcome::change_by))]
fn store(record: &mut [u8], session: &[u8], turn: Turn)
    ensures { «record».new
        ≡ record_out «record».old (change_by session.now (turn_report turn) (record_at «record».old)) }
{
    if outcome::is_upload(session) || outcome::may_change(session, turn) {
        let change = outcome::change_by(DA728x::chip_from_bytes(record), session, turn);
        put(change, record);
    }
}

// A record goes to 38 bytes only, and a count of sequences is the last of them. C may lend any number of bytes.
fn put(change: Option<Change>, out: &mut [u8])
    ensures { out.new ≡ record_out out.old change }
{
    if out.len() == da728x::RECORD_SIZE {
        match change {
            None => {}
            Some(Change::To(next)) => out.copy_from_slice(&next.to_bytes()),
            Some(Change::Sequences(n)) => out[da728x::SEQUENCES] = n,
        }
    }
}

// The kind is a number from C, in which any but these two is a failure.
fn reply(kind: u8, byte: u8) -> Reply
    ensures { result ≡ reply_of kind byte }
{
    match kind {
        DONE => Reply::Done,
        BYTE => Reply::Byte(byte),
        _ => Reply::Failed(byte),
    }
}

#[tactic(auto, unfolding(crate::specs::Words::report_word))]
fn word(t: Turn) -> u32
    ensures { result ≡ report_word (turn_report t) }
{
    let number = errors::number(t.answer);
    let code = errors::bus_code(t.answer);
    u32::from_le_bytes([number, code, t.made, t.ended.into()])
}

#[unsafe(no_mangle)]
pub extern "C" fn da728x_result(session: &[u8]) -> u64
    ensures { result ≡ result_word (outcome_of session.now) }
{
    result_word(outcome::result(session))
}

#[tactic(auto, unfolding(crate::specs::Words::result_word))]
fn result_word(o: Outcome) -> u64
    ensures { result ≡ result_word o }
{
    let value = o.value.unwrap_or(0) as u64;
    let completed = o.value.is_some() as u64;
    value + 16777216 * (o.made as u64) + 4294967296 * completed
}

#[unsafe(no_mangle)]
pub extern "C" fn da728x_voltage_settings(byte: u8) -> u32
    ensures { result ≡ range_word (voltage_range byte) }
{
    range_word(ranges::voltage(byte))
}

#[unsafe(no_mangle)]
pub extern "C" fn da728x_current_settings(imax: u8) -> u32
    ensures { result ≡ range_word (imax_range imax) }
{
    range_word(ranges::imax(imax))
}

#[unsafe(no_mangle)]
pub extern "C" fn da728x_frequency_settings(word: u16, driving_mode: u8) -> u32
    ensures { result ≡ range_word (period_range (driving_at driving_mode) word) }
{
    range_word(ranges::period(word, driving_mode.into()))
}

fn range_word(range: Option<Range>) -> u32
    ensures { result ≡ range_word range }
{
    let Some(r) = range else {
        return 0;
    };
    r.least as u32 + 65536 * (r.greatest as u32)
}
