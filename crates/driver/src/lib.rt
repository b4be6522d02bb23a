// Every operation of the driver (lib.rs; document 01, 'Settings to registers' and 'Exchanges'), begun as a session in bytes that the
// caller lends; a refused one writes nothing. The `DA728x` of lib.rs is `da728x::DA728x` without its bus: each start reads it, and the
// record in force is lent with each answer. `answer` changes it by the answer that completes `new` or `configure`, and by every one to an
// upload that is taken: its count of sequences is 0 until the last. The start of an upload sets it to 0 (document 02, CR 10).
// `set_custom_drive_waveform`, which has no finished body in the Rust, writes the registers that document 02 (CR 8) names.
// Left out: the `defmt` prints. Functions and no methods: a type's methods stand in its crate, and small crates keep a check short.
//
// Proved: the answer is the papers' number and the session's bytes are those of the operation's steps (specs/Operations.antt).
// proofs/Refusals.antt: for which fault each of the eighteen starts is refused, and by which number. proofs/Answers.antt: what is sent, in
// which order and how much, and what every operation answers, 16 in `new` only; the points of a custom wave go to SWG_C1, SWG_C2 and
// SWG_C3. proofs/Stored.antt: the record changes exactly by the answer that completes `new` or `configure` and by those to an upload, and by
// none to a session that has ended or was never begun. proofs/History.antt: a sequence is selected or played only where the last upload
// was completed and has it. proofs/Transfers.antt: an upload sends the memory's bytes, each to its own address; a read fills the front
// of the buffer.
#![tactic(auto)]

ghost use Rattle.std.specs.Prelude.{◌≡◌, [], ◌∷◌, length};
ghost use Rattle.std.specs.Option.{ok_or};
ghost use Rattle.std.specs.Result.{result_ok};
ghost use Rattle.laws.specs.Lists.{at};
ghost use Rattle.errors.specs.Number.{answer_number};
ghost use Rattle.errors.specs.declared.Error.TheVariants.{NotConfigured};
ghost use Rattle.registers.specs.Table.{address_of};
ghost use Rattle.config.specs.Codes.{operation_code};
ghost use Rattle.checks.specs.Checks.{first_failing};
ghost use Rattle.config.specs.declared.OperationMode.TheVariants.{DRO_MODE};
ghost use Rattle.exchange.specs.declared.Step.TheVariants.{Read, Write};
ghost use Rattle.exchange.specs.State.{begun_in};
ghost use Rattle.exchange.specs.Turn.{state_after, buffer_after, report_of, turn_report};
ghost use Rattle.sessions.specs.Sessions.{blank, start_steps};
ghost use Rattle.outcome.specs.Outcome.{record_by, purpose_code};
ghost use Rattle.driver.specs.Operations as spec;

use config::{ActuatorConfig, DeviceConfig, DrivingMode, OperationMode, Variant};
use da728x::DA728x;
use errors::Error;
use exchange::{Opening, Reply, Step, Turn};
use memory::{WaveformMemory, WaveformMemoryTimebase};
use outcome::Purpose;
use registers::Register;
use registers_control::{SEQ_CTL1, SWG_C1, SWG_C2, SWG_C3, TOP_CTL1};

// ---- a new record, and its settings

pub fn new(address: u8, variant: Variant, session: &mut [u8]) -> Result<(), Error>
    ensures result_value { answer_number result ≡ spec.start_number (spec.new address variant).start }
    ensures session_after { session.new ≡ spec.started_in session.old (spec.new address variant).start }
{
    let next = DA728x::new(address, variant);
    sessions::begin_with(session, Purpose::New.into(), next);
    exchange::push(
        session,
        Step::Match(Register::CHIP_REV.address(), revision(variant)),
    );
    Ok(())
}

fn revision(variant: Variant) -> u8
    ensures { result ≡ spec.revision variant }
{
    match variant {
        Variant::DA7280 => 0xBA,
        Variant::DA7281 => 0xCA,
        Variant::DA7282 => 0xDA,
    }
}

pub fn configure(
    driver: &DA728x,
    a: ActuatorConfig,
    d: DeviceConfig,
    session: &mut [u8],
) -> Result<(), Error>
    ensures result_value { answer_number result ≡ spec.start_number (spec.configure driver.now a d).start }
    ensures session_after { session.new ≡ spec.started_in session.old (spec.configure driver.now a d).start }
{
    checks::configure_checks(driver.variant, a, d)?;
    let next = DA728x {
        settings: Some((a, d)),
        ..DA728x::new(driver.address, driver.variant)
    };
    sessions::begin_with(session, Purpose::Settings.into(), next);
    plans::configure(session, a, d);
    Ok(())
}

// ---- what the chip says

// Two functions, this and `get_status`, as the Rust and C have them; each is one call of `read`.
pub fn get_chip_rev(driver: &DA728x, session: &mut [u8]) -> Result<(), Error>
    ensures result_value { answer_number result ≡ spec.start_number (spec.get_chip_rev driver.now).start }
    ensures session_after { session.new ≡ spec.started_in session.old (spec.get_chip_rev driver.now).start }
{
    read(session, driver, Purpose::Byte, Register::CHIP_REV);
    Ok(())
}

// All events, which are cleared by the last exchange.
pub fn get_events(driver: &DA728x, session: &mut [u8]) -> Result<(), Error>
    ensures result_value { answer_number result ≡ spec.start_number (spec.get_events driver.now).start }
    ensures session_after { session.new ≡ spec.started_in session.old (spec.get_events driver.now).start }
{
    read(session, driver, Purpose::ThreeBytes, Register::IRQ_EVENT1);
    exchange::push(
        session,
        Step::Read(Register::IRQ_EVENT_WARNING_DIAG.address()),
    );
    exchange::push(session, Step::Read(Register::IRQ_EVENT_SEQ_DIAG.address()));
    exchange::push(session, Step::Write(Register::IRQ_EVENT1.address(), 0xFF));
    Ok(())
}

pub fn get_status(driver: &DA728x, session: &mut [u8]) -> Result<(), Error>
    ensures result_value { answer_number result ≡ spec.start_number (spec.get_status driver.now).start }
    ensures session_after { session.new ≡ spec.started_in session.old (spec.get_status driver.now).start }
{
    read(session, driver, Purpose::Byte, Register::IRQ_STATUS1);
    Ok(())
}

// ---- operations that need settings

pub fn set_frequency(driver: &DA728x, frequency_hz: u16, session: &mut [u8]) -> Result<(), Error>
    ensures result_value { answer_number result ≡ spec.start_number (spec.set_frequency driver.now frequency_hz).start }
    ensures session_after { session.new ≡ spec.started_in session.old (spec.set_frequency driver.now frequency_hz).start }
{
    let (_, d) = settings(driver)?;
    if checks::outside_band(d.driving_mode, frequency_hz) {
        return Err(Error::InvalidDriveFrequency);
    }
    let opening = sessions::opening(driver.address, Purpose::Command.into());
    exchange::begin(session, opening);
    plans::frequency(session, frequency_hz);
    Ok(())
}

pub fn set_override_value(driver: &DA728x, value: i8, session: &mut [u8]) -> Result<(), Error>
    ensures result_value { answer_number result ≡ spec.start_number (spec.set_override_value driver.now value).start }
    ensures session_after { session.new ≡ spec.started_in session.old (spec.set_override_value driver.now value).start }
{
    let (_, d) = settings(driver)?;
    if d.acceleration && value < 0 {
        return Err(Error::InvalidValue);
    }
    if d.operation_mode != OperationMode::DRO_MODE {
        return Err(Error::WrongMode);
    }
    write(
        session,
        driver,
        Register::TOP_CTL2,
        convert::override_byte(value),
    );
    Ok(())
}

// Sets the operation mode; a sequence is not started.
pub fn enable(driver: &DA728x, session: &mut [u8]) -> Result<(), Error>
    ensures result_value { answer_number result ≡ spec.start_number (spec.enable driver.now).start }
    ensures session_after { session.new ≡ spec.started_in session.old (spec.enable driver.now).start }
{
    let (_, d) = settings(driver)?;
    write(
        session,
        driver,
        Register::TOP_CTL1,
        sessions::enabled(d.operation_mode),
    );
    Ok(())
}

pub fn disable(driver: &DA728x, session: &mut [u8]) -> Result<(), Error>
    ensures result_value { answer_number result ≡ spec.start_number (spec.disable driver.now).start }
    ensures session_after { session.new ≡ spec.started_in session.old (spec.disable driver.now).start }
{
    settings(driver)?;
    sessions::update(
        session,
        driver.address,
        Register::TOP_CTL1.address(),
        TOP_CTL1::OPERATION_MODE_PLACE,
        OperationMode::INACTIVE.into(),
    );
    Ok(())
}

// Gives the chip the three points of the wave that it drives the actuator with; for CUSTOM_WAVEFORM only.
pub fn set_custom_drive_waveform(
    driver: &DA728x,
    points: [u8; 3],
    session: &mut [u8],
) -> Result<(), Error>
    ensures result_value { answer_number result
        ≡ spec.start_number (spec.set_custom_drive_waveform driver.now (at points 0) (at points 1) (at points 2)).start }
    ensures session_after { session.new
        ≡ spec.started_in session.old (spec.set_custom_drive_waveform driver.now (at points 0) (at points 1) (at points 2)).start }
{
    let (_, d) = settings(driver)?;
    if d.driving_mode != DrivingMode::CUSTOM_WAVEFORM {
        return Err(Error::WrongMode);
    }
    drive_points(session, driver, points);
    Ok(())
}

fn drive_points(session: &mut [u8], driver: &DA728x, points: [u8; 3])
    ensures { session.new
        ≡ begun_in session.old (blank 0 driver.now.address) (spec.drive_point_steps (at points 0) (at points 1) (at points 2)) }
{
    // Three lines and no loop: each register is a type of its own, and its field has the digit in the Rust's name.
    let [p1, p2, p3] = points;
    let swg_c1 = SWG_C1::new().with_CUSTOM_WAVE_GEN_COEFF1(p1);
    let swg_c2 = SWG_C2::new().with_CUSTOM_WAVE_GEN_COEFF2(p2);
    let swg_c3 = SWG_C3::new().with_CUSTOM_WAVE_GEN_COEFF3(p3);
    write(session, driver, Register::SWG_C1, swg_c1.into());
    exchange::push(
        session,
        Step::Write(Register::SWG_C2.address(), swg_c2.into()),
    );
    exchange::push(
        session,
        Step::Write(Register::SWG_C3.address(), swg_c3.into()),
    );
}

// ---- waveform memory

pub fn set_timebase(
    driver: &DA728x,
    timebase: WaveformMemoryTimebase,
    session: &mut [u8],
) -> Result<(), Error>
    ensures result_value { answer_number result ≡ spec.start_number (spec.set_timebase driver.now timebase).start }
    ensures session_after { session.new ≡ spec.started_in session.old (spec.set_timebase driver.now timebase).start }
{
    sessions::update(
        session,
        driver.address,
        Register::SEQ_CTL1.address(),
        SEQ_CTL1::FREQ_WAVEFORM_TIMEBASE_PLACE,
        timebase.into(),
    );
    Ok(())
}

// Two functions, as the Rust and C have them; each is one call of `write`.
pub fn unlock_waveform_memory(driver: &DA728x, session: &mut [u8]) -> Result<(), Error>
    ensures result_value { answer_number result ≡ spec.start_number (spec.unlock_waveform_memory driver.now).start }
    ensures session_after { session.new ≡ spec.started_in session.old (spec.unlock_waveform_memory driver.now).start }
{
    write(
        session,
        driver,
        Register::MEM_CTL2,
        sessions::mem_ctl2(true),
    );
    Ok(())
}

pub fn lock_waveform_memory(driver: &DA728x, session: &mut [u8]) -> Result<(), Error>
    ensures result_value { answer_number result ≡ spec.start_number (spec.lock_waveform_memory driver.now).start }
    ensures session_after { session.new ≡ spec.started_in session.old (spec.lock_waveform_memory driver.now).start }
{
    write(
        session,
        driver,
        Register::MEM_CTL2,
        sessions::mem_ctl2(false),
    );
    Ok(())
}

// The record has no sequences from here on, until the last exchange succeeds.
pub fn upload_waveform_memory(
    driver: &mut DA728x,
    memory: &WaveformMemory,
    lock_after: bool,
    session: &mut [u8],
) -> Result<(), Error>
    ensures result_value { answer_number result ≡ spec.start_number (spec.upload_waveform_memory driver.old memory.now lock_after).start }
    ensures driver_after { driver.new ≡ record_by driver.old (spec.change_from session.old (spec.upload_waveform_memory driver.old memory.now lock_after).start) }
    ensures session_after { session.new ≡ spec.started_in session.old (spec.upload_waveform_memory driver.old memory.now lock_after).start }
{
    let next = DA728x {
        sequences: memory.num_sequences(),
        ..DA728x::new(driver.address, driver.variant)
    };
    *driver = outcome::changed(*driver, outcome::zeroing(session));
    exchange::begin(
        session,
        Opening {
            image: memory.bytes(),
            record: &next.to_bytes(),
            ..sessions::opening(next.address, Purpose::Upload.into())
        },
    );
    sessions::send(session, sessions::shown(memory.len()), lock_after);
    Ok(())
}

// Reads into a buffer of this length, which is lent with every answer.
#[tactic(auto, unfolding(sessions::specs::Sessions::no_image, sessions::specs::Sessions::blank_record))]
pub fn read_waveform_memory(
    driver: &DA728x,
    len: usize,
    buffer_len: usize,
    session: &mut [u8],
) -> Result<(), Error>
    ensures result_value { answer_number result ≡ spec.start_number (spec.read_waveform_memory driver.now len buffer_len).start }
    ensures session_after { session.new ≡ spec.started_in session.old (spec.read_waveform_memory driver.now len buffer_len).start }
{
    exchange::begin(
        session,
        Opening {
            reads: sessions::reads(len, buffer_len),
            room: buffer_len,
            ..sessions::opening(driver.address, Purpose::Length.into())
        },
    );
    Ok(())
}

// ---- sequences

pub fn select_sequence(
    driver: &DA728x,
    sequence_id: u8,
    loops: u8,
    session: &mut [u8],
) -> Result<(), Error>
    ensures result_value { answer_number result ≡ spec.start_number (spec.select_sequence driver.now sequence_id loops).start }
    ensures session_after { session.new ≡ spec.started_in session.old (spec.select_sequence driver.now sequence_id loops).start }
{
    sequence_checks(driver.sequences, sequence_id, loops)?;
    write(
        session,
        driver,
        Register::SEQ_CTL2,
        sessions::seq_ctl2(sequence_id, loops),
    );
    Ok(())
}

// The number of a sequence and its loops, where so many are loaded.
fn sequence_checks(sequences: u8, sequence_id: u8, loops: u8) -> Result<(), Error>
    ensures { answer_number result ≡ first_failing (spec.sequence_checks sequences sequence_id loops) }
{
    if 15 < sequence_id || 15 < loops {
        return Err(Error::InvalidValue);
    }
    if sequences <= sequence_id {
        return Err(Error::MissingSequence);
    }
    Ok(())
}

pub fn start_sequence(driver: &DA728x, session: &mut [u8]) -> Result<(), Error>
    ensures result_value { answer_number result ≡ spec.start_number (spec.start_sequence driver.now).start }
    ensures session_after { session.new ≡ spec.started_in session.old (spec.start_sequence driver.now).start }
{
    sessions::update(
        session,
        driver.address,
        Register::TOP_CTL1.address(),
        TOP_CTL1::SEQ_START_PLACE,
        1,
    );
    Ok(())
}

pub fn play_sequence(
    driver: &DA728x,
    sequence_id: u8,
    loops: u8,
    session: &mut [u8],
) -> Result<(), Error>
    ensures result_value { answer_number result ≡ spec.start_number (spec.play_sequence driver.now sequence_id loops).start }
    ensures session_after { session.new ≡ spec.started_in session.old (spec.play_sequence driver.now sequence_id loops).start }
{
    sequence_checks(driver.sequences, sequence_id, loops)?;
    play(session, driver, sessions::seq_ctl2(sequence_id, loops));
    Ok(())
}

fn play(session: &mut [u8], driver: &DA728x, value: u8)
    ensures { session.new ≡ begun_in session.old (blank 0 driver.now.address) (Write (address_of "SEQ_CTL2") value ∷ start_steps) }
{
    write(session, driver, Register::SEQ_CTL2, value);
    exchange::push_update(
        session,
        Register::TOP_CTL1.address(),
        TOP_CTL1::SEQ_START_PLACE,
        1,
    );
}

// ---- what several operations do

// The settings stored last, for what needs some.
fn settings(driver: &DA728x) -> Result<(ActuatorConfig, DeviceConfig), Error>
    ensures value { result ≡ ok_or driver.now.settings NotConfigured }
    ensures ok_part { driver.now.settings ≡ result_ok result }
{
    driver.settings.ok_or(Error::NotConfigured)
}

// Begins a session, for this purpose, that reads a register.
fn read(session: &mut [u8], driver: &DA728x, purpose: Purpose, register: Register)
    ensures { session.new ≡ begun_in session.old (blank (purpose_code purpose) driver.now.address) (Read register.0 ∷ []) }
{
    let step = Step::Read(register.address());
    sessions::run(session, driver.address, purpose.into(), step);
}

// Begins a session that writes a register.
fn write(session: &mut [u8], driver: &DA728x, register: Register, value: u8)
    ensures { session.new ≡ begun_in session.old (blank 0 driver.now.address) (Write register.0 value ∷ []) }
{
    let step = Step::Write(register.address(), value);
    sessions::run(session, driver.address, Purpose::Command.into(), step);
}

// ---- what an answer gives

// Takes back what the bus answered, with the record in force and the buffer that a memory read fills.
#[tactic(auto, unfolding(crate::specs::Operations::change_after))]
pub fn answer(driver: &mut DA728x, session: &mut [u8], reply: Reply, buffer: &mut [u8]) -> Turn
    ensures turn { turn_report result ≡ report_of session.old reply (length buffer.old) }
    ensures driver_after { driver.new ≡ spec.record_after session.old reply (length buffer.old) driver.old }
    ensures session_after { session.new ≡ state_after session.old reply (length buffer.old) }
    ensures buffer_after { buffer.new ≡ buffer_after session.old reply buffer.old }
{
    let turn = exchange::answer(session, reply, buffer);
    *driver = outcome::changed(*driver, outcome::change_by(*driver, session, turn));
    turn
}
