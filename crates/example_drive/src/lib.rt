// The program `example`: the driver's operations on the simulated chip, printed. Proved: every function returns.
#![tactic(auto)]

use config::{ActuatorConfig, ActuatorType, DeviceConfig, DrivingMode, OperationMode, Variant};
use da728x::DA728x;
use example_chip::{Bench, Failure};
use memory::WaveformMemory;
use std::io;

// The chip's address on the bus.
const ADDRESS: u8 = 0x4A;

pub fn drive(rt: &impl Print, ahead: &WaveformMemory, turn: &WaveformMemory) -> io::Result<()> {
    println!(rt;
        "\n4. The driver on a simulated DA7280 at address 4A: count, exchange, register, bytes"
    )?;
    println!(rt; "\nnew")?;
    // lent until `new` has made a record
    let mut bench = Bench::new(ADDRESS, DA728x::new(0, Variant::DA7280));
    let begun = driver::new(ADDRESS, Variant::DA7280, &mut bench.session);
    bench.run(rt, begun)?;
    if outcome::result(&bench.session).value.is_none() {
        return println!(rt; "  no record");
    }
    operate(rt, &mut bench, turn)?;
    fail(rt, &mut bench)?;
    cut(rt, &mut bench, ahead)
}

// Functions here and below: `Bench` is of another crate.
fn operate(rt: &impl Print, bench: &mut Bench, turn: &WaveformMemory) -> io::Result<()> {
    println!(rt; "\nconfigure: LRA, 170 Hz, 8 ohms; RTWM_MODE, WIDEBAND")?;
    configure(rt, bench, OperationMode::RTWM_MODE, DrivingMode::WIDEBAND)?;

    println!(rt; "\nupload_waveform_memory: turn now, locked afterwards")?;
    upload(rt, bench, "turn now", turn)?;

    println!(rt; "\nenable")?;
    enable(rt, bench)?;
    println!(rt; "\nplay_sequence: sequence 1, loops 0")?;
    play(rt, bench, 1)?;
    println!(rt; "\nplay_sequence: sequence 2, which is not loaded")?;
    play(rt, bench, 2)
}

fn configure(
    rt: &impl Print,
    bench: &mut Bench,
    operation_mode: OperationMode,
    driving_mode: DrivingMode,
) -> io::Result<()> {
    let d = device(operation_mode, driving_mode);
    let begun = driver::configure(&bench.record, actuator(), d, &mut bench.session);
    bench.run(rt, begun)
}

// The upload of a pattern that is locked afterwards, and what the chip's memory then holds of it.
fn upload(
    rt: &impl Print,
    bench: &mut Bench,
    name: &str,
    memory: &WaveformMemory,
) -> io::Result<()> {
    let begun = driver::upload_waveform_memory(&mut bench.record, memory, true, &mut bench.session);
    bench.run(rt, begun)?;
    bench.tell_memory(rt, name, memory.as_bytes())
}

fn enable(rt: &impl Print, bench: &mut Bench) -> io::Result<()> {
    let begun = driver::enable(&bench.record, &mut bench.session);
    bench.run(rt, begun)
}

fn play(rt: &impl Print, bench: &mut Bench, sequence_id: u8) -> io::Result<()> {
    let begun = driver::play_sequence(&bench.record, sequence_id, 0, &mut bench.session);
    bench.run(rt, begun)
}

// A `configure` to other modes that the bus breaks off; `enable` then shows which mode is in force.
fn fail(rt: &impl Print, bench: &mut Bench) -> io::Result<()> {
    println!(rt; "\n5. A bus that fails at the fifth exchange")?;
    println!(rt; "\nconfigure: the same LRA; DRO_MODE, FREQUENCY_TRACK")?;
    let before = bench.record;
    bench.fails = Some(Failure {
        exchange: 4,
        bytes: 0,
    });
    configure(
        rt,
        bench,
        OperationMode::DRO_MODE,
        DrivingMode::FREQUENCY_TRACK,
    )?;
    bench.fails = None;
    let kept = if bench.record == before {
        "is"
    } else {
        "is not"
    };
    println!(rt; "  the record {kept} the one from before")?;

    println!(rt; "\nenable, as the record says: RTWM_MODE is 3, DRO_MODE would be 1")?;
    enable(rt, bench)
}

// An upload that the bus breaks off within the image, and the same upload to its end. The seven bytes are the register's and six of the image.
fn cut(rt: &impl Print, bench: &mut Bench, ahead: &WaveformMemory) -> io::Result<()> {
    println!(rt;
        "\n6. An upload that is cut, and repeated; the memory holds turn now, and is locked"
    )?;
    println!(rt;
        "\nupload_waveform_memory: shallow ahead, locked afterwards; the bus fails when 6 bytes of it are stored"
    )?;
    bench.fails = Some(Failure {
        exchange: 1,
        bytes: 7,
    });
    upload(rt, bench, "shallow ahead", ahead)?;
    bench.fails = None;

    println!(rt; "\nupload_waveform_memory: the same, to its end")?;
    upload(rt, bench, "shallow ahead", ahead)
}

// ---- settings

fn actuator() -> ActuatorConfig {
    ActuatorConfig {
        actuator_type: ActuatorType::LRA,
        nominal_max_mV: 2500,
        absolute_max_mV: 3500,
        max_current_mA: 165,
        impedance_mOhm: 8000,
        inductance_uH: 50,
        frequency_Hz: 170,
        pid_Kp_Ki: None,
    }
}

fn device(operation_mode: OperationMode, driving_mode: DrivingMode) -> DeviceConfig {
    DeviceConfig {
        operation_mode,
        driving_mode,
        gpi_trigger_0: None,
        gpi_trigger_1: None,
        gpi_trigger_2: None,
        acceleration: false,
        rapid_stop: false,
    }
}
