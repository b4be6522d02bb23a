// The checks that `configure` makes before its first exchange (lib.rs; document 01, 'Settings to registers'), those that document 01 adds
// among them; the numbers of values are document 02's (CR 3). Nothing is left out.
// Proved: the answer is the number of the first check of specs/Checks.antt that fails, in that order; no
// check fails if and only if the settings are in the ranges of specs/InRange.antt (proofs/Accepted.antt); the number is that of the first
// fault, each said in plain numbers (specs/Blames.antt).
#![tactic(auto)]

ghost use Rattle.std.specs.Prelude.{◌≡◌, not, ◌&&◌, ◌||◌, ltb, eqb};
ghost use Rattle.errors.specs.Number.{answer_number};
ghost use Rattle.config.specs.Codes.{variant_code};
ghost use Rattle.config.specs.declared.Variant.TheVariants.{DA7281};
ghost use Rattle.checks.specs.Checks as spec;

use config::{ActuatorConfig, DeviceConfig, DrivingMode, OperationMode, TriggerConfig, Variant};
use errors::Error;

pub fn configure_checks(
    variant: Variant,
    actuator: ActuatorConfig,
    device: DeviceConfig,
) -> Result<(), Error>
    ensures { answer_number result ≡ spec.configure_number variant actuator device }
{
    if needs_tracking(device) {
        return Err(Error::WrongMode);
    }
    if lacks_trigger(device) {
        return Err(Error::MissingTriggerConfigInEtwmMode);
    }
    if has_too_many_triggers(variant, device) {
        return Err(Error::NotSupported);
    }
    let voltage = actuator.nominal_max_mV.max(actuator.absolute_max_mV);
    if 6000 < voltage {
        return Err(Error::InvalidVoltage);
    }
    if 252 < actuator.max_current_mA {
        return Err(Error::InvalidCurrentOrImpedance);
    }
    if !(4000..=49999).contains(&actuator.impedance_mOhm) {
        return Err(Error::InvalidCurrentOrImpedance);
    }
    if outside_band(device.driving_mode, actuator.frequency_Hz) {
        return Err(Error::InvalidDriveFrequency);
    }
    // from here on the checks that the Rust lacks; they stay behind the others
    if 5990 < voltage {
        return Err(Error::InvalidVoltage);
    }
    if actuator.max_current_mA < 29 {
        return Err(Error::InvalidCurrentOrImpedance);
    }
    if triggers_above_15(device) {
        return Err(Error::InvalidValue);
    }
    if device.rapid_stop {
        return Err(Error::NotSupported);
    }
    Ok(())
}

// Functions: the types are of `config`. Each is one line of specs/Checks.antt, which says ETWM each time.

// Whether a frequency lies outside the band of the driving mode. The wider band is asked in each mode: of what passes the compiler then
// knows that its period word is in convert's table, and leaves the rest of the conversion out.
pub fn outside_band(mode: DrivingMode, hz: u16) -> bool
    ensures { result ≡ spec.outside_band mode hz }
{
    !(25..=1024).contains(&hz) || is_tracking(mode) && !(50..=300).contains(&hz)
}

pub fn is_tracking(mode: DrivingMode) -> bool
    ensures { result ≡ spec.tracking mode }
{
    mode == DrivingMode::FREQUENCY_TRACK
}

pub fn is_etwm(mode: OperationMode) -> bool
    ensures { result ≡ spec.etwm mode }
{
    mode == OperationMode::ETWM_MODE
}

// Acceleration or rapid stop when not tracking.
fn needs_tracking(device: DeviceConfig) -> bool
    ensures { result ≡ (not (spec.tracking device.driving_mode) && (device.acceleration || device.rapid_stop)) }
{
    !is_tracking(device.driving_mode) && (device.acceleration || device.rapid_stop)
}

// In ETWM mode, no trigger.
fn lacks_trigger(device: DeviceConfig) -> bool
    ensures { result ≡ (spec.etwm device.operation_mode && eqb (spec.triggers_given device) 0) }
{
    is_etwm(device.operation_mode) && triggers_given(device) == 0
}

// In ETWM mode, more than one trigger on the DA7281.
fn has_too_many_triggers(variant: Variant, device: DeviceConfig) -> bool
    ensures { result ≡ (spec.etwm device.operation_mode && (eqb (variant_code variant) (variant_code DA7281) && ltb 1 (spec.triggers_given device))) }
{
    is_etwm(device.operation_mode) && variant == Variant::DA7281 && 1 < triggers_given(device)
}

// No `count` over the three: that it is their sum stayed open.
fn triggers_given(device: DeviceConfig) -> u8
    ensures { result ≡ spec.triggers_given device }
{
    device.gpi_trigger_0.is_some() as u8
        + device.gpi_trigger_1.is_some() as u8
        + device.gpi_trigger_2.is_some() as u8
}

// In ETWM mode, a given trigger's sequence number above 15.
fn triggers_above_15(device: DeviceConfig) -> bool
    ensures { result ≡ (spec.etwm device.operation_mode && spec.triggers_above15 device) }
{
    let triggers = [
        device.gpi_trigger_0,
        device.gpi_trigger_1,
        device.gpi_trigger_2,
    ];
    is_etwm(device.operation_mode) && triggers.iter().any(|t| sequence_above_15(*t))
}

fn sequence_above_15(trigger: Option<TriggerConfig>) -> bool
    ensures { result ≡ spec.sequence_above15 trigger }
{
    trigger.is_some_and(|t| 15 < t.sequence_id)
}
