// The settings of an actuator and of the chip (config.rs; document 01, 'Settings to registers'), and the chip's variant (lib.rs).
// Proved: each choice's code is the Rust's number for it, and a code past the last counts as the last (specs/Codes.antt). Nothing is left out.
#![tactic(auto)]

ghost use Rattle.std.specs.Prelude.{◌≡◌};
ghost use Rattle.config.specs.Codes.{actuator_code, trigger_mode_code, polarity_code, operation_code, driving_code, variant_code, actuator_at, trigger_mode_at, polarity_at, operation_at, driving_at, variant_at};

#[derive(Debug, Clone, Copy, PartialEq, Eq)]
pub struct ActuatorConfig {
    pub actuator_type: ActuatorType,
    pub nominal_max_mV: u16,
    pub absolute_max_mV: u16,
    pub max_current_mA: u16,
    pub impedance_mOhm: u16,
    pub inductance_uH: u16,
    pub frequency_Hz: u16,
    pub pid_Kp_Ki: Option<(u16, u16)>,
}

#[derive(Debug, Clone, Copy, PartialEq, Eq)]
pub enum ActuatorType {
    LRA,
    ERM,
}

#[derive(Debug, Clone, Copy, PartialEq, Eq)]
pub enum TriggerMode {
    SingleSequence,
    MultiSequence,
}

#[derive(Debug, Clone, Copy, PartialEq, Eq)]
pub enum TriggerPolarity {
    Rising,
    Falling,
    Both,
}

#[derive(Debug, Clone, Copy, PartialEq, Eq)]
pub struct TriggerConfig {
    pub sequence_id: u8,
    pub polarity: TriggerPolarity,
    pub mode: TriggerMode,
}

#[derive(Debug, Clone, Copy, PartialEq, Eq)]
pub struct DeviceConfig {
    pub operation_mode: OperationMode,
    pub driving_mode: DrivingMode,
    // Three fields and no array, which is a list of any length in the definitions: each claim over all settings would need a premise that there are
    // three, also the theorems' statements, and would be weaker by it.
    pub gpi_trigger_0: Option<TriggerConfig>,
    pub gpi_trigger_1: Option<TriggerConfig>,
    pub gpi_trigger_2: Option<TriggerConfig>,
    pub acceleration: bool,
    pub rapid_stop: bool,
}

#[derive(Debug, Clone, Copy, PartialEq, Eq)]
pub enum OperationMode {
    INACTIVE,
    DRO_MODE,
    PWM_MODE,
    RTWM_MODE,
    ETWM_MODE,
}

#[derive(Debug, Clone, Copy, PartialEq, Eq)]
pub enum DrivingMode {
    FREQUENCY_TRACK,
    WIDEBAND,
    CUSTOM_WAVEFORM,
}

// lib.rs
#[derive(Debug, Clone, Copy, PartialEq, Eq)]
pub enum Variant {
    DA7280,
    DA7281,
    DA7282,
}

// A pair for each choice: the gate refuses an `impl` that a macro here writes, and a trait with each choice's codes would be longer.
impl From<ActuatorType> for u8 {
    ghost from_gives = { λ actuator_type code. code ≡ actuator_code actuator_type };

    fn from(actuator_type: ActuatorType) -> u8 {
        actuator_type as u8
    }
}

impl From<u8> for ActuatorType {
    ghost from_gives = { λ code actuator_type. actuator_type ≡ actuator_at code };

    fn from(code: u8) -> ActuatorType {
        match code {
            0 => ActuatorType::LRA,
            _ => ActuatorType::ERM,
        }
    }
}

impl From<TriggerMode> for u8 {
    ghost from_gives = { λ mode code. code ≡ trigger_mode_code mode };

    fn from(mode: TriggerMode) -> u8 {
        mode as u8
    }
}

impl From<u8> for TriggerMode {
    ghost from_gives = { λ code mode. mode ≡ trigger_mode_at code };

    fn from(code: u8) -> TriggerMode {
        match code {
            0 => TriggerMode::SingleSequence,
            _ => TriggerMode::MultiSequence,
        }
    }
}

impl From<TriggerPolarity> for u8 {
    ghost from_gives = { λ polarity code. code ≡ polarity_code polarity };

    fn from(polarity: TriggerPolarity) -> u8 {
        polarity as u8
    }
}

impl From<u8> for TriggerPolarity {
    ghost from_gives = { λ code polarity. polarity ≡ polarity_at code };

    fn from(code: u8) -> TriggerPolarity {
        match code {
            0 => TriggerPolarity::Rising,
            1 => TriggerPolarity::Falling,
            _ => TriggerPolarity::Both,
        }
    }
}

impl From<OperationMode> for u8 {
    ghost from_gives = { λ mode code. code ≡ operation_code mode };

    fn from(mode: OperationMode) -> u8 {
        mode as u8
    }
}

impl From<u8> for OperationMode {
    ghost from_gives = { λ code mode. mode ≡ operation_at code };

    fn from(code: u8) -> OperationMode {
        match code {
            0 => OperationMode::INACTIVE,
            1 => OperationMode::DRO_MODE,
            2 => OperationMode::PWM_MODE,
            3 => OperationMode::RTWM_MODE,
            _ => OperationMode::ETWM_MODE,
        }
    }
}

impl From<DrivingMode> for u8 {
    ghost from_gives = { λ mode code. code ≡ driving_code mode };

    fn from(mode: DrivingMode) -> u8 {
        mode as u8
    }
}

impl From<u8> for DrivingMode {
    ghost from_gives = { λ code mode. mode ≡ driving_at code };

    fn from(code: u8) -> DrivingMode {
        match code {
            0 => DrivingMode::FREQUENCY_TRACK,
            1 => DrivingMode::WIDEBAND,
            _ => DrivingMode::CUSTOM_WAVEFORM,
        }
    }
}

impl From<Variant> for u8 {
    ghost from_gives = { λ variant code. code ≡ variant_code variant };

    fn from(variant: Variant) -> u8 {
        variant as u8
    }
}

impl From<u8> for Variant {
    ghost from_gives = { λ code variant. variant ≡ variant_at code };

    fn from(code: u8) -> Variant {
        match code {
            0 => Variant::DA7280,
            1 => Variant::DA7281,
            _ => Variant::DA7282,
        }
    }
}
