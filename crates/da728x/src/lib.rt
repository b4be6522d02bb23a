// The driver record (`DA728x` of lib.rs, without the bus) and its 38 bytes, in which a caller keeps it. Document 01, 'Rust forms without a
// counterpart': "the record in and out by value". The two `Option`s of lib.rs are one, since both are stored together.
// Proved: each function equals its definition in specs/Record.antt, for any bytes; proofs/Kept.antt: a record is what its bytes give back.
// Left out: the bus, which stays the caller's; the operations are in `driver`.
#![tactic(auto)]

ghost use Rattle.std.specs.Prelude.{◌≡◌, ◌<◌, ◌+◌, ltb, None};
ghost use Rattle.laws.specs.Lists.{at};
ghost use Rattle.da728x.specs.Record.{record_bytes, record_at, chip_at, actuator_bytes, device_bytes, two, pid_bytes, trigger_bytes, settings_at, actuator_config_at, device_config_at, pid_at, trigger_at, two_at};

use config::{ActuatorConfig, DeviceConfig, TriggerConfig, Variant};

pub const RECORD_SIZE: usize = 38;

// Where the count of sequences stands.
pub const SEQUENCES: usize = 37;

#[derive(Debug, Clone, Copy, PartialEq, Eq)]
pub struct DA728x {
    pub address: u8,
    pub variant: Variant,
    // A pair and no struct: the Rust's `configure` takes the two apart, and every claim on settings says `Some (a, d)`.
    pub settings: Option<(ActuatorConfig, DeviceConfig)>,
    // How many sequences the image of the last upload has, if that was completed; else 0. No `Option`: document 02 (CR 10) says zero, and so does
    // the byte that C has.
    pub sequences: u8,
}

impl DA728x {
    // A chip of which nothing is known but its address and its variant.
    pub fn new(address: u8, variant: Variant) -> DA728x
        ensures { result ≡ record { address = address; variant = variant; settings = None; sequences = 0 } }
    {
        DA728x {
            address,
            variant,
            settings: None,
            sequences: 0,
        }
    }

    // The 38 bytes that C keeps; bytes of another length are read as address 0 without settings. Named as std's `to_le_bytes` and `from_le_bytes`.
    #[tactic(auto, unfolding(crate::specs::Record::record_bytes))]
    pub fn to_bytes(self) -> [u8; RECORD_SIZE]
        ensures { result ≡ record_bytes self }
    {
        let mut bytes = [0u8; RECORD_SIZE];
        bytes[0] = self.address;
        bytes[1] = self.variant.into();
        // 1 without settings, 2 with them: records that C keeps have it so.
        bytes[2] = 1;
        if let Some((a, d)) = self.settings {
            bytes[2] = 2;
            bytes[3..21].copy_from_slice(&actuator_bytes(a));
            bytes[21..37].copy_from_slice(&device_bytes(d));
        }
        bytes[SEQUENCES] = self.sequences;
        bytes
    }

    // No `Option`: bytes of any length are a record for C, which gets no refusal here.
    #[tactic(auto, unfolding(crate::specs::Record::record_at))]
    pub fn from_bytes(bytes: &[u8]) -> DA728x
        ensures { result ≡ record_at bytes.now }
    {
        match bytes.as_array::<RECORD_SIZE>() {
            None => DA728x::new(0, Variant::DA7280),
            Some(_) => DA728x {
                settings: settings_at(bytes),
                ..DA728x::chip_from_bytes(bytes)
            },
        }
    }

    // All but the settings, for `configure`, an upload and an answer, which look at none: the 34 bytes of them are not decoded. No `Option`, as above.
    #[inline]
    #[tactic(auto, unfolding(crate::specs::Record::record_at))]
    pub fn chip_from_bytes(bytes: &[u8]) -> DA728x
        ensures { result ≡ chip_at bytes.now }
    {
        match bytes.as_array::<RECORD_SIZE>() {
            None => DA728x::new(0, Variant::DA7280),
            Some(bytes) => DA728x {
                sequences: bytes[SEQUENCES],
                ..DA728x::new(bytes[0], bytes[1].into())
            },
        }
    }
}

// Settings as 34 bytes: an actuator's and a device's. Bytes that are missing count as 0.
pub fn actuator_config(bytes: &[u8]) -> ActuatorConfig
    ensures { result ≡ actuator_config_at bytes.now 0 }
{
    Cursor { bytes, at: 0 }.actuator()
}

pub fn device_config(bytes: &[u8]) -> DeviceConfig
    ensures { result ≡ device_config_at bytes.now 18 }
{
    Cursor { bytes, at: 18 }.device()
}

// ---- to bytes

// Functions and no `From`: neither type is of this crate.

// Each field is laid by a line of its own, here and in the next: a loop would need the places and the fields as a list, which is longer.
#[tactic(auto, using(crate::proofs::Kept::high_byte))]
fn actuator_bytes(a: ActuatorConfig) -> [u8; 18]
    ensures { result ≡ actuator_bytes a }
{
    let mut bytes = [0u8; 18];
    bytes[0] = a.actuator_type.into();
    bytes[1..3].copy_from_slice(&a.nominal_max_mV.to_le_bytes());
    bytes[3..5].copy_from_slice(&a.absolute_max_mV.to_le_bytes());
    bytes[5..7].copy_from_slice(&a.max_current_mA.to_le_bytes());
    bytes[7..9].copy_from_slice(&a.impedance_mOhm.to_le_bytes());
    bytes[9..11].copy_from_slice(&a.inductance_uH.to_le_bytes());
    bytes[11..13].copy_from_slice(&a.frequency_Hz.to_le_bytes());
    bytes[13..18].copy_from_slice(&pid_bytes(a.pid_Kp_Ki));
    bytes
}

fn device_bytes(d: DeviceConfig) -> [u8; 16]
    ensures { result ≡ device_bytes d }
{
    let mut bytes = [0u8; 16];
    bytes[0] = d.operation_mode.into();
    bytes[1] = d.driving_mode.into();
    bytes[2..6].copy_from_slice(&trigger_bytes(d.gpi_trigger_0));
    bytes[6..10].copy_from_slice(&trigger_bytes(d.gpi_trigger_1));
    bytes[10..14].copy_from_slice(&trigger_bytes(d.gpi_trigger_2));
    bytes[14] = d.acceleration as u8;
    bytes[15] = d.rapid_stop as u8;
    bytes
}

fn pid_bytes(pid: Option<(u16, u16)>) -> [u8; 5]
    ensures { result ≡ pid_bytes pid }
{
    match pid {
        None => [0; 5],
        Some((kp, ki)) => {
            let [kp_low, kp_high] = kp.to_le_bytes();
            let [ki_low, ki_high] = ki.to_le_bytes();
            [1, kp_low, kp_high, ki_low, ki_high]
        }
    }
}

fn trigger_bytes(trigger: Option<TriggerConfig>) -> [u8; 4]
    ensures { result ≡ trigger_bytes trigger }
{
    match trigger {
        None => [0; 4],
        Some(t) => [1, t.sequence_id, t.polarity.into(), t.mode.into()],
    }
}

// ---- from bytes

fn settings_at(bytes: &[u8]) -> Option<(ActuatorConfig, DeviceConfig)>
    ensures { result ≡ settings_at bytes.now }
{
    // 1 without settings, 2 with them: records that C keeps have it so.
    if 1 < laws::byte_at(bytes, 2) {
        let mut settings = Cursor { bytes, at: 3 };
        Some((settings.actuator(), settings.device()))
    } else {
        None
    }
}

// Bytes that are read one after the other; those that are missing count as 0. A place and not the rest of the bytes: inlined, it is a number that
// the compiler knows, and the premises below only keep it in range.
#[derive(Drop)]
struct Cursor<'a> {
    bytes: &'a [u8],
    at: usize,
}

impl Cursor<'_> {
    // Inlined, as `device` is, so that no place is counted when it runs.
    #[inline(always)]
    fn actuator(&mut self) -> ActuatorConfig
        requires { self.old.at < 64 }
        ensures value { result ≡ actuator_config_at self.old.bytes.now self.old.at }
        ensures bytes_after { self.new.bytes.now ≡ self.old.bytes.now }
        ensures at_after { self.new.at ≡ self.old.at + 18 }
    {
        ActuatorConfig {
            actuator_type: self.byte().into(),
            nominal_max_mV: self.two(),
            absolute_max_mV: self.two(),
            max_current_mA: self.two(),
            impedance_mOhm: self.two(),
            inductance_uH: self.two(),
            frequency_Hz: self.two(),
            pid_Kp_Ki: self.pid(),
        }
    }

    #[inline(always)]
    fn device(&mut self) -> DeviceConfig
        requires { self.old.at < 64 }
        ensures { result ≡ device_config_at self.old.bytes.now self.old.at }
    {
        DeviceConfig {
            operation_mode: self.byte().into(),
            driving_mode: self.byte().into(),
            gpi_trigger_0: self.trigger(),
            gpi_trigger_1: self.trigger(),
            gpi_trigger_2: self.trigger(),
            acceleration: self.flag(),
            rapid_stop: self.flag(),
        }
    }

    fn pid(&mut self) -> Option<(u16, u16)>
        requires { self.old.at < 128 }
        ensures value { result ≡ pid_at self.old.bytes.now self.old.at }
        ensures bytes_after { self.new.bytes.now ≡ self.old.bytes.now }
        ensures at_after { self.new.at ≡ self.old.at + 5 }
    {
        let given = self.flag();
        let words = (self.two(), self.two());
        given.then_some(words)
    }

    fn trigger(&mut self) -> Option<TriggerConfig>
        requires { self.old.at < 128 }
        ensures value { result ≡ trigger_at self.old.bytes.now self.old.at }
        ensures bytes_after { self.new.bytes.now ≡ self.old.bytes.now }
        ensures at_after { self.new.at ≡ self.old.at + 4 }
    {
        let given = self.flag();
        let trigger = TriggerConfig {
            sequence_id: self.byte(),
            polarity: self.byte().into(),
            mode: self.byte().into(),
        };
        given.then_some(trigger)
    }

    // Any byte but 0 sets it.
    fn flag(&mut self) -> bool
        requires { self.old.at < 512 }
        ensures value { result ≡ ltb 0 (at self.old.bytes.now self.old.at) }
        ensures bytes_after { self.new.bytes.now ≡ self.old.bytes.now }
        ensures at_after { self.new.at ≡ self.old.at + 1 }
    {
        0 < self.byte()
    }

    fn two(&mut self) -> u16
        requires { self.old.at < 256 }
        ensures value { result ≡ two_at self.old.bytes.now self.old.at }
        ensures bytes_after { self.new.bytes.now ≡ self.old.bytes.now }
        ensures at_after { self.new.at ≡ self.old.at + 2 }
    {
        let (low, high) = (self.at, self.at + 1);
        self.at += 2;
        // one test of the length for both: with two, by `byte`, the plan of `configure` took 49 instructions more (874 for 825)
        if high < self.bytes.len() {
            u16::from_le_bytes([self.bytes[low], self.bytes[high]])
        } else {
            laws::byte_at(self.bytes, low).into()
        }
    }

    fn byte(&mut self) -> u8
        requires { self.old.at < 512 }
        ensures value { result ≡ at self.old.bytes.now self.old.at }
        ensures bytes_after { self.new.bytes.now ≡ self.old.bytes.now }
        ensures at_after { self.new.at ≡ self.old.at + 1 }
    {
        let byte = laws::byte_at(self.bytes, self.at);
        self.at += 1;
        byte
    }
}
