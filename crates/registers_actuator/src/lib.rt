// The registers of the actuator's ratings and of the drive: FRQ_LRA_PER_H to TOP_CFG4 of registers.rs, document 01, "Settings
// to registers". A register is a `Byte`: `new` is zero, and both `From` keep every bit; the method of a field's name reads the
// field, and `with_` before the name alters it. Proved: each method's result, by the field's name in
// registers/specs/Table.antt, which has the names and widths of the Rust in the written order; `fields` and `replaced` list
// what all the getters and all the `with_` make of one byte, and equal definitions that go through the table part by part.
// Left out: what else the attribute `bitfield` makes, such as `set_` methods; `Debug` prints the byte, not the fields.
#![tactic(auto)]

ghost use Rattle.std.specs.Prelude.{◌≡◌};
ghost use Rattle.field.specs.Field.{code_of};
ghost use Rattle.field.specs.Layout.{get_at, is_at, with_at, readings, replacements};
ghost use Rattle.registers.specs.Table.{actuator, read_only, parts_of};

use field::{Place, flag, get, with, with_flag};

// The byte of a register, of a type that its address makes its own. One in each of the four crates: a type's methods stand in the type's crate,
// and one crate of all would have twice the functions that a check is kept to. Each method is written out below, as the Rust's attribute makes
// it, over one pair of functions (`field`): a macro can write no contract.
#[derive(Debug, Clone, Copy, PartialEq, Eq, Default)]
pub struct Byte<const ADDRESS: u8>(u8);

impl<const ADDRESS: u8> Byte<ADDRESS> {
    pub fn new() -> Self
        ensures { result.0 ≡ 0 }
    {
        Self::default()
    }
}

impl<const ADDRESS: u8> From<u8> for Byte<ADDRESS> {
    ghost from_gives = { λ bits register. register.0 ≡ bits };

    fn from(bits: u8) -> Self {
        Byte(bits)
    }
}

impl<const ADDRESS: u8> From<Byte<ADDRESS>> for u8 {
    ghost from_gives = { λ register bits. bits ≡ register.0 };

    fn from(register: Byte<ADDRESS>) -> u8 {
        register.0
    }
}

// FRQ_LRA_PER_H register (0x0A).
pub type FRQ_LRA_PER_H = Byte<0x0A>;

impl FRQ_LRA_PER_H {
    pub fn LRA_PER_H(self) -> u8
        ensures { result ≡ get_at (parts_of "FRQ_LRA_PER_H") "LRA_PER_H" self.0 }
    {
        get(self.0, 0, 8)
    }

    pub fn with_LRA_PER_H(self, value: u8) -> Self
        ensures { result.0 ≡ with_at (parts_of "FRQ_LRA_PER_H") "LRA_PER_H" self.0 value }
    {
        FRQ_LRA_PER_H::from(with(self.0, 0, 8, value))
    }
}

// FRQ_LRA_PER_L register (0x0B).
pub type FRQ_LRA_PER_L = Byte<0x0B>;

impl FRQ_LRA_PER_L {
    pub fn LRA_PER_L(self) -> u8
        ensures { result ≡ get_at (parts_of "FRQ_LRA_PER_L") "LRA_PER_L" self.0 }
    {
        get(self.0, 0, 7)
    }

    pub fn with_LRA_PER_L(self, value: u8) -> Self
        ensures { result.0 ≡ with_at (parts_of "FRQ_LRA_PER_L") "LRA_PER_L" self.0 value }
    {
        FRQ_LRA_PER_L::from(with(self.0, 0, 7, value))
    }
}

// ACTUATOR1 register (0x0C).
pub type ACTUATOR1 = Byte<0x0C>;

impl ACTUATOR1 {
    pub fn ACTUATOR_NOMMAX(self) -> u8
        ensures { result ≡ get_at (parts_of "ACTUATOR1") "ACTUATOR_NOMMAX" self.0 }
    {
        get(self.0, 0, 8)
    }

    pub fn with_ACTUATOR_NOMMAX(self, value: u8) -> Self
        ensures { result.0 ≡ with_at (parts_of "ACTUATOR1") "ACTUATOR_NOMMAX" self.0 value }
    {
        ACTUATOR1::from(with(self.0, 0, 8, value))
    }
}

// ACTUATOR2 register (0x0D).
pub type ACTUATOR2 = Byte<0x0D>;

impl ACTUATOR2 {
    pub fn ACTUATOR_ABSMAX(self) -> u8
        ensures { result ≡ get_at (parts_of "ACTUATOR2") "ACTUATOR_ABSMAX" self.0 }
    {
        get(self.0, 0, 8)
    }

    pub fn with_ACTUATOR_ABSMAX(self, value: u8) -> Self
        ensures { result.0 ≡ with_at (parts_of "ACTUATOR2") "ACTUATOR_ABSMAX" self.0 value }
    {
        ACTUATOR2::from(with(self.0, 0, 8, value))
    }
}

// ACTUATOR3 register (0x0E).
pub type ACTUATOR3 = Byte<0x0E>;

impl ACTUATOR3 {
    pub fn IMAX(self) -> u8
        ensures { result ≡ get_at (parts_of "ACTUATOR3") "IMAX" self.0 }
    {
        get(self.0, 0, 5)
    }

    pub fn with_IMAX(self, value: u8) -> Self
        ensures { result.0 ≡ with_at (parts_of "ACTUATOR3") "IMAX" self.0 value }
    {
        ACTUATOR3::from(with(self.0, 0, 5, value))
    }
}

// CALIB_V2I_H register (0x0F).
pub type CALIB_V2I_H = Byte<0x0F>;

impl CALIB_V2I_H {
    pub fn V2I_FACTOR_H(self) -> u8
        ensures { result ≡ get_at (parts_of "CALIB_V2I_H") "V2I_FACTOR_H" self.0 }
    {
        get(self.0, 0, 8)
    }

    pub fn with_V2I_FACTOR_H(self, value: u8) -> Self
        ensures { result.0 ≡ with_at (parts_of "CALIB_V2I_H") "V2I_FACTOR_H" self.0 value }
    {
        CALIB_V2I_H::from(with(self.0, 0, 8, value))
    }
}

// CALIB_V2I_L register (0x10).
pub type CALIB_V2I_L = Byte<0x10>;

impl CALIB_V2I_L {
    pub fn V2I_FACTOR_L(self) -> u8
        ensures { result ≡ get_at (parts_of "CALIB_V2I_L") "V2I_FACTOR_L" self.0 }
    {
        get(self.0, 0, 8)
    }

    pub fn with_V2I_FACTOR_L(self, value: u8) -> Self
        ensures { result.0 ≡ with_at (parts_of "CALIB_V2I_L") "V2I_FACTOR_L" self.0 value }
    {
        CALIB_V2I_L::from(with(self.0, 0, 8, value))
    }
}

// TOP_CFG1 register (0x13).
pub type TOP_CFG1 = Byte<0x13>;

impl TOP_CFG1 {
    pub fn AMP_PID_EN(self) -> bool
        ensures { result ≡ is_at (parts_of "TOP_CFG1") "AMP_PID_EN" self.0 }
    {
        flag(self.0, 0)
    }

    pub fn with_AMP_PID_EN(self, on: bool) -> Self
        ensures { result.0 ≡ with_at (parts_of "TOP_CFG1") "AMP_PID_EN" self.0 (code_of on) }
    {
        TOP_CFG1::from(with_flag(self.0, 0, on))
    }

    pub fn RAPID_STOP_EN(self) -> bool
        ensures { result ≡ is_at (parts_of "TOP_CFG1") "RAPID_STOP_EN" self.0 }
    {
        flag(self.0, 1)
    }

    pub fn with_RAPID_STOP_EN(self, on: bool) -> Self
        ensures { result.0 ≡ with_at (parts_of "TOP_CFG1") "RAPID_STOP_EN" self.0 (code_of on) }
    {
        TOP_CFG1::from(with_flag(self.0, 1, on))
    }

    pub fn ACCELERATION_EN(self) -> bool
        ensures { result ≡ is_at (parts_of "TOP_CFG1") "ACCELERATION_EN" self.0 }
    {
        flag(self.0, 2)
    }

    pub fn with_ACCELERATION_EN(self, on: bool) -> Self
        ensures { result.0 ≡ with_at (parts_of "TOP_CFG1") "ACCELERATION_EN" self.0 (code_of on) }
    {
        TOP_CFG1::from(with_flag(self.0, 2, on))
    }

    pub fn FREQ_TRACK_EN(self) -> bool
        ensures { result ≡ is_at (parts_of "TOP_CFG1") "FREQ_TRACK_EN" self.0 }
    {
        flag(self.0, 3)
    }

    pub fn with_FREQ_TRACK_EN(self, on: bool) -> Self
        ensures { result.0 ≡ with_at (parts_of "TOP_CFG1") "FREQ_TRACK_EN" self.0 (code_of on) }
    {
        TOP_CFG1::from(with_flag(self.0, 3, on))
    }

    pub fn BEMF_SENSE_EN(self) -> bool
        ensures { result ≡ is_at (parts_of "TOP_CFG1") "BEMF_SENSE_EN" self.0 }
    {
        flag(self.0, 4)
    }

    pub fn with_BEMF_SENSE_EN(self, on: bool) -> Self
        ensures { result.0 ≡ with_at (parts_of "TOP_CFG1") "BEMF_SENSE_EN" self.0 (code_of on) }
    {
        TOP_CFG1::from(with_flag(self.0, 4, on))
    }

    pub fn ACTUATOR_TYPE(self) -> u8
        ensures { result ≡ get_at (parts_of "TOP_CFG1") "ACTUATOR_TYPE" self.0 }
    {
        get(self.0, 5, 1)
    }

    pub fn with_ACTUATOR_TYPE(self, value: u8) -> Self
        ensures { result.0 ≡ with_at (parts_of "TOP_CFG1") "ACTUATOR_TYPE" self.0 value }
    {
        TOP_CFG1::from(with(self.0, 5, 1, value))
    }

    // Whether faults are cleared when the chip enters IDLE.
    pub fn EMBEDDED_MODE(self) -> bool
        ensures { result ≡ is_at (parts_of "TOP_CFG1") "EMBEDDED_MODE" self.0 }
    {
        flag(self.0, 7)
    }

    pub fn with_EMBEDDED_MODE(self, on: bool) -> Self
        ensures { result.0 ≡ with_at (parts_of "TOP_CFG1") "EMBEDDED_MODE" self.0 (code_of on) }
    {
        TOP_CFG1::from(with_flag(self.0, 7, on))
    }
}

// TOP_CFG2 register (0x14).
pub type TOP_CFG2 = Byte<0x14>;

impl TOP_CFG2 {
    // For updates of the byte that the chip holds: where the field starts, and how many bits it has.
    pub const MEM_DATA_SIGNED_PLACE: Place = Place { shift: 4, width: 1 };

    pub fn FULL_BRAKE_THR(self) -> u8
        ensures { result ≡ get_at (parts_of "TOP_CFG2") "FULL_BRAKE_THR" self.0 }
    {
        get(self.0, 0, 4)
    }

    pub fn with_FULL_BRAKE_THR(self, value: u8) -> Self
        ensures { result.0 ≡ with_at (parts_of "TOP_CFG2") "FULL_BRAKE_THR" self.0 value }
    {
        TOP_CFG2::from(with(self.0, 0, 4, value))
    }

    pub fn MEM_DATA_SIGNED(self) -> bool
        ensures { result ≡ is_at (parts_of "TOP_CFG2") "MEM_DATA_SIGNED" self.0 }
    {
        flag(self.0, TOP_CFG2::MEM_DATA_SIGNED_PLACE.shift)
    }

    pub fn with_MEM_DATA_SIGNED(self, on: bool) -> Self
        ensures { result.0 ≡ with_at (parts_of "TOP_CFG2") "MEM_DATA_SIGNED" self.0 (code_of on) }
    {
        TOP_CFG2::from(with_flag(self.0, TOP_CFG2::MEM_DATA_SIGNED_PLACE.shift, on))
    }
}

// TOP_CFG4 register (0x16).
pub type TOP_CFG4 = Byte<0x16>;

impl TOP_CFG4 {
    pub fn TST_CALIB_IMPEDANCE_DIS(self) -> bool
        ensures { result ≡ is_at (parts_of "TOP_CFG4") "TST_CALIB_IMPEDANCE_DIS" self.0 }
    {
        flag(self.0, 6)
    }

    pub fn with_TST_CALIB_IMPEDANCE_DIS(self, on: bool) -> Self
        ensures { result.0 ≡ with_at (parts_of "TOP_CFG4") "TST_CALIB_IMPEDANCE_DIS" self.0 (code_of on) }
    {
        TOP_CFG4::from(with_flag(self.0, 6, on))
    }

    pub fn V2I_FACTOR_FREEZE(self) -> bool
        ensures { result ≡ is_at (parts_of "TOP_CFG4") "V2I_FACTOR_FREEZE" self.0 }
    {
        flag(self.0, 7)
    }

    pub fn with_V2I_FACTOR_FREEZE(self, on: bool) -> Self
        ensures { result.0 ≡ with_at (parts_of "TOP_CFG4") "V2I_FACTOR_FREEZE" self.0 (code_of on) }
    {
        TOP_CFG4::from(with_flag(self.0, 7, on))
    }
}

// What each named field reads when its register holds `byte`, registers and fields in the written order; a flag reads 0 or 1.
#[tactic(auto, using(field::proofs::Methods::flag_code))]
pub fn fields(byte: u8) -> [u8; 18]
    ensures { result ≡ readings actuator byte }
{
    let frq_lra_per_h = FRQ_LRA_PER_H::from(byte);
    let frq_lra_per_l = FRQ_LRA_PER_L::from(byte);
    let actuator1 = ACTUATOR1::from(byte);
    let actuator2 = ACTUATOR2::from(byte);
    let actuator3 = ACTUATOR3::from(byte);
    let calib_v2i_h = CALIB_V2I_H::from(byte);
    let calib_v2i_l = CALIB_V2I_L::from(byte);
    let top_cfg1 = TOP_CFG1::from(byte);
    let top_cfg2 = TOP_CFG2::from(byte);
    let top_cfg4 = TOP_CFG4::from(byte);
    [
        frq_lra_per_h.LRA_PER_H(),
        frq_lra_per_l.LRA_PER_L(),
        actuator1.ACTUATOR_NOMMAX(),
        actuator2.ACTUATOR_ABSMAX(),
        actuator3.IMAX(),
        calib_v2i_h.V2I_FACTOR_H(),
        calib_v2i_l.V2I_FACTOR_L(),
        top_cfg1.AMP_PID_EN() as u8,
        top_cfg1.RAPID_STOP_EN() as u8,
        top_cfg1.ACCELERATION_EN() as u8,
        top_cfg1.FREQ_TRACK_EN() as u8,
        top_cfg1.BEMF_SENSE_EN() as u8,
        top_cfg1.ACTUATOR_TYPE(),
        top_cfg1.EMBEDDED_MODE() as u8,
        top_cfg2.FULL_BRAKE_THR(),
        top_cfg2.MEM_DATA_SIGNED() as u8,
        top_cfg4.TST_CALIB_IMPEDANCE_DIS() as u8,
        top_cfg4.V2I_FACTOR_FREEZE() as u8,
    ]
}

// For each field that is not read-only, in the same order, what its register holds once the field is replaced by `value` in
// `byte`; a flag is set where `value` is odd.
#[tactic(auto, using(field::proofs::Methods::odd))]
pub fn replaced(byte: u8, value: u8) -> [u8; 18]
    ensures { result ≡ replacements read_only actuator byte value }
{
    let on = flag(value, 0);
    let frq_lra_per_h = FRQ_LRA_PER_H::from(byte);
    let frq_lra_per_l = FRQ_LRA_PER_L::from(byte);
    let actuator1 = ACTUATOR1::from(byte);
    let actuator2 = ACTUATOR2::from(byte);
    let actuator3 = ACTUATOR3::from(byte);
    let calib_v2i_h = CALIB_V2I_H::from(byte);
    let calib_v2i_l = CALIB_V2I_L::from(byte);
    let top_cfg1 = TOP_CFG1::from(byte);
    let top_cfg2 = TOP_CFG2::from(byte);
    let top_cfg4 = TOP_CFG4::from(byte);
    [
        frq_lra_per_h.with_LRA_PER_H(value).0,
        frq_lra_per_l.with_LRA_PER_L(value).0,
        actuator1.with_ACTUATOR_NOMMAX(value).0,
        actuator2.with_ACTUATOR_ABSMAX(value).0,
        actuator3.with_IMAX(value).0,
        calib_v2i_h.with_V2I_FACTOR_H(value).0,
        calib_v2i_l.with_V2I_FACTOR_L(value).0,
        top_cfg1.with_AMP_PID_EN(on).0,
        top_cfg1.with_RAPID_STOP_EN(on).0,
        top_cfg1.with_ACCELERATION_EN(on).0,
        top_cfg1.with_FREQ_TRACK_EN(on).0,
        top_cfg1.with_BEMF_SENSE_EN(on).0,
        top_cfg1.with_ACTUATOR_TYPE(value).0,
        top_cfg1.with_EMBEDDED_MODE(on).0,
        top_cfg2.with_FULL_BRAKE_THR(value).0,
        top_cfg2.with_MEM_DATA_SIGNED(on).0,
        top_cfg4.with_TST_CALIB_IMPEDANCE_DIS(on).0,
        top_cfg4.with_V2I_FACTOR_FREEZE(on).0,
    ]
}
