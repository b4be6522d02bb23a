// The registers of the control loop, of operation and of custom waveforms: TOP_INT_CFG1 to SWG_C3 of registers.rs, document
// 01, "Settings to registers". A register is a `Byte`: `new` is zero, and both `From` keep every bit; the method of a field's
// name reads the field, and `with_` before the name alters it. Proved: each method's result, by the field's name in
// registers/specs/Table.antt, which has the names and widths of the Rust in the written order; `fields` and `replaced` list
// what all the getters and all the `with_` make of one byte, and equal definitions that go through the table part by part.
// Left out: what else the attribute `bitfield` makes, such as `set_` methods; `Debug` prints the byte, not the fields.
#![tactic(auto)]

ghost use Rattle.std.specs.Prelude.{◌≡◌};
ghost use Rattle.field.specs.Field.{code_of};
ghost use Rattle.field.specs.Layout.{get_at, is_at, with_at, readings, replacements};
ghost use Rattle.registers.specs.Table.{control, read_only, parts_of};

use field::{Place, flag, get, with, with_flag};

// The byte of a register, of a type that its address makes its own. One in each of the four crates: a type's methods stand in the type's crate,
// and one crate of all would have twice the functions that a check is kept to. Each method is written out below, as the Rust's attribute makes
// it, over one pair of functions (`field`): a macro can write no contract.
#[derive(Debug, Clone, Copy, PartialEq, Eq, Default)]
pub struct Byte<const ADDRESS: u8>(u8);

impl<const ADDRESS: u8> Byte<ADDRESS> {
    pub fn new() -> Self
        ensures { result.0 ≡ 0 }
    {
        Self::default()
    }
}

impl<const ADDRESS: u8> From<u8> for Byte<ADDRESS> {
    ghost from_gives = { λ bits register. register.0 ≡ bits };

    fn from(bits: u8) -> Self {
        Byte(bits)
    }
}

impl<const ADDRESS: u8> From<Byte<ADDRESS>> for u8 {
    ghost from_gives = { λ register bits. bits ≡ register.0 };

    fn from(register: Byte<ADDRESS>) -> u8 {
        register.0
    }
}

// TOP_INT_CFG1 register (0x17).
pub type TOP_INT_CFG1 = Byte<0x17>;

impl TOP_INT_CFG1 {
    pub fn BEMF_FAULT_LIM(self) -> u8
        ensures { result ≡ get_at (parts_of "TOP_INT_CFG1") "BEMF_FAULT_LIM" self.0 }
    {
        get(self.0, 0, 2)
    }

    pub fn with_BEMF_FAULT_LIM(self, value: u8) -> Self
        ensures { result.0 ≡ with_at (parts_of "TOP_INT_CFG1") "BEMF_FAULT_LIM" self.0 value }
    {
        TOP_INT_CFG1::from(with(self.0, 0, 2, value))
    }

    pub fn FRQ_LOCKED_LIM(self) -> u8
        ensures { result ≡ get_at (parts_of "TOP_INT_CFG1") "FRQ_LOCKED_LIM" self.0 }
    {
        get(self.0, 2, 6)
    }

    pub fn with_FRQ_LOCKED_LIM(self, value: u8) -> Self
        ensures { result.0 ≡ with_at (parts_of "TOP_INT_CFG1") "FRQ_LOCKED_LIM" self.0 value }
    {
        TOP_INT_CFG1::from(with(self.0, 2, 6, value))
    }
}

// TOP_INT_CFG6_H register (0x1C).
pub type TOP_INT_CFG6_H = Byte<0x1C>;

impl TOP_INT_CFG6_H {
    pub fn FRQ_PID_Kp_H(self) -> u8
        ensures { result ≡ get_at (parts_of "TOP_INT_CFG6_H") "FRQ_PID_Kp_H" self.0 }
    {
        get(self.0, 0, 8)
    }

    pub fn with_FRQ_PID_Kp_H(self, value: u8) -> Self
        ensures { result.0 ≡ with_at (parts_of "TOP_INT_CFG6_H") "FRQ_PID_Kp_H" self.0 value }
    {
        TOP_INT_CFG6_H::from(with(self.0, 0, 8, value))
    }
}

// TOP_INT_CFG6_L register (0x1D).
pub type TOP_INT_CFG6_L = Byte<0x1D>;

impl TOP_INT_CFG6_L {
    pub fn FRQ_PID_Kp_L(self) -> u8
        ensures { result ≡ get_at (parts_of "TOP_INT_CFG6_L") "FRQ_PID_Kp_L" self.0 }
    {
        get(self.0, 0, 8)
    }

    pub fn with_FRQ_PID_Kp_L(self, value: u8) -> Self
        ensures { result.0 ≡ with_at (parts_of "TOP_INT_CFG6_L") "FRQ_PID_Kp_L" self.0 value }
    {
        TOP_INT_CFG6_L::from(with(self.0, 0, 8, value))
    }
}

// TOP_INT_CFG7_H register (0x1E).
pub type TOP_INT_CFG7_H = Byte<0x1E>;

impl TOP_INT_CFG7_H {
    pub fn FRQ_PID_Ki_H(self) -> u8
        ensures { result ≡ get_at (parts_of "TOP_INT_CFG7_H") "FRQ_PID_Ki_H" self.0 }
    {
        get(self.0, 0, 8)
    }

    pub fn with_FRQ_PID_Ki_H(self, value: u8) -> Self
        ensures { result.0 ≡ with_at (parts_of "TOP_INT_CFG7_H") "FRQ_PID_Ki_H" self.0 value }
    {
        TOP_INT_CFG7_H::from(with(self.0, 0, 8, value))
    }
}

// TOP_INT_CFG7_L register (0x1F).
pub type TOP_INT_CFG7_L = Byte<0x1F>;

impl TOP_INT_CFG7_L {
    pub fn FRQ_PID_Ki_L(self) -> u8
        ensures { result ≡ get_at (parts_of "TOP_INT_CFG7_L") "FRQ_PID_Ki_L" self.0 }
    {
        get(self.0, 0, 8)
    }

    pub fn with_FRQ_PID_Ki_L(self, value: u8) -> Self
        ensures { result.0 ≡ with_at (parts_of "TOP_INT_CFG7_L") "FRQ_PID_Ki_L" self.0 value }
    {
        TOP_INT_CFG7_L::from(with(self.0, 0, 8, value))
    }
}

// TOP_INT_CFG8 register (0x20).
pub type TOP_INT_CFG8 = Byte<0x20>;

impl TOP_INT_CFG8 {
    // For updates of the byte that the chip holds: where the field starts, and how many bits it has.
    pub const RAPID_STOP_LIM_PLACE: Place = Place { shift: 4, width: 4 };

    pub fn FRQ_TRACK_BEMF_LIM(self) -> u8
        ensures { result ≡ get_at (parts_of "TOP_INT_CFG8") "FRQ_TRACK_BEMF_LIM" self.0 }
    {
        get(self.0, 0, 4)
    }

    pub fn with_FRQ_TRACK_BEMF_LIM(self, value: u8) -> Self
        ensures { result.0 ≡ with_at (parts_of "TOP_INT_CFG8") "FRQ_TRACK_BEMF_LIM" self.0 value }
    {
        TOP_INT_CFG8::from(with(self.0, 0, 4, value))
    }

    pub fn RAPID_STOP_LIM(self) -> u8
        ensures { result ≡ get_at (parts_of "TOP_INT_CFG8") "RAPID_STOP_LIM" self.0 }
    {
        let place = TOP_INT_CFG8::RAPID_STOP_LIM_PLACE;
        get(self.0, place.shift, place.width)
    }

    pub fn with_RAPID_STOP_LIM(self, value: u8) -> Self
        ensures { result.0 ≡ with_at (parts_of "TOP_INT_CFG8") "RAPID_STOP_LIM" self.0 value }
    {
        let place = TOP_INT_CFG8::RAPID_STOP_LIM_PLACE;
        TOP_INT_CFG8::from(with(self.0, place.shift, place.width, value))
    }
}

// TOP_CTL1 register (0x22).
pub type TOP_CTL1 = Byte<0x22>;

impl TOP_CTL1 {
    // For updates of the byte that the chip holds: where the field starts, and how many bits it has.
    pub const OPERATION_MODE_PLACE: Place = Place { shift: 0, width: 3 };

    pub const SEQ_START_PLACE: Place = Place { shift: 4, width: 1 };

    pub fn OPERATION_MODE(self) -> u8
        ensures { result ≡ get_at (parts_of "TOP_CTL1") "OPERATION_MODE" self.0 }
    {
        let place = TOP_CTL1::OPERATION_MODE_PLACE;
        get(self.0, place.shift, place.width)
    }

    pub fn with_OPERATION_MODE(self, value: u8) -> Self
        ensures { result.0 ≡ with_at (parts_of "TOP_CTL1") "OPERATION_MODE" self.0 value }
    {
        let place = TOP_CTL1::OPERATION_MODE_PLACE;
        TOP_CTL1::from(with(self.0, place.shift, place.width, value))
    }

    pub fn STANDBY_EN(self) -> bool
        ensures { result ≡ is_at (parts_of "TOP_CTL1") "STANDBY_EN" self.0 }
    {
        flag(self.0, 3)
    }

    pub fn with_STANDBY_EN(self, on: bool) -> Self
        ensures { result.0 ≡ with_at (parts_of "TOP_CTL1") "STANDBY_EN" self.0 (code_of on) }
    {
        TOP_CTL1::from(with_flag(self.0, 3, on))
    }

    pub fn SEQ_START(self) -> bool
        ensures { result ≡ is_at (parts_of "TOP_CTL1") "SEQ_START" self.0 }
    {
        flag(self.0, TOP_CTL1::SEQ_START_PLACE.shift)
    }

    pub fn with_SEQ_START(self, on: bool) -> Self
        ensures { result.0 ≡ with_at (parts_of "TOP_CTL1") "SEQ_START" self.0 (code_of on) }
    {
        TOP_CTL1::from(with_flag(self.0, TOP_CTL1::SEQ_START_PLACE.shift, on))
    }
}

// TOP_CTL2 register (0x23).
pub type TOP_CTL2 = Byte<0x23>;

impl TOP_CTL2 {
    pub fn OVERRIDE_VAL(self) -> u8
        ensures { result ≡ get_at (parts_of "TOP_CTL2") "OVERRIDE_VAL" self.0 }
    {
        get(self.0, 0, 8)
    }

    pub fn with_OVERRIDE_VAL(self, value: u8) -> Self
        ensures { result.0 ≡ with_at (parts_of "TOP_CTL2") "OVERRIDE_VAL" self.0 value }
    {
        TOP_CTL2::from(with(self.0, 0, 8, value))
    }
}

// SEQ_CTL1 register (0x24).
pub type SEQ_CTL1 = Byte<0x24>;

impl SEQ_CTL1 {
    // For updates of the byte that the chip holds: where the field starts, and how many bits it has.
    pub const FREQ_WAVEFORM_TIMEBASE_PLACE: Place = Place { shift: 2, width: 1 };

    pub fn SEQ_CONTINUE(self) -> bool
        ensures { result ≡ is_at (parts_of "SEQ_CTL1") "SEQ_CONTINUE" self.0 }
    {
        flag(self.0, 0)
    }

    pub fn with_SEQ_CONTINUE(self, on: bool) -> Self
        ensures { result.0 ≡ with_at (parts_of "SEQ_CTL1") "SEQ_CONTINUE" self.0 (code_of on) }
    {
        SEQ_CTL1::from(with_flag(self.0, 0, on))
    }

    pub fn WAVEGEN_MODE(self) -> bool
        ensures { result ≡ is_at (parts_of "SEQ_CTL1") "WAVEGEN_MODE" self.0 }
    {
        flag(self.0, 1)
    }

    pub fn with_WAVEGEN_MODE(self, on: bool) -> Self
        ensures { result.0 ≡ with_at (parts_of "SEQ_CTL1") "WAVEGEN_MODE" self.0 (code_of on) }
    {
        SEQ_CTL1::from(with_flag(self.0, 1, on))
    }

    pub fn FREQ_WAVEFORM_TIMEBASE(self) -> u8
        ensures { result ≡ get_at (parts_of "SEQ_CTL1") "FREQ_WAVEFORM_TIMEBASE" self.0 }
    {
        let place = SEQ_CTL1::FREQ_WAVEFORM_TIMEBASE_PLACE;
        get(self.0, place.shift, place.width)
    }

    pub fn with_FREQ_WAVEFORM_TIMEBASE(self, value: u8) -> Self
        ensures { result.0 ≡ with_at (parts_of "SEQ_CTL1") "FREQ_WAVEFORM_TIMEBASE" self.0 value }
    {
        let place = SEQ_CTL1::FREQ_WAVEFORM_TIMEBASE_PLACE;
        SEQ_CTL1::from(with(self.0, place.shift, place.width, value))
    }
}

// SWG_C1 register (0x25).
pub type SWG_C1 = Byte<0x25>;

impl SWG_C1 {
    pub fn CUSTOM_WAVE_GEN_COEFF1(self) -> u8
        ensures { result ≡ get_at (parts_of "SWG_C1") "CUSTOM_WAVE_GEN_COEFF1" self.0 }
    {
        get(self.0, 0, 8)
    }

    pub fn with_CUSTOM_WAVE_GEN_COEFF1(self, value: u8) -> Self
        ensures { result.0 ≡ with_at (parts_of "SWG_C1") "CUSTOM_WAVE_GEN_COEFF1" self.0 value }
    {
        SWG_C1::from(with(self.0, 0, 8, value))
    }
}

// SWG_C2 register (0x26).
pub type SWG_C2 = Byte<0x26>;

impl SWG_C2 {
    pub fn CUSTOM_WAVE_GEN_COEFF2(self) -> u8
        ensures { result ≡ get_at (parts_of "SWG_C2") "CUSTOM_WAVE_GEN_COEFF2" self.0 }
    {
        get(self.0, 0, 8)
    }

    pub fn with_CUSTOM_WAVE_GEN_COEFF2(self, value: u8) -> Self
        ensures { result.0 ≡ with_at (parts_of "SWG_C2") "CUSTOM_WAVE_GEN_COEFF2" self.0 value }
    {
        SWG_C2::from(with(self.0, 0, 8, value))
    }
}

// SWG_C3 register (0x27).
pub type SWG_C3 = Byte<0x27>;

impl SWG_C3 {
    pub fn CUSTOM_WAVE_GEN_COEFF3(self) -> u8
        ensures { result ≡ get_at (parts_of "SWG_C3") "CUSTOM_WAVE_GEN_COEFF3" self.0 }
    {
        get(self.0, 0, 8)
    }

    pub fn with_CUSTOM_WAVE_GEN_COEFF3(self, value: u8) -> Self
        ensures { result.0 ≡ with_at (parts_of "SWG_C3") "CUSTOM_WAVE_GEN_COEFF3" self.0 value }
    {
        SWG_C3::from(with(self.0, 0, 8, value))
    }
}

// What each named field reads when its register holds `byte`, registers and fields in the written order; a flag reads 0 or 1.
#[tactic(auto, using(field::proofs::Methods::flag_code))]
pub fn fields(byte: u8) -> [u8; 18]
    ensures { result ≡ readings control byte }
{
    let top_int_cfg1 = TOP_INT_CFG1::from(byte);
    let top_int_cfg6_h = TOP_INT_CFG6_H::from(byte);
    let top_int_cfg6_l = TOP_INT_CFG6_L::from(byte);
    let top_int_cfg7_h = TOP_INT_CFG7_H::from(byte);
    let top_int_cfg7_l = TOP_INT_CFG7_L::from(byte);
    let top_int_cfg8 = TOP_INT_CFG8::from(byte);
    let top_ctl1 = TOP_CTL1::from(byte);
    let top_ctl2 = TOP_CTL2::from(byte);
    let seq_ctl1 = SEQ_CTL1::from(byte);
    let swg_c1 = SWG_C1::from(byte);
    let swg_c2 = SWG_C2::from(byte);
    let swg_c3 = SWG_C3::from(byte);
    [
        top_int_cfg1.BEMF_FAULT_LIM(),
        top_int_cfg1.FRQ_LOCKED_LIM(),
        top_int_cfg6_h.FRQ_PID_Kp_H(),
        top_int_cfg6_l.FRQ_PID_Kp_L(),
        top_int_cfg7_h.FRQ_PID_Ki_H(),
        top_int_cfg7_l.FRQ_PID_Ki_L(),
        top_int_cfg8.FRQ_TRACK_BEMF_LIM(),
        top_int_cfg8.RAPID_STOP_LIM(),
        top_ctl1.OPERATION_MODE(),
        top_ctl1.STANDBY_EN() as u8,
        top_ctl1.SEQ_START() as u8,
        top_ctl2.OVERRIDE_VAL(),
        seq_ctl1.SEQ_CONTINUE() as u8,
        seq_ctl1.WAVEGEN_MODE() as u8,
        seq_ctl1.FREQ_WAVEFORM_TIMEBASE(),
        swg_c1.CUSTOM_WAVE_GEN_COEFF1(),
        swg_c2.CUSTOM_WAVE_GEN_COEFF2(),
        swg_c3.CUSTOM_WAVE_GEN_COEFF3(),
    ]
}

// For each field that is not read-only, in the same order, what its register holds once the field is replaced by `value` in
// `byte`; a flag is set where `value` is odd.
#[tactic(auto, using(field::proofs::Methods::odd))]
pub fn replaced(byte: u8, value: u8) -> [u8; 18]
    ensures { result ≡ replacements read_only control byte value }
{
    let on = flag(value, 0);
    let top_int_cfg1 = TOP_INT_CFG1::from(byte);
    let top_int_cfg6_h = TOP_INT_CFG6_H::from(byte);
    let top_int_cfg6_l = TOP_INT_CFG6_L::from(byte);
    let top_int_cfg7_h = TOP_INT_CFG7_H::from(byte);
    let top_int_cfg7_l = TOP_INT_CFG7_L::from(byte);
    let top_int_cfg8 = TOP_INT_CFG8::from(byte);
    let top_ctl1 = TOP_CTL1::from(byte);
    let top_ctl2 = TOP_CTL2::from(byte);
    let seq_ctl1 = SEQ_CTL1::from(byte);
    let swg_c1 = SWG_C1::from(byte);
    let swg_c2 = SWG_C2::from(byte);
    let swg_c3 = SWG_C3::from(byte);
    [
        top_int_cfg1.with_BEMF_FAULT_LIM(value).0,
        top_int_cfg1.with_FRQ_LOCKED_LIM(value).0,
        top_int_cfg6_h.with_FRQ_PID_Kp_H(value).0,
        top_int_cfg6_l.with_FRQ_PID_Kp_L(value).0,
        top_int_cfg7_h.with_FRQ_PID_Ki_H(value).0,
        top_int_cfg7_l.with_FRQ_PID_Ki_L(value).0,
        top_int_cfg8.with_FRQ_TRACK_BEMF_LIM(value).0,
        top_int_cfg8.with_RAPID_STOP_LIM(value).0,
        top_ctl1.with_OPERATION_MODE(value).0,
        top_ctl1.with_STANDBY_EN(on).0,
        top_ctl1.with_SEQ_START(on).0,
        top_ctl2.with_OVERRIDE_VAL(value).0,
        seq_ctl1.with_SEQ_CONTINUE(on).0,
        seq_ctl1.with_WAVEGEN_MODE(on).0,
        seq_ctl1.with_FREQ_WAVEFORM_TIMEBASE(value).0,
        swg_c1.with_CUSTOM_WAVE_GEN_COEFF1(value).0,
        swg_c2.with_CUSTOM_WAVE_GEN_COEFF2(value).0,
        swg_c3.with_CUSTOM_WAVE_GEN_COEFF3(value).0,
    ]
}
