// The registers of sequences, triggers, the waveform memory and trims: SEQ_CTL2 to IRQ_MASK2 of registers.rs, document 01,
// "Settings to registers". A register is a `Byte`: `new` is zero, and both `From` keep every bit; the method of a field's name
// reads the field, and `with_` before the name alters it; WAV_MEM_BASE_ADDR is read-only and has no `with_`. The three GPI
// registers keep their own types, whose fields' names have the register's digit, and share the trait `Gpi`. Proved: each
// method's result, by the field's name in registers/specs/Table.antt, which has the names and widths of the Rust in the
// written order; `fields` and `replaced` list what all the getters and all the `with_` make of one byte, and equal definitions
// that go through the table part by part. Left out: what else the attribute `bitfield` makes, such as `set_` methods; `Debug`
// prints the byte, not the fields.
#![tactic(auto)]

ghost use Rattle.std.specs.Prelude.{◌≡◌};
ghost use Rattle.field.specs.Field.{code_of};
ghost use Rattle.field.specs.Layout.{get_at, is_at, with_at, readings, replacements};
ghost use Rattle.registers.specs.Table.{trigger, read_only, address_of, parts_of};
ghost use Rattle.registers_trigger.specs.Gpi.{Digit, gpi_name, gpi_with};

use field::{flag, get, with, with_flag};
use registers::Register;

// The byte of a register, of a type that its address makes its own. One in each of the four crates: a type's methods stand in the type's crate,
// and one crate of all would have twice the functions that a check is kept to. Each method is written out below, as the Rust's attribute makes
// it, over one pair of functions (`field`): a macro can write no contract.
#[derive(Debug, Clone, Copy, PartialEq, Eq, Default)]
pub struct Byte<const ADDRESS: u8>(u8);

impl<const ADDRESS: u8> Byte<ADDRESS> {
    pub fn new() -> Self
        ensures { result.0 ≡ 0 }
    {
        Self::default()
    }
}

impl<const ADDRESS: u8> From<u8> for Byte<ADDRESS> {
    ghost from_gives = { λ bits register. register.0 ≡ bits };

    fn from(bits: u8) -> Self {
        Byte(bits)
    }
}

impl<const ADDRESS: u8> From<Byte<ADDRESS>> for u8 {
    ghost from_gives = { λ register bits. bits ≡ register.0 };

    fn from(register: Byte<ADDRESS>) -> u8 {
        register.0
    }
}

// SEQ_CTL2 register (0x28).
pub type SEQ_CTL2 = Byte<0x28>;

impl SEQ_CTL2 {
    pub fn PS_SEQ_ID(self) -> u8
        ensures { result ≡ get_at (parts_of "SEQ_CTL2") "PS_SEQ_ID" self.0 }
    {
        get(self.0, 0, 4)
    }

    pub fn with_PS_SEQ_ID(self, value: u8) -> Self
        ensures { result.0 ≡ with_at (parts_of "SEQ_CTL2") "PS_SEQ_ID" self.0 value }
    {
        SEQ_CTL2::from(with(self.0, 0, 4, value))
    }

    pub fn PS_SEQ_LOOP(self) -> u8
        ensures { result ≡ get_at (parts_of "SEQ_CTL2") "PS_SEQ_LOOP" self.0 }
    {
        get(self.0, 4, 4)
    }

    pub fn with_PS_SEQ_LOOP(self, value: u8) -> Self
        ensures { result.0 ≡ with_at (parts_of "SEQ_CTL2") "PS_SEQ_LOOP" self.0 value }
    {
        SEQ_CTL2::from(with(self.0, 4, 4, value))
    }
}

// What the three GPI registers share: the same fields, under names that differ in the register's digit.
pub trait Gpi {
    ghost digit: { Digit };

    // The register's address.
    fn register() -> Register
        ensures { result.0 ≡ address_of (gpi_name digit) };

    // The register's byte with these fields.
    fn byte(polarity: u8, multi: bool, sequence_id: u8) -> u8
        ensures { result ≡ gpi_with digit polarity (code_of multi) sequence_id };
}

// GPI0 Control register (0x29).
pub type GPI_0_CTL = Byte<0x29>;

impl GPI_0_CTL {
    pub fn GPI0_POLARITY(self) -> u8
        ensures { result ≡ get_at (parts_of "GPI_0_CTL") "GPI0_POLARITY" self.0 }
    {
        get(self.0, 0, 2)
    }

    pub fn with_GPI0_POLARITY(self, value: u8) -> Self
        ensures { result.0 ≡ with_at (parts_of "GPI_0_CTL") "GPI0_POLARITY" self.0 value }
    {
        GPI_0_CTL::from(with(self.0, 0, 2, value))
    }

    pub fn GPI0_MODE(self) -> bool
        ensures { result ≡ is_at (parts_of "GPI_0_CTL") "GPI0_MODE" self.0 }
    {
        flag(self.0, 2)
    }

    pub fn with_GPI0_MODE(self, on: bool) -> Self
        ensures { result.0 ≡ with_at (parts_of "GPI_0_CTL") "GPI0_MODE" self.0 (code_of on) }
    {
        GPI_0_CTL::from(with_flag(self.0, 2, on))
    }

    pub fn GPI0_SEQUENCE_ID(self) -> u8
        ensures { result ≡ get_at (parts_of "GPI_0_CTL") "GPI0_SEQUENCE_ID" self.0 }
    {
        get(self.0, 3, 4)
    }

    pub fn with_GPI0_SEQUENCE_ID(self, value: u8) -> Self
        ensures { result.0 ≡ with_at (parts_of "GPI_0_CTL") "GPI0_SEQUENCE_ID" self.0 value }
    {
        GPI_0_CTL::from(with(self.0, 3, 4, value))
    }
}

impl Gpi for GPI_0_CTL {
    ghost digit = { "0" };

    fn register() -> Register {
        Register::GPI_0_CTL
    }

    fn byte(polarity: u8, multi: bool, sequence_id: u8) -> u8 {
        GPI_0_CTL::new()
            .with_GPI0_POLARITY(polarity)
            .with_GPI0_MODE(multi)
            .with_GPI0_SEQUENCE_ID(sequence_id)
            .0
    }
}

// GPI1 Control register (0x2A).
pub type GPI_1_CTL = Byte<0x2A>;

impl GPI_1_CTL {
    pub fn GPI1_POLARITY(self) -> u8
        ensures { result ≡ get_at (parts_of "GPI_1_CTL") "GPI1_POLARITY" self.0 }
    {
        get(self.0, 0, 2)
    }

    pub fn with_GPI1_POLARITY(self, value: u8) -> Self
        ensures { result.0 ≡ with_at (parts_of "GPI_1_CTL") "GPI1_POLARITY" self.0 value }
    {
        GPI_1_CTL::from(with(self.0, 0, 2, value))
    }

    pub fn GPI1_MODE(self) -> bool
        ensures { result ≡ is_at (parts_of "GPI_1_CTL") "GPI1_MODE" self.0 }
    {
        flag(self.0, 2)
    }

    pub fn with_GPI1_MODE(self, on: bool) -> Self
        ensures { result.0 ≡ with_at (parts_of "GPI_1_CTL") "GPI1_MODE" self.0 (code_of on) }
    {
        GPI_1_CTL::from(with_flag(self.0, 2, on))
    }

    pub fn GPI1_SEQUENCE_ID(self) -> u8
        ensures { result ≡ get_at (parts_of "GPI_1_CTL") "GPI1_SEQUENCE_ID" self.0 }
    {
        get(self.0, 3, 4)
    }

    pub fn with_GPI1_SEQUENCE_ID(self, value: u8) -> Self
        ensures { result.0 ≡ with_at (parts_of "GPI_1_CTL") "GPI1_SEQUENCE_ID" self.0 value }
    {
        GPI_1_CTL::from(with(self.0, 3, 4, value))
    }
}

impl Gpi for GPI_1_CTL {
    ghost digit = { "1" };

    fn register() -> Register {
        Register::GPI_1_CTL
    }

    fn byte(polarity: u8, multi: bool, sequence_id: u8) -> u8 {
        GPI_1_CTL::new()
            .with_GPI1_POLARITY(polarity)
            .with_GPI1_MODE(multi)
            .with_GPI1_SEQUENCE_ID(sequence_id)
            .0
    }
}

// GPI2 Control register (0x2B).
pub type GPI_2_CTL = Byte<0x2B>;

impl GPI_2_CTL {
    pub fn GPI2_POLARITY(self) -> u8
        ensures { result ≡ get_at (parts_of "GPI_2_CTL") "GPI2_POLARITY" self.0 }
    {
        get(self.0, 0, 2)
    }

    pub fn with_GPI2_POLARITY(self, value: u8) -> Self
        ensures { result.0 ≡ with_at (parts_of "GPI_2_CTL") "GPI2_POLARITY" self.0 value }
    {
        GPI_2_CTL::from(with(self.0, 0, 2, value))
    }

    pub fn GPI2_MODE(self) -> bool
        ensures { result ≡ is_at (parts_of "GPI_2_CTL") "GPI2_MODE" self.0 }
    {
        flag(self.0, 2)
    }

    pub fn with_GPI2_MODE(self, on: bool) -> Self
        ensures { result.0 ≡ with_at (parts_of "GPI_2_CTL") "GPI2_MODE" self.0 (code_of on) }
    {
        GPI_2_CTL::from(with_flag(self.0, 2, on))
    }

    pub fn GPI2_SEQUENCE_ID(self) -> u8
        ensures { result ≡ get_at (parts_of "GPI_2_CTL") "GPI2_SEQUENCE_ID" self.0 }
    {
        get(self.0, 3, 4)
    }

    pub fn with_GPI2_SEQUENCE_ID(self, value: u8) -> Self
        ensures { result.0 ≡ with_at (parts_of "GPI_2_CTL") "GPI2_SEQUENCE_ID" self.0 value }
    {
        GPI_2_CTL::from(with(self.0, 3, 4, value))
    }
}

impl Gpi for GPI_2_CTL {
    ghost digit = { "2" };

    fn register() -> Register {
        Register::GPI_2_CTL
    }

    fn byte(polarity: u8, multi: bool, sequence_id: u8) -> u8 {
        GPI_2_CTL::new()
            .with_GPI2_POLARITY(polarity)
            .with_GPI2_MODE(multi)
            .with_GPI2_SEQUENCE_ID(sequence_id)
            .0
    }
}

// MEM_CTL1 register (0x2C).
pub type MEM_CTL1 = Byte<0x2C>;

impl MEM_CTL1 {
    pub fn WAV_MEM_BASE_ADDR(self) -> u8
        ensures { result ≡ get_at (parts_of "MEM_CTL1") "WAV_MEM_BASE_ADDR" self.0 }
    {
        get(self.0, 0, 8)
    }
}

// MEM_CTL2 register (0x2D).
pub type MEM_CTL2 = Byte<0x2D>;

impl MEM_CTL2 {
    pub fn WAV_MEM_LOCK(self) -> bool
        ensures { result ≡ is_at (parts_of "MEM_CTL2") "WAV_MEM_LOCK" self.0 }
    {
        flag(self.0, 7)
    }

    pub fn with_WAV_MEM_LOCK(self, on: bool) -> Self
        ensures { result.0 ≡ with_at (parts_of "MEM_CTL2") "WAV_MEM_LOCK" self.0 (code_of on) }
    {
        MEM_CTL2::from(with_flag(self.0, 7, on))
    }
}

// FRQ_PHASE_H register (0x48).
pub type FRQ_PHASE_H = Byte<0x48>;

impl FRQ_PHASE_H {
    pub fn DELAY_H(self) -> u8
        ensures { result ≡ get_at (parts_of "FRQ_PHASE_H") "DELAY_H" self.0 }
    {
        get(self.0, 0, 8)
    }

    pub fn with_DELAY_H(self, value: u8) -> Self
        ensures { result.0 ≡ with_at (parts_of "FRQ_PHASE_H") "DELAY_H" self.0 value }
    {
        FRQ_PHASE_H::from(with(self.0, 0, 8, value))
    }
}

// FRQ_PHASE_L register (0x49).
pub type FRQ_PHASE_L = Byte<0x49>;

impl FRQ_PHASE_L {
    pub fn DELAY_SHIFT_L(self) -> u8
        ensures { result ≡ get_at (parts_of "FRQ_PHASE_L") "DELAY_SHIFT_L" self.0 }
    {
        get(self.0, 0, 3)
    }

    pub fn with_DELAY_SHIFT_L(self, value: u8) -> Self
        ensures { result.0 ≡ with_at (parts_of "FRQ_PHASE_L") "DELAY_SHIFT_L" self.0 value }
    {
        FRQ_PHASE_L::from(with(self.0, 0, 3, value))
    }

    pub fn DELAY_FREEZE(self) -> bool
        ensures { result ≡ is_at (parts_of "FRQ_PHASE_L") "DELAY_FREEZE" self.0 }
    {
        flag(self.0, 7)
    }

    pub fn with_DELAY_FREEZE(self, on: bool) -> Self
        ensures { result.0 ≡ with_at (parts_of "FRQ_PHASE_L") "DELAY_FREEZE" self.0 (code_of on) }
    {
        FRQ_PHASE_L::from(with_flag(self.0, 7, on))
    }
}

// TRIM4 register (0x60).
pub type TRIM4 = Byte<0x60>;

impl TRIM4 {
    pub fn LOOP_FILT_RES_TRIM(self) -> u8
        ensures { result ≡ get_at (parts_of "TRIM4") "LOOP_FILT_RES_TRIM" self.0 }
    {
        get(self.0, 0, 2)
    }

    pub fn with_LOOP_FILT_RES_TRIM(self, value: u8) -> Self
        ensures { result.0 ≡ with_at (parts_of "TRIM4") "LOOP_FILT_RES_TRIM" self.0 value }
    {
        TRIM4::from(with(self.0, 0, 2, value))
    }

    pub fn LOOP_FILT_CAP_TRIM(self) -> u8
        ensures { result ≡ get_at (parts_of "TRIM4") "LOOP_FILT_CAP_TRIM" self.0 }
    {
        get(self.0, 2, 2)
    }

    pub fn with_LOOP_FILT_CAP_TRIM(self, value: u8) -> Self
        ensures { result.0 ≡ with_at (parts_of "TRIM4") "LOOP_FILT_CAP_TRIM" self.0 value }
    {
        TRIM4::from(with(self.0, 2, 2, value))
    }
}

// TOP_CFG5 register (0x6E).
pub type TOP_CFG5 = Byte<0x6E>;

impl TOP_CFG5 {
    pub fn V2I_FACTOR_OFFSET_EN(self) -> bool
        ensures { result ≡ is_at (parts_of "TOP_CFG5") "V2I_FACTOR_OFFSET_EN" self.0 }
    {
        flag(self.0, 0)
    }

    pub fn with_V2I_FACTOR_OFFSET_EN(self, on: bool) -> Self
        ensures { result.0 ≡ with_at (parts_of "TOP_CFG5") "V2I_FACTOR_OFFSET_EN" self.0 (code_of on) }
    {
        TOP_CFG5::from(with_flag(self.0, 0, on))
    }
}

// IRQ_MASK2 register (0x83).
pub type IRQ_MASK2 = Byte<0x83>;

impl IRQ_MASK2 {
    pub fn ADC_SAT_M(self) -> bool
        ensures { result ≡ is_at (parts_of "IRQ_MASK2") "ADC_SAT_M" self.0 }
    {
        flag(self.0, 7)
    }

    pub fn with_ADC_SAT_M(self, on: bool) -> Self
        ensures { result.0 ≡ with_at (parts_of "IRQ_MASK2") "ADC_SAT_M" self.0 (code_of on) }
    {
        IRQ_MASK2::from(with_flag(self.0, 7, on))
    }
}

// What each named field reads when its register holds `byte`, registers and fields in the written order; a flag reads 0 or 1.
#[tactic(auto, using(field::proofs::Methods::flag_code))]
pub fn fields(byte: u8) -> [u8; 20]
    ensures { result ≡ readings trigger byte }
{
    let seq_ctl2 = SEQ_CTL2::from(byte);
    let gpi_0_ctl = GPI_0_CTL::from(byte);
    let gpi_1_ctl = GPI_1_CTL::from(byte);
    let gpi_2_ctl = GPI_2_CTL::from(byte);
    let mem_ctl1 = MEM_CTL1::from(byte);
    let mem_ctl2 = MEM_CTL2::from(byte);
    let frq_phase_h = FRQ_PHASE_H::from(byte);
    let frq_phase_l = FRQ_PHASE_L::from(byte);
    let trim4 = TRIM4::from(byte);
    let top_cfg5 = TOP_CFG5::from(byte);
    let irq_mask2 = IRQ_MASK2::from(byte);
    [
        seq_ctl2.PS_SEQ_ID(),
        seq_ctl2.PS_SEQ_LOOP(),
        gpi_0_ctl.GPI0_POLARITY(),
        gpi_0_ctl.GPI0_MODE() as u8,
        gpi_0_ctl.GPI0_SEQUENCE_ID(),
        gpi_1_ctl.GPI1_POLARITY(),
        gpi_1_ctl.GPI1_MODE() as u8,
        gpi_1_ctl.GPI1_SEQUENCE_ID(),
        gpi_2_ctl.GPI2_POLARITY(),
        gpi_2_ctl.GPI2_MODE() as u8,
        gpi_2_ctl.GPI2_SEQUENCE_ID(),
        mem_ctl1.WAV_MEM_BASE_ADDR(),
        mem_ctl2.WAV_MEM_LOCK() as u8,
        frq_phase_h.DELAY_H(),
        frq_phase_l.DELAY_SHIFT_L(),
        frq_phase_l.DELAY_FREEZE() as u8,
        trim4.LOOP_FILT_RES_TRIM(),
        trim4.LOOP_FILT_CAP_TRIM(),
        top_cfg5.V2I_FACTOR_OFFSET_EN() as u8,
        irq_mask2.ADC_SAT_M() as u8,
    ]
}

// For each field that is not read-only, in the same order, what its register holds once the field is replaced by `value` in
// `byte`; a flag is set where `value` is odd.
#[tactic(auto, using(field::proofs::Methods::odd))]
pub fn replaced(byte: u8, value: u8) -> [u8; 19]
    ensures { result ≡ replacements read_only trigger byte value }
{
    let on = flag(value, 0);
    let seq_ctl2 = SEQ_CTL2::from(byte);
    let gpi_0_ctl = GPI_0_CTL::from(byte);
    let gpi_1_ctl = GPI_1_CTL::from(byte);
    let gpi_2_ctl = GPI_2_CTL::from(byte);
    let mem_ctl2 = MEM_CTL2::from(byte);
    let frq_phase_h = FRQ_PHASE_H::from(byte);
    let frq_phase_l = FRQ_PHASE_L::from(byte);
    let trim4 = TRIM4::from(byte);
    let top_cfg5 = TOP_CFG5::from(byte);
    let irq_mask2 = IRQ_MASK2::from(byte);
    [
        seq_ctl2.with_PS_SEQ_ID(value).0,
        seq_ctl2.with_PS_SEQ_LOOP(value).0,
        gpi_0_ctl.with_GPI0_POLARITY(value).0,
        gpi_0_ctl.with_GPI0_MODE(on).0,
        gpi_0_ctl.with_GPI0_SEQUENCE_ID(value).0,
        gpi_1_ctl.with_GPI1_POLARITY(value).0,
        gpi_1_ctl.with_GPI1_MODE(on).0,
        gpi_1_ctl.with_GPI1_SEQUENCE_ID(value).0,
        gpi_2_ctl.with_GPI2_POLARITY(value).0,
        gpi_2_ctl.with_GPI2_MODE(on).0,
        gpi_2_ctl.with_GPI2_SEQUENCE_ID(value).0,
        mem_ctl2.with_WAV_MEM_LOCK(on).0,
        frq_phase_h.with_DELAY_H(value).0,
        frq_phase_l.with_DELAY_SHIFT_L(value).0,
        frq_phase_l.with_DELAY_FREEZE(on).0,
        trim4.with_LOOP_FILT_RES_TRIM(value).0,
        trim4.with_LOOP_FILT_CAP_TRIM(value).0,
        top_cfg5.with_V2I_FACTOR_OFFSET_EN(on).0,
        irq_mask2.with_ADC_SAT_M(on).0,
    ]
}
