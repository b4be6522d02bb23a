// The registers of the chip's revision and of its interrupts: CHIP_REV to IRQ_MASK1 of registers.rs, document 01, "Settings to
// registers". A register is a `Byte`: `new` is zero, and both `From` keep every bit; the method of a field's name reads the
// field, and `with_` before the name alters it; the two fields of CHIP_REV are read-only and have no `with_`. Proved: each
// method's result, by the field's name in registers/specs/Table.antt, which has the names and widths of the Rust in the
// written order; `fields` and `replaced` list what all the getters and all the `with_` make of one byte, and equal definitions
// that go through the table part by part. Left out: what else the attribute `bitfield` makes, such as `set_` methods; `Debug`
// prints the byte, not the fields.
#![tactic(auto)]

ghost use Rattle.std.specs.Prelude.{◌≡◌};
ghost use Rattle.field.specs.Field.{code_of};
ghost use Rattle.field.specs.Layout.{get_at, is_at, with_at, readings, replacements};
ghost use Rattle.registers.specs.Table.{interrupts, read_only, parts_of};

use field::{flag, get, with_flag};

// The byte of a register, of a type that its address makes its own. One in each of the four crates: a type's methods stand in the type's crate,
// and one crate of all would have twice the functions that a check is kept to. Each method is written out below, as the Rust's attribute makes
// it, over one pair of functions (`field`): a macro can write no contract.
#[derive(Debug, Clone, Copy, PartialEq, Eq, Default)]
pub struct Byte<const ADDRESS: u8>(u8);

impl<const ADDRESS: u8> Byte<ADDRESS> {
    pub fn new() -> Self
        ensures { result.0 ≡ 0 }
    {
        Self::default()
    }
}

impl<const ADDRESS: u8> From<u8> for Byte<ADDRESS> {
    ghost from_gives = { λ bits register. register.0 ≡ bits };

    fn from(bits: u8) -> Self {
        Byte(bits)
    }
}

impl<const ADDRESS: u8> From<Byte<ADDRESS>> for u8 {
    ghost from_gives = { λ register bits. bits ≡ register.0 };

    fn from(register: Byte<ADDRESS>) -> u8 {
        register.0
    }
}

// Chip revision register.
pub type CHIP_REV = Byte<0x00>;

impl CHIP_REV {
    pub fn CHIP_REV_MAJOR(self) -> u8
        ensures { result ≡ get_at (parts_of "CHIP_REV") "CHIP_REV_MAJOR" self.0 }
    {
        get(self.0, 0, 4)
    }

    pub fn CHIP_REV_MINOR(self) -> u8
        ensures { result ≡ get_at (parts_of "CHIP_REV") "CHIP_REV_MINOR" self.0 }
    {
        get(self.0, 4, 4)
    }
}

// IRQ Event 1 register (0x03).
pub type IRQ_EVENT1 = Byte<0x03>;

impl IRQ_EVENT1 {
    pub fn E_SEQ_CONTINUE(self) -> bool
        ensures { result ≡ is_at (parts_of "IRQ_EVENT1") "E_SEQ_CONTINUE" self.0 }
    {
        flag(self.0, 0)
    }

    pub fn with_E_SEQ_CONTINUE(self, on: bool) -> Self
        ensures { result.0 ≡ with_at (parts_of "IRQ_EVENT1") "E_SEQ_CONTINUE" self.0 (code_of on) }
    {
        IRQ_EVENT1::from(with_flag(self.0, 0, on))
    }

    pub fn E_UVLO(self) -> bool
        ensures { result ≡ is_at (parts_of "IRQ_EVENT1") "E_UVLO" self.0 }
    {
        flag(self.0, 1)
    }

    pub fn with_E_UVLO(self, on: bool) -> Self
        ensures { result.0 ≡ with_at (parts_of "IRQ_EVENT1") "E_UVLO" self.0 (code_of on) }
    {
        IRQ_EVENT1::from(with_flag(self.0, 1, on))
    }

    pub fn E_SEQ_DONE(self) -> bool
        ensures { result ≡ is_at (parts_of "IRQ_EVENT1") "E_SEQ_DONE" self.0 }
    {
        flag(self.0, 2)
    }

    pub fn with_E_SEQ_DONE(self, on: bool) -> Self
        ensures { result.0 ≡ with_at (parts_of "IRQ_EVENT1") "E_SEQ_DONE" self.0 (code_of on) }
    {
        IRQ_EVENT1::from(with_flag(self.0, 2, on))
    }

    pub fn E_OVERTEMP_CRIT(self) -> bool
        ensures { result ≡ is_at (parts_of "IRQ_EVENT1") "E_OVERTEMP_CRIT" self.0 }
    {
        flag(self.0, 3)
    }

    pub fn with_E_OVERTEMP_CRIT(self, on: bool) -> Self
        ensures { result.0 ≡ with_at (parts_of "IRQ_EVENT1") "E_OVERTEMP_CRIT" self.0 (code_of on) }
    {
        IRQ_EVENT1::from(with_flag(self.0, 3, on))
    }

    pub fn E_SEQ_FAULT(self) -> bool
        ensures { result ≡ is_at (parts_of "IRQ_EVENT1") "E_SEQ_FAULT" self.0 }
    {
        flag(self.0, 4)
    }

    pub fn with_E_SEQ_FAULT(self, on: bool) -> Self
        ensures { result.0 ≡ with_at (parts_of "IRQ_EVENT1") "E_SEQ_FAULT" self.0 (code_of on) }
    {
        IRQ_EVENT1::from(with_flag(self.0, 4, on))
    }

    pub fn E_WARNING(self) -> bool
        ensures { result ≡ is_at (parts_of "IRQ_EVENT1") "E_WARNING" self.0 }
    {
        flag(self.0, 5)
    }

    pub fn with_E_WARNING(self, on: bool) -> Self
        ensures { result.0 ≡ with_at (parts_of "IRQ_EVENT1") "E_WARNING" self.0 (code_of on) }
    {
        IRQ_EVENT1::from(with_flag(self.0, 5, on))
    }

    pub fn E_ACTUATOR_FAULT(self) -> bool
        ensures { result ≡ is_at (parts_of "IRQ_EVENT1") "E_ACTUATOR_FAULT" self.0 }
    {
        flag(self.0, 6)
    }

    pub fn with_E_ACTUATOR_FAULT(self, on: bool) -> Self
        ensures { result.0 ≡ with_at (parts_of "IRQ_EVENT1") "E_ACTUATOR_FAULT" self.0 (code_of on) }
    {
        IRQ_EVENT1::from(with_flag(self.0, 6, on))
    }

    pub fn E_OC_FAULT(self) -> bool
        ensures { result ≡ is_at (parts_of "IRQ_EVENT1") "E_OC_FAULT" self.0 }
    {
        flag(self.0, 7)
    }

    pub fn with_E_OC_FAULT(self, on: bool) -> Self
        ensures { result.0 ≡ with_at (parts_of "IRQ_EVENT1") "E_OC_FAULT" self.0 (code_of on) }
    {
        IRQ_EVENT1::from(with_flag(self.0, 7, on))
    }
}

// IRQ Event Warning Diag register (0x04).
pub type IRQ_EVENT_WARNING_DIAG = Byte<0x04>;

impl IRQ_EVENT_WARNING_DIAG {
    pub fn E_OVERTEMP_WARN(self) -> bool
        ensures { result ≡ is_at (parts_of "IRQ_EVENT_WARNING_DIAG") "E_OVERTEMP_WARN" self.0 }
    {
        flag(self.0, 3)
    }

    pub fn with_E_OVERTEMP_WARN(self, on: bool) -> Self
        ensures { result.0 ≡ with_at (parts_of "IRQ_EVENT_WARNING_DIAG") "E_OVERTEMP_WARN" self.0 (code_of on) }
    {
        IRQ_EVENT_WARNING_DIAG::from(with_flag(self.0, 3, on))
    }

    pub fn E_MEM_TYPE(self) -> bool
        ensures { result ≡ is_at (parts_of "IRQ_EVENT_WARNING_DIAG") "E_MEM_TYPE" self.0 }
    {
        flag(self.0, 4)
    }

    pub fn with_E_MEM_TYPE(self, on: bool) -> Self
        ensures { result.0 ≡ with_at (parts_of "IRQ_EVENT_WARNING_DIAG") "E_MEM_TYPE" self.0 (code_of on) }
    {
        IRQ_EVENT_WARNING_DIAG::from(with_flag(self.0, 4, on))
    }

    pub fn E_LIM_DRIVE_ACC(self) -> bool
        ensures { result ≡ is_at (parts_of "IRQ_EVENT_WARNING_DIAG") "E_LIM_DRIVE_ACC" self.0 }
    {
        flag(self.0, 6)
    }

    pub fn with_E_LIM_DRIVE_ACC(self, on: bool) -> Self
        ensures { result.0 ≡ with_at (parts_of "IRQ_EVENT_WARNING_DIAG") "E_LIM_DRIVE_ACC" self.0 (code_of on) }
    {
        IRQ_EVENT_WARNING_DIAG::from(with_flag(self.0, 6, on))
    }

    pub fn E_LIM_DRIVE(self) -> bool
        ensures { result ≡ is_at (parts_of "IRQ_EVENT_WARNING_DIAG") "E_LIM_DRIVE" self.0 }
    {
        flag(self.0, 7)
    }

    pub fn with_E_LIM_DRIVE(self, on: bool) -> Self
        ensures { result.0 ≡ with_at (parts_of "IRQ_EVENT_WARNING_DIAG") "E_LIM_DRIVE" self.0 (code_of on) }
    {
        IRQ_EVENT_WARNING_DIAG::from(with_flag(self.0, 7, on))
    }
}

// IRQ Event Sequence Diag register (0x05).
pub type IRQ_EVENT_SEQ_DIAG = Byte<0x05>;

impl IRQ_EVENT_SEQ_DIAG {
    pub fn E_PWM_FAULT(self) -> bool
        ensures { result ≡ is_at (parts_of "IRQ_EVENT_SEQ_DIAG") "E_PWM_FAULT" self.0 }
    {
        flag(self.0, 5)
    }

    pub fn with_E_PWM_FAULT(self, on: bool) -> Self
        ensures { result.0 ≡ with_at (parts_of "IRQ_EVENT_SEQ_DIAG") "E_PWM_FAULT" self.0 (code_of on) }
    {
        IRQ_EVENT_SEQ_DIAG::from(with_flag(self.0, 5, on))
    }

    pub fn E_MEM_FAULT(self) -> bool
        ensures { result ≡ is_at (parts_of "IRQ_EVENT_SEQ_DIAG") "E_MEM_FAULT" self.0 }
    {
        flag(self.0, 6)
    }

    pub fn with_E_MEM_FAULT(self, on: bool) -> Self
        ensures { result.0 ≡ with_at (parts_of "IRQ_EVENT_SEQ_DIAG") "E_MEM_FAULT" self.0 (code_of on) }
    {
        IRQ_EVENT_SEQ_DIAG::from(with_flag(self.0, 6, on))
    }

    pub fn E_SEQ_ID_FAULT(self) -> bool
        ensures { result ≡ is_at (parts_of "IRQ_EVENT_SEQ_DIAG") "E_SEQ_ID_FAULT" self.0 }
    {
        flag(self.0, 7)
    }

    pub fn with_E_SEQ_ID_FAULT(self, on: bool) -> Self
        ensures { result.0 ≡ with_at (parts_of "IRQ_EVENT_SEQ_DIAG") "E_SEQ_ID_FAULT" self.0 (code_of on) }
    {
        IRQ_EVENT_SEQ_DIAG::from(with_flag(self.0, 7, on))
    }
}

// IRQ Status 1 register (0x06).
pub type IRQ_STATUS1 = Byte<0x06>;

impl IRQ_STATUS1 {
    pub fn STA_SEQ_CONTINUE(self) -> bool
        ensures { result ≡ is_at (parts_of "IRQ_STATUS1") "STA_SEQ_CONTINUE" self.0 }
    {
        flag(self.0, 0)
    }

    pub fn with_STA_SEQ_CONTINUE(self, on: bool) -> Self
        ensures { result.0 ≡ with_at (parts_of "IRQ_STATUS1") "STA_SEQ_CONTINUE" self.0 (code_of on) }
    {
        IRQ_STATUS1::from(with_flag(self.0, 0, on))
    }

    pub fn STA_UVLO_VBAT_OK(self) -> bool
        ensures { result ≡ is_at (parts_of "IRQ_STATUS1") "STA_UVLO_VBAT_OK" self.0 }
    {
        flag(self.0, 1)
    }

    pub fn with_STA_UVLO_VBAT_OK(self, on: bool) -> Self
        ensures { result.0 ≡ with_at (parts_of "IRQ_STATUS1") "STA_UVLO_VBAT_OK" self.0 (code_of on) }
    {
        IRQ_STATUS1::from(with_flag(self.0, 1, on))
    }

    pub fn STA_SEQ_DONE(self) -> bool
        ensures { result ≡ is_at (parts_of "IRQ_STATUS1") "STA_SEQ_DONE" self.0 }
    {
        flag(self.0, 2)
    }

    pub fn with_STA_SEQ_DONE(self, on: bool) -> Self
        ensures { result.0 ≡ with_at (parts_of "IRQ_STATUS1") "STA_SEQ_DONE" self.0 (code_of on) }
    {
        IRQ_STATUS1::from(with_flag(self.0, 2, on))
    }

    pub fn STA_OVERTEMP_CRIT(self) -> bool
        ensures { result ≡ is_at (parts_of "IRQ_STATUS1") "STA_OVERTEMP_CRIT" self.0 }
    {
        flag(self.0, 3)
    }

    pub fn with_STA_OVERTEMP_CRIT(self, on: bool) -> Self
        ensures { result.0 ≡ with_at (parts_of "IRQ_STATUS1") "STA_OVERTEMP_CRIT" self.0 (code_of on) }
    {
        IRQ_STATUS1::from(with_flag(self.0, 3, on))
    }

    pub fn STA_SEQ_FAULT(self) -> bool
        ensures { result ≡ is_at (parts_of "IRQ_STATUS1") "STA_SEQ_FAULT" self.0 }
    {
        flag(self.0, 4)
    }

    pub fn with_STA_SEQ_FAULT(self, on: bool) -> Self
        ensures { result.0 ≡ with_at (parts_of "IRQ_STATUS1") "STA_SEQ_FAULT" self.0 (code_of on) }
    {
        IRQ_STATUS1::from(with_flag(self.0, 4, on))
    }

    pub fn STA_WARNING(self) -> bool
        ensures { result ≡ is_at (parts_of "IRQ_STATUS1") "STA_WARNING" self.0 }
    {
        flag(self.0, 5)
    }

    pub fn with_STA_WARNING(self, on: bool) -> Self
        ensures { result.0 ≡ with_at (parts_of "IRQ_STATUS1") "STA_WARNING" self.0 (code_of on) }
    {
        IRQ_STATUS1::from(with_flag(self.0, 5, on))
    }

    pub fn STA_ACTUATOR(self) -> bool
        ensures { result ≡ is_at (parts_of "IRQ_STATUS1") "STA_ACTUATOR" self.0 }
    {
        flag(self.0, 6)
    }

    pub fn with_STA_ACTUATOR(self, on: bool) -> Self
        ensures { result.0 ≡ with_at (parts_of "IRQ_STATUS1") "STA_ACTUATOR" self.0 (code_of on) }
    {
        IRQ_STATUS1::from(with_flag(self.0, 6, on))
    }

    pub fn STA_OC(self) -> bool
        ensures { result ≡ is_at (parts_of "IRQ_STATUS1") "STA_OC" self.0 }
    {
        flag(self.0, 7)
    }

    pub fn with_STA_OC(self, on: bool) -> Self
        ensures { result.0 ≡ with_at (parts_of "IRQ_STATUS1") "STA_OC" self.0 (code_of on) }
    {
        IRQ_STATUS1::from(with_flag(self.0, 7, on))
    }
}

// IRQ Mask 1 register (0x07).
pub type IRQ_MASK1 = Byte<0x07>;

impl IRQ_MASK1 {
    pub fn SEQ_CONTINUE_M(self) -> bool
        ensures { result ≡ is_at (parts_of "IRQ_MASK1") "SEQ_CONTINUE_M" self.0 }
    {
        flag(self.0, 0)
    }

    pub fn with_SEQ_CONTINUE_M(self, on: bool) -> Self
        ensures { result.0 ≡ with_at (parts_of "IRQ_MASK1") "SEQ_CONTINUE_M" self.0 (code_of on) }
    {
        IRQ_MASK1::from(with_flag(self.0, 0, on))
    }

    pub fn E_UVLO_M(self) -> bool
        ensures { result ≡ is_at (parts_of "IRQ_MASK1") "E_UVLO_M" self.0 }
    {
        flag(self.0, 1)
    }

    pub fn with_E_UVLO_M(self, on: bool) -> Self
        ensures { result.0 ≡ with_at (parts_of "IRQ_MASK1") "E_UVLO_M" self.0 (code_of on) }
    {
        IRQ_MASK1::from(with_flag(self.0, 1, on))
    }

    pub fn SEQ_DONE_M(self) -> bool
        ensures { result ≡ is_at (parts_of "IRQ_MASK1") "SEQ_DONE_M" self.0 }
    {
        flag(self.0, 2)
    }

    pub fn with_SEQ_DONE_M(self, on: bool) -> Self
        ensures { result.0 ≡ with_at (parts_of "IRQ_MASK1") "SEQ_DONE_M" self.0 (code_of on) }
    {
        IRQ_MASK1::from(with_flag(self.0, 2, on))
    }

    pub fn OVERTEMP_CRIT_M(self) -> bool
        ensures { result ≡ is_at (parts_of "IRQ_MASK1") "OVERTEMP_CRIT_M" self.0 }
    {
        flag(self.0, 3)
    }

    pub fn with_OVERTEMP_CRIT_M(self, on: bool) -> Self
        ensures { result.0 ≡ with_at (parts_of "IRQ_MASK1") "OVERTEMP_CRIT_M" self.0 (code_of on) }
    {
        IRQ_MASK1::from(with_flag(self.0, 3, on))
    }

    pub fn SEQ_FAULT_M(self) -> bool
        ensures { result ≡ is_at (parts_of "IRQ_MASK1") "SEQ_FAULT_M" self.0 }
    {
        flag(self.0, 4)
    }

    pub fn with_SEQ_FAULT_M(self, on: bool) -> Self
        ensures { result.0 ≡ with_at (parts_of "IRQ_MASK1") "SEQ_FAULT_M" self.0 (code_of on) }
    {
        IRQ_MASK1::from(with_flag(self.0, 4, on))
    }

    pub fn WARNING_M(self) -> bool
        ensures { result ≡ is_at (parts_of "IRQ_MASK1") "WARNING_M" self.0 }
    {
        flag(self.0, 5)
    }

    pub fn with_WARNING_M(self, on: bool) -> Self
        ensures { result.0 ≡ with_at (parts_of "IRQ_MASK1") "WARNING_M" self.0 (code_of on) }
    {
        IRQ_MASK1::from(with_flag(self.0, 5, on))
    }

    pub fn ACTUATOR_M(self) -> bool
        ensures { result ≡ is_at (parts_of "IRQ_MASK1") "ACTUATOR_M" self.0 }
    {
        flag(self.0, 6)
    }

    pub fn with_ACTUATOR_M(self, on: bool) -> Self
        ensures { result.0 ≡ with_at (parts_of "IRQ_MASK1") "ACTUATOR_M" self.0 (code_of on) }
    {
        IRQ_MASK1::from(with_flag(self.0, 6, on))
    }

    pub fn OC_M(self) -> bool
        ensures { result ≡ is_at (parts_of "IRQ_MASK1") "OC_M" self.0 }
    {
        flag(self.0, 7)
    }

    pub fn with_OC_M(self, on: bool) -> Self
        ensures { result.0 ≡ with_at (parts_of "IRQ_MASK1") "OC_M" self.0 (code_of on) }
    {
        IRQ_MASK1::from(with_flag(self.0, 7, on))
    }
}

// What each named field reads when its register holds `byte`, registers and fields in the written order; a flag reads 0 or 1.
#[tactic(auto, using(field::proofs::Methods::flag_code))]
pub fn fields(byte: u8) -> [u8; 33]
    ensures { result ≡ readings interrupts byte }
{
    let chip_rev = CHIP_REV::from(byte);
    let irq_event1 = IRQ_EVENT1::from(byte);
    let irq_event_warning_diag = IRQ_EVENT_WARNING_DIAG::from(byte);
    let irq_event_seq_diag = IRQ_EVENT_SEQ_DIAG::from(byte);
    let irq_status1 = IRQ_STATUS1::from(byte);
    let irq_mask1 = IRQ_MASK1::from(byte);
    [
        chip_rev.CHIP_REV_MAJOR(),
        chip_rev.CHIP_REV_MINOR(),
        irq_event1.E_SEQ_CONTINUE() as u8,
        irq_event1.E_UVLO() as u8,
        irq_event1.E_SEQ_DONE() as u8,
        irq_event1.E_OVERTEMP_CRIT() as u8,
        irq_event1.E_SEQ_FAULT() as u8,
        irq_event1.E_WARNING() as u8,
        irq_event1.E_ACTUATOR_FAULT() as u8,
        irq_event1.E_OC_FAULT() as u8,
        irq_event_warning_diag.E_OVERTEMP_WARN() as u8,
        irq_event_warning_diag.E_MEM_TYPE() as u8,
        irq_event_warning_diag.E_LIM_DRIVE_ACC() as u8,
        irq_event_warning_diag.E_LIM_DRIVE() as u8,
        irq_event_seq_diag.E_PWM_FAULT() as u8,
        irq_event_seq_diag.E_MEM_FAULT() as u8,
        irq_event_seq_diag.E_SEQ_ID_FAULT() as u8,
        irq_status1.STA_SEQ_CONTINUE() as u8,
        irq_status1.STA_UVLO_VBAT_OK() as u8,
        irq_status1.STA_SEQ_DONE() as u8,
        irq_status1.STA_OVERTEMP_CRIT() as u8,
        irq_status1.STA_SEQ_FAULT() as u8,
        irq_status1.STA_WARNING() as u8,
        irq_status1.STA_ACTUATOR() as u8,
        irq_status1.STA_OC() as u8,
        irq_mask1.SEQ_CONTINUE_M() as u8,
        irq_mask1.E_UVLO_M() as u8,
        irq_mask1.SEQ_DONE_M() as u8,
        irq_mask1.OVERTEMP_CRIT_M() as u8,
        irq_mask1.SEQ_FAULT_M() as u8,
        irq_mask1.WARNING_M() as u8,
        irq_mask1.ACTUATOR_M() as u8,
        irq_mask1.OC_M() as u8,
    ]
}

// For each field that is not read-only, in the same order, what its register holds once the field is replaced by `value` in
// `byte`; a flag is set where `value` is odd.
#[tactic(auto, using(field::proofs::Methods::odd))]
pub fn replaced(byte: u8, value: u8) -> [u8; 31]
    ensures { result ≡ replacements read_only interrupts byte value }
{
    let on = flag(value, 0);
    let irq_event1 = IRQ_EVENT1::from(byte);
    let irq_event_warning_diag = IRQ_EVENT_WARNING_DIAG::from(byte);
    let irq_event_seq_diag = IRQ_EVENT_SEQ_DIAG::from(byte);
    let irq_status1 = IRQ_STATUS1::from(byte);
    let irq_mask1 = IRQ_MASK1::from(byte);
    [
        irq_event1.with_E_SEQ_CONTINUE(on).0,
        irq_event1.with_E_UVLO(on).0,
        irq_event1.with_E_SEQ_DONE(on).0,
        irq_event1.with_E_OVERTEMP_CRIT(on).0,
        irq_event1.with_E_SEQ_FAULT(on).0,
        irq_event1.with_E_WARNING(on).0,
        irq_event1.with_E_ACTUATOR_FAULT(on).0,
        irq_event1.with_E_OC_FAULT(on).0,
        irq_event_warning_diag.with_E_OVERTEMP_WARN(on).0,
        irq_event_warning_diag.with_E_MEM_TYPE(on).0,
        irq_event_warning_diag.with_E_LIM_DRIVE_ACC(on).0,
        irq_event_warning_diag.with_E_LIM_DRIVE(on).0,
        irq_event_seq_diag.with_E_PWM_FAULT(on).0,
        irq_event_seq_diag.with_E_MEM_FAULT(on).0,
        irq_event_seq_diag.with_E_SEQ_ID_FAULT(on).0,
        irq_status1.with_STA_SEQ_CONTINUE(on).0,
        irq_status1.with_STA_UVLO_VBAT_OK(on).0,
        irq_status1.with_STA_SEQ_DONE(on).0,
        irq_status1.with_STA_OVERTEMP_CRIT(on).0,
        irq_status1.with_STA_SEQ_FAULT(on).0,
        irq_status1.with_STA_WARNING(on).0,
        irq_status1.with_STA_ACTUATOR(on).0,
        irq_status1.with_STA_OC(on).0,
        irq_mask1.with_SEQ_CONTINUE_M(on).0,
        irq_mask1.with_E_UVLO_M(on).0,
        irq_mask1.with_SEQ_DONE_M(on).0,
        irq_mask1.with_OVERTEMP_CRIT_M(on).0,
        irq_mask1.with_SEQ_FAULT_M(on).0,
        irq_mask1.with_WARNING_M(on).0,
        irq_mask1.with_ACTUATOR_M(on).0,
        irq_mask1.with_OC_M(on).0,
    ]
}
