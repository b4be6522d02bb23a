// The register addresses of the DA728x: `Register` of registers.rs, document 01, "Settings to registers". Each address is a
// constant of the type, and only this crate makes a `Register`.
//
// Proved: `address` is the register's address, `all` lists the addresses of specs/Table.antt, and each constant of `NAMED` has the
// address that the table lists under the name beside it. Nothing is left out.
#![tactic(auto)]

ghost use Rattle.std.specs.Prelude.{◌≡◌, true, map};
ghost use Rattle.std.specs.List.{list_all};
ghost use Rattle.registers.specs.Table.{registers, addresses, lists};

// A register, by its address.
// Constants and no enum, as document 01 has it ("constants of that type"); the contracts above read the address as `.0`.
#[derive(Debug, Clone, Copy, PartialEq, Eq)]
pub struct Register(u8);

impl Register {
    pub const CHIP_REV: Register = Register(0x00);

    pub const IRQ_EVENT1: Register = Register(0x03);

    pub const IRQ_EVENT_WARNING_DIAG: Register = Register(0x04);

    pub const IRQ_EVENT_SEQ_DIAG: Register = Register(0x05);

    pub const IRQ_STATUS1: Register = Register(0x06);

    pub const IRQ_MASK1: Register = Register(0x07);

    pub const FRQ_LRA_PER_H: Register = Register(0x0A);

    pub const FRQ_LRA_PER_L: Register = Register(0x0B);

    pub const ACTUATOR1: Register = Register(0x0C);

    pub const ACTUATOR2: Register = Register(0x0D);

    pub const ACTUATOR3: Register = Register(0x0E);

    pub const CALIB_V2I_H: Register = Register(0x0F);

    pub const CALIB_V2I_L: Register = Register(0x10);

    pub const TOP_CFG1: Register = Register(0x13);

    pub const TOP_CFG2: Register = Register(0x14);

    pub const TOP_CFG4: Register = Register(0x16);

    pub const TOP_INT_CFG1: Register = Register(0x17);

    pub const TOP_INT_CFG6_H: Register = Register(0x1C);

    pub const TOP_INT_CFG6_L: Register = Register(0x1D);

    pub const TOP_INT_CFG7_H: Register = Register(0x1E);

    pub const TOP_INT_CFG7_L: Register = Register(0x1F);

    pub const TOP_INT_CFG8: Register = Register(0x20);

    pub const TOP_CTL1: Register = Register(0x22);

    pub const TOP_CTL2: Register = Register(0x23);

    pub const SEQ_CTL1: Register = Register(0x24);

    pub const SWG_C1: Register = Register(0x25);

    pub const SWG_C2: Register = Register(0x26);

    pub const SWG_C3: Register = Register(0x27);

    pub const SEQ_CTL2: Register = Register(0x28);

    pub const GPI_0_CTL: Register = Register(0x29);

    pub const GPI_1_CTL: Register = Register(0x2A);

    pub const GPI_2_CTL: Register = Register(0x2B);

    pub const MEM_CTL1: Register = Register(0x2C);

    pub const MEM_CTL2: Register = Register(0x2D);

    pub const POLARITY: Register = Register(0x43);

    pub const FRQ_PHASE_H: Register = Register(0x48);

    pub const FRQ_PHASE_L: Register = Register(0x49);

    pub const TRIM4: Register = Register(0x60);

    pub const TOP_CFG5: Register = Register(0x6E);

    pub const IRQ_MASK2: Register = Register(0x83);

    pub const SNP_MEM_0: Register = Register(0x84);

    pub const SNP_MEM_99: Register = Register(0xE7);

    // The register's address.
    pub fn address(self) -> u8
        ensures { result ≡ self.0 }
    {
        self.0
    }

    // The address of every register, in the written order.
    pub fn all() -> [u8; 42]
        ensures { result ≡ addresses }
    {
        // by `map` of the array it proved too, and took 3 KB of stack in place of 48 bytes
        let mut all = [0; 42];
        for (i, (_, register)) in named().iter().enumerate() {
            all[i] = register.0;
        }
        all
    }
}

// Each constant beside its name, in the written order.
pub const NAMED: [(&str, Register); 42] = [
    ("CHIP_REV", Register::CHIP_REV),
    ("IRQ_EVENT1", Register::IRQ_EVENT1),
    ("IRQ_EVENT_WARNING_DIAG", Register::IRQ_EVENT_WARNING_DIAG),
    ("IRQ_EVENT_SEQ_DIAG", Register::IRQ_EVENT_SEQ_DIAG),
    ("IRQ_STATUS1", Register::IRQ_STATUS1),
    ("IRQ_MASK1", Register::IRQ_MASK1),
    ("FRQ_LRA_PER_H", Register::FRQ_LRA_PER_H),
    ("FRQ_LRA_PER_L", Register::FRQ_LRA_PER_L),
    ("ACTUATOR1", Register::ACTUATOR1),
    ("ACTUATOR2", Register::ACTUATOR2),
    ("ACTUATOR3", Register::ACTUATOR3),
    ("CALIB_V2I_H", Register::CALIB_V2I_H),
    ("CALIB_V2I_L", Register::CALIB_V2I_L),
    ("TOP_CFG1", Register::TOP_CFG1),
    ("TOP_CFG2", Register::TOP_CFG2),
    ("TOP_CFG4", Register::TOP_CFG4),
    ("TOP_INT_CFG1", Register::TOP_INT_CFG1),
    ("TOP_INT_CFG6_H", Register::TOP_INT_CFG6_H),
    ("TOP_INT_CFG6_L", Register::TOP_INT_CFG6_L),
    ("TOP_INT_CFG7_H", Register::TOP_INT_CFG7_H),
    ("TOP_INT_CFG7_L", Register::TOP_INT_CFG7_L),
    ("TOP_INT_CFG8", Register::TOP_INT_CFG8),
    ("TOP_CTL1", Register::TOP_CTL1),
    ("TOP_CTL2", Register::TOP_CTL2),
    ("SEQ_CTL1", Register::SEQ_CTL1),
    ("SWG_C1", Register::SWG_C1),
    ("SWG_C2", Register::SWG_C2),
    ("SWG_C3", Register::SWG_C3),
    ("SEQ_CTL2", Register::SEQ_CTL2),
    ("GPI_0_CTL", Register::GPI_0_CTL),
    ("GPI_1_CTL", Register::GPI_1_CTL),
    ("GPI_2_CTL", Register::GPI_2_CTL),
    ("MEM_CTL1", Register::MEM_CTL1),
    ("MEM_CTL2", Register::MEM_CTL2),
    ("POLARITY", Register::POLARITY),
    ("FRQ_PHASE_H", Register::FRQ_PHASE_H),
    ("FRQ_PHASE_L", Register::FRQ_PHASE_L),
    ("TRIM4", Register::TRIM4),
    ("TOP_CFG5", Register::TOP_CFG5),
    ("IRQ_MASK2", Register::IRQ_MASK2),
    ("SNP_MEM_0", Register::SNP_MEM_0),
    ("SNP_MEM_99", Register::SNP_MEM_99),
];

// The table has the constants' addresses in this order, each under the name beside the constant.
fn named() -> &'static [(&'static str, Register); 42]
    ensures order { map (λ p. p.1.0) result.now ≡ addresses }
    ensures names { list_all (λ p. lists registers p.0.now p.1.0) result.now ≡ true }
{
    &NAMED
}
