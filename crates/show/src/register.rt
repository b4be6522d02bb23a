// A register's name.
use registers::{NAMED, Register};
use std::fmt;

/// The name of the register at an address, in a column of fourteen characters.
#[derive(Clone, Copy, Debug)]
pub struct RegisterName(pub u8);

impl fmt::Display for RegisterName {
    fn fmt<W: fmt::Write>(&self, f: &mut fmt::Formatter<W>) -> fmt::Result {
        let address = self.0;
        let memory = Register::SNP_MEM_0.address();
        match NAMED
            .iter()
            .find(|(_, register)| register.address() == address)
        {
            Some((name, _)) => write!(f, "{name:<14}"),
            None if memory <= address => write!(f, "SNP_MEM_{:<6}", address - memory),
            None => write!(f, "{:<14}", "no register"),
        }
    }
}
