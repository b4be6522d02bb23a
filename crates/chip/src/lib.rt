// The chip's waveform memory and its lock under uploads that are cut and repeated (document 02, CR 14).
// Proved: `transfer` stores what specs/Writes.antt says. specs/Repeated.antt: an upload by the driver's own sessions, run to its end, makes good whatever was
// cut before; specs/General.antt says when runs do so of which some do not unlock, as none of the driver's does.
#![tactic(auto)]

ghost use Rattle.std.specs.Prelude.{◌≡◌, ◌≤◌, length};
ghost use Rattle.chip.specs.Writes.{stored, stored_all, written, reached};

use exchange::Exchange;
use registers::Register;

pub const MEMORY_SIZE: usize = 100;

/// The chip's address on the bus, its memory, and whether that is unlocked.
#[derive(Debug, Clone, Copy, PartialEq, Eq)]
pub struct Chip {
    pub address: u8,
    pub bytes: [u8; MEMORY_SIZE],
    pub unlocked: bool,
}

impl Chip {
    /// What an exchange leaves of which the first `k` bytes reach the bus; the register is one of them.
    #[tactic(auto, unfolding(crate::specs::Writes::reached))]
    pub fn transfer(&mut self, e: &Exchange, k: usize)
        ensures { self.new ≡ reached k self.old e.now }
    {
        if e.address != self.address {
            return;
        }
        let sent = e.sent();
        if let Some((register, bytes)) = sent[..k.min(sent.len())].split_first() {
            self.write(*register, bytes);
        }
    }

    // Each byte at the register behind the one before.
    fn write(&mut self, register: u8, bytes: &[u8])
        requires { length bytes.now ≤ 33 }
        ensures { self.new ≡ stored_all self.old register bytes.now }
    {
        for (i, b) in bytes.iter().enumerate() {
            self.store(usize::from(register) + i, *b);
        }
    }

    #[tactic(auto, unfolding(crate::specs::Writes::stored))]
    fn store(&mut self, register: usize, b: u8)
        ensures { self.new ≡ stored self.old register b }
    {
        let first = usize::from(Register::SNP_MEM_0.address());
        if register == usize::from(Register::MEM_CTL2.address()) {
            self.unlocked = field::flag(b, 7);
        } else if register >= first && self.unlocked {
            laws::store(&mut self.bytes, register - first, b);
        }
    }
}
