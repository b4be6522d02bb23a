// The simulated chip: its waveform memory and the lock are the proved `Chip`, and below that memory lie its other registers.
use chip::{Chip, MEMORY_SIZE};
use exchange::{Exchange, Reply};
use registers::Register;

// Where the waveform memory begins.
const MEMORY: usize = 0x84;

#[derive(Clone, Copy, Debug)]
pub struct Device {
    memory: Chip,
    registers: [u8; MEMORY],
}

impl Device {
    /// At this address, the memory locked: CHIP_REV, and bits of two registers that `configure` leaves as they are.
    pub fn reset(address: u8) -> Device {
        let memory = Chip {
            address,
            bytes: [0; MEMORY_SIZE],
            unlocked: false,
        };
        let mut device = Device {
            memory,
            registers: [0; MEMORY],
        };
        device.store(Register::CHIP_REV.address(), &[0xBA]);
        device.store(Register::TOP_CFG2.address(), &[0x05]);
        device.store(Register::TOP_INT_CFG8.address(), &[0x50]);
        device
    }

    /// What the chip answers: a write stores its bytes from the register on, a read gives the register's byte.
    pub fn transfer(&mut self, e: &Exchange) -> Reply {
        self.reach(e, usize::from(e.len));
        match e.sent().first() {
            Some(register) if 0 < e.wanted => Reply::Byte(self.read(*register)),
            _ => Reply::Done,
        }
    }

    /// An exchange of which the first bytes alone reach the chip, so many with the register's.
    pub fn reach(&mut self, e: &Exchange, bytes: usize) {
        self.memory.transfer(e, bytes);
        let sent = e.sent();
        if let Some((register, rest)) = sent[..bytes.min(sent.len())].split_first() {
            self.store(*register, rest);
        }
    }

    // Stores bytes from a register on, as many as there are registers for.
    fn store(&mut self, register: u8, bytes: &[u8]) {
        laws::copy_at(&mut self.registers, usize::from(register), bytes);
    }

    fn read(&self, register: u8) -> u8 {
        let register = usize::from(register);
        match register.checked_sub(MEMORY) {
            Some(i) => laws::byte_at(&self.memory.bytes, i),
            None => laws::byte_at(&self.registers, register),
        }
    }

    /// The waveform memory with its lock.
    pub fn memory(&self) -> &Chip {
        &self.memory
    }
}
