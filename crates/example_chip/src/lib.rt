// A simulated chip, its waveform memory the proved one, and a session run on it. Each exchange is printed with the count that the session tells.
// Proved: every function returns.
#![tactic(auto)]

mod device;

use da728x::DA728x;
pub use device::Device;
use errors::Error;
use exchange::{Exchange, Reply, SESSION_SIZE, Turn};
use show::{Bytes, Column, Refusal, RegisterName};
use std::io;

// The most exchanges that a session makes: 25 steps and 100 reads of memory.
const MOST: u8 = 125;

// The code of the simulated bus for its failure.
const NO_ACKNOWLEDGE: u8 = 3;

/// The exchange at which the bus fails, by its index, and how many of its bytes reach the chip, the register's among them.
#[derive(Clone, Copy, Debug)]
pub struct Failure {
    pub exchange: u8,
    pub bytes: usize,
}

/// A chip, its driver's record, and the session that is run on it.
#[derive(Clone, Copy, Debug)]
pub struct Bench {
    pub device: Device,
    pub record: DA728x,
    pub session: [u8; SESSION_SIZE],
    pub fails: Option<Failure>,
}

impl Bench {
    /// A chip at this address that has been reset, with a record that no operation has made.
    pub fn new(address: u8, record: DA728x) -> Bench {
        Bench {
            device: Device::reset(address),
            record,
            session: [0; SESSION_SIZE],
            fails: None,
        }
    }

    /// Runs what was begun in the session to its end, or tells that it was refused.
    pub fn run(&mut self, rt: &impl Print, begun: Result<(), Error>) -> io::Result<()> {
        if let Err(e) = begun {
            return println!(rt; "  refused with {}", Refusal(e));
        }
        // Not `while`: an answer that does not fit leaves the session as it was, and nothing here shows that the chip's fit.
        for _ in 0..MOST {
            let Some(e) = exchange::pending(&self.session) else {
                break;
            };
            self.step(rt, &e)?;
        }
        let made = exchange::made(&self.session);
        let end = if exchange::is_completed(&self.session) {
            "completed"
        } else {
            "broken off"
        };
        println!(rt; "  exchanges made: {made}, {end}")
    }

    /// Tells how much of an image the chip's memory holds, from its first byte on, and its lock.
    pub fn tell_memory(&self, rt: &impl Print, name: &str, image: &[u8]) -> io::Result<()> {
        let memory = self.device.memory();
        let held = memory
            .bytes
            .iter()
            .zip(image)
            .take_while(|(a, b)| a == b)
            .count();
        let len = image.len();
        let lock = if memory.unlocked {
            "unlocked"
        } else {
            "locked"
        };
        println!(rt; "  the chip's memory holds {held} of {len} bytes of {name}, {lock}")?;
        println!(rt; "  its first 16 bytes:{}", Bytes(&memory.bytes[..16]))
    }

    // One exchange; the answer goes back with the record.
    fn step(&mut self, rt: &impl Print, e: &Exchange) -> io::Result<()> {
        let reply = self.transfer(e);
        let mut unread = [0u8; 1];
        let turn = driver::answer(&mut self.record, &mut self.session, reply, &mut unread);
        tell(rt, e, reply, turn)
    }

    fn transfer(&mut self, e: &Exchange) -> Reply {
        match self.fails {
            Some(failure) if failure.exchange == exchange::made(&self.session) => {
                self.device.reach(e, failure.bytes);
                Reply::Failed(NO_ACKNOWLEDGE)
            }
            _ => self.device.transfer(e),
        }
    }
}

// ---- what is printed of an exchange

fn tell(rt: &impl Print, e: &Exchange, reply: Reply, turn: Turn) -> io::Result<()> {
    let Some((register, sent)) = e.sent().split_first() else {
        return Ok(());
    };
    let made = turn.made;
    let register = RegisterName(*register);
    print!(rt; "   {made:2}")?;
    match reply {
        Reply::Byte(x) => print!(rt; "  read   {register}{}", Bytes(&[x]))?,
        Reply::Done | Reply::Failed(_) => print!(rt; "  write  {register}{}", Column(sent))?,
    }
    if let Err(e) = turn.answer {
        let code = e.bus_code();
        print!(rt; "  ends with {}, the bus's code {code}", Refusal(e))?;
    }
    println!(rt)
}
