// A line of hexadecimal fields to bytes.
ghost use Rattle.std.specs.Prelude.{◌≡◌, vec_len, length, IsOk, IfOk};
ghost use Rattle.vectors_bytes.specs.Lines.{parts};

use std::alloc::{AllocError, AllocFailed, Global};

/// Why a line was not read.
#[derive(Clone, Copy, Debug, PartialEq, Eq)]
pub enum ReadError {
    NotHexadecimal,
    OutOfMemory,
}

impl From<AllocError> for ReadError {
    fn from(_e: AllocError) -> ReadError {
        ReadError::OutOfMemory
    }
}

impl<T: Drop> From<AllocFailed<T>> for ReadError {
    fn from(_e: AllocFailed<T>) -> ReadError {
        ReadError::OutOfMemory
    }
}

/// The fields of a line: their bytes, one field behind the other, and where each ends. It is read into for one line after the other, so that
/// most lines take no memory.
#[derive(Drop)]
pub struct Fields {
    bytes: Vec<u8>,
    ends: Vec<usize>,
}

impl Fields {
    pub fn new(alloc: Global) -> Fields {
        Fields {
            bytes: Vec::new(alloc),
            ends: Vec::new(alloc),
        }
    }

    /// Reads a line's fields, which blanks part, in place of those before. After an error it has the fields that stand before the faulty one.
    pub fn read(&mut self, line: &[u8]) -> Result<(), ReadError>
        ensures { IsOk result → vec_len self.new.ends ≡ length (parts line.now) }
    {
        self.bytes.clear();
        self.ends.clear();
        for text in line.split(|c| *c == b' ') {
            read_field(text, &mut self.bytes)?;
            self.ends.push(self.bytes.len())?;
        }
        Ok(())
    }

    pub fn len(&self) -> usize
        ensures { result ≡ vec_len self.now.ends }
    {
        self.ends.len()
    }

    /// The k-th field, from 0; no bytes where there is none.
    pub fn get(&self, k: usize) -> &[u8] {
        let start = match k.checked_sub(1) {
            None => 0,
            Some(before) => self.end(before),
        };
        self.bytes.get(start..self.end(k)).unwrap_or(&[])
    }

    fn end(&self, k: usize) -> usize {
        self.ends.get(k).copied().unwrap_or(0)
    }
}

/// The fields of one line, each by itself: as many as blanks part, or none after an error.
pub fn read(alloc: Global, line: &[u8]) -> Result<Vec<Vec<u8>>, ReadError>
    ensures { IfOk result (λ fields. vec_len fields ≡ length (parts line.now)) }
{
    let mut fields = Fields::new(alloc);
    fields.read(line)?;
    let mut copies = Vec::new(alloc);
    for k in 0..fields.len() {
        copies.push(fields.get(k).to_vec(alloc)?)?;
    }
    Ok(copies)
}

/// Puts the bytes of a field behind the others, two digits each; a `-` is passed over, so that `-` alone is a field of none.
fn read_field(text: &[u8], bytes: &mut Vec<u8>) -> Result<(), ReadError> {
    let mut upper = None;
    for c in text.iter().filter(|c| **c != b'-') {
        let digit = digit(*c)?;
        upper = match upper {
            None => Some(digit),
            Some(upper) => {
                bytes.push((upper << 4) | digit)?;
                None
            }
        };
    }
    match upper {
        None => Ok(()),
        Some(_) => Err(ReadError::NotHexadecimal),
    }
}

fn digit(c: u8) -> Result<u8, ReadError> {
    match c {
        b'0'..=b'9' => Ok(c - b'0'),
        b'A'..=b'F' => Ok(c - b'A' + 10),
        _ => Err(ReadError::NotHexadecimal),
    }
}
