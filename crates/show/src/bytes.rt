// Bytes in hexadecimal.
use std::fmt;

/// Each byte after a blank.
#[derive(Clone, Copy, Debug)]
pub struct Bytes<'a>(pub &'a [u8]);

/// Lines of sixteen bytes, each with the index of its first.
#[derive(Clone, Copy, Debug)]
pub struct Image<'a>(pub &'a [u8]);

/// Bytes on a line that has its other columns, sixteen to a line.
#[derive(Clone, Copy, Debug)]
pub struct Column<'a>(pub &'a [u8]);

impl fmt::Display for Bytes<'_> {
    fn fmt<W: fmt::Write>(&self, f: &mut fmt::Formatter<W>) -> fmt::Result {
        for byte in self.0 {
            write!(f, " {byte:02X}")?;
        }
        Ok(())
    }
}

impl fmt::Display for Image<'_> {
    fn fmt<W: fmt::Write>(&self, f: &mut fmt::Formatter<W>) -> fmt::Result {
        for (start, line) in (0..self.0.len()).step_by(16).zip(self.0.chunks(16)) {
            write!(f, "\n    {start:02X} {}", Bytes(line))?;
        }
        writeln!(f)
    }
}

impl fmt::Display for Column<'_> {
    fn fmt<W: fmt::Write>(&self, f: &mut fmt::Formatter<W>) -> fmt::Result {
        for (i, line) in self.0.chunks(16).enumerate() {
            if 0 < i {
                write!(f, "\n{:28}", "")?;
            }
            write!(f, "{}", Bytes(line))?;
        }
        Ok(())
    }
}
