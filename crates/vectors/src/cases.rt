// A case: its fields, and by whom it is judged.
use std::alloc::AllocError;
use vectors_bytes::{Fields, ReadError};

/// Whether the case on a line, whose fields are read into those lent, agrees; a line that is no case does not.
pub fn agrees(fields: &mut Fields, line: &[u8]) -> Result<bool, AllocError> {
    match fields.read(line) {
        Ok(()) => Ok(
            vectors_functions::line_agrees(fields)
                || vectors_sessions::line_agrees(fields)
                || vectors_cuts::line_agrees(fields),
        ),
        Err(ReadError::NotHexadecimal) => Ok(false),
        Err(ReadError::OutOfMemory) => Err(AllocError),
    }
}
