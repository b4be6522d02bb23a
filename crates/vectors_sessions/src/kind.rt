// What a case begins, by the number that the sample gives it.
use vectors_bytes::UnknownKind;

/// The exported functions that begin a session.
#[derive(Clone, Copy, Debug, PartialEq, Eq)]
pub enum Kind {
    New,
    Configure,
    GetChipRev,
    GetEvents,
    GetStatus,
    SetFrequency,
    SetOverrideValue,
    SetTimebase,
    Enable,
    Disable,
    SetCustomDriveWaveform,
    UnlockWaveformMemory,
    LockWaveformMemory,
    UploadWaveformMemory,
    ReadWaveformMemory,
    SelectSequence,
    StartSequence,
    PlaySequence,
}

impl TryFrom<u8> for Kind {
    type Error = UnknownKind;

    fn try_from(number: u8) -> Result<Kind, UnknownKind> {
        match number {
            0x20 => Ok(Kind::New),
            0x21 => Ok(Kind::Configure),
            0x22 => Ok(Kind::GetChipRev),
            0x23 => Ok(Kind::GetEvents),
            0x24 => Ok(Kind::GetStatus),
            0x25 => Ok(Kind::SetFrequency),
            0x26 => Ok(Kind::SetOverrideValue),
            0x27 => Ok(Kind::SetTimebase),
            0x28 => Ok(Kind::Enable),
            0x29 => Ok(Kind::Disable),
            0x2A => Ok(Kind::SetCustomDriveWaveform),
            0x2B => Ok(Kind::UnlockWaveformMemory),
            0x2C => Ok(Kind::LockWaveformMemory),
            0x2D => Ok(Kind::UploadWaveformMemory),
            0x2E => Ok(Kind::ReadWaveformMemory),
            0x2F => Ok(Kind::SelectSequence),
            0x30 => Ok(Kind::StartSequence),
            0x31 => Ok(Kind::PlaySequence),
            _ => Err(UnknownKind(number)),
        }
    }
}
