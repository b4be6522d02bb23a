// The refusals (errors.rs), each with document 01's number ('Who can cause which answer') or document 02's.
// The Rust's names; `Gpio` is left out, since no ported operation drives a pin; `NotAnImage`, `OutOfTurn` and those above 19 are added.
// `I2c` carries the bus's own failure code. Proved: `number` is the papers' list, `bus_code` that code (specs/Number.antt); `word` puts a value and a
// refusal into one number (specs/Packed.antt). Left out: the texts for printing, which is the user's side.
#![tactic(auto)]

ghost use Rattle.std.specs.Prelude.{◌≡◌};
ghost use Rattle.errors.specs.Number.{number_and_code, error_number, answer_number, bus_code, told};
ghost use Rattle.errors.specs.Packed.{packed};

#[derive(Debug, Clone, Copy, PartialEq, Eq)]
pub enum Error {
    I2c(u8),
    VariantMismatch,
    InvalidValue,
    NotSupported,
    NotConfigured,
    WrongMode,
    MissingTriggerConfigInEtwmMode,
    WaveformMemoryFull,
    TooManySnippets,
    TooManySequences,
    InvalidSnippetId,
    InvalidTimebase,
    InvalidAmplitude,
    InvalidFrequency,
    InvalidLoopCount,
    EmptySnippet,
    EmptySequence,
    NotAnImage,
    OutOfTurn,
    InvalidVoltage,
    InvalidCurrentOrImpedance,
    InvalidDriveFrequency,
    BufferTooShort,
    MissingSnippet,
    MissingSequence,
}

impl Error {
    // The bus's own code, or 0.
    pub fn bus_code(self) -> u8
        ensures { result ≡ (number_and_code self).1 }
    {
        match self {
            Error::I2c(code) => code,
            _ => 0,
        }
    }

    // A method and no `From`, as the one above: an error has two numbers, and a conversion does not say which.
    pub fn number(self) -> u8
        ensures { result ≡ error_number self }
    {
        match self {
            Error::InvalidTimebase => 1,
            Error::InvalidAmplitude => 2,
            Error::InvalidSnippetId => 3,
            Error::InvalidLoopCount => 4,
            Error::InvalidFrequency => 5,
            Error::TooManySnippets => 6,
            Error::TooManySequences => 7,
            Error::WaveformMemoryFull => 8,
            Error::EmptySnippet => 9,
            Error::EmptySequence => 10,
            Error::InvalidValue => 11,
            Error::WrongMode => 12,
            Error::MissingTriggerConfigInEtwmMode => 13,
            Error::NotSupported => 14,
            Error::NotConfigured => 15,
            Error::VariantMismatch => 16,
            Error::I2c(_) => 17,
            Error::NotAnImage => 18,
            Error::OutOfTurn => 19,
            Error::InvalidVoltage => 21,
            Error::InvalidCurrentOrImpedance => 22,
            Error::InvalidDriveFrequency => 23,
            Error::BufferTooShort => 24,
            Error::MissingSnippet => 25,
            Error::MissingSequence => 28,
        }
    }
}

// The number of what a call answers: the refusal's, or 0.
pub fn number<T: Copy>(answer: Result<T, Error>) -> u8
    ensures { result ≡ answer_number answer }
{
    match answer {
        Ok(_) => 0,
        Err(e) => e.number(),
    }
}

// The bus's own code in what a call answers, or 0.
pub fn bus_code<T: Copy>(answer: Result<T, Error>) -> u8
    ensures { result ≡ bus_code answer }
{
    match answer {
        Ok(_) => 0,
        Err(e) => e.bus_code(),
    }
}

// What a call answers as one number, as the functions exported for C give it: the value, or the number of the refusal above 16 bits.
pub fn word(answer: Result<u32, Error>) -> u32
    ensures { result ≡ packed 16 (told answer) }
{
    match answer {
        Ok(value) => value,
        Err(e) => u32::from(e.number()) << 16,
    }
}
