// What a case calls, by the number that the sample gives it.
use vectors_bytes::UnknownKind;

/// The exported functions that drive no chip. `Reads` stands for `read_counts`, `read_point` and `read_frame`.
#[derive(Clone, Copy, Debug, PartialEq, Eq)]
pub enum Kind {
    Point,
    PointIsRamp,
    PointTimebases,
    PointAmplitude,
    Snippet,
    Frame,
    Sequence,
    CurrentLen,
    Assemble,
    Reads,
    RegisterAddresses,
    ReadInterrupts,
    ReadActuator,
    ReadControl,
    ReadTrigger,
    ReplaceInterrupts,
    ReplaceActuator,
    ReplaceControl,
    ReplaceTrigger,
    Answers,
    AssembleStrict,
    ReadLists,
    VoltageSettings,
    CurrentSettings,
    FrequencySettings,
    Page,
    Merge,
}

impl Kind {
    /// Whether a case of this kind is also run by value (`vectors_values`), besides `Reads`.
    pub fn has_values(self) -> bool {
        match self {
            Kind::Answers | Kind::Assemble | Kind::AssembleStrict => true,
            _ => false,
        }
    }
}

impl TryFrom<u8> for Kind {
    type Error = UnknownKind;

    fn try_from(number: u8) -> Result<Kind, UnknownKind> {
        match number {
            1 => Ok(Kind::Point),
            2 => Ok(Kind::PointIsRamp),
            3 => Ok(Kind::PointTimebases),
            4 => Ok(Kind::PointAmplitude),
            5 => Ok(Kind::Snippet),
            6 => Ok(Kind::Frame),
            7 => Ok(Kind::Sequence),
            8 => Ok(Kind::CurrentLen),
            9 => Ok(Kind::Assemble),
            10 => Ok(Kind::Reads),
            11 => Ok(Kind::RegisterAddresses),
            12 => Ok(Kind::ReadInterrupts),
            13 => Ok(Kind::ReadActuator),
            14 => Ok(Kind::ReadControl),
            15 => Ok(Kind::ReadTrigger),
            16 => Ok(Kind::ReplaceInterrupts),
            17 => Ok(Kind::ReplaceActuator),
            18 => Ok(Kind::ReplaceControl),
            19 => Ok(Kind::ReplaceTrigger),
            20 => Ok(Kind::Answers),
            21 => Ok(Kind::AssembleStrict),
            22 => Ok(Kind::ReadLists),
            23 => Ok(Kind::VoltageSettings),
            24 => Ok(Kind::CurrentSettings),
            25 => Ok(Kind::FrequencySettings),
            26 => Ok(Kind::Page),
            27 => Ok(Kind::Merge),
            _ => Err(UnknownKind(number)),
        }
    }
}
