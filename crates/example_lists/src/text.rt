// A point and a frame in words.
use frame::{FrameBuilder, FrameFields};
use snippet::PwlPoint;
use std::fmt;

#[derive(Clone, Copy, Debug)]
pub struct PointText(pub PwlPoint);

#[derive(Clone, Copy, Debug)]
pub struct FrameText(pub FrameBuilder);

impl fmt::Display for PointText {
    fn fmt<W: fmt::Write>(&self, f: &mut fmt::Formatter<W>) -> fmt::Result {
        let kind = if self.0.is_ramp() { "ramp" } else { "step" };
        let timebases = self.0.timebases();
        let amplitude = self.0.amplitude();
        write!(f, "{kind} {timebases} timebases to {amplitude}")
    }
}

impl fmt::Display for FrameText {
    fn fmt<W: fmt::Write>(&self, f: &mut fmt::Formatter<W>) -> fmt::Result {
        let fields = FrameFields::from(self.0);
        match fields.snippet_id {
            0 => write!(f, "silence")?,
            id => write!(f, "snippet {id}")?,
        }
        let gain = show::gain(fields.gain);
        let timebase = show::timebase(fields.timebase);
        write!(f, ", gain {gain}, {timebase}")?;
        if let Some(loop_count) = fields.loop_count {
            write!(f, ", loop count {loop_count}")?;
        }
        if let Some(frequency) = fields.frequency_hz {
            write!(f, ", {frequency} Hz")?;
        }
        Ok(())
    }
}
