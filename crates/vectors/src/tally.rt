// How many cases there were, and how many of them agree.
use std::fmt;

#[derive(Clone, Copy, Default)]
pub struct Tally {
    agree: u64,
    cases: u64,
}

impl Tally {
    /// One more case.
    pub fn count(&mut self, agrees: bool) {
        self.cases = self.cases.saturating_add(1);
        if agrees {
            self.agree = self.agree.saturating_add(1);
        }
    }

    /// How many do not agree.
    pub fn missed(&self) -> u64 {
        self.cases.saturating_sub(self.agree)
    }
}

impl fmt::Display for Tally {
    fn fmt<W: fmt::Write>(&self, f: &mut fmt::Formatter<W>) -> fmt::Result {
        write!(f, "{} of {} agree", self.agree, self.cases)
    }
}
