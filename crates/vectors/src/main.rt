// Replays the stored sample of the published Rust's answers, with the papers' values where docs/DIFFERENCES.md has them, which comes by
// standard input, on the functions exported for C, images also by Rattle's own types, uploads that are cut on the proved chip, and says
// of each kind how many cases agree. The sample's head says what it is; a case that does not agree, or is no case, is told by the number of its line.
// Proved: every function is safe and returns, whatever the input.
#![tactic(auto)]

mod cases;
mod tally;
#[cfg(test)]
mod tests;

use std::io;
use std::io::{BufRead, BufReader};
use tally::Tally;
use vectors_bytes::Fields;

// How many lines that do not agree are told.
const TOLD: u64 = 10;

// The longest line that is read: a longer one holds no heading and no case.
const LINE: usize = 8192;

// Where the reading stands: the number of the line, the kind that has begun, and all kinds.
#[derive(Clone, Copy)]
struct Replay {
    line: u64,
    kind: Option<Tally>,
    all: Tally,
}

fn main(rt: HostRuntime) -> io::Result<()> {
    run(&rt)
}

fn run(rt: &(impl Input + Print + AllocGlobal)) -> io::Result<()> {
    let mut replay = Replay {
        line: 0,
        kind: None,
        all: Tally::default(),
    };
    let mut fields = Fields::new(rt.alloc());
    for line in BufReader::new(rt.alloc(), rt.reader())?.split(rt.alloc(), b'\n') {
        let line = line?;
        replay.read(rt, &mut fields, &line)?;
    }
    replay.end_kind(rt)?;
    println!(rt; "all: {}", replay.all)
}

impl Replay {
    // A line: nothing, a heading or a case.
    fn read(&mut self, rt: &impl Print, fields: &mut Fields, line: &[u8]) -> io::Result<()> {
        self.line = self.line.saturating_add(1);
        match line {
            [] | [b'#', ..] => Ok(()),
            [b'=', _, heading @ ..] if line.len() <= LINE => self.begin_kind(rt, heading),
            [b'=', ..] => self.begin_kind(rt, b""),
            _ => {
                let agrees = line.len() <= LINE && cases::agrees(fields, line)?;
                self.judge(rt, agrees)
            }
        }
    }

    fn begin_kind(&mut self, rt: &impl Print, heading: &[u8]) -> io::Result<()> {
        self.end_kind(rt)?;
        self.kind = Some(Tally::default());
        rt.write_all(heading)?;
        print!(rt; ": ")
    }

    // Tells what became of the kind, if one has begun.
    fn end_kind(&self, rt: &impl Print) -> io::Result<()> {
        match self.kind {
            Some(kind) => println!(rt; "{kind}"),
            None => Ok(()),
        }
    }

    // Counts a case, and tells one of the first that do not agree.
    fn judge(&mut self, rt: &impl Print, agrees: bool) -> io::Result<()> {
        self.all.count(agrees);
        if let Some(kind) = &mut self.kind {
            kind.count(agrees);
        }
        if !agrees && self.all.missed() <= TOLD {
            let line = self.line;
            print!(rt; "line {line} does not agree, ")?;
        }
        Ok(())
    }
}
