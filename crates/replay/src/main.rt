// Replays the recorded answers of ps-unwind (oracle/README.md says how they were made and what a line holds) and compares
// them with ours. A case is a line of numbers; a list is a file of cases.
#![tactic(auto)]

use cases::check_case;
use line::Numbers;
use std::alloc::Global;
use std::fs::File;
use std::io::Read;
use std::rt::Files;
use std::{fmt, io};

mod cases;
mod chunk;
mod line;
mod operation;
mod same;

// A list is read in parts of so many bytes, and so many parts of it at most.
const PART: u64 = 65536;

const PARTS: usize = 256;

// What the replay of a list has come to: how many cases it has had, how many of them differ and which was the first, counted from 1.
#[derive(Clone, Copy, Default)]
struct Progress {
    cases: usize,
    different: usize,
    first: Option<usize>,
}

impl Progress {
    // One case more.
    fn count(&mut self, same: bool) {
        self.cases = self.cases.saturating_add(1);
        if !same {
            self.different = self.different.saturating_add(1);
            self.first = self.first.or(Some(self.cases));
        }
    }
}

impl fmt::Display for Progress {
    fn fmt<W: fmt::Write>(&self, f: &mut fmt::Formatter<W>) -> fmt::Result {
        let first = self.first.unwrap_or(0);
        write!(
            f,
            "{} cases, {} different, first {first}",
            self.cases, self.different
        )
    }
}

// Replays a list by its parts. A last line that does not end is no case.
fn replay_list(list: &mut impl Read, alloc: Global) -> io::Result<Progress> {
    let mut progress = Progress::default();
    let mut numbers = Numbers::new();
    let mut part = Vec::new(alloc);
    for _ in 0..PARTS {
        part.clear();
        if list.by_ref().take(PART).read_to_end(&mut part)? == 0 {
            break;
        }
        for &c in &part {
            if numbers.feed(c) {
                progress.count(check_case(&mut numbers.line(alloc))?);
            }
        }
    }
    Ok(progress)
}

// Replays a list by its file's name, and writes a line of what came of it.
fn replay<R: Files + Print + Eprint + AllocGlobal>(rt: &R, name: &str) -> io::Result<()> {
    let mut list = match File::open(rt, name) {
        Ok(list) => list,
        Err(e) => return eprintln!(rt; "{name}: {e}"),
    };
    let progress = replay_list(&mut list, rt.alloc())?;
    println!(rt; "{name}: {progress}")
}

fn main(rt: HostRuntime) -> io::Result<()> {
    for name in ["foundation", "lookup", "program", "frame", "rows"] {
        replay(&rt, name)?;
    }
    Ok(())
}
