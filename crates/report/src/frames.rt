// The frame table, and how the walk ends.
use crate::capture::Capture;
use crate::refusal::{Refusal, Spot};
use failure::Failure;
use lookup::{Record, chunk_of, lookup_arch};
use mem::wrapping;
use personality::row_of;
use rows::{Action, Row};
use std::{fmt, io};
use unwind::walk::next_frame;
use unwind::{Frame, MAX_FRAMES};

// A walk gives at most 1,024 frames, and then ends or is refused.
pub const TURNS: usize = MAX_FRAMES + 1;

// A row of a frame, and the start of the frame's record, which pads count from.
#[derive(Clone, Copy, Debug, PartialEq, Eq)]
struct RowCell {
    start: usize,
    row: Result<Option<Row>, Failure>,
}

impl fmt::Display for RowCell {
    fn fmt<W: fmt::Write>(&self, f: &mut fmt::Formatter<W>) -> fmt::Result {
        match self.row {
            Ok(None) => write!(f, "none"),
            Ok(Some(Row { pad, action })) => {
                let at = wrapping::add(self.start, pad);
                match action {
                    Action::Cleanup => write!(f, "cleanup at {at:016x}"),
                    Action::Catch => write!(f, "catch at {at:016x}"),
                    Action::Terminate => write!(f, "terminate"),
                }
            }
            Err(failure) => write!(f, "{}", Refusal::from(failure)),
        }
    }
}

// Looked up is pc - 1, or pc for an interrupted frame. `unwind` has it for a pc above 0 alone, and for itself; here any pc is printed.
fn looked_up(frame: Frame) -> usize {
    let pc = frame.regs.pc();
    if frame.interrupted {
        pc
    } else {
        wrapping::sub(pc, 1)
    }
}

// A line of the frame table, with the record's chunk: its offset in the section, and its bytes.
fn frame_line(
    rt: &impl Print,
    c: &Capture<'_>,
    frame: Frame,
    record: Record,
    row: Result<Option<Row>, Failure>,
) -> io::Result<()> {
    let at = looked_up(frame);
    let chunk = match lookup_arch(&c.memory, at, c.arch) {
        Ok(Some(found)) => found.chunk.offset,
        _ => 0,
    };
    let bytes = chunk_of(&c.memory, at, c.arch).len();
    let number = frame.number;
    let start = record.start;
    let pc = frame.regs.pc();
    let sp = frame.regs.sp(c.arch).unwrap_or(0);
    let cell = RowCell { start, row };
    println!(rt; "{number:>5}  {chunk:>7} {bytes:>7}  {start:016x}  {pc:016x}  {sp:016x}  {cell}")
}

// The frame table, and how the walk ends. The first frame that is refused, for its step or its row, if there is one: a throw that is
// refused is refused there.
pub fn frames(rt: &impl Print, c: &Capture<'_>) -> io::Result<Option<Spot>> {
    println!(rt;
        "\nframe    chunk   bytes  record start      pc                sp                row"
    )?;
    let throw = c.throw;
    let mut frame = Frame {
        regs: throw.regs.set_pc(throw.pc),
        number: 0,
        interrupted: throw.interrupted,
    };
    let mut first = None;
    for _ in 0..TURNS {
        let spot = Spot {
            number: frame.number,
            pc: frame.regs.pc(),
        };
        let next = next_frame(&c.memory, c.arch, frame);
        match next.answer {
            Ok(Some(record)) => {
                let row = row_of(&c.memory, c.arch, frame.interrupted, record, spot.pc);
                frame_line(rt, c, frame, record, row)?;
                if row.is_err() {
                    first = first.or(Some(spot));
                }
                frame = next.frame;
            }
            Ok(None) => {
                println!(rt; "walk: ended")?;
                return Ok(first);
            }
            Err(failure) => {
                let spot = Some(spot);
                println!(rt; "walk: {}", Refusal { failure, spot })?;
                return Ok(first.or(spot));
            }
        }
    }
    Ok(first)
}
