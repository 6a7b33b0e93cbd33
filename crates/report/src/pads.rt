// The landing pads in the order in which they run.
use crate::capture::Capture;
use crate::frames::TURNS;
use crate::refusal::Refusal;
use arch::{AARCH64, Regs};
use model::Unwinding;
use std::io;
use unwind::ResumeAnswer;
use unwind::cleanup::resume;

// The registers that a callee preserves, by their DWARF numbers.
const PRESERVED_AARCH64: &[u16] = &[
    19, 20, 21, 22, 23, 24, 25, 26, 27, 28, 29, 30, 72, 73, 74, 75, 76, 77, 78, 79,
];

const PRESERVED_X86_64: &[u16] = &[3, 6, 12, 13, 14, 15];

fn preserved(arch: u8) -> &'static [u16] {
    if arch == AARCH64 {
        PRESERVED_AARCH64
    } else {
        PRESERVED_X86_64
    }
}

// The preserved registers and their values, four to a line.
fn register_cells(rt: &impl Print, arch: u8, regs: Regs) -> io::Result<()> {
    for line in preserved(arch).chunks(4) {
        print!(rt; "\n      ")?;
        for &reg in line {
            print!(rt; "{reg:>5} {:016x}", regs.get(arch, reg).unwrap_or(0))?;
        }
    }
    println!(rt)
}

// A landing: the line of its pad, and the preserved registers there.
fn pad_lines(rt: &impl Print, arch: u8, turn: usize, number: usize, regs: Regs) -> io::Result<()> {
    let pc = regs.pc();
    let sp = regs.sp(arch).unwrap_or(0);
    print!(rt; "{turn:>5}  {number:>5}  {pc:016x}  {sp:016x}")?;
    register_cells(rt, arch, regs)
}

// The table of the landing pads, and how it ends.
pub fn pads(rt: &impl Print, c: &Capture<'_>, first: Unwinding) -> io::Result<()> {
    println!(rt; "\n  pad  frame  pc                sp, and the preserved registers")?;
    let mut unwinding = first;
    for turn in 0..TURNS {
        let resumed = resume(&c.memory, c.arch, unwinding);
        match resumed.answer {
            Ok(ResumeAnswer::Install(number)) => pad_lines(rt, c.arch, turn, number, resumed.regs)?,
            Ok(ResumeAnswer::Finished) => return println!(rt; "landings: finished"),
            Ok(ResumeAnswer::Fatal) => return println!(rt; "landings: stopped by a terminate row"),
            Err(failure) => return println!(rt; "landings: {}", Refusal::from(failure)),
        }
        unwinding = resumed.unwinding;
    }
    Ok(())
}
