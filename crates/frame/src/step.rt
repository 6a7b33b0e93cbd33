// The caller's registers from a version 1 frame word: ps-unwind's `step`.
// Where all its slots lie in the stack, they are read there without a test for each.
ghost use Rattle.std.specs.Prelude.{◌≡◌, List, ℕ, ◌≤◌, ◌<◌};
ghost use Rattle.failure.specs.Outcome.{Answer, outcome};
ghost use Rattle.mem.specs.Given.{lent_by};
ghost use Rattle.arch.specs.Arch as Arch;
ghost use Rattle.arch.specs.File as File;
ghost use Rattle.arch.specs.Answers.{InPlace};
ghost use Rattle.frame.specs.Apply as Apply;
ghost use Rattle.frame.specs.Frame as Frame;
ghost use Rattle.frame.specs.Step as Step;
ghost use Rattle.frame.specs.Public as Public;
ghost use Rattle.frame.specs.Answers.{Partly};
ghost use Rattle.frame.specs.Near.{HasSaved, Saves};

use crate::slots::{Anywhere, InStack, Slots};
use crate::{
    KIND_FP, deepest, frame_cfa, kind, mask, named_count, ra_column, ra_slot, require_accepted,
    return_to, saved_column, slot_of,
};
use arch::{COLUMNS, Next, Regs};
use failure::Failure;
use mem::Memory;

// The registers that the mask names, in mask-bit order: each read, then stored.
fn restore_named<S: Slots>(
    slots: &S,
    arch: u8,
    frame: u32,
    n: usize,
    file: &mut [usize; COLUMNS],
) -> Result<(), Failure>
    requires { HasSaved (S.within slots.now) (Arch.numbers arch) frame n }
    ensures { Partly
        (Apply.restore_pairs (Arch.numbers arch) (S.regions slots.now) (S.at slots.now)
        (Frame.saved_pairs (Arch.numbers arch) frame) file.old)
        result file.new }
{
    // the lowest bit that is left names the next register
    let mut rest = mask(frame);
    for k in 0..n {
        let bit = rest.trailing_zeros();
        rest -= 1 << bit;
        let column = saved_column(arch, bit as usize);
        file[column] = slots.load(slot_of(frame, n, k))?;
    }
    Ok(())
}

// The return address, from its slot or still in its register.
fn return_address<S: Slots>(slots: &S, arch: u8, frame: u32, held: usize) -> Result<usize, Failure>
    requires { S.within slots.now 1 }
    ensures { (file : List ℕ) → Answer held ≡ File.get (Arch.numbers arch) file (Arch.numbers arch).ra →
        outcome result ≡
        Step.return_address (Arch.numbers arch) (S.regions slots.now) (S.at slots.now)
        (Frame.ra_slot (Arch.numbers arch) frame) file }
{
    let slot = ra_slot(arch, frame);
    if slot == 0 {
        return Ok(held);
    }
    slots.load(slot)
}

// The return register, sp and pc in place.
fn set_return(arch: u8, cfa: usize, ra: usize, file: &mut [usize; COLUMNS])
    ensures { Step.set_return (Arch.numbers arch) cfa ra file.old ≡ Answer file.new }
{
    file[ra_column(arch)] = ra;
    return_to(arch, cfa, ra, file);
}

// fp where the frame saves it, then what the return address sets.
fn set_frame<S: Slots>(
    slots: &S,
    arch: u8,
    frame: u32,
    ra: usize,
    file: &mut [usize; COLUMNS],
) -> Result<(), Failure>
    requires { S.within slots.now 2 }
    ensures { Partly
        (Step.set_frame (Arch.numbers arch) (S.regions slots.now) frame (S.at slots.now) ra file.old)
        result file.new }
{
    if kind(frame) == KIND_FP {
        file[arch::fp_column(arch)] = slots.load(2)?;
    }
    set_return(arch, slots.cfa(), ra, file);
    Ok(())
}

// Past the tests: the caller's registers, stored as they are read.
fn step_from<S: Slots>(
    slots: &S,
    arch: u8,
    frame: u32,
    n: usize,
    file: &mut [usize; COLUMNS],
) -> Result<(), Failure>
    requires { HasSaved (S.within slots.now) (Arch.numbers arch) frame n }
    ensures { Partly
        (Step.step_at (Arch.numbers arch) (S.regions slots.now) frame (S.at slots.now) file.old)
        result file.new }
{
    let held = file[ra_column(arch)];
    restore_named(slots, arch, frame, n, file)?;
    let ra = return_address(slots, arch, frame, held)?;
    set_frame(slots, arch, frame, ra, file)
}

// Past the tests: the caller's registers in place.
fn step_at(
    memory: &Memory<'_>,
    arch: u8,
    cfa: usize,
    frame: u32,
    n: usize,
    file: &mut [usize; COLUMNS],
) -> Result<(), Failure>
    requires { Saves (Arch.numbers arch) frame n }
    ensures { InPlace file.old
        (Step.step_at (Arch.numbers arch) (lent_by memory.now).regions frame cfa file.old)
        result file.new }
{
    if let Some(slots) = InStack::new(memory, cfa, deepest(frame, n)) {
        // no slot is refused there, so none leaves the file half restored
        return step_from(&slots, arch, frame, n, file);
    }
    let mut copy = *file;
    step_from(&Anywhere { memory, cfa }, arch, frame, n, &mut copy)?;
    *file = copy;
    Ok(())
}

// The caller's registers from a version 1 frame word, in place, for any architecture number; a refusal leaves the file as it
// was. First means interrupted.
pub fn step_into(
    memory: &Memory<'_>,
    arch: u8,
    frame: u32,
    first: bool,
    file: &mut [usize; COLUMNS],
) -> Result<(), Failure>
    ensures { InPlace file.old
        (Step.step (Arch.numbers arch) (lent_by memory.now).regions frame first file.old)
        result file.new }
{
    let cfa = frame_cfa(arch, frame, first, file)?;
    step_at(memory, arch, cfa, frame, named_count(frame), file)
}

// The tests for 28, then the caller's registers from a version 1 frame word in place.
fn step_to(
    memory: &Memory<'_>,
    arch: u8,
    frame: u32,
    first: bool,
    file: &mut [usize; COLUMNS],
) -> Result<(), Failure>
    ensures { InPlace file.old (Public.step (lent_by memory.now) arch frame first file.old) result file.new }
{
    require_accepted(memory, arch)?;
    step_into(memory, arch, frame, first, file)
}

// step: the caller's registers from a version 1 frame word. First means interrupted.
pub fn step(memory: &Memory<'_>, arch: u8, frame: u32, first: bool, mut regs: Regs) -> Next
    ensures { InPlace regs.r (Public.step (lent_by memory.now) arch frame first regs.r) result.status result.regs.r }
{
    let status = step_to(memory, arch, frame, first, &mut regs.r);
    Next { regs, status }
}
