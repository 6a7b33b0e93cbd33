// The cleanup phase: the landings of a throw, one for each call.
ghost use Rattle.std.specs.Prelude.{◌≡◌, set};
ghost use Rattle.failure.specs.Outcome.{outcome};
ghost use Rattle.mem.specs.Given.{lent_by};
ghost use Rattle.mem.specs.Wrapping.{sum};
ghost use Rattle.arch.specs.File as File;
ghost use Rattle.model.specs.Cleanup as Cleanup;
ghost use Rattle.model.specs.Unwinding as Spec;
ghost use Rattle.model.specs.Call.{GivesNext};
ghost use Rattle.unwind.specs.Answers.{frame_at, unmoved, resume_told, resumed_by, resume_handed, cleaned, call_with};
ghost use Rattle.unwind.specs.Turns.{clean_row, clean_by};

use crate::step::meet;
use crate::{Frame, Met, NEXT_INTERRUPTED, ResumeAnswer, Resumed};
use arch::{COLUMNS, DATA_REG0, DATA_REG1, PC_COLUMN, Regs, sp_column};
use failure::Failure;
use frame::require_accepted;
use mem::{Memory, wrapping};
use model::Unwinding;
use rows::{Action, Row};

// A turn of the sweep: it goes on with the next frame; the frame lands, by the start of its record and the pad; or the sweep stops.
// No `ControlFlow`: what it broke with would be an enum of its own, since `ResumeAnswer` has a landing's number and not its pad.
#[derive(Clone, Copy)]
enum Cleaning {
    On,
    Install(usize, usize),
    Fatal,
}

// A row. Below the chosen number a cleanup lands, a catch is 22, terminate answers 2; at it a catch lands if sp is the chosen one, and
// all else is 22.
fn clean_row(is_below: bool, same_sp: bool, start: usize, row: Row) -> Result<Cleaning, Failure>
    ensures { outcome result ≡ clean_row is_below same_sp start «row» }
{
    if is_below {
        return match row.action {
            Action::Cleanup => Ok(Cleaning::Install(start, row.pad)),
            Action::Catch => Err(Failure::HandlerFrameMissed),
            Action::Terminate => Ok(Cleaning::Fatal),
        };
    }
    if row.action == Action::Catch && same_sp {
        return Ok(Cleaning::Install(start, row.pad));
    }
    Err(Failure::HandlerFrameMissed)
}

// What a frame that was met says: an end before the chosen one is 22; no row goes on below the chosen number and is 22 at it.
fn clean_turn(
    is_below: bool,
    same_sp: bool,
    met: Result<Option<Met>, Failure>,
) -> Result<Cleaning, Failure>
    ensures { outcome result ≡ clean_by is_below same_sp (outcome met) }
{
    match met? {
        None => Err(Failure::HandlerFrameMissed),
        Some(met) => match met.row {
            None => {
                if is_below {
                    return Ok(Cleaning::On);
                }
                Err(Failure::HandlerFrameMissed)
            }
            Some(row) => clean_row(is_below, same_sp, met.record.start, row),
        },
    }
}

// The unwinding that goes on from a frame.
fn going_on(unwinding: Unwinding, frame: Frame) -> Unwinding
    ensures { result ≡ Spec.going_on unwinding (frame_at frame) }
{
    Unwinding {
        regs: frame.regs,
        number: frame.number,
        interrupted: frame.interrupted,
        ..unwinding
    }
}

// An answer beside the unwinding that came in.
fn unchanged(answer: Result<ResumeAnswer, Failure>, unwinding: Unwinding) -> Resumed
    ensures { resume_handed result ≡ unmoved (outcome answer) unwinding }
{
    Resumed {
        regs: unwinding.regs,
        unwinding,
        answer,
    }
}

// The frame's file becomes the one at its pad. `installed` of `personality` is the same by value; here the file is not copied.
fn install(exception: usize, start: usize, pad: usize, own: &mut [usize; COLUMNS])
    ensures { own.new ≡ File.set_pc (set (set own.old 0 exception) 1 0) (sum start pad) }
{
    own[DATA_REG0] = exception;
    own[DATA_REG1] = 0;
    own[PC_COLUMN] = wrapping::add(start, pad);
}

// The next landing from an unwinding's frame on.
fn clean(memory: &Memory<'_>, arch: u8, unwinding: Unwinding) -> Resumed
    ensures { resume_handed result ≡ resumed_by unwinding
        (Cleanup.clean_from 1025 arch (lent_by memory.now)
        unwinding.exception (Spec.choice_of unwinding) (Spec.frame_of unwinding)) }
{
    let k = sp_column(arch);
    let mut file = unwinding.regs.r;
    let mut number = unwinding.number;
    let mut interrupted = unwinding.interrupted;
    // until a frame says that it is over: how many frames there are shows only in the walk
    loop {
        let mut own = file;
        let is_below = number < unwinding.chosen_number;
        let same_sp = own[k] == unwinding.chosen_sp;
        let met = meet(memory, arch, number, interrupted, true, &mut file);
        match clean_turn(is_below, same_sp, met) {
            Ok(Cleaning::On) => {
                number += 1;
                interrupted = NEXT_INTERRUPTED;
            }
            Ok(Cleaning::Install(start, pad)) => {
                install(unwinding.exception, start, pad, &mut own);
                let next = Frame {
                    regs: Regs { r: file },
                    number: number + 1,
                    interrupted: NEXT_INTERRUPTED,
                };
                return Resumed {
                    regs: Regs { r: own },
                    unwinding: going_on(unwinding, next),
                    answer: Ok(ResumeAnswer::Install(number)),
                };
            }
            Ok(Cleaning::Fatal) => return unchanged(Ok(ResumeAnswer::Fatal), unwinding),
            Err(failure) => return unchanged(Err(failure), unwinding),
        }
    }
}

// resume: finished where nothing is chosen or the chosen frame has landed, else the next landing. After a machine's throw, and calls each
// of which was usable or refused, a usable call gives the next landing due: the stack may be one that landing pads have written to since,
// as long as the live slots of the frames not yet passed, up to the chosen one, are as they were (`Usable` of `model`).
pub fn resume(memory: &Memory<'_>, arch: u8, unwinding: Unwinding) -> Resumed
    ensures { (resume_handed result ≡ resumed_by unwinding
        (Spec.resume (lent_by memory.now) arch unwinding))
        × (resume_told result.answer result.regs.r ≡ Cleanup.told_by
        (Spec.resume (lent_by memory.now) arch unwinding))
        × GivesNext (call_with (lent_by memory.now) arch unwinding) (cleaned result) }
{
    if let Err(failure) = require_accepted(memory, arch) {
        return unchanged(Err(failure), unwinding);
    }
    if !unwinding.chosen || unwinding.chosen_number < unwinding.number {
        return unchanged(Ok(ResumeAnswer::Finished), unwinding);
    }
    clean(memory, arch, unwinding)
}
