// The search phase of a throw.
ghost use Rattle.std.specs.Prelude.{◌≡◌};
ghost use Rattle.mem.specs.Given.{lent_by};
ghost use Rattle.model.specs.Search as Search;
ghost use Rattle.model.specs.Unwinding as Spec;
ghost use Rattle.model.specs.Call.{Throws};
ghost use Rattle.unwind.specs.Answers.{frame_with, searched, raise_told, raised_by, raise_handed};
ghost use Rattle.unwind.specs.Turns.{SearchTurn};

use crate::step::meet;
use crate::{Met, NEXT_INTERRUPTED, RaiseAnswer, Raised, Throw};
use arch::{Regs, sp_column};
use failure::Failure;
use frame::require_accepted;
use mem::Memory;
use model::Unwinding;
use rows::Action;
use std::ops::ControlFlow;

// What a frame that was met says: a catch chooses the frame, a cleanup and no row are passed over, terminate stops the search.
#[tactic(auto, unfolding(personality::specs::Reason::searched_code))]
fn search_turn(number: usize, sp: usize, met: Option<Met>) -> ControlFlow<RaiseAnswer>
    ensures { SearchTurn number sp met result }
{
    match met {
        None => ControlFlow::Break(RaiseAnswer::Ended),
        Some(Met { row: None, .. }) => ControlFlow::Continue(()),
        Some(Met { row: Some(row), .. }) => match row.action {
            Action::Cleanup => ControlFlow::Continue(()),
            Action::Catch => ControlFlow::Break(RaiseAnswer::Chosen(number, sp)),
            Action::Terminate => ControlFlow::Break(RaiseAnswer::Stopped),
        },
    }
}

// The search from frame 0 on.
fn search(
    memory: &Memory<'_>,
    arch: u8,
    interrupted: bool,
    regs: Regs,
) -> Result<RaiseAnswer, Failure>
    ensures { searched result ≡ Search.search arch (lent_by memory.now) (frame_with 0 interrupted regs.r) }
{
    let k = sp_column(arch);
    let mut number = 0;
    let mut first = interrupted;
    let mut file = regs.r;
    // until a frame says that it is over: how many frames there are shows only in the walk
    loop {
        let sp = file[k];
        let met = meet(memory, arch, number, first, true, &mut file)?;
        if let ControlFlow::Break(answer) = search_turn(number, sp, met) {
            return Ok(answer);
        }
        number += 1;
        first = NEXT_INTERRUPTED;
    }
}

// A throw's answer with the unwinding at frame 0, which holds the frame that was chosen, if one was; for a refusal the registers are
// those that came in.
fn begin(answer: Result<RaiseAnswer, Failure>, throw: Throw) -> Raised
    ensures { raise_handed result ≡ raised_by throw.regs.r throw.pc throw.interrupted throw.exception (searched answer) }
{
    let given = Unwinding {
        regs: throw.regs,
        number: 0,
        interrupted: throw.interrupted,
        exception: throw.exception,
        chosen: false,
        chosen_number: 0,
        chosen_sp: 0,
    };
    let unwinding = match answer {
        Ok(RaiseAnswer::Chosen(number, sp)) => Unwinding {
            regs: throw.regs.set_pc(throw.pc),
            chosen: true,
            chosen_number: number,
            chosen_sp: sp,
            ..given
        },
        Ok(_) => Unwinding {
            regs: throw.regs.set_pc(throw.pc),
            ..given
        },
        Err(_) => given,
    };
    Raised { unwinding, answer }
}

// The search where what is lent is accepted, and the architecture known.
fn answer_of(memory: &Memory<'_>, arch: u8, throw: Throw) -> Result<RaiseAnswer, Failure>
    ensures { searched result ≡ Spec.raise (lent_by memory.now) arch throw.regs.r throw.pc throw.interrupted }
{
    require_accepted(memory, arch)?;
    search(memory, arch, throw.interrupted, throw.regs.set_pc(throw.pc))
}

// raise: the search from frame 0 on, which has the registers with the pc of the throw. At a machine's throw it answers as document 01's
// demand 3 asks.
pub fn raise(memory: &Memory<'_>, arch: u8, throw: Throw) -> Raised
    ensures { (raise_handed result ≡ raised_by throw.regs.r throw.pc throw.interrupted throw.exception
        (Spec.raise (lent_by memory.now) arch throw.regs.r throw.pc throw.interrupted))
        × (raise_told result.answer ≡ Search.told_by
        (Spec.raise (lent_by memory.now) arch throw.regs.r throw.pc throw.interrupted))
        × Throws (lent_by memory.now) arch throw.regs.r throw.pc throw.interrupted (raise_told result.answer) }
{
    begin(answer_of(memory, arch, throw), throw)
}
