// The answers as the C interface hands them over: `#[repr(C)]` structs, and what each answer of the crates below becomes as one.
// The status of an answer is 0 where it has values, 1 for none, else the number of the refusal: C has no `Result`, so each struct has a
// status beside its values, and there is one for each kind of values.
#![tactic(auto)]

ghost use Rattle.std.specs.Prelude.{◌≡◌, List, ℕ};
ghost use Rattle.failure.specs.Outcome.{Outcome, outcome};
ghost use Rattle.arch.specs.Answers.{InPlace};
ghost use Rattle.leb.specs.Reader.{told};
ghost use Rattle.state.specs.declared.State.{State};
ghost use Rattle.state.specs.Save.{Change};
ghost use Rattle.state.specs.Answers.{Changes};
ghost use Rattle.program.specs.Answers.{given};
ghost use Rattle.rows.specs.Row.{found};
ghost use Rattle.personality.specs.Answers.{given as personality_given};
ghost use Rattle.unwind.specs.Answers.{searched, step_handed, raise_handed, resume_handed};
ghost use Rattle.unwind.specs.Batches.{batch_handed};
ghost use Rattle.answers.specs.Interface as Interface;

use arch::Regs;
use failure::Failure;
use lookup::{Found, Record};
use model::Unwinding;
use personality::{Phase, Reason};
use rows::Row;
use state::State;
use unwind::{Frames, RaiseAnswer, ResumeAnswer, WalkAnswer};

pub mod layout;

// The status of an answer with values, and of none.
pub const ANSWERED: u32 = 0;

pub const NONE: u32 = 1;

// The reason of a throw whose search comes to the end of the stack.
pub const URC_END_OF_STACK: u32 = 5;

// A number.
#[repr(C)]
#[derive(Clone, Copy)]
pub struct Number {
    pub status: u32,
    pub value: usize,
}

// A register file; for a refusal the one that came in.
#[repr(C)]
#[derive(Clone, Copy)]
pub struct File {
    pub regs: Regs,
    pub status: u32,
}

// The record of a pc.
#[repr(C)]
#[derive(Clone, Copy)]
pub struct Function {
    pub status: u32,
    pub found: Record,
}

// A number of what is lent, and the address after it.
#[repr(C)]
#[derive(Clone, Copy)]
pub struct Read {
    pub status: u32,
    pub value: usize,
    pub next: usize,
}

// A state; for a refusal the one that came in.
#[repr(C)]
#[derive(Clone, Copy)]
pub struct Changed {
    pub status: u32,
    pub state: State,
}

// A run; for a refusal the entry state and 0.
#[repr(C)]
#[derive(Clone, Copy)]
pub struct Ended {
    pub status: u32,
    pub state: State,
    pub after: usize,
}

// A row.
#[repr(C)]
#[derive(Clone, Copy)]
pub struct RowFound {
    pub status: u32,
    pub pad: usize,
    pub action: usize,
}

// A reason with its register file; for a refusal the file that came in.
#[repr(C)]
#[derive(Clone, Copy)]
pub struct Decided {
    pub regs: Regs,
    pub status: u32,
    pub reason: u32,
}

// A frame step: past the frame its record, and its caller's number and file; else the frame's own.
#[repr(C)]
#[derive(Clone, Copy)]
pub struct Stepped {
    pub regs: Regs,
    pub function: Record,
    pub number: usize,
    pub interrupted: bool,
    pub status: u32,
}

// Up to 16 frames of a walk, and the frame that it goes on from; at the end, which is told as none, and for a refusal the frame
// that came in.
#[repr(C)]
#[derive(Clone, Copy)]
pub struct Batch {
    pub regs: Regs,
    pub frames: Frames,
    pub number: usize,
    pub interrupted: bool,
    pub status: u32,
}

// A throw: the reason 6 with the chosen frame's number and sp, 3 or 5; and the unwinding at frame 0, for a refusal with the file that came in.
#[repr(C)]
#[derive(Clone, Copy)]
pub struct Raised {
    pub unwinding: Unwinding,
    pub number: usize,
    pub sp: usize,
    pub status: u32,
    pub reason: u32,
}

// A sweep call: the reason 7 with the landing's frame number and file, or 2; none where it is finished. The unwinding is past
// the frame that landed, else the one that came in.
#[repr(C)]
#[derive(Clone, Copy)]
pub struct Resumed {
    pub regs: Regs,
    pub unwinding: Unwinding,
    pub number: usize,
    pub status: u32,
    pub reason: u32,
}

// The status of an answer that has values.
fn status_of<T>(answer: &Result<T, Failure>) -> u32
    ensures { result ≡ Interface.status (outcome answer.now) }
{
    match answer {
        Ok(_) => ANSWERED,
        Err(failure) => failure.number(),
    }
}

impl From<Result<usize, Failure>> for Number {
    ghost from_gives = { λ answer number. number ≡ Interface.number (outcome answer) };

    fn from(answer: Result<usize, Failure>) -> Number {
        match answer {
            Ok(value) => Number {
                status: ANSWERED,
                value,
            },
            Err(failure) => Number {
                status: failure.number(),
                value: 0,
            },
        }
    }
}

impl From<arch::Next> for File {
    ghost from_gives = { λ next file. (old : List ℕ) (o : Outcome (List ℕ)) → InPlace old o next.status next.regs.r → file ≡ Interface.file old o };

    fn from(next: arch::Next) -> File {
        File {
            regs: next.regs,
            status: status_of(&next.status),
        }
    }
}

// What stands for a record where there is none.
const NO_RECORD: Record = Record {
    start: 0,
    end: 0,
    frame: 0,
    handlers: 0,
    program: 0,
    limit: 0,
    version: 0,
};

// An answer without a record.
fn recordless(status: u32) -> Function
    ensures { result ≡ Interface.recordless status }
{
    Function {
        status,
        found: NO_RECORD,
    }
}

impl From<Result<Option<Found>, Failure>> for Function {
    ghost from_gives = { λ answer function. function ≡ Interface.function (outcome answer) };

    fn from(answer: Result<Option<Found>, Failure>) -> Function {
        match answer {
            Ok(Some(found)) => Function {
                status: ANSWERED,
                found: found.function,
            },
            Ok(None) => recordless(NONE),
            Err(failure) => recordless(failure.number()),
        }
    }
}

impl From<Result<(usize, usize), Failure>> for Read {
    ghost from_gives = { λ answer read. read ≡ Interface.read (told answer) };

    fn from(answer: Result<(usize, usize), Failure>) -> Read {
        match answer {
            Ok((value, next)) => Read {
                status: ANSWERED,
                value,
                next,
            },
            Err(failure) => Read {
                status: failure.number(),
                value: 0,
                next: 0,
            },
        }
    }
}

// The same state, copied by its parts. Copied whole it goes through memory once more and by a call of `memcpy`: a change of a state took
// half as much time again.
pub fn by_parts(state: State) -> State
    ensures { result ≡ state }
{
    let State {
        cfa_fp,
        cfa_units,
        count,
        regs,
        slots,
    } = state;
    State {
        cfa_fp,
        cfa_units,
        count,
        regs,
        slots,
    }
}

impl From<state::Next> for Changed {
    ghost from_gives = { λ change changed. changed ≡ record { status = Interface.status (outcome change.status); state = change.state }
        × ((old : State) (x : Change) → Changes old x change.status change.state → changed ≡ Interface.changed old x) };

    fn from(change: state::Next) -> Changed {
        Changed {
            status: status_of(&change.status),
            state: by_parts(change.state),
        }
    }
}

impl From<Result<Option<u16>, Failure>> for Number {
    ghost from_gives = { λ answer number. number ≡ Interface.slot (outcome answer) };

    fn from(answer: Result<Option<u16>, Failure>) -> Number {
        match answer {
            Ok(Some(slot)) => Number {
                status: ANSWERED,
                value: slot as usize,
            },
            Ok(None) => Number {
                status: NONE,
                value: 0,
            },
            Err(failure) => Number {
                status: failure.number(),
                value: 0,
            },
        }
    }
}

impl From<program::Ended> for Ended {
    ghost from_gives = { λ run ended. ended ≡ Interface.ended (given run) };

    fn from(run: program::Ended) -> Ended {
        Ended {
            status: status_of(&run.status),
            state: run.state,
            after: run.after,
        }
    }
}

impl From<Result<Option<Row>, Failure>> for RowFound {
    ghost from_gives = { λ answer row. row ≡ Interface.row (found answer) };

    fn from(answer: Result<Option<Row>, Failure>) -> RowFound {
        match answer {
            Ok(Some(row)) => RowFound {
                status: ANSWERED,
                pad: row.pad,
                action: row.action as usize,
            },
            Ok(None) => RowFound {
                status: NONE,
                pad: 0,
                action: 0,
            },
            Err(failure) => RowFound {
                status: failure.number(),
                pad: 0,
                action: 0,
            },
        }
    }
}

// The phase. No `From`: neither bool nor `Phase` is of this crate.
pub fn to_phase(cleanup: bool) -> Phase
    ensures { result ≡ Interface.phase cleanup }
{
    if cleanup {
        Phase::Cleanup
    } else {
        Phase::Search
    }
}

impl From<personality::Decided> for Decided {
    ghost from_gives = { λ d decided. decided ≡ Interface.decided (personality_given d) };

    fn from(d: personality::Decided) -> Decided {
        Decided {
            regs: d.regs,
            status: status_of(&d.reason),
            reason: match d.reason {
                Ok(reason) => reason.code(),
                Err(_) => 0,
            },
        }
    }
}

impl From<unwind::Stepped> for Stepped {
    ghost from_gives = { λ s stepped. stepped ≡ Interface.stepped (step_handed s) };

    fn from(s: unwind::Stepped) -> Stepped {
        let (status, function) = match s.answer {
            Ok(Some(function)) => (ANSWERED, function),
            Ok(None) => (NONE, NO_RECORD),
            Err(failure) => (failure.number(), NO_RECORD),
        };
        Stepped {
            regs: s.frame.regs,
            function,
            number: s.frame.number,
            interrupted: s.frame.interrupted,
            status,
        }
    }
}

// The status of a walk.
fn walk_status(answer: &Result<WalkAnswer, Failure>) -> u32
    ensures { result ≡ Interface.walk_status (outcome answer.now) }
{
    match answer {
        Ok(WalkAnswer::More) => ANSWERED,
        Ok(WalkAnswer::End) => NONE,
        Err(failure) => failure.number(),
    }
}

impl From<unwind::Batch> for Batch {
    ghost from_gives = { λ b batch. batch ≡ Interface.batch (batch_handed b) };

    fn from(b: unwind::Batch) -> Batch {
        Batch {
            regs: b.frame.regs,
            frames: b.frames,
            number: b.frame.number,
            interrupted: b.frame.interrupted,
            status: walk_status(&b.answer),
        }
    }
}

// The reason of a throw, 0 for a refusal.
fn raise_reason(answer: &Result<RaiseAnswer, Failure>) -> u32
    ensures { result ≡ Interface.raise_reason (searched answer.now) }
{
    match answer {
        Ok(RaiseAnswer::Chosen(_, _)) => Reason::HandlerFound.code(),
        Ok(RaiseAnswer::Stopped) => Reason::FatalPhase1Error.code(),
        Ok(RaiseAnswer::Ended) => URC_END_OF_STACK,
        Err(_) => 0,
    }
}

// The number and the sp of the frame that a throw chose, else 0 and 0.
fn raise_chosen(answer: &Result<RaiseAnswer, Failure>) -> (usize, usize)
    ensures { result ≡ Interface.raise_chosen (searched answer.now) }
{
    match answer {
        Ok(RaiseAnswer::Chosen(number, sp)) => (*number, *sp),
        _ => (0, 0),
    }
}

impl From<unwind::Raised> for Raised {
    ghost from_gives = { λ r raised. raised ≡ Interface.raised (raise_handed r) };

    fn from(r: unwind::Raised) -> Raised {
        let (number, sp) = raise_chosen(&r.answer);
        Raised {
            unwinding: r.unwinding,
            number,
            sp,
            status: status_of(&r.answer),
            reason: raise_reason(&r.answer),
        }
    }
}

// The status of a sweep call.
fn resume_status(answer: &Result<ResumeAnswer, Failure>) -> u32
    ensures { result ≡ Interface.resume_status (outcome answer.now) }
{
    match answer {
        Ok(ResumeAnswer::Install(_) | ResumeAnswer::Fatal) => ANSWERED,
        Ok(ResumeAnswer::Finished) => NONE,
        Err(failure) => failure.number(),
    }
}

// Its reason.
fn resume_reason(answer: &Result<ResumeAnswer, Failure>) -> u32
    ensures { result ≡ Interface.resume_reason (outcome answer.now) }
{
    match answer {
        Ok(ResumeAnswer::Install(_)) => Reason::InstallContext.code(),
        Ok(ResumeAnswer::Fatal) => Reason::FatalPhase2Error.code(),
        _ => 0,
    }
}

// The frame number of a landing.
fn resume_number(answer: &Result<ResumeAnswer, Failure>) -> usize
    ensures { result ≡ Interface.resume_number (outcome answer.now) }
{
    match answer {
        Ok(ResumeAnswer::Install(number)) => *number,
        _ => 0,
    }
}

// One literal for every answer: the file and the unwinding are copied once.
impl From<unwind::Resumed> for Resumed {
    ghost from_gives = { λ r resumed. resumed ≡ Interface.resumed (resume_handed r) };

    fn from(r: unwind::Resumed) -> Resumed {
        Resumed {
            regs: r.regs,
            unwinding: r.unwinding,
            number: resume_number(&r.answer),
            status: resume_status(&r.answer),
            reason: resume_reason(&r.answer),
        }
    }
}
