// The reasons of the built-in personality: ps-unwind's `personality`, by value.
// `personality` refuses with 28 first. `rowless`, `return_offset` and `row_of` are for the crates above, which have tested what is lent and
// the architecture: there any other number stands for 2.
#![tactic(auto)]

ghost use Rattle.std.specs.Prelude.{◌≡◌, Ok};
ghost use Rattle.mem.specs.Given.{lent_by};
ghost use Rattle.arch.specs.Arch.{numbers};
ghost use Rattle.rows.specs.Row.{Pad, number_of, found};
ghost use Rattle.personality.specs.Reason as Spec;
ghost use Rattle.personality.specs.Answers.{code_of, given, decided};

use arch::{DATA_REG0, DATA_REG1, Regs, is_known};
use failure::Failure;
use lookup::{Record, VERSION2};
use mem::{Memory, wrapping};
use program::run_program;
use rows::handler::handler_at;
use rows::handler2::handler2_at;
use rows::{Action, Row};

// What a personality answers, by the codes of the Itanium C++ ABI.
#[derive(Clone, Copy, Debug, PartialEq, Eq)]
pub enum Reason {
    FatalPhase2Error = 2,
    FatalPhase1Error = 3,
    HandlerFound = 6,
    InstallContext = 7,
    ContinueUnwind = 8,
}

impl Reason {
    // The code.
    pub fn code(self) -> u32
        ensures { result ≡ code_of self }
    {
        self as u32
    }
}

// The two phases of an unwinding.
#[derive(Clone, Copy, Debug, PartialEq, Eq)]
pub enum Phase {
    Search,
    Cleanup,
}

// A reason, and the register file that goes with it. No `Result<Decided, Failure>`: a refusal hands back the file that came in.
#[derive(Clone, Copy)]
pub struct Decided {
    pub regs: Regs,
    pub reason: Result<Reason, Failure>,
}

// A frame has no row: it was interrupted, has no table, or its pc lies below its start.
#[tactic(auto, unfolding(crate::specs::Reason::rowless))]
pub fn rowless(interrupted: bool, record: Record, pc: usize) -> bool
    ensures { result ≡ Spec.rowless interrupted «record» pc }
{
    interrupted || record.handlers == 0 || pc < record.start
}

// The row of version 2, after the program that is run to its END.
#[tactic(auto, unfolding(crate::specs::Reason::row_after))]
fn row_after(
    memory: &Memory<'_>,
    arch: u8,
    record: Record,
    ret: u32,
) -> Result<Option<Row>, Failure>
    ensures { found result ≡ Spec.row_after (numbers arch) (lent_by memory.now).regions «record» ret }
{
    let ran = run_program(memory, arch, record.program, record.limit, usize::MAX);
    ran.status?;
    handler2_at(memory, ran.after, record.limit, ret)
}

// The return offset of a pc in a function, as row tables have it: modulo 2^32; 0 below its start.
pub fn return_offset(record: Record, pc: usize) -> u32
    ensures { result ≡ Spec.offset_in «record» pc }
{
    (pc.saturating_sub(record.start) % 0x1_0000_0000) as u32
}

// The row of a frame.
#[tactic(auto, unfolding(crate::specs::Reason::row_of, crate::specs::Reason::rowless))]
pub fn row_of(
    memory: &Memory<'_>,
    arch: u8,
    interrupted: bool,
    record: Record,
    pc: usize,
) -> Result<Option<Row>, Failure>
    ensures { found result ≡ Spec.row_of (numbers arch) (lent_by memory.now).regions interrupted «record» pc }
{
    if rowless(interrupted, record, pc) {
        return Ok(None);
    }
    let ret = return_offset(record, pc);
    if record.version == VERSION2 {
        return row_after(memory, arch, record, ret);
    }
    handler_at(memory, record.handlers, ret as usize)
}

// The landing pad's file.
fn installed(arch: u8, exception: usize, start: usize, pad: usize, mut regs: Regs) -> Decided
    ensures { given result ≡ decided regs (Spec.installed (numbers arch) exception start pad regs.r) }
{
    regs.r[DATA_REG0] = exception;
    regs.r[DATA_REG1] = 0;
    Decided {
        regs: regs.set_pc(wrapping::add(start, pad)),
        reason: Ok(Reason::InstallContext),
    }
}

// What a row's action means in the search phase.
#[tactic(auto, unfolding(crate::specs::Reason::searched_code))]
fn searched(action: Action) -> Reason
    ensures { code_of result ≡ Spec.searched_code (number_of action) }
{
    match action {
        Action::Cleanup => Reason::ContinueUnwind,
        Action::Catch => Reason::HandlerFound,
        Action::Terminate => Reason::FatalPhase1Error,
    }
}

// What a row means in the cleanup phase.
#[tactic(auto, unfolding(crate::specs::Reason::cleaned))]
fn cleaned(arch: u8, exception: usize, start: usize, row: Row, regs: Regs) -> Decided
    ensures { given result ≡
        decided regs (Spec.cleaned (numbers arch) exception start (Pad row.pad (number_of row.action)) regs.r) }
{
    match row.action {
        Action::Cleanup | Action::Catch => installed(arch, exception, start, row.pad, regs),
        Action::Terminate => Decided {
            regs,
            reason: Ok(Reason::FatalPhase2Error),
        },
    }
}

// What a frame's row, if it has one, means in a phase.
#[tactic(auto, unfolding(crate::specs::Reason::cleaned))]
fn meant(
    phase: Phase,
    arch: u8,
    exception: usize,
    start: usize,
    row: Option<Row>,
    regs: Regs,
) -> Decided
    ensures { given result ≡
        decided regs (Spec.meant_by phase (numbers arch) exception start (found (Ok row)) regs.r) }
{
    let Some(row) = row else {
        return Decided {
            regs,
            reason: Ok(Reason::ContinueUnwind),
        };
    };
    match phase {
        Phase::Search => Decided {
            regs,
            reason: Ok(searched(row.action)),
        },
        Phase::Cleanup => cleaned(arch, exception, start, row, regs),
    }
}

// The reason of a frame.
#[tactic(auto, unfolding(crate::specs::Reason::personality))]
fn decide(
    memory: &Memory<'_>,
    arch: u8,
    phase: Phase,
    exception: usize,
    interrupted: bool,
    record: Record,
    regs: Regs,
) -> Decided
    ensures { given result ≡
        decided regs
        (Spec.personality (numbers arch) (lent_by memory.now).regions phase exception interrupted «record» regs.r) }
{
    match row_of(memory, arch, interrupted, record, regs.pc()) {
        Ok(row) => meant(phase, arch, exception, record.start, row, regs),
        Err(failure) => Decided {
            regs,
            reason: Err(failure),
        },
    }
}

// The reason of a frame, in what is lent.
#[tactic(auto, unfolding(crate::specs::Reason::personality_in, arch::specs::Arch::known))]
pub fn personality(
    memory: &Memory<'_>,
    arch: u8,
    phase: Phase,
    exception: usize,
    interrupted: bool,
    record: Record,
    regs: Regs,
) -> Decided
    ensures { given result ≡
        decided regs (Spec.personality_in (lent_by memory.now) arch phase exception interrupted «record» regs.r) }
{
    if !memory.opens() || !is_known(arch) {
        return Decided {
            regs,
            reason: Err(Failure::BadOpening),
        };
    }
    decide(memory, arch, phase, exception, interrupted, record, regs)
}
