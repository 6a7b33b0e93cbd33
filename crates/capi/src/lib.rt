// The C interface: the public functions with numbers, byte slices and structs by value, so that nothing lent is written.
// A slice is a pointer and a length. The structs of the answers are those of `answers`. What is lent, a frame and a throw come by their
// parts: no struct with lent slices crosses to C.
#![tactic(auto)]

ghost use Rattle.std.specs.Prelude.{◌≡◌};
ghost use Rattle.mem.specs.Memory.{lent};
ghost use Rattle.arch.specs.Arch.{numbers};
ghost use Rattle.arch.specs.Public as Arch;
ghost use Rattle.lookup.specs.Lookup.{lookup_arch};
ghost use Rattle.leb.specs.Reader as Reader;
ghost use Rattle.state.specs.State.{entry};
ghost use Rattle.state.specs.Save as Save;
ghost use Rattle.state.specs.Public as Change;
ghost use Rattle.program.specs.Public as Program;
ghost use Rattle.program.specs.Answers as ProgramAnswers;
ghost use Rattle.frame.specs.Public as Public;
ghost use Rattle.rows.specs.Handler as Handler;
ghost use Rattle.rows.specs.Handler2 as Handler2;
ghost use Rattle.personality.specs.Reason as Reason;
ghost use Rattle.personality.specs.Answers as PersonalityAnswers;
ghost use Rattle.model.specs.Unwinding as Spec;
ghost use Rattle.unwind.specs.Answers as UnwindAnswers;
ghost use Rattle.unwind.specs.Answers.{frame_with};
ghost use Rattle.unwind.specs.Batches as Batches;
ghost use Rattle.answers.specs.Interface as Interface;
ghost use Rattle.answers.specs.Offsets as Offsets;

use answers::layout::{Layout, layout_told};
use answers::{
    Batch, Changed, Decided, Ended, File, Function, Number, Raised, Read, Resumed, RowFound,
    Stepped, by_parts, to_phase,
};
use arch::Regs;
use leb::read_uleb;
use lookup::{Record, lookup_arch};
use mem::Memory;
use model::Unwinding;
use rows::handler::handler;
use rows::handler2::handler2;
use state::State;
use unwind::{Frame, Throw};

// strip_pac.
#[unsafe(no_mangle)]
pub extern "C" fn eko_strip_pac(arch: u8, address: usize) -> Number
    ensures { result ≡ Interface.number (Arch.strip_pac arch address) }
{
    Number::from(arch::strip_pac(arch, address))
}

// A register's value.
#[unsafe(no_mangle)]
pub extern "C" fn eko_get(arch: u8, regs: Regs, reg: u16) -> Number
    ensures { result ≡ Interface.number (Arch.get arch regs.r reg) }
{
    Number::from(regs.get(arch, reg))
}

// The frame pointer.
#[unsafe(no_mangle)]
pub extern "C" fn eko_fp(arch: u8, regs: Regs) -> Number
    ensures { result ≡ Interface.number (Arch.fp arch regs.r) }
{
    Number::from(regs.fp(arch))
}

// The stack pointer.
#[unsafe(no_mangle)]
pub extern "C" fn eko_sp(arch: u8, regs: Regs) -> Number
    ensures { result ≡ Interface.number (Arch.sp arch regs.r) }
{
    Number::from(regs.sp(arch))
}

// A register file with a register set.
#[unsafe(no_mangle)]
pub extern "C" fn eko_set(arch: u8, regs: Regs, reg: u16, value: usize) -> File
    ensures { result ≡ Interface.file regs.r (Arch.set arch regs.r reg value) }
{
    File::from(regs.set(arch, reg, value))
}

// A register file with the stack pointer set.
#[unsafe(no_mangle)]
pub extern "C" fn eko_set_sp(arch: u8, regs: Regs, value: usize) -> File
    ensures { result ≡ Interface.file regs.r (Arch.set_sp arch regs.r value) }
{
    File::from(regs.set_sp(arch, value))
}

// The record of pc.
#[unsafe(no_mangle)]
pub extern "C" fn eko_lookup(
    section: &[u8],
    section_base: usize,
    stack: &[u8],
    stack_base: usize,
    pc: usize,
    arch: u8,
) -> Function
    ensures { result ≡ Interface.function
        (lookup_arch section.now section_base stack.now stack_base pc arch) }
{
    let memory = Memory::new(section, section_base, stack, stack_base);
    Function::from(lookup_arch(&memory, pc, arch))
}

// The number at a position below the limit.
#[unsafe(no_mangle)]
pub extern "C" fn eko_read_uleb(
    section: &[u8],
    section_base: usize,
    stack: &[u8],
    stack_base: usize,
    pos: usize,
    limit: usize,
) -> Read
    ensures { result ≡ Interface.read
        (Reader.read_uleb (lent section.now section_base stack.now stack_base) limit pos) }
{
    let memory = Memory::new(section, section_base, stack, stack_base);
    Read::from(read_uleb(&memory, pos, limit))
}

// The entry state.
#[unsafe(no_mangle)]
pub extern "C" fn eko_entry(arch: u8) -> Changed
    ensures { result ≡ Interface.changed (entry (numbers arch)) (Change.entry arch) }
{
    Changed::from(State::entry(arch))
}

// The slot of a register, none if it is not saved.
#[unsafe(no_mangle)]
pub extern "C" fn eko_slot(state: State, reg: u16) -> Number
    ensures { result ≡ Interface.slot (Change.slot state reg) }
{
    Number::from(state.slot(reg))
}

// A state with a register saved in a slot.
#[unsafe(no_mangle)]
pub extern "C" fn eko_save(state: State, reg: usize, slot: usize) -> Changed
    ensures { result ≡ Interface.changed state (Save.save state reg slot) }
{
    let state = by_parts(state);
    Changed::from(state.save(reg, slot))
}

// A state with a register back to its entry rule.
#[unsafe(no_mangle)]
pub extern "C" fn eko_restore(arch: u8, state: State, reg: usize) -> Changed
    ensures { result ≡ Interface.changed state (Change.restore arch state reg) }
{
    let state = by_parts(state);
    Changed::from(state.restore(arch, reg))
}

// A run of a program up to an offset.
#[unsafe(no_mangle)]
pub extern "C" fn eko_run(
    section: &[u8],
    section_base: usize,
    stack: &[u8],
    stack_base: usize,
    arch: u8,
    program: usize,
    limit: usize,
    off: usize,
) -> Ended
    ensures { result ≡ Interface.ended
        (ProgramAnswers.ended (entry (numbers arch))
        (Program.run (lent section.now section_base stack.now stack_base) arch program limit off)) }
{
    let memory = Memory::new(section, section_base, stack, stack_base);
    Ended::from(program::run(&memory, arch, program, limit, off))
}

// The caller's registers from a state.
#[unsafe(no_mangle)]
pub extern "C" fn eko_apply(
    section: &[u8],
    section_base: usize,
    stack: &[u8],
    stack_base: usize,
    arch: u8,
    state: State,
    regs: Regs,
) -> File
    ensures { result ≡ Interface.file regs.r (Public.apply (lent section.now section_base stack.now stack_base) arch state regs.r) }
{
    let memory = Memory::new(section, section_base, stack, stack_base);
    File::from(frame::apply::apply(&memory, arch, state, regs))
}

// The caller's registers from a version 1 frame word.
#[unsafe(no_mangle)]
pub extern "C" fn eko_step(
    section: &[u8],
    section_base: usize,
    stack: &[u8],
    stack_base: usize,
    arch: u8,
    frame: u32,
    first: bool,
    regs: Regs,
) -> File
    ensures { result ≡ Interface.file regs.r (Public.step (lent section.now section_base stack.now stack_base) arch frame first regs.r) }
{
    let memory = Memory::new(section, section_base, stack, stack_base);
    File::from(frame::step::step(&memory, arch, frame, first, regs))
}

// The row of a return offset in a table of version 1.
#[unsafe(no_mangle)]
pub extern "C" fn eko_handler(
    section: &[u8],
    section_base: usize,
    stack: &[u8],
    stack_base: usize,
    table: usize,
    ret: u32,
) -> RowFound
    ensures { result ≡ Interface.row
        (Handler.handler_in (lent section.now section_base stack.now stack_base) table ret) }
{
    let memory = Memory::new(section, section_base, stack, stack_base);
    RowFound::from(handler(&memory, table, ret))
}

// The row of a return offset in a table of version 2.
#[unsafe(no_mangle)]
pub extern "C" fn eko_handler2(
    section: &[u8],
    section_base: usize,
    stack: &[u8],
    stack_base: usize,
    table: usize,
    limit: usize,
    ret: u32,
) -> RowFound
    ensures { result ≡ Interface.row
        (Handler2.handler2_in (lent section.now section_base stack.now stack_base) table limit ret) }
{
    let memory = Memory::new(section, section_base, stack, stack_base);
    RowFound::from(handler2(&memory, table, limit, ret))
}

// The reason of a frame, in the search phase or the cleanup phase.
#[unsafe(no_mangle)]
pub extern "C" fn eko_personality(
    section: &[u8],
    section_base: usize,
    stack: &[u8],
    stack_base: usize,
    arch: u8,
    cleanup: bool,
    exception: usize,
    interrupted: bool,
    function: Record,
    regs: Regs,
) -> Decided
    ensures { result ≡ Interface.decided (PersonalityAnswers.decided regs
        (Reason.personality_in (lent section.now section_base stack.now stack_base)
        arch (Interface.phase cleanup) exception interrupted function regs.r)) }
{
    let memory = Memory::new(section, section_base, stack, stack_base);
    Decided::from(personality::personality(
        &memory,
        arch,
        to_phase(cleanup),
        exception,
        interrupted,
        function,
        regs,
    ))
}

// The frame step: a frame's record and its caller.
#[unsafe(no_mangle)]
pub extern "C" fn eko_next_frame(
    section: &[u8],
    section_base: usize,
    stack: &[u8],
    stack_base: usize,
    arch: u8,
    number: usize,
    interrupted: bool,
    regs: Regs,
) -> Stepped
    ensures { result ≡ Interface.stepped (UnwindAnswers.stepped (frame_with number interrupted regs.r)
        (Spec.next_frame (lent section.now section_base stack.now stack_base)
        arch (frame_with number interrupted regs.r))) }
{
    let memory = Memory::new(section, section_base, stack, stack_base);
    Stepped::from(unwind::walk::next_frame(
        &memory,
        arch,
        Frame {
            regs,
            number,
            interrupted,
        },
    ))
}

// Up to 16 frames of a walk.
#[unsafe(no_mangle)]
pub extern "C" fn eko_walk(
    section: &[u8],
    section_base: usize,
    stack: &[u8],
    stack_base: usize,
    arch: u8,
    number: usize,
    interrupted: bool,
    regs: Regs,
) -> Batch
    ensures { result ≡ Interface.batch (Batches.walked_by (frame_with number interrupted regs.r)
        (Batches.walking (lent section.now section_base stack.now stack_base) arch
        (frame_with number interrupted regs.r))) }
{
    let memory = Memory::new(section, section_base, stack, stack_base);
    Batch::from(unwind::walk::walk(
        &memory,
        arch,
        Frame {
            regs,
            number,
            interrupted,
        },
    ))
}

// raise (document 01: throw).
#[unsafe(no_mangle)]
pub extern "C" fn eko_raise(
    section: &[u8],
    section_base: usize,
    stack: &[u8],
    stack_base: usize,
    arch: u8,
    regs: Regs,
    pc: usize,
    interrupted: bool,
    exception: usize,
) -> Raised
    ensures { result ≡ Interface.raised (UnwindAnswers.raised_by regs.r pc interrupted exception
        (Spec.raise (lent section.now section_base stack.now stack_base)
        arch regs.r pc interrupted)) }
{
    let memory = Memory::new(section, section_base, stack, stack_base);
    Raised::from(unwind::search::raise(
        &memory,
        arch,
        Throw {
            regs,
            pc,
            interrupted,
            exception,
        },
    ))
}

// resume (document 01: sweep). Of the stack that it is lent, and of what landing pads may have written there since the throw, `resume` of
// `unwind` says more.
#[unsafe(no_mangle)]
pub extern "C" fn eko_resume(
    section: &[u8],
    section_base: usize,
    stack: &[u8],
    stack_base: usize,
    arch: u8,
    unwinding: Unwinding,
) -> Resumed
    ensures { result ≡ Interface.resumed (UnwindAnswers.resumed_by unwinding
        (Spec.resume (lent section.now section_base stack.now stack_base)
        arch unwinding)) }
{
    let memory = Memory::new(section, section_base, stack, stack_base);
    Resumed::from(unwind::cleanup::resume(&memory, arch, unwinding))
}

// How the structs of this interface stand in memory.
#[unsafe(no_mangle)]
pub extern "C" fn eko_layout(flag: bool) -> Layout
    ensures { result ≡ Offsets.layout flag }
{
    layout_told(flag)
}
