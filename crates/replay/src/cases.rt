// A case of each operation: our answer to what the line asks is the recorded one. What stands on the line after the operation and the
// architecture is named at each.
use crate::chunk::same_chunk;
use crate::line::Line;
use crate::operation::Operation;
use crate::same::{
    folded_number, folded_program, same_answer, same_change, same_found, same_next, same_row,
};
use arch::Regs;
use failure::Failure;
use lookup::Record;
use rows::handler::handler;
use rows::handler2::handler2;
use std::alloc::AllocError;

// A line: OPERATION ARCH, and the case. A line of no operation differs.
pub fn check_case(line: &mut Line<'_>) -> Result<bool, AllocError> {
    match Operation::try_from(line.word()) {
        Ok(operation) => check_operation(operation, line),
        Err(_) => Ok(false),
    }
}

// What stands on the line after its operation. It is apart, so that a line of none costs no more than to read its number.
#[inline(never)]
fn check_operation(operation: Operation, line: &mut Line<'_>) -> Result<bool, AllocError> {
    let arch = line.u8();
    Ok(match operation {
        Operation::Uleb => check_uleb(line)?,
        Operation::Get => check_get(line, arch),
        Operation::Set => check_set(line, arch),
        Operation::Fp => check_value(line, arch, Regs::fp),
        Operation::Sp => check_value(line, arch, Regs::sp),
        Operation::SetSp => check_set_sp(line, arch),
        Operation::Strip => check_strip(line, arch),
        Operation::Lookup => check_lookup(line, arch)?,
        Operation::Run => check_run(line, arch)?,
        Operation::Save => check_save(line),
        Operation::Restore => check_restore(line, arch),
        Operation::Apply => check_apply(line, arch)?,
        Operation::Step => check_step(line, arch)?,
        Operation::Handler => check_handler(line)?,
        Operation::Handler2 => check_handler2(line)?,
        Operation::Personality => check_personality(line, arch)?,
        Operation::Slot => check_slot(line),
    })
}

// uleb: what is lent, POS END STATUS V NEXT. It is read by value and through a cursor.
fn check_uleb(line: &mut Line<'_>) -> Result<bool, AllocError> {
    let lent = line.lent()?;
    let memory = lent.memory();
    let pos = line.word();
    let end = line.word();
    let status = line.word();
    let value = (line.word(), line.word());
    let by_value = leb::read_uleb(&memory, pos, end).map_err(folded_number);
    let moved = cursor::uleb_from(&memory, pos, end).map_err(folded_number);
    Ok(same_answer(by_value, status, value) && same_answer(moved, status, value))
}

// get: REG FILE STATUS VALUE.
fn check_get(line: &mut Line<'_>, arch: u8) -> bool {
    let reg = line.u16();
    let got = line.file(arch).get(arch, reg);
    same_answer(got.map_err(Failure::number), line.word(), line.word())
}

// set: REG VALUE FILE STATUS FILE'.
fn check_set(line: &mut Line<'_>, arch: u8) -> bool {
    let reg = line.u16();
    let value = line.word();
    let got = line.file(arch).set(arch, reg, value);
    same_next(got, line.word(), line.file(arch))
}

// fp and sp: FILE VALUE.
fn check_value<F: FnOnce(Regs, u8) -> Result<usize, Failure>>(
    line: &mut Line<'_>,
    arch: u8,
    value_of: F,
) -> bool
    requires { F.IsAlwaysCallable value_of }
{
    value_of(line.file(arch), arch) == Ok(line.word())
}

// set_sp: VALUE FILE FILE'.
fn check_set_sp(line: &mut Line<'_>, arch: u8) -> bool {
    let value = line.word();
    let got = line.file(arch).set_sp(arch, value);
    same_next(got, 0, line.file(arch))
}

// strip: ADDR RESULT.
fn check_strip(line: &mut Line<'_>, arch: u8) -> bool {
    arch::strip_pac(arch, line.word()) == Ok(line.word())
}

// The numbers of a record that is found: START END FRAME HANDLERS PROGRAM LIMIT VERSION.
fn numbers_of(r: Record) -> [usize; 7] {
    [
        r.start,
        r.end,
        r.frame as usize,
        r.handlers,
        r.program,
        r.limit,
        usize::from(r.version),
    ]
}

// lookup: what is lent, PC STATUS and a record. `chunk_of` gives the record's chunk, or nothing.
fn check_lookup(line: &mut Line<'_>, arch: u8) -> Result<bool, AllocError> {
    let lent = line.lent()?;
    let memory = lent.memory();
    let pc = line.word();
    let got = lookup::lookup_arch(&memory, pc, arch);
    let part = lookup::chunk_of(&memory, pc, arch);
    let has_part = match got {
        Ok(Some(found)) => same_chunk(&memory, part, found.chunk, found.function),
        _ => part.is_empty(),
    };
    let numbers = got.map(|found| found.map(|found| numbers_of(found.function)));
    let status = line.word();
    Ok(has_part && same_found(numbers.map_err(Failure::number), status, line.words()))
}

// run: what is lent, PROGRAM LIMIT OFF STATUS STATE AFTER.
fn check_run(line: &mut Line<'_>, arch: u8) -> Result<bool, AllocError> {
    let lent = line.lent()?;
    let program = line.word();
    let limit = line.word();
    let off = line.word();
    let status = line.word();
    let state = line.state();
    let after = line.word();
    let got = program::run(&lent.memory(), arch, program, limit, off);
    Ok(
        got.state == state
            && got.after == after
            && same_answer(got.status.map_err(folded_program), status, ()),
    )
}

// save: STATE REG SLOT STATUS STATE'.
fn check_save(line: &mut Line<'_>) -> bool {
    let got = line.state().save(line.word(), line.word());
    same_change(got, line.word(), line.state())
}

// restore: STATE REG STATUS STATE'.
fn check_restore(line: &mut Line<'_>, arch: u8) -> bool {
    let got = line.state().restore(arch, line.word());
    same_change(got, line.word(), line.state())
}

// slot: STATE REG STATUS SLOT.
fn check_slot(line: &mut Line<'_>) -> bool {
    let got = line.state().slot(line.u16());
    let slot = got.map(|slot| slot.map(usize::from));
    same_found(slot.map_err(Failure::number), line.word(), line.word())
}

// apply: what is lent, STATE FILE STATUS FILE'.
fn check_apply(line: &mut Line<'_>, arch: u8) -> Result<bool, AllocError> {
    let lent = line.lent()?;
    let state = line.state();
    let got = frame::apply::apply(&lent.memory(), arch, state, line.file(arch));
    Ok(same_next(got, line.word(), line.file(arch)))
}

// step: what is lent, FRAME FIRST FILE STATUS FILE'.
fn check_step(line: &mut Line<'_>, arch: u8) -> Result<bool, AllocError> {
    let lent = line.lent()?;
    let frame = line.u32();
    let first = line.flag();
    let got = frame::step::step(&lent.memory(), arch, frame, first, line.file(arch));
    Ok(same_next(got, line.word(), line.file(arch)))
}

// handler: what is lent, TABLE RET STATUS PAD ACTION.
fn check_handler(line: &mut Line<'_>) -> Result<bool, AllocError> {
    let lent = line.lent()?;
    let got = handler(&lent.memory(), line.word(), line.u32());
    Ok(same_row(got.map_err(Failure::number), line.word(), line.words()))
}

// handler2: what is lent, TABLE LIMIT RET STATUS PAD ACTION.
fn check_handler2(line: &mut Line<'_>) -> Result<bool, AllocError> {
    let lent = line.lent()?;
    let got = handler2(&lent.memory(), line.word(), line.word(), line.u32());
    Ok(same_row(got.map_err(folded_number), line.word(), line.words()))
}

// personality: what is lent, PHASE EXC INTERRUPTED, a record, FILE STATUS CODE FILE'.
fn check_personality(line: &mut Line<'_>, arch: u8) -> Result<bool, AllocError> {
    let lent = line.lent()?;
    let phase = line.phase();
    let exception = line.word();
    let interrupted = line.flag();
    let record = line.record();
    let file = line.file(arch);
    let memory = lent.memory();
    let got = personality::personality(&memory, arch, phase, exception, interrupted, record, file);
    let status = line.word();
    let code = line.word();
    let recorded = line.file(arch);
    let reason = got.reason.map(|reason| reason.code() as usize);
    Ok(got.regs.r == recorded.r && same_answer(reason.map_err(folded_program), status, code))
}
