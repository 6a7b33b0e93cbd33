// The frame step, in place: a function takes the frame's file and leaves the caller's. For a refusal, and where the walk ends,
// nothing is said of the file that is left. A frame comes by its parts, and not as a `Frame`: its file is changed in place, the number
// and whether it was interrupted are not; and a struct of these two would be made anew for each frame.
ghost use Rattle.std.specs.Prelude.{◌≡◌, true, false, not, ◌&&◌, ◌||◌, ◌-◌, ◌≤◌, eqb, ltb};
ghost use Rattle.failure.specs.Outcome.{Answer, outcome};
ghost use Rattle.mem.specs.Given.{lent_by};
ghost use Rattle.arch.specs.Arch.{numbers};
ghost use Rattle.arch.specs.File as File;
ghost use Rattle.rows.specs.Row.{found};
ghost use Rattle.personality.specs.Reason.{rowless};
ghost use Rattle.model.specs.FrameStep as Walk;
ghost use Rattle.unwind.specs.Answers.{frame_with};
ghost use Rattle.unwind.specs.Turns.{file_told, caller_by_run, advanced, Passes, record_of, Locates, met_row, Meets, MeetsAny};

use crate::{MAX_FRAMES, Met};
use arch::{COLUMNS, PC_COLUMN, sp_column};
use failure::Failure;
use frame::apply::apply_into;
use frame::step::step_into;
use lookup::{Record, VERSION2, lookup_part};
use mem::Memory;
use personality::{return_offset, rowless};
use program::{run_into, run_through};
use rows::Row;
use rows::handler::handler_at;
use rows::handler2::handler2_at;
use state::BLANK;

// Looked up is pc - 1, or pc for an interrupted frame.
fn looked_up(interrupted: bool, pc: usize) -> usize
    requires { 1 ≤ pc }
    ensures { result ≡ Walk.looked_up interrupted pc }
{
    if interrupted { pc } else { pc - 1 }
}

// How far an address lies above a start, 0 where it lies below.
fn offset_from(start: usize, at: usize) -> usize
    ensures { result ≡ at - start }
{
    at.saturating_sub(start)
}

// The caller's registers of version 2: by run, then apply.
fn caller_by_run(
    memory: &Memory<'_>,
    arch: u8,
    program: usize,
    limit: usize,
    off: usize,
    file: &mut [usize; COLUMNS],
) -> Result<(), Failure>
    ensures { file_told result file.new ≡
        caller_by_run (numbers arch) (lent_by memory.now).regions program limit off file.old }
{
    // no state yet
    let mut state = BLANK;
    let ran = run_into(memory, arch, program, limit, off, &mut state);
    ran.status?;
    apply_into(memory, arch, &state, file)
}

// The caller's registers, for the address that was looked up.
fn caller_into(
    memory: &Memory<'_>,
    arch: u8,
    interrupted: bool,
    record: Record,
    at: usize,
    file: &mut [usize; COLUMNS],
) -> Result<(), Failure>
    ensures { file_told result file.new ≡
        Walk.caller_file (numbers arch) (lent_by memory.now).regions interrupted «record» at file.old }
{
    if record.version != VERSION2 {
        return step_into(memory, arch, record.frame, interrupted, file);
    }
    let off = offset_from(record.start, at);
    caller_by_run(memory, arch, record.program, record.limit, off, file)
}

// 20 where sp is lower than before, or equal past the first frame.
fn advancing(number: usize, before: usize, after: usize) -> Result<(), Failure>
    ensures { outcome result ≡ advanced number before after }
{
    if after < before || number != 0 && after == before {
        return Err(Failure::StackNotAdvancing);
    }
    Ok(())
}

// Past a frame with its record: the caller's registers, then 20.
fn past(
    memory: &Memory<'_>,
    arch: u8,
    number: usize,
    interrupted: bool,
    record: Record,
    at: usize,
    file: &mut [usize; COLUMNS],
) -> Result<(), Failure>
    requires { at ≡ Walk.looked_up interrupted (File.pc file.old) }
    ensures { Passes (numbers arch) (lent_by memory.now)
        (frame_with number interrupted file.old) «record» file.new result }
{
    let k = sp_column(arch);
    let before = file[k];
    caller_into(memory, arch, interrupted, record, at, file)?;
    advancing(number, before, file[k])
}

// A frame's record, whatever the stack is; none where the walk ends. In order: pc 0 ends; 1,024 frames given, 29; then lookup in the
// section.
fn locate(
    memory: &Memory<'_>,
    arch: u8,
    number: usize,
    interrupted: bool,
    pc: usize,
) -> Result<Option<Record>, Failure>
    ensures { Locates memory.now.section.now memory.now.section_base arch number interrupted pc result }
{
    if pc == 0 {
        return Ok(None);
    }
    if MAX_FRAMES <= number {
        return Err(Failure::TooManyFrames);
    }
    match lookup_part(
        memory.section,
        memory.section_base,
        looked_up(interrupted, pc),
        arch,
    )? {
        Some(found) => Ok(Some(found.function)),
        None => Ok(None),
    }
}

// A frame that was met, with its row. The row goes by its parts: copied whole it is stored as two words and loaded as one, which takes
// 4 ns a frame of a throw.
fn met_row(record: Record, row: Option<Row>) -> Met
    ensures { result ≡ met_row «record» row }
{
    match row {
        None => Met { record, row: None },
        Some(Row { action, pad }) => Met {
            record,
            row: Some(Row { action, pad }),
        },
    }
}

// A frame of version 2 that may have a row: one pass through its program serves its step and its row.
fn meet_through(
    memory: &Memory<'_>,
    arch: u8,
    number: usize,
    interrupted: bool,
    record: Record,
    pc: usize,
    file: &mut [usize; COLUMNS],
) -> Result<Met, Failure>
    requires { (pc ≡ File.pc file.old) ×
        (Answer (Some «record») ≡ record_of (lent_by memory.now) arch number interrupted pc) ×
        (rowless interrupted «record» pc ≡ false) × («record».version ≡ 2) }
    ensures { Meets true arch (lent_by memory.now) (frame_with number interrupted file.old) file.new result }
{
    let off = offset_from(record.start, looked_up(interrupted, pc));
    let mut state = BLANK;
    let through = run_through(memory, arch, record.program, record.limit, off, &mut state);
    through.status?;
    let k = sp_column(arch);
    let before = file[k];
    apply_into(memory, arch, &state, file)?;
    advancing(number, before, file[k])?;
    let ret = return_offset(record, pc);
    let row = handler2_at(memory, through.end?, record.limit, ret)?;
    Ok(met_row(record, row))
}

// A row is asked for, and the frame may have one.
fn asked(rows: bool, interrupted: bool, record: Record, pc: usize) -> bool
    ensures { result ≡ (rows && not (rowless interrupted «record» pc)) }
{
    rows && !rowless(interrupted, record, pc)
}

// A frame with its record: its step, then its row if rows are asked for. `row_of` decides in which table a row is too, but would run the
// program once more (DECISIONS D32, D37).
fn meet_at(
    memory: &Memory<'_>,
    arch: u8,
    number: usize,
    interrupted: bool,
    rows: bool,
    record: Record,
    pc: usize,
    file: &mut [usize; COLUMNS],
) -> Result<Met, Failure>
    requires { (pc ≡ File.pc file.old) ×
        (Answer (Some «record») ≡ record_of (lent_by memory.now) arch number interrupted pc) }
    ensures { Meets rows arch (lent_by memory.now) (frame_with number interrupted file.old) file.new result }
{
    let row_asked = asked(rows, interrupted, record, pc);
    if row_asked {
        if record.version == VERSION2 {
            return meet_through(memory, arch, number, interrupted, record, pc, file);
        }
    }
    let at = looked_up(interrupted, pc);
    past(memory, arch, number, interrupted, record, at, file)?;
    if !row_asked {
        return Ok(Met { record, row: None });
    }
    let row = handler_at(memory, record.handlers, return_offset(record, pc) as usize)?;
    Ok(met_row(record, row))
}

// A frame: its step, then its row if rows are asked for; none where the walk ends. It is the only caller of its parts, so that the
// compiler puts them into it. `rows` is a flag and no closure: step and row are one pass for version 2 (D32), and it is compiled once.
pub fn meet(
    memory: &Memory<'_>,
    arch: u8,
    number: usize,
    interrupted: bool,
    rows: bool,
    file: &mut [usize; COLUMNS],
) -> Result<Option<Met>, Failure>
    ensures { MeetsAny rows arch (lent_by memory.now) (frame_with number interrupted file.old) file.new result }
{
    let pc = file[PC_COLUMN];
    match locate(memory, arch, number, interrupted, pc)? {
        Some(record) => {
            let met = meet_at(memory, arch, number, interrupted, rows, record, pc, file)?;
            Ok(Some(met))
        }
        None => Ok(None),
    }
}
