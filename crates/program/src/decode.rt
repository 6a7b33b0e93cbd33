// Operations read from memory: what a first byte says, and the numbers that follow it. These are for the forms of `run`, which
// have tested what is lent.
ghost use Rattle.std.specs.Prelude.{◌≡◌, ◌≤◌, ◌<◌};
ghost use Rattle.mem.specs.Given.{lent_by};
ghost use Rattle.leb.specs.Reader.{read_number, told};
ghost use Rattle.program.specs.Operation as Operation;
ghost use Rattle.program.specs.Answers.{decoded};

use cursor::{byte_from, uleb_from};
use failure::Failure;
use mem::Memory;

// An operation that sets the rules of the state.
#[derive(Clone, Copy)]
pub enum Rule {
    Units(u32),
    Save(u32, u32),
    Sp(u32),
    Fp(u32),
    Restore(u32),
    Entry,
    Frame,
    FrameRegs,
}

// An operation.
#[derive(Clone, Copy)]
pub enum Op {
    End,
    Advance(u32),
    Set(Rule),
    Remember,
    Recall,
}

// An operation that a number is still to complete.
#[derive(Clone, Copy)]
pub enum Incomplete {
    Save(u32),
    Sp,
    Fp,
    Units,
    Advance,
    Restore,
}

// What a first byte says: an operation, one that a number completes, a register and a slot to come, or no operation. No operation is a
// case like the others, and no `Option` around them: both callers match the four, and no failure is given here.
#[derive(Clone, Copy)]
pub enum Form {
    Whole(Op),
    WithNumber(Incomplete),
    WithPair,
    Unknown,
}

// What the bytes c0 to df say.
fn form_named(code: u8) -> Form
    requires { (192 ≤ code) × (code < 224) }
    ensures { result ≡ Operation.form_of code }
{
    match code {
        0xc0 => Form::WithNumber(Incomplete::Sp),
        0xc1 => Form::WithNumber(Incomplete::Fp),
        0xc2 => Form::WithNumber(Incomplete::Units),
        0xc3 => Form::WithNumber(Incomplete::Advance),
        0xc4 => Form::WithPair,
        0xc5 => Form::WithNumber(Incomplete::Restore),
        0xc6 => Form::Whole(Op::Set(Rule::Entry)),
        0xc7 => Form::Whole(Op::Remember),
        0xc8 => Form::Whole(Op::Recall),
        0xc9 => Form::Whole(Op::Set(Rule::Frame)),
        0xca => Form::Whole(Op::Set(Rule::FrameRegs)),
        _ => Form::Unknown,
    }
}

// What a first byte says.
pub fn form_of(code: u8) -> Form
    ensures { result ≡ Operation.form_of code }
{
    // a number in the byte counts from the first byte of its range: 00, 40, 80 or e0
    let n = code as u32;
    if code == 0 {
        return Form::Whole(Op::End);
    }
    if code < 0x40 {
        return Form::Whole(Op::Advance(n));
    }
    if code < 0x80 {
        return Form::Whole(Op::Set(Rule::Units(n - 0x40)));
    }
    if code < 0xc0 {
        return Form::WithNumber(Incomplete::Save(n - 0x80));
    }
    if code < 0xe0 {
        return form_named(code);
    }
    Form::Whole(Op::Set(Rule::Restore(n - 0xe0)))
}

// The operation that a number completes.
pub fn completed(o: Incomplete, n: u32) -> Op
    ensures { result ≡ Operation.completed o n }
{
    match o {
        Incomplete::Save(reg) => Op::Set(Rule::Save(reg, n)),
        Incomplete::Sp => Op::Set(Rule::Sp(n)),
        Incomplete::Fp => Op::Set(Rule::Fp(n)),
        Incomplete::Units => Op::Set(Rule::Units(n)),
        Incomplete::Advance => Op::Advance(n),
        Incomplete::Restore => Op::Set(Rule::Restore(n)),
    }
}

// The number at a position below the limit, of any length, and the position after it.
fn long_number_at(memory: &Memory<'_>, pos: usize, limit: usize) -> Result<(u32, usize), Failure>
    ensures { told result ≡ read_number (lent_by memory.now).regions limit pos }
{
    let (v, next) = uleb_from(memory, pos, limit)?;
    Ok((v as u32, next))
}

// The number at a position below the limit, and the position after it: a number of one byte is answered here; any other is read again
// from its first byte.
pub fn number_at(memory: &Memory<'_>, pos: usize, limit: usize) -> Result<(u32, usize), Failure>
    ensures { told result ≡ read_number (lent_by memory.now).regions limit pos }
{
    match byte_from(memory, pos, limit) {
        Ok(b) if b < 0x80 => Ok((b as u32, pos + 1)),
        _ => long_number_at(memory, pos, limit),
    }
}

// What follows a first byte: the operation, and the position after it.
fn rest_at(
    memory: &Memory<'_>,
    pos: usize,
    limit: usize,
    form: Form,
) -> Result<(Op, usize), Failure>
    ensures { decoded result ≡ Operation.rest_at (lent_by memory.now).regions limit pos form }
{
    match form {
        Form::Whole(op) => Ok((op, pos)),
        Form::WithNumber(o) => {
            let (n, next) = number_at(memory, pos, limit)?;
            Ok((completed(o, n), next))
        }
        Form::WithPair => {
            let (reg, mid) = number_at(memory, pos, limit)?;
            let (slot, next) = number_at(memory, mid, limit)?;
            Ok((Op::Set(Rule::Save(reg, slot)), next))
        }
        Form::Unknown => Err(Failure::BadEkoRecord),
    }
}

// The operation at a position below the limit, and the position after it.
pub fn decode(memory: &Memory<'_>, pos: usize, limit: usize) -> Result<(Op, usize), Failure>
    ensures { decoded result ≡ Operation.decode (lent_by memory.now).regions limit pos }
{
    let code = byte_from(memory, pos, limit)?;
    rest_at(memory, pos + 1, limit, form_of(code))
}
