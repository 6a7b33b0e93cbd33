// Version 2 state programs: ps-unwind's `run` (document 01, "The state program").
// `run` refuses with 28 first. `run_program`, `run_into` and `run_through` are for the crates above, which have tested what is lent and
// the architecture: any architecture but 1 stands for 2 there.
#![tactic(auto)]

ghost use Rattle.std.specs.Prelude.{◌≡◌, List, ℕ, ◌+◌, ◌-◌, ◌*◌, ◌^◌, ◌≤◌, length, IfOk};
ghost use Rattle.failure.specs.Failure.{number};
ghost use Rattle.failure.specs.Outcome.{outcome};
ghost use Rattle.mem.specs.Given.{lent_by};
ghost use Rattle.arch.specs.Arch.{numbers};
ghost use Rattle.state.specs.declared.State.{State};
ghost use Rattle.state.specs.State.{entry};
ghost use Rattle.program.specs.Operation as Operation;
ghost use Rattle.program.specs.Near.{Near};
ghost use Rattle.program.specs.Rule as Following;
ghost use Rattle.program.specs.Run as Run;
ghost use Rattle.program.specs.Public as Public;
ghost use Rattle.program.specs.Answers.{decoded, followed, turn, stepped, Room, stopped, given, ended, through, through_in};

use arch::{is_known, numbers};
use decode::{Form, Op, Rule, completed, decode, form_of};
use failure::Failure;
use mem::Memory;
use state::{State, at_entry};

pub mod decode;

// The most states that a program remembers.
pub const MAX_REMEMBER: usize = 4;

// What a run gives: the state at the offset, and the after-address, which is not 0 only where END was read. A refused run has the
// entry state and 0, which are handed back as well; so this is no `Result`.
#[derive(Clone, Copy)]
pub struct Ended {
    pub status: Result<(), Failure>,
    pub state: State,
    pub after: usize,
}

// What two runs give beside the state of the first, which is lent: the status of the first, which for a refusal leaves the entry state
// there; and the after-address of the second.
#[derive(Clone, Copy)]
pub struct Through {
    pub status: Result<(), Failure>,
    pub end: Result<usize, Failure>,
}

// What an operation leaves to the loop: to go on at an offset, or with other rules; to remember the state, or to recall one; or to end
// with an after-address. No `ControlFlow`: what it goes on with would be an enum of its own beside it.
#[derive(Clone, Copy)]
enum Step {
    At(usize),
    Set,
    Remember,
    Recall,
    Ends(usize),
}

// fp saved at 2, then the return register at 1, in place.
fn frame_regs(state: &mut State, arch: u8) -> Result<(), Failure>
    ensures { followed result state.new ≡ Following.frame_regs (numbers arch) state.old }
{
    let a = numbers(arch);
    state.save_in(a.fp as usize, 2)?;
    state.save_in(a.ra as usize, 1)
}

// A state changed in place by an operation that sets its rules.
fn follow(state: &mut State, arch: u8, rule: Rule) -> Result<(), Failure>
    ensures { followed result state.new ≡ Following.follow (numbers arch) rule state.old }
{
    match rule {
        Rule::Units(n) => state.cfa_units = n,
        Rule::Save(reg, slot) => return state.save_in(reg as usize, slot as usize),
        Rule::Sp(n) => {
            state.cfa_fp = false;
            state.cfa_units = n;
        }
        Rule::Fp(n) => {
            state.cfa_fp = true;
            state.cfa_units = n;
        }
        Rule::Restore(reg) => return state.restore_in(arch, reg as usize),
        Rule::Entry => *state = at_entry(arch),
        Rule::Frame => {
            state.cfa_fp = true;
            state.cfa_units = 2;
            return frame_regs(state, arch);
        }
        Rule::FrameRegs => return frame_regs(state, arch),
    }
    Ok(())
}

// An advance by so many units in a run up to an offset.
fn advance(at: usize, n: u32, arch: u8, off: usize) -> Result<Step, Failure>
    ensures turn { (st : State) (states : List State) →
        turn (outcome result) (λ s. stepped s st states at) ≡
        Run.advance off (at + n * (numbers arch).unit) (record { state = st; remembered = states; at = at }) }
    ensures room { (depth : ℕ) → IfOk result (λ s. Room s depth) }
{
    let a = numbers(arch);
    let to = at
        .checked_add(n as usize * a.unit)
        .ok_or(Failure::BadEkoRecord)?;
    if off < to {
        return Ok(Step::Ends(0));
    }
    Ok(Step::At(to))
}

// One more state to remember, beside so many.
fn remember(depth: usize) -> Result<Step, Failure>
    ensures turn { (st : State) (states : List State) (at : ℕ) → length states ≡ depth →
        turn (outcome result) (λ s. stepped s st states at) ≡
        Run.remember (record { state = st; remembered = states; at = at }) }
    ensures room { IfOk result (λ s. Room s depth) }
{
    if depth == MAX_REMEMBER {
        return Err(Failure::RememberStackOverflow);
    }
    Ok(Step::Remember)
}

// The last of so many remembered states to recall.
fn recall(depth: usize) -> Result<Step, Failure>
    ensures turn { (st : State) (states : List State) (at : ℕ) → length states ≡ depth →
        turn (outcome result) (λ s. stepped s st states at) ≡
        Run.recall states (record { state = st; remembered = states; at = at }) }
    ensures room { IfOk result (λ s. Room s depth) }
{
    if depth == 0 {
        return Err(Failure::BadEkoRecord);
    }
    Ok(Step::Recall)
}

// An operation, with the address after it, on the state in a run up to an offset. What is remembered is left to the loop.
fn act(
    state: &mut State,
    depth: usize,
    at: usize,
    arch: u8,
    off: usize,
    next: usize,
    op: Op,
) -> Result<Step, Failure>
    ensures turn { (states : List State) → length states ≡ depth →
        turn (outcome result) (λ s. stepped s state.new states at) ≡
        Run.act (numbers arch) off next op
        (record { state = state.old; remembered = states; at = at }) }
    ensures room { IfOk result (λ s. Room s depth) }
{
    match op {
        Op::End => Ok(Step::Ends(next)),
        Op::Advance(n) => advance(at, n, arch, off),
        Op::Set(rule) => {
            follow(state, arch, rule)?;
            Ok(Step::Set)
        }
        Op::Remember => remember(depth),
        Op::Recall => recall(depth),
    }
}

// Two runs, the second of which was refused: past the first offset, where the first had ended with the state that is kept, or before it.
// The state is put in place, or the entry state.
fn refused(state: &mut State, kept: &Option<State>, arch: u8, f: Failure) -> Through
    ensures { through_in result state.new ≡ stopped (entry (numbers arch)) kept.now (number f) }
{
    let status = match kept {
        Some(first) => {
            *state = *first;
            Ok(())
        }
        None => {
            *state = at_entry(arch);
            Err(f)
        }
    };
    Through {
        status,
        end: Err(f),
    }
}

// An address: the bytes from the program up to it, if there are any, surely lie in the section and below the limit.
fn near_end(memory: &Memory<'_>, program: usize, limit: usize) -> usize
    ensures { Near memory.now.section.now memory.now.section_base limit program result }
{
    let base = memory.section_base;
    if program < base || limit < base {
        return 0;
    }
    let size = memory.section.len();
    if size < limit - base {
        return base + size;
    }
    limit
}

// An operation that `decode` read, rebuilt case by case: the compiler then keeps the result of `operation_at` in registers, without which
// long numbers take a tenth longer.
fn again(d: Result<(Op, usize), Failure>) -> Result<(Op, usize), Failure>
    ensures { result ≡ d }
{
    match d {
        Ok((op, next)) => Ok((op, next)),
        Err(f) => Err(f),
    }
}

// The operation at a position below the limit, and the position after it. Where its bytes come before the end and its number, if it has
// one, is one byte, they are read by index; everywhere else `decode` answers.
fn operation_at(
    memory: &Memory<'_>,
    pos: usize,
    limit: usize,
    end: usize,
) -> Result<(Op, usize), Failure>
    requires { Near memory.now.section.now memory.now.section_base limit pos end }
    ensures { decoded result ≡ Operation.decode (lent_by memory.now).regions limit pos }
{
    if end <= pos {
        return again(decode(memory, pos, limit));
    }
    let next = pos + 1;
    match form_of(memory.section[pos - memory.section_base]) {
        Form::Whole(op) => Ok((op, next)),
        Form::WithNumber(o) => {
            if end <= next {
                return again(decode(memory, pos, limit));
            }
            let b = memory.section[next - memory.section_base];
            if 0x80 <= b {
                return again(decode(memory, pos, limit));
            }
            Ok((completed(o, b as u32), next + 1))
        }
        Form::WithPair | Form::Unknown => again(decode(memory, pos, limit)),
    }
}

// Two runs of the program at an address in one: the state at an offset, in place of the one that is lent, and the end at the same or a
// later one. Program 0 is the entry state everywhere. All runs go through this one function, so that the compiler puts its parts into
// it.
fn run_both(
    memory: &Memory<'_>,
    arch: u8,
    program: usize,
    limit: usize,
    off: usize,
    last: usize,
    state: &mut State,
) -> Through
    requires { off ≤ last }
    ensures { through_in result state.new ≡
        through (entry (numbers arch))
        (Run.run (lent_by memory.now).regions (numbers arch) program limit off)
        (Run.run (lent_by memory.now).regions (numbers arch) program limit last) }
{
    *state = at_entry(arch);
    if program == 0 {
        return Through {
            status: Ok(()),
            end: Ok(0),
        };
    }
    // the state at the offset, once the run has passed it
    let mut kept = None;
    // no heap: at most four states, of which the first `depth` are remembered
    let mut remembered = [*state; MAX_REMEMBER];
    let mut depth: usize = 0;
    let mut at: usize = 0;
    let end = near_end(memory, program, limit);
    let mut pos = program;
    // the form that the papers name: a labelled loop over operations, left with the state and the after-address
    'ops: loop {
        let (op, next) = match operation_at(memory, pos, limit, end) {
            Ok((op, next)) => (op, next),
            Err(f) => break 'ops refused(state, &kept, arch, f),
        };
        pos = next;
        match act(state, depth, at, arch, last, next, op) {
            Ok(Step::At(to)) => {
                at = to;
                if off < to && kept.is_none() {
                    kept = Some(*state);
                }
            }
            Ok(Step::Set) => {}
            Ok(Step::Remember) => {
                remembered[depth] = *state;
                depth += 1;
            }
            Ok(Step::Recall) => {
                depth -= 1;
                *state = remembered[depth];
            }
            Ok(Step::Ends(after)) => {
                if let Some(first) = kept {
                    *state = first;
                }
                break 'ops Through {
                    status: Ok(()),
                    end: Ok(after),
                };
            }
            Err(f) => break 'ops refused(state, &kept, arch, f),
        }
    }
}

// A run of the program at an address up to an offset, as in `run_program`; its state is in place of the one that is lent.
pub fn run_into(
    memory: &Memory<'_>,
    arch: u8,
    program: usize,
    limit: usize,
    off: usize,
    state: &mut State,
) -> Through
    ensures { through_in result state.new ≡
        through (entry (numbers arch))
        (Run.run (lent_by memory.now).regions (numbers arch) program limit off)
        (Run.run (lent_by memory.now).regions (numbers arch) program limit off) }
{
    run_both(memory, arch, program, limit, off, off, state)
}

// Two runs of the program at an address in one pass: the status and the state of the one up to an offset, in place of the one that is
// lent, and the after-address of the one through all offsets.
pub fn run_through(
    memory: &Memory<'_>,
    arch: u8,
    program: usize,
    limit: usize,
    off: usize,
    state: &mut State,
) -> Through
    ensures { through_in result state.new ≡
        through (entry (numbers arch))
        (Run.run (lent_by memory.now).regions (numbers arch) program limit off)
        (Run.run (lent_by memory.now).regions (numbers arch) program limit (2 ^ 64 - 1)) }
{
    run_both(memory, arch, program, limit, off, usize::MAX, state)
}

// A run of the program at an address up to an offset; program 0 is the entry state everywhere.
pub fn run_program(memory: &Memory<'_>, arch: u8, program: usize, limit: usize, off: usize) -> Ended
    ensures { given result ≡
        ended (entry (numbers arch)) (Run.run (lent_by memory.now).regions (numbers arch) program limit off) }
{
    let mut state = at_entry(arch);
    let ran = run_into(memory, arch, program, limit, off, &mut state);
    Ended {
        status: ran.status,
        state,
        after: ran.end.unwrap_or(0),
    }
}

// A run of the program at an address up to an offset, in what is lent. For an unknown architecture the entry state is that of
// the numbers that stand for it.
pub fn run(memory: &Memory<'_>, arch: u8, program: usize, limit: usize, off: usize) -> Ended
    ensures { given result ≡
        ended (entry (numbers arch)) (Public.run (lent_by memory.now) arch program limit off) }
{
    if !memory.opens() || !is_known(arch) {
        return Ended {
            status: Err(Failure::BadOpening),
            state: at_entry(arch),
            after: 0,
        };
    }
    run_program(memory, arch, program, limit, off)
}
