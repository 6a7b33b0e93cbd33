// The caller's registers from an unwind state: ps-unwind's `apply`.
// Where all its slots lie in the stack, they are read there without a test for each.
ghost use Rattle.std.specs.Prelude.{◌≡◌, List, true, ℕ, ◌≤◌, ◌<◌, get_or, IfSome};
ghost use Rattle.failure.specs.Outcome.{outcome};
ghost use Rattle.mem.specs.Given.{lent_by};
ghost use Rattle.arch.specs.Arch as Arch;
ghost use Rattle.arch.specs.File as File;
ghost use Rattle.arch.specs.Answers.{InPlace};
ghost use Rattle.frame.specs.Layout.{pair_count, layout, base};
ghost use Rattle.frame.specs.Apply as Apply;
ghost use Rattle.frame.specs.Public as Public;
ghost use Rattle.frame.specs.Answers.{Partly};
ghost use Rattle.frame.specs.Near.{HasPairs, Usable, Within};

use crate::slots::{Anywhere, InStack, Slots};
use crate::{bad_fp, ra_column, require_accepted, return_to};
use arch::{COLUMNS, Next, Regs};
use failure::Failure;
use mem::{Memory, wrapping};
use state::{MAX_SAVED, State};

// How many pairs a state has: its arrays have no more than 32.
fn pair_count(state: &State) -> usize
    ensures { (result ≡ pair_count state.now.count) × (result ≤ 32) }
{
    state.count.min(MAX_SAVED)
}

// A pair whose register is known and whose slot is not 0.
fn usable(arch: u8, reg: u16, slot: u16) -> bool
    ensures { result ≡ true → Usable (Arch.numbers arch) reg slot }
{
    slot != 0 && arch::column_of(arch, reg).is_ok()
}

// The largest slot of a state's pairs, 0 if there is none; `None` if one of them is not usable.
fn reach(arch: u8, state: &State) -> Option<usize>
    ensures { IfSome result (λ depth. Within (Arch.numbers arch) state.now.regs state.now.slots depth (pair_count state.now.count)) }
{
    let n = pair_count(state);
    let mut depth: usize = 0;
    // by place, as the laws about pairs name them
    for i in 0..n {
        let slot = state.slots[i];
        if !usable(arch, state.regs[i], slot) {
            return None;
        }
        depth = depth.max(slot as usize);
    }
    Some(depth)
}

// Where every pair of a state is usable, and its slot in the stack.
fn in_stack<'a>(memory: &'a Memory<'a>, arch: u8, cfa: usize, state: &State) -> Option<InStack<'a>>
    ensures { IfSome result (λ s. (s.memory.now ≡ memory.now) × (s.cfa ≡ cfa) ×
        Within (Arch.numbers arch) state.now.regs state.now.slots s.depth (pair_count state.now.count)) }
{
    let depth = reach(arch, state)?;
    InStack::new(memory, cfa, depth)
}

// Each pair of a state in order: read, then stored.
fn restore_pairs<S: Slots>(
    slots: &S,
    arch: u8,
    state: &State,
    file: &mut [usize; COLUMNS],
) -> Result<(), Failure>
    requires { HasPairs (S.within slots.now) state.now }
    ensures { Partly
        (Apply.restore_pairs (Arch.numbers arch) (S.regions slots.now) (S.at slots.now) (layout state.now).pairs file.old)
        result file.new }
{
    let n = pair_count(state);
    for i in 0..n {
        let v = slots.load(state.slots[i] as usize)?;
        let k = arch::column_of(arch, state.regs[i])?;
        file[k] = v;
    }
    Ok(())
}

// Past the tests: the caller's registers, stored as they are read.
fn apply_from<S: Slots>(
    slots: &S,
    arch: u8,
    state: &State,
    file: &mut [usize; COLUMNS],
) -> Result<(), Failure>
    requires { HasPairs (S.within slots.now) state.now }
    ensures { Partly
        (Apply.apply_at (Arch.numbers arch) (S.regions slots.now) (S.at slots.now) (layout state.now).pairs file.old)
        result file.new }
{
    restore_pairs(slots, arch, state, file)?;
    let ra = file[ra_column(arch)];
    return_to(arch, slots.cfa(), ra, file);
    Ok(())
}

// The column of the base register.
fn base_column(arch: u8, cfa_fp: bool) -> usize
    ensures { ((file : List ℕ) → get_or file result 0 ≡ base (Arch.numbers arch) cfa_fp file) × (result < File.columns) }
{
    if cfa_fp {
        arch::fp_column(arch)
    } else {
        arch::sp_column(arch)
    }
}

// The CFA above a base, which is fp or sp; fp may be bad.
#[tactic(auto, unfolding(crate::specs::Apply::cfa_above))]
fn cfa_above(cfa_fp: bool, cfa_units: u32, base: usize) -> Result<usize, Failure>
    ensures { outcome result ≡ Apply.cfa_above cfa_fp cfa_units base }
{
    if cfa_fp && bad_fp(base) {
        return Err(Failure::Misaligned);
    }
    let cfa = wrapping::add(base, 8 * cfa_units as usize);
    if cfa == 0 {
        return Err(Failure::BadCfaRule);
    }
    Ok(cfa)
}

// The caller's registers from a state, in place, for any architecture number and count; a refusal leaves the file as it was.
pub fn apply_into(
    memory: &Memory<'_>,
    arch: u8,
    state: &State,
    file: &mut [usize; COLUMNS],
) -> Result<(), Failure>
    ensures { InPlace file.old
        (Apply.apply (Arch.numbers arch) (lent_by memory.now).regions (layout state.now) file.old)
        result file.new }
{
    let base = file[base_column(arch, state.cfa_fp)];
    let cfa = cfa_above(state.cfa_fp, state.cfa_units, base)?;
    if let Some(slots) = in_stack(memory, arch, cfa, state) {
        // no slot is refused there, so none leaves the file half restored
        return apply_from(&slots, arch, state, file);
    }
    let mut copy = *file;
    apply_from(&Anywhere { memory, cfa }, arch, state, &mut copy)?;
    *file = copy;
    Ok(())
}

// The tests for 28, then the caller's registers from a state in place.
fn apply_to(
    memory: &Memory<'_>,
    arch: u8,
    state: &State,
    file: &mut [usize; COLUMNS],
) -> Result<(), Failure>
    ensures { InPlace file.old (Public.apply (lent_by memory.now) arch state.now file.old) result file.new }
{
    require_accepted(memory, arch)?;
    if MAX_SAVED < state.count {
        return Err(Failure::BadOpening);
    }
    apply_into(memory, arch, state, file)
}

// apply: the caller's registers from a state.
pub fn apply(memory: &Memory<'_>, arch: u8, state: State, mut regs: Regs) -> Next
    ensures { InPlace regs.r (Public.apply (lent_by memory.now) arch state regs.r) result.status result.regs.r }
{
    let status = apply_to(memory, arch, &state, &mut regs.r);
    Next { regs, status }
}
