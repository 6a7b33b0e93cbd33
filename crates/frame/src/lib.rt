// The caller's registers: from an unwind state (`apply`) and from a version 1 frame word (`step`). Here stands what both share, slots
// and the return address, and what a frame word says.
// `apply` and `step` refuse with 28 first. `apply_into` and `step_into`, which change a file in place, are for the crates above,
// which have tested what is lent, the architecture and the count: there any architecture but 1 stands for 2, and a state has no
// pair past its arrays.
#![tactic(auto)]

ghost use Rattle.std.specs.Prelude.{◌≡◌, not, ◌&&◌, ◌*◌, ◌≤◌, ◌<◌, eqb, ltb, length, get_or};
ghost use Rattle.std.specs.Int.Count.{ones};
ghost use Rattle.failure.specs.Outcome.{Answer, outcome, settled};
ghost use Rattle.mem.specs.Given.{lent_by};
ghost use Rattle.arch.specs.Arch as Arch;
ghost use Rattle.arch.specs.File as File;
ghost use Rattle.frame.specs.Apply as Apply;
ghost use Rattle.frame.specs.Frame as Frame;
ghost use Rattle.frame.specs.Step as Step;
ghost use Rattle.frame.specs.Public as Public;
ghost use Rattle.frame.specs.Near.{deepest};

use arch::{COLUMNS, PC_COLUMN, require_known};
use failure::Failure;
use mem::{Memory, wrapping};

pub mod apply;
mod slots;
pub mod step;

// The kinds of a frame word, as its two lowest bits: the functions take every word, also one of kind 3.
pub const KIND_LEAF: u32 = 0;

pub const KIND_FP: u32 = 1;

pub const KIND_SP: u32 = 2;

// 28 for what is lent and not accepted, then for an unknown architecture.
#[tactic(auto, unfolding(crate::specs::Public::opened, mem::specs::Opening::opened))]
pub fn require_accepted(memory: &Memory<'_>, arch: u8) -> Result<(), Failure>
    ensures { outcome result ≡ settled (Public.opened (lent_by memory.now) arch) }
{
    memory.require_opened()?;
    require_known(arch)
}

// fp is 0 or no multiple of 8.
#[tactic(auto, unfolding(crate::specs::Apply::bad_fp))]
fn bad_fp(fp: usize) -> bool
    ensures { result ≡ Apply.bad_fp fp }
{
    fp == 0 || fp % 8 != 0
}

// The column of the return register.
fn ra_column(arch: u8) -> usize
    ensures { (Answer result ≡ File.column_of (Arch.numbers arch) (Arch.numbers arch).ra) × (result < File.columns) }
{
    // every file has the return register
    arch::column_of(arch, arch::numbers(arch).ra).unwrap()
}

// sp is the CFA, pc the stripped return address, in place.
fn return_to(arch: u8, cfa: usize, ra: usize, file: &mut [usize; COLUMNS])
    ensures { file.new ≡ Apply.returned (Arch.numbers arch) cfa ra file.old }
{
    file[arch::sp_column(arch)] = cfa;
    file[PC_COLUMN] = arch::stripped(arch, ra);
}

// Bits 0 and 1 of a frame word.
pub fn kind(frame: u32) -> u32
    ensures { result ≡ Frame.kind frame }
{
    // the two lowest bits
    frame % 4
}

// Bits 3 to 20.
pub fn mask(frame: u32) -> u32
    ensures { result ≡ Frame.mask frame }
{
    // without the 3 lowest bits, the 18 lowest of the rest
    frame / 8 % 0x4_0000
}

// Bits 21 to 31.
pub fn param(frame: u32) -> usize
    ensures { result ≡ Frame.param frame }
{
    // without the 21 lowest bits
    (frame / 0x20_0000) as usize
}

// Order bit 1 reverses the slots.
fn reversed(frame: u32) -> bool
    ensures { result ≡ Frame.reversed frame }
{
    // bit 2 is set
    frame / 4 % 2 == 1
}

// Where the slots of the saved registers begin.
fn first_slot(frame: u32) -> usize
    ensures { (result ≡ Frame.first_slot frame) × (result < 2048) }
{
    if kind(frame) == KIND_FP {
        return param(frame);
    }
    2
}

// The slot of saved register number k of n.
fn slot_of(frame: u32, n: usize, k: usize) -> usize
    requires { (k < n) × (n ≤ 18) }
    ensures { (result ≡ Frame.slot_of frame n k) × (result < 4096) }
{
    let slot = first_slot(frame);
    if reversed(frame) {
        return slot + (n - 1 - k);
    }
    slot + k
}

// The mask has a bit past the SAVED table.
#[tactic(auto, unfolding(crate::specs::Step::past_table))]
fn past_table(arch: u8, frame: u32) -> bool
    ensures { result ≡ Step.past_table (Arch.numbers arch) frame }
{
    let n = arch::saved_count(arch);
    // a bit is left when the lowest n, one for each register of the table, are gone
    mask(frame) >> n != 0
}

// How many registers the mask names, where it lies within the table.
fn named_count(frame: u32) -> usize
    ensures { result ≡ ones (Frame.mask frame) }
{
    // one for each bit that is set
    mask(frame).count_ones() as usize
}

// Leaf: sp + 16 * param, and what entry has above sp.
#[tactic(auto, unfolding(crate::specs::Step::leaf_cfa))]
fn leaf_cfa(arch: u8, frame: u32, first: bool, sp: usize) -> Result<usize, Failure>
    ensures { outcome result ≡ Step.leaf_cfa (Arch.numbers arch) frame first sp }
{
    if mask(frame) != 0 || !first {
        return Err(Failure::BadEkoRecord);
    }
    let a = arch::numbers(arch);
    Ok(wrapping::add(sp, 8 * a.entry_cfa as usize + 16 * param(frame)))
}

// Kind 1 with param below 3 and a mask.
fn saves_too_low(frame: u32) -> bool
    ensures { result ≡ (ltb (Frame.param frame) 3 && not (eqb (Frame.mask frame) 0)) }
{
    param(frame) < 3 && mask(frame) != 0
}

// Kind 1: fp + 16.
#[tactic(auto, unfolding(crate::specs::Step::fp_cfa))]
fn fp_cfa(frame: u32, first: bool, fp: usize) -> Result<usize, Failure>
    ensures { outcome result ≡ Step.fp_cfa frame first fp }
{
    if first {
        return Err(Failure::EkoAsyncFrame);
    }
    if saves_too_low(frame) {
        return Err(Failure::BadEkoRecord);
    }
    if bad_fp(fp) {
        return Err(Failure::Misaligned);
    }
    Ok(wrapping::add(fp, 16))
}

// Kind 2: sp + 16 * param.
#[tactic(auto, unfolding(crate::specs::Step::sp_cfa))]
fn sp_cfa(frame: u32, first: bool, sp: usize) -> Result<usize, Failure>
    ensures { outcome result ≡ Step.sp_cfa frame first sp }
{
    if first {
        return Err(Failure::EkoAsyncFrame);
    }
    Ok(wrapping::add(sp, 16 * param(frame)))
}

// The CFA, or what the word or fp is turned back with. One match by the word's kind: the three functions take other registers, so no
// closure is plainer.
#[tactic(auto, unfolding(crate::specs::Step::frame_cfa))]
fn frame_cfa(arch: u8, frame: u32, first: bool, file: &[usize; COLUMNS]) -> Result<usize, Failure>
    ensures { outcome result ≡ Step.frame_cfa (Arch.numbers arch) frame first file.now }
{
    if past_table(arch, frame) {
        return Err(Failure::BadEkoRecord);
    }
    match kind(frame) {
        KIND_LEAF => leaf_cfa(arch, frame, first, file[arch::sp_column(arch)]),
        KIND_FP => fp_cfa(frame, first, file[arch::fp_column(arch)]),
        KIND_SP => sp_cfa(frame, first, file[arch::sp_column(arch)]),
        _ => Err(Failure::BadEkoRecord),
    }
}

// The slot of the return address, 0 where it is still in its register, as `numbers` of `arch` has it: a slot is 1 or more.
#[tactic(auto, unfolding(crate::specs::Frame::ra_slot))]
fn ra_slot(arch: u8, frame: u32) -> usize
    ensures { result ≡ Frame.ra_slot (Arch.numbers arch) frame }
{
    if kind(frame) == KIND_LEAF {
        return arch::numbers(arch).entry_ra_slot as usize;
    }
    1
}

// The column of the register that a bit of the mask names.
fn saved_column(arch: u8, bit: usize) -> usize
    requires { bit < length (Arch.numbers arch).saved }
    ensures { (Answer result ≡ File.column_of (Arch.numbers arch) (get_or (Arch.numbers arch).saved bit 0)) × (result < File.columns) }
{
    // every file has the registers of its SAVED table
    arch::column_of(arch, arch::saved(arch, bit)).unwrap()
}

// No slot that a word with n saved registers reads is above this one.
#[tactic(auto, unfolding(crate::specs::Near::deepest))]
fn deepest(frame: u32, n: usize) -> usize
    requires { n ≤ 18 }
    ensures { (result ≡ deepest frame n) × (result < 4096) }
{
    (first_slot(frame) + n).max(3) - 1
}
