// The slots of a frame, each of 8 bytes, counted down from the CFA: read anywhere in what is lent, or in the stack alone, where it is
// known that they lie there.
ghost use Rattle.std.specs.Prelude.{◌≡◌, true, ℕ, ◌*◌, ◌≤◌, ◌<◌, length, IfSome};
ghost use Rattle.failure.specs.Outcome.{outcome};
ghost use Rattle.mem.specs.Memory as Lent;
ghost use Rattle.mem.specs.Given.{lent_by};
ghost use Rattle.frame.specs.Apply as Apply;
ghost use Rattle.frame.specs.Near.{Near, slot_in};

use failure::Failure;
use mem::load::u64_in;
use mem::{Memory, wrapping};

// How the slots of one frame are read: of what is lent, below which CFA, and which of them may be asked for.
pub trait Slots {
    ghost regions: { Self → Lent.Memory };

    ghost at: { Self → ℕ };

    ghost within: { Self → ℕ → Type 0 };

    // The CFA.
    fn cfa(&self) -> usize
        ensures { result ≡ at self.now };

    // What stands in a slot.
    fn load(&self, slot: usize) -> Result<usize, Failure>
        requires { within self.now slot }
        ensures { outcome result ≡ Apply.load_slot (regions self.now) (at self.now) slot };
}

// Below a CFA, anywhere.
#[derive(Clone, Copy)]
pub struct Anywhere<'a> {
    pub memory: &'a Memory<'a>,
    pub cfa: usize,
}

impl<'a> Slots for Anywhere<'a> {
    ghost regions = { λ s. (lent_by s.memory.now).regions };

    ghost at = { λ s. s.cfa };

    ghost within = { λ s slot. slot < 65536 };

    fn cfa(&self) -> usize {
        self.cfa
    }

    fn load(&self, slot: usize) -> Result<usize, Failure> {
        self.memory.load_u64(wrapping::sub(self.cfa, 8 * slot))
    }
}

// Below a CFA, in the stack: slots 1 to depth lie there, and no byte of them in the section.
#[derive(Clone, Copy)]
pub struct InStack<'a> {
    memory: &'a Memory<'a>,
    cfa: usize,
    depth: usize,
    ghost near: { Near memory.now cfa depth },
}

impl<'a> InStack<'a> {
    // `None` where the slots do not lie so.
    pub fn new(memory: &'a Memory<'a>, cfa: usize, depth: usize) -> Option<Self>
        ensures { IfSome result (λ s. (s.memory.now ≡ memory.now) × (s.cfa ≡ cfa) × (s.depth ≡ depth)) }
    {
        if !near(memory, cfa, depth) {
            return None;
        }
        Some(InStack { memory, cfa, depth })
    }
}

impl<'a> Slots for InStack<'a> {
    ghost regions = { λ s. (lent_by s.memory.now).regions };

    ghost at = { λ s. s.cfa };

    ghost within = { λ s slot. (0 < slot) × (slot ≤ s.depth) };

    fn cfa(&self) -> usize {
        self.cfa
    }

    // none is refused
    fn load(&self, slot: usize) -> Result<usize, Failure> {
        Ok(slot_in(self.memory.stack, self.cfa - self.memory.stack_base, slot))
    }
}

// Slots 1 to depth lie in the stack, and no byte of them in the section.
fn near(memory: &Memory<'_>, cfa: usize, depth: usize) -> bool
    ensures { result ≡ true → Near memory.now cfa depth }
{
    if cfa < memory.stack_base {
        return false;
    }
    let top = cfa - memory.stack_base;
    if memory.stack.len() < top || top / 8 < depth {
        return false;
    }
    if cfa <= memory.section_base {
        return true;
    }
    let low = cfa - 8 * depth;
    memory.section_base <= low && memory.section.len() <= low - memory.section_base
}

// What stands in a slot of the stack.
fn slot_in(stack: &[u8], top: usize, slot: usize) -> usize
    requires { (0 < slot) × (8 * slot ≤ top) × (top ≤ length stack.now) }
    ensures { result ≡ slot_in stack.now top slot }
{
    // the slot's bytes in the stack, where the CFA is at top
    let k = top - 8 * slot;
    // the part has 8 bytes, so it is not refused
    u64_in(&stack[k..k + 8]).unwrap_or(0)
}
