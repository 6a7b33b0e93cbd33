// When what is lent is accepted.
ghost use Rattle.std.specs.Prelude.{◌≡◌};
ghost use Rattle.failure.specs.Outcome.{outcome};
ghost use Rattle.mem.specs.Given.{lent_by};
ghost use Rattle.mem.specs.Opening as Opening;

use crate::Memory;
use failure::Failure;

// A base address is 1 to 2^62, a length 0 to 2^31.
#[tactic(auto, unfolding(crate::specs::Opening::bounded))]
fn bounded(base: usize, size: usize) -> bool
    ensures { result ≡ Opening.bounded base size }
{
    1 <= base && base <= 0x4000_0000_0000_0000 && size <= 0x8000_0000
}

// Two ranges of addresses share none; an empty one shares none.
#[tactic(auto, unfolding(crate::specs::Opening::apart))]
fn apart(base: usize, size: usize, other: usize, other_size: usize) -> bool
    ensures { result ≡ Opening.apart base size other other_size }
{
    if size == 0 || other_size == 0 {
        return true;
    }
    if base <= other {
        return size <= other - base;
    }
    other_size <= base - other
}

impl Memory<'_> {
    // What is lent is accepted; otherwise whatever it is lent to refuses with 28.
    pub fn opens(&self) -> bool
        ensures { result ≡ Opening.opens (lent_by self.now) }
    {
        bounded(self.section_base, self.section.len())
            && apart(
                self.section_base,
                self.section.len(),
                self.stack_base,
                self.stack.len(),
            )
            && bounded(self.stack_base, self.stack.len())
    }

    // 28 for what is lent and not accepted.
    #[tactic(auto, unfolding(crate::specs::Opening::opened))]
    pub fn require_opened(&self) -> Result<(), Failure>
        ensures { outcome result ≡ Opening.opened (lent_by self.now) }
    {
        if !self.opens() {
            return Err(Failure::BadOpening);
        }
        Ok(())
    }
}
