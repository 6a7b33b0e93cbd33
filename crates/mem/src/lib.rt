// Memory as a call sees it: a section and a stack, each a lent slice with the address of its first byte.
// `opening` says whether what is lent is accepted. `load` takes any two slices and bases, and finds bytes at addresses in them.
// `wrapping` has sums of addresses.
#![tactic(auto)]

ghost use Rattle.std.specs.Prelude.{◌≡◌};

pub mod load;
pub mod opening;
pub mod wrapping;

// What a call is lent. The architecture is no field of it: `mem`, `leb`, `cursor` and `rows` read memory without one.
#[derive(Clone, Copy)]
pub struct Memory<'a> {
    pub section: &'a [u8],
    pub section_base: usize,
    pub stack: &'a [u8],
    pub stack_base: usize,
}

impl<'a> Memory<'a> {
    pub fn new(section: &'a [u8], section_base: usize, stack: &'a [u8], stack_base: usize) -> Self
        ensures { result ≡ record { section = section.entry; section_base = section_base; stack = stack.entry; stack_base = stack_base } }
    {
        Memory {
            section,
            section_base,
            stack,
            stack_base,
        }
    }
}
