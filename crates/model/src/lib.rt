// Every landing, and no other: the frame step, the two phases of an unwinding, document 01's call machine, and demand 3 about them.
// Only the types of the code stand here; the definitions are in specs/, the theorem in proofs/Theorem.antt.
#![tactic(auto)]

use arch::Regs;

// An unwinding: the frame that comes next, by its file, its number and whether it is interrupted; the exception; and the frame that
// the search chose, by its number and sp, if it chose one. C holds it between calls, so a flag and two numbers stand for an `Option`.
#[repr(C)]
#[derive(Clone, Copy)]
pub struct Unwinding {
    pub regs: Regs,
    pub number: usize,
    pub exception: usize,
    pub chosen_number: usize,
    pub chosen_sp: usize,
    pub interrupted: bool,
    pub chosen: bool,
}
