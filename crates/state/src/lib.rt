// Unwind states: ps-unwind's `State`, by value (document 01, "The state program"). `save_in` and `restore_in` change a state in
// place, and `save` and `restore` stand on them.
// `State::entry`, `State::restore` refuse an architecture other than 1 and 2 with 28. `at_entry` and `restore_in` are for the crates
// above, which have tested the number: there any other stands for 2. `save_in`, for them too, takes none.
#![tactic(auto)]

ghost use Rattle.std.specs.Prelude.{◌≡◌, ◌≤◌, ◌<◌, ◌-◌};
ghost use Rattle.failure.specs.Outcome.{outcome};
ghost use Rattle.arch.specs.Arch.{numbers};
ghost use Rattle.state.specs.State as Spec;
ghost use Rattle.state.specs.Pairs as Pairs;
ghost use Rattle.state.specs.Save as Save;
ghost use Rattle.state.specs.Restore as Restore;
ghost use Rattle.state.specs.Public as Public;
ghost use Rattle.state.specs.Answers.{Changes};

use arch::{numbers, require_known};
use failure::Failure;

// The most pairs that a state holds.
pub const MAX_SAVED: usize = 32;

// What is known of a frame at one instruction: its base, how many units of 8 bytes the CFA lies above it, and where registers were
// saved: regs[i] in slot slots[i], which is 8 * slots[i] bytes below the CFA, for i below count. What stands past the count is part
// of the state too. C reads it, and no library has a heap: two arrays and their count, and a flag for the base.
#[repr(C)]
#[derive(Clone, Copy, Debug, PartialEq, Eq)]
pub struct State {
    pub cfa_fp: bool,
    pub cfa_units: u32,
    pub count: usize,
    pub regs: [u16; 32],
    pub slots: [u16; 32],
}

// A state with nothing in it.
pub const BLANK: State = State {
    cfa_fp: false,
    cfa_units: 0,
    count: 0,
    regs: [0; 32],
    slots: [0; 32],
};

// A state after a call: the next one, or for a refusal the one that came in, which is handed back as well; so this is no
// `Result<State, Failure>`. `Next` of `arch` is another struct: a generic one would have no name for what is handed back.
#[derive(Clone, Copy)]
pub struct Next {
    pub status: Result<(), Failure>,
    pub state: State,
}

// The first of the first `count` places where a register stands.
fn seek(regs: &[u16; 32], count: usize, reg: usize) -> Option<usize>
    requires { count ≤ 32 }
    ensures { result ≡ Pairs.place_from count 0 regs.now reg }
{
    regs[..count].iter().position(|&r| r as usize == reg)
}

// The numbers after place i, up to place last, copied down one place.
fn copy_down(a: &mut [u16; 32], i: usize, last: usize)
    requires { (i ≤ last) × (last < 32) }
    ensures { a.new ≡ Restore.copy_down (last - i) i a.old }
{
    a.copy_within(i + 1..last + 1, i);
}

// The entry state.
pub fn at_entry(arch: u8) -> State
    ensures { result ≡ Spec.entry (numbers arch) }
{
    let a = numbers(arch);
    let mut st = State {
        cfa_units: a.entry_cfa,
        ..BLANK
    };
    if a.entry_ra_slot != 0 {
        st.regs[0] = a.ra;
        st.slots[0] = a.entry_ra_slot;
        st.count = 1;
    }
    st
}

impl State {
    // The entry state; for a refusal that of the numbers that stand for the architecture.
    pub fn entry(arch: u8) -> Next
        ensures { Changes (Spec.entry (numbers arch)) (Public.entry arch) result.status result.state }
    {
        Next {
            status: require_known(arch),
            state: at_entry(arch),
        }
    }

    // The slot of a register, if it is saved.
    pub fn slot(self, reg: u16) -> Result<Option<u16>, Failure>
        ensures { outcome result ≡ Public.slot self reg }
    {
        if MAX_SAVED < self.count {
            return Err(Failure::BadOpening);
        }
        match seek(&self.regs, self.count, reg as usize) {
            Some(i) => Ok(Some(self.slots[i])),
            None => Ok(None),
        }
    }

    // A register saved in a slot, in place; a refusal leaves the state as it was.
    pub fn save_in(&mut self, reg: usize, slot: usize) -> Result<(), Failure>
        ensures { Changes self.old (Save.save self.old reg slot) result self.new }
    {
        if MAX_SAVED < self.count {
            return Err(Failure::BadOpening);
        }
        if slot == 0 || 65535 < slot || 65535 < reg {
            return Err(Failure::BadEkoRecord);
        }
        match seek(&self.regs, self.count, reg) {
            Some(i) => self.slots[i] = slot as u16,
            None => {
                if self.count == MAX_SAVED {
                    return Err(Failure::TooManySaved);
                }
                self.regs[self.count] = reg as u16;
                self.slots[self.count] = slot as u16;
                self.count += 1;
            }
        }
        Ok(())
    }

    // A register's pair removed, if there is one.
    fn drop_in(&mut self, reg: usize)
        requires { self.old.count ≤ 32 }
        ensures { self.new ≡ Restore.without self.old reg }
    {
        if let Some(i) = seek(&self.regs, self.count, reg) {
            let last = self.count - 1;
            copy_down(&mut self.regs, i, last);
            copy_down(&mut self.slots, i, last);
            self.count = last;
        }
    }

    // A register back to its entry rule, in place, by the numbers of an architecture; a refusal leaves the state as it was.
    pub fn restore_in(&mut self, arch: u8, reg: usize) -> Result<(), Failure>
        ensures { Changes self.old (Restore.restore (numbers arch) self.old reg) result self.new }
    {
        let a = numbers(arch);
        if MAX_SAVED < self.count {
            return Err(Failure::BadOpening);
        }
        self.drop_in(reg);
        if reg != a.ra as usize || a.entry_ra_slot == 0 {
            return Ok(());
        }
        self.save_in(reg, a.entry_ra_slot as usize)
    }

    // The state with a register saved in a slot.
    pub fn save(mut self, reg: usize, slot: usize) -> Next
        ensures { Changes self (Save.save self reg slot) result.status result.state }
    {
        let status = self.save_in(reg, slot);
        Next {
            status,
            state: self,
        }
    }

    // A register back to its entry rule, in place; a refusal, 28 for an unknown architecture among them, leaves the state as it was.
    fn restore_known(&mut self, arch: u8, reg: usize) -> Result<(), Failure>
        ensures { Changes self.old (Public.restore arch self.old reg) result self.new }
    {
        require_known(arch)?;
        self.restore_in(arch, reg)
    }

    // A register back to its entry rule.
    pub fn restore(mut self, arch: u8, reg: usize) -> Next
        ensures { Changes self (Public.restore arch self reg) result.status result.state }
    {
        let status = self.restore_known(arch, reg);
        Next {
            status,
            state: self,
        }
    }
}
