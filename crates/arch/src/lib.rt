// The numbers of the two architectures, and register files (ps-unwind's arch/x86_64.rs and arch/aarch64.rs).
// A public function takes an architecture by its number, 1 aarch64 or 2 x86-64, and refuses any other with 28.
// `numbers`, the columns, `saved`, `saved_count` and `stripped` are for the crates above, which have tested the number: there
// any other stands for 2.
#![tactic(auto)]

ghost use Rattle.std.specs.Prelude.{◌≡◌, ◌<◌, length, get_or};
ghost use Rattle.failure.specs.Outcome.{outcome, settled};
ghost use Rattle.arch.specs.Arch as Arch;
ghost use Rattle.arch.specs.File as File;
ghost use Rattle.arch.specs.Public as Public;
ghost use Rattle.arch.specs.Answers.{in_code, InPlace};

use failure::Failure;

// The number of aarch64. An architecture is a number, and no enum: every number is taken, and any but these two refused with 28.
pub const AARCH64: u8 = 1;

// The number of x86-64.
pub const X86_64: u8 = 2;

// A landing pad finds the exception in this register, on both architectures.
pub const DATA_REG0: usize = 0;

// A landing pad finds 0 in this register, on both architectures.
pub const DATA_REG1: usize = 1;

// The columns of a register file: 0 to 31 by number, then registers 72 to 79 of aarch64, then pc.
pub const COLUMNS: usize = 41;

// The column of pc.
pub const PC_COLUMN: usize = 40;

// The DWARF numbers that the bits of a version 1 mask name on aarch64, from bit 0.
const SAVED_AARCH64: [u16; 18] = [
    19, 20, 21, 22, 23, 24, 25, 26, 27, 28, 72, 73, 74, 75, 76, 77, 78, 79,
];

// The DWARF numbers that the bits of a version 1 mask name on x86-64, from bit 0.
const SAVED_X86_64: [u16; 5] = [3, 12, 13, 14, 15];

// The numbers of one architecture.
#[derive(Clone, Copy)]
pub struct Arch2 {
    // The bytes that an advance counts.
    pub unit: usize,
    // The stack pointer, the frame pointer and the return register.
    pub sp: u16,
    pub fp: u16,
    pub ra: u16,
    // At entry: how many units of 8 bytes the CFA lies above sp, and the slot of the return address, 0 where it is in its
    // register, since a slot is 1 or more.
    pub entry_cfa: u32,
    pub entry_ra_slot: u16,
    // Registers below low stand in the column of their number. The high_count registers from number high on stand in the columns
    // from high_column on.
    pub low: u16,
    pub high: u16,
    pub high_count: u16,
    pub high_column: usize,
}

// The numbers of aarch64.
const AARCH64_NUMBERS: Arch2 = Arch2 {
    unit: 4,
    sp: 31,
    fp: 29,
    ra: 30,
    entry_cfa: 0,
    entry_ra_slot: 0,
    low: 32,
    high: 72,
    high_count: 8,
    high_column: 32,
};

// The numbers of x86-64.
const X86_64_NUMBERS: Arch2 = Arch2 {
    unit: 1,
    sp: 7,
    fp: 6,
    ra: 16,
    entry_cfa: 1,
    entry_ra_slot: 1,
    low: 16,
    high: 16,
    high_count: 1,
    high_column: 40,
};

// A register file of either architecture.
#[repr(C)]
#[derive(Clone, Copy, Debug, PartialEq, Eq)]
pub struct Regs {
    pub r: [usize; COLUMNS],
}

// A register file after a call: the next one, or for a refusal the one that came in, which is handed back as well; so this is no
// `Result<Regs, Failure>`. `Next` of `state` is another struct: a generic one would have no name for what is handed back.
#[derive(Clone, Copy)]
pub struct Next {
    pub regs: Regs,
    pub status: Result<(), Failure>,
}

// The numbers of an architecture.
pub fn numbers(arch: u8) -> Arch2
    ensures { result ≡ in_code (Arch.numbers arch) }
{
    if arch == AARCH64 {
        return AARCH64_NUMBERS;
    }
    X86_64_NUMBERS
}

// The column of a register.
pub fn column_of(arch: u8, reg: u16) -> Result<usize, Failure>
    ensures { outcome result ≡ File.column_of (Arch.numbers arch) reg }
{
    let a = numbers(arch);
    if reg < a.low {
        return Ok(reg as usize);
    }
    if reg < a.high {
        return Err(Failure::UnknownRegister);
    }
    let k = reg - a.high;
    if a.high_count <= k {
        return Err(Failure::UnknownRegister);
    }
    Ok(a.high_column + k as usize)
}

// The column of the frame pointer, which is its number.
pub fn fp_column(arch: u8) -> usize
    ensures { (result ≡ (Arch.numbers arch).fp) × (result < File.columns) }
{
    numbers(arch).fp as usize
}

// The column of the stack pointer, which is its number.
pub fn sp_column(arch: u8) -> usize
    ensures { (result ≡ (Arch.numbers arch).sp) × (result < File.columns) }
{
    numbers(arch).sp as usize
}

// The SAVED table.
#[tactic(auto, unfolding(crate::specs::Arch::numbers))]
fn saved_table(arch: u8) -> &'static [u16]
    ensures { result.now ≡ (Arch.numbers arch).saved }
{
    if arch == AARCH64 {
        return &SAVED_AARCH64;
    }
    &SAVED_X86_64
}

// The register that a bit of a version 1 mask names; 0 past the table.
pub fn saved(arch: u8, bit: usize) -> u16
    ensures { result ≡ get_or (Arch.numbers arch).saved bit 0 }
{
    saved_table(arch).get(bit).copied().unwrap_or(0)
}

// How many registers the SAVED table names.
pub fn saved_count(arch: u8) -> usize
    ensures { result ≡ length (Arch.numbers arch).saved }
{
    saved_table(arch).len()
}

// An address without the bits that strip_pac takes away.
pub fn stripped(arch: u8, address: usize) -> usize
    ensures { result ≡ Arch.strip_pac (Arch.numbers arch) address }
{
    if arch == AARCH64 {
        return address % 0x1_0000_0000_0000;
    }
    address
}

// Any number but 1 and 2 gets 28.
pub fn is_known(arch: u8) -> bool
    ensures { result ≡ Arch.is_known arch }
{
    arch == AARCH64 || arch == X86_64
}

// 28 for an unknown architecture.
pub fn require_known(arch: u8) -> Result<(), Failure>
    ensures { outcome result ≡ settled (Arch.known arch) }
{
    if is_known(arch) {
        return Ok(());
    }
    Err(Failure::BadOpening)
}

// strip_pac: the address modulo 2^48 on aarch64, itself on x86-64.
pub fn strip_pac(arch: u8, address: usize) -> Result<usize, Failure>
    ensures { outcome result ≡ Public.strip_pac arch address }
{
    require_known(arch)?;
    Ok(stripped(arch, address))
}

impl Regs {
    // A register's value.
    pub fn get(self, arch: u8, reg: u16) -> Result<usize, Failure>
        ensures { outcome result ≡ Public.get arch self.r reg }
    {
        require_known(arch)?;
        let k = column_of(arch, reg)?;
        Ok(self.r[k])
    }

    // A register set in place; a refusal leaves the file as it was.
    fn put(&mut self, arch: u8, reg: u16, value: usize) -> Result<(), Failure>
        ensures { InPlace self.old.r (Public.set arch self.old.r reg value) result self.new.r }
    {
        require_known(arch)?;
        let column = column_of(arch, reg)?;
        self.r[column] = value;
        Ok(())
    }

    // The file with a register set.
    pub fn set(mut self, arch: u8, reg: u16, value: usize) -> Next
        ensures { InPlace self.r (Public.set arch self.r reg value) result.status result.regs.r }
    {
        let status = self.put(arch, reg, value);
        Next { regs: self, status }
    }

    // The frame pointer.
    pub fn fp(self, arch: u8) -> Result<usize, Failure>
        ensures { outcome result ≡ Public.fp arch self.r }
    {
        require_known(arch)?;
        Ok(self.r[fp_column(arch)])
    }

    // The stack pointer.
    pub fn sp(self, arch: u8) -> Result<usize, Failure>
        ensures { outcome result ≡ Public.sp arch self.r }
    {
        require_known(arch)?;
        Ok(self.r[sp_column(arch)])
    }

    // The stack pointer set in place; a refusal leaves the file as it was.
    fn put_sp(&mut self, arch: u8, value: usize) -> Result<(), Failure>
        ensures { InPlace self.old.r (Public.set_sp arch self.old.r value) result self.new.r }
    {
        require_known(arch)?;
        self.r[sp_column(arch)] = value;
        Ok(())
    }

    // The file with the stack pointer set.
    pub fn set_sp(mut self, arch: u8, value: usize) -> Next
        ensures { InPlace self.r (Public.set_sp arch self.r value) result.status result.regs.r }
    {
        let status = self.put_sp(arch, value);
        Next { regs: self, status }
    }

    // pc.
    pub fn pc(self) -> usize
        ensures { result ≡ File.pc self.r }
    {
        self.r[PC_COLUMN]
    }

    // The file with pc set.
    pub fn set_pc(mut self, value: usize) -> Regs
        ensures { result.r ≡ File.set_pc self.r value }
    {
        self.r[PC_COLUMN] = value;
        self
    }
}
