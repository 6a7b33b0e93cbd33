// Runs document 01's examples that are not marked, the examples of the DWARF standard, the edges of the rules for 28, and inputs for
// the three faults of document 02 (c), and compares.
// What comes out of each is written beside what should.
#![tactic(auto)]

use answer::Answer;
use arch::Regs;
use failure::Failure;
use failure::Failure::{BadOpening, EkoAmbiguousCallSite, UnknownRegister};
use mem::Memory;
use rows::Row;
use rows::handler2::handler2;
use state::State;
use std::io;

mod answer;
mod faults;

// Where the bytes of an example stand.
const BASE: usize = 0x1000;

// The greatest address that a section or a stack may have.
const TOP: usize = 0x4000_0000_0000_0000;

// Writes one comparison: a name, what came out, what should.
fn line<T: Answer + PartialEq>(rt: &impl Print, name: &str, got: T, should: T) -> io::Result<()> {
    let number = got.number();
    if got == should {
        println!(rt; "{name}: {number}, as it should be")
    } else {
        println!(rt; "{name}: {number}, and it should be {}", should.number())
    }
}

// The bytes as a section, beside an empty stack.
fn lent(bytes: &[u8]) -> Memory<'_> {
    Memory {
        section: bytes,
        section_base: BASE,
        stack: &bytes[..0],
        stack_base: 1,
    }
}

// The address after the bytes.
fn end_of(bytes: &[u8]) -> usize {
    BASE + bytes.len()
}

// The value of the uleb at the start of the bytes.
fn uleb_value(bytes: &[u8]) -> Result<usize, Failure> {
    let (value, _) = leb::read_uleb(&lent(bytes), BASE, end_of(bytes))?;
    Ok(value)
}

// The row of a return offset in the bytes of a version 2 table.
fn row_at(bytes: &[u8], ret: u32) -> Result<Option<Row>, Failure> {
    handler2(&lent(bytes), BASE, end_of(bytes), ret)
}

// Document 01's example that is not marked: a second delta of 0.
fn ambiguous_row(rt: &impl Print) -> io::Result<()> {
    let table = [2, 5, 0x29, 0, 0x40];
    let cases = [
        ("rows 02 05 29 00 40 at 5", 5, Err(EkoAmbiguousCallSite)),
        ("rows 02 05 29 00 40 at 4", 4, Ok(None)),
    ];
    for (name, ret, should) in cases {
        line(rt, name, row_at(&table, ret), should)?;
    }
    Ok(())
}

// The edges of the opening rule.
fn openings(rt: &impl Print) -> io::Result<()> {
    let section = b"four".as_slice();
    let more = b"more".as_slice();
    let empty = b"".as_slice();
    let cases = [
        ("section at 0", 0, more, 0x2000, false),
        ("section at 1", 1, more, 0x2000, true),
        ("stack at 2^62", 0x1000, more, TOP, true),
        ("stack at 2^62 + 1", 0x1000, more, TOP + 1, false),
        ("stack after the section", 0x1000, more, 0x1004, true),
        ("stack meets the section", 0x1000, more, 0x1003, false),
        ("section after the stack", 0x1004, more, 0x1000, true),
        ("empty stack in the section", 0x1000, empty, 0x1002, true),
        ("empty stack at 0", 0x1000, empty, 0, false),
    ];
    for (name, section_base, stack, stack_base, should) in cases {
        let memory = Memory {
            section,
            section_base,
            stack,
            stack_base,
        };
        line(rt, name, memory.opens(), should)?;
    }
    Ok(())
}

// Architectures other than 1 and 2 get 28, before an unknown register gets 11.
fn architectures(rt: &impl Print) -> io::Result<()> {
    let regs = Regs { r: [0; 41] };
    let cases = [
        ("register 99 of architecture 0", 0, 99, Err(BadOpening)),
        ("register 99 of architecture 1", 1, 99, Err(UnknownRegister)),
        ("register 16 of architecture 2", 2, 16, Ok(())),
        ("register 16 of architecture 3", 3, 16, Err(BadOpening)),
    ];
    for (name, arch, reg, should) in cases {
        line(rt, name, regs.get(arch, reg).map(|_| ()), should)?;
    }
    Ok(())
}

// A state that counts so many pairs, all of register 7.
fn counting(count: usize) -> State {
    State {
        cfa_fp: false,
        cfa_units: 0,
        count,
        regs: [7; 32],
        slots: [1; 32],
    }
}

// A state that counts more than 32 pairs gets 28.
fn counts(rt: &impl Print) -> io::Result<()> {
    let cases = [
        ("save beside 32 pairs", 32, Ok(())),
        ("save beside 33 pairs", 33, Err(BadOpening)),
    ];
    for (name, count, should) in cases {
        line(rt, name, counting(count).save(7, 2).status, should)?;
    }
    Ok(())
}

// The DWARF standard's examples of unsigned LEB128 (version 5, section 7.6).
fn dwarf_uleb(rt: &impl Print) -> io::Result<()> {
    let cases = [
        ("uleb 02", [2].as_slice(), 2),
        ("uleb 7f", &[127], 127),
        ("uleb 80 01", &[0x80, 1], 128),
        ("uleb 81 01", &[0x81, 1], 129),
        ("uleb 82 01", &[0x82, 1], 130),
        ("uleb b9 64", &[0xb9, 0x64], 12857),
    ];
    for (name, bytes, should) in cases {
        line(rt, name, uleb_value(bytes), Ok(should))?;
    }
    Ok(())
}

fn main(rt: HostRuntime) -> io::Result<()> {
    dwarf_uleb(&rt)?;
    ambiguous_row(&rt)?;
    openings(&rt)?;
    architectures(&rt)?;
    counts(&rt)?;
    faults::programs(&rt)?;
    faults::rows(&rt)?;
    faults::reason(&rt)?;
    faults::registers(&rt)
}
