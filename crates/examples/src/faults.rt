// Document 02 (c): inputs for 30 (the limit is met before a needed byte), 31 (a uleb without end or too large) and 32 (a 33rd
// register), and for the 18 beside them.
use crate::{BASE, counting, end_of, lent, line, row_at};
use arch::Regs;
use failure::Failure;
use failure::Failure::{BadEkoRecord, BadUleb, EkoTruncated, TooManySaved};
use lookup::Record;
use mem::Memory;
use personality::{Phase, personality};
use std::io;

// The after-address of a run at offset 0 of the bytes, which end at the limit.
fn after_run(arch: u8, bytes: &[u8], program: usize) -> Result<usize, Failure> {
    let ended = program::run(&lent(bytes), arch, program, end_of(bytes), 0);
    ended.status?;
    Ok(ended.after)
}

// Operations and their numbers.
pub fn programs(rt: &impl Print) -> io::Result<()> {
    let cases = [
        (
            "program 40, without END",
            [0x40].as_slice(),
            BASE,
            EkoTruncated,
        ),
        ("a program at its limit", &[0x00], BASE + 1, EkoTruncated),
        ("program c0 80", &[0xc0, 0x80], BASE, EkoTruncated),
        (
            "program c0 80 80 80 80 80 00",
            &[0xc0, 0x80, 0x80, 0x80, 0x80, 0x80, 0x00],
            BASE,
            BadUleb,
        ),
        (
            "program c0 ff ff ff ff 1f 00",
            &[0xc0, 0xff, 0xff, 0xff, 0xff, 0x1f, 0x00],
            BASE,
            BadUleb,
        ),
        ("program d0 00", &[0xd0, 0x00], BASE, BadEkoRecord),
    ];
    for (name, bytes, program, should) in cases {
        line(rt, name, after_run(2, bytes, program), Err(should))?;
    }
    Ok(())
}

// The numbers of a version 2 table, and the delta that is peeked.
pub fn rows(rt: &impl Print) -> io::Result<()> {
    let cases = [
        (
            "rows 02 05 29 at 5",
            [2, 5, 0x29].as_slice(),
            5,
            Err(EkoTruncated),
        ),
        ("rows 02 05 29 at 4", &[2, 5, 0x29], 4, Ok(None)),
        (
            "rows 02 05 29 80 80 80 80 80 at 5",
            &[2, 5, 0x29, 0x80, 0x80, 0x80, 0x80, 0x80],
            5,
            Err(BadUleb),
        ),
        ("rows 02 00 at 5", &[2, 0], 5, Err(EkoTruncated)),
    ];
    for (name, bytes, ret, should) in cases {
        line(rt, name, row_at(bytes, ret), should)?;
    }
    Ok(())
}

// A record with a table and no program: its rows are looked for at address 0, which is its limit.
pub fn reason(rt: &impl Print) -> io::Result<()> {
    let record = Record {
        start: 5,
        end: 6,
        frame: 0,
        handlers: 1,
        program: 0,
        limit: 0,
        version: 2,
    };
    let memory = Memory {
        section: &[0],
        section_base: 1,
        stack: &[],
        stack_base: 2,
    };
    let regs = Regs { r: [0; 41] }.set_pc(5);
    let decided = personality(&memory, 2, Phase::Search, 0, false, record, regs);
    line(
        rt,
        "rows without a program, at their limit",
        decided.reason.map(|reason| reason.code() as usize),
        Err(EkoTruncated),
    )
}

// Saves beside 32 pairs, a restore that saves 16 again there, and c9 beside 31 pairs without 29 and 30.
pub fn registers(rt: &impl Print) -> io::Result<()> {
    let cases = [
        ("a 33rd register", 99, 1, TooManySaved),
        ("a 33rd register in slot 0", 99, 0, BadEkoRecord),
        ("a 33rd register, 70000", 70000, 1, BadEkoRecord),
    ];
    for (name, reg, slot, should) in cases {
        line(rt, name, counting(32).save(reg, slot).status, Err(should))?;
    }
    line(
        rt,
        "16 restored beside 32 pairs",
        counting(32).restore(2, 16).status,
        Err(TooManySaved),
    )?;
    // registers 32 to 62, each saved in slot 1; then c9 and END
    let bytes =
        b"\xa0\x01\xa1\x01\xa2\x01\xa3\x01\xa4\x01\xa5\x01\xa6\x01\xa7\x01\xa8\x01\xa9\x01\xaa\x01\xab\x01\xac\x01\xad\x01\xae\x01\xaf\x01\xb0\x01\xb1\x01\xb2\x01\xb3\x01\xb4\x01\xb5\x01\xb6\x01\xb7\x01\xb8\x01\xb9\x01\xba\x01\xbb\x01\xbc\x01\xbd\x01\xbe\x01\xc9\x00";
    line(
        rt,
        "c9 beside 31 pairs",
        after_run(1, bytes, BASE),
        Err(TooManySaved),
    )
}
