// A case of a recorded list, a line of numbers in hexadecimal, and what it holds: numbers, the ranges that are lent, register files,
// states, records (oracle/README.md). It is read from the front, and each part once.
ghost use Rattle.std.specs.Prelude.{◌<◌, ◌≤◌};

use arch::{AARCH64, COLUMNS, PC_COLUMN, Regs};
use lookup::Record;
use mem::Memory;
use personality::Phase;
use state::State;
use std::alloc::{AllocError, Global};

// The most numbers of a line, and the most bytes of a range.
const WORDS: usize = 8192;

const MOST_BYTES: usize = 6144;

// The value of a lower-case hexadecimal digit; 0 for any other byte.
fn digit(c: u8) -> usize
    ensures { result < 16 }
{
    match c {
        b'0'..=b'9' => usize::from(c - b'0'),
        b'a'..=b'f' => usize::from(c - b'a') + 10,
        _ => 0,
    }
}

// A list as far as it is read: the numbers of its present line over those of the lines before it, how many these are, and the next one
// by its digits so far, modulo 2^64.
#[derive(Drop)]
pub struct Numbers {
    words: [usize; WORDS],
    count: usize,
    next: usize,
}

impl Numbers {
    pub fn new() -> Self {
        Numbers {
            words: [0; WORDS],
            count: 0,
            next: 0,
        }
    }

    // One byte more of the list. Whether a line ends with it. A line of more numbers than there is room for ends the list.
    pub fn feed(&mut self, c: u8) -> bool {
        let ends_line = c == b'\n';
        if !ends_line && c != b' ' {
            self.next = self.next.wrapping_mul(16).wrapping_add(digit(c));
            return false;
        }
        if self.count >= WORDS {
            return false;
        }
        self.words[self.count] = self.next;
        self.next = 0;
        self.count = if ends_line { 0 } else { self.count + 1 };
        ends_line
    }

    // The line that ends.
    pub fn line(&self, alloc: Global) -> Line<'_> {
        Line {
            words: &self.words,
            alloc,
        }
    }
}

// What is left of a line. A number that it lacks is that of the last line which had one there, or 0.
#[derive(Drop)]
pub struct Line<'a> {
    words: &'a [usize],
    alloc: Global,
}

// What a line lends.
#[derive(Drop)]
pub struct Lent {
    section: Vec<u8>,
    section_base: usize,
    stack: Vec<u8>,
    stack_base: usize,
}

impl Lent {
    pub fn memory(&self) -> Memory<'_> {
        Memory {
            section: &self.section,
            section_base: self.section_base,
            stack: &self.stack,
            stack_base: self.stack_base,
        }
    }
}

// How many numbers a register file has on a line.
fn file_size(arch: u8) -> usize
    ensures { (0 < result) × (result ≤ 41) }
{
    if arch == AARCH64 { 41 } else { 17 }
}

impl Line<'_> {
    // The next number.
    pub fn word(&mut self) -> usize {
        match self.words.split_first() {
            Some((word, rest)) => {
                self.words = rest;
                *word
            }
            None => 0,
        }
    }

    // The next number modulo 2^8, 2^16 or 2^32.
    pub fn u8(&mut self) -> u8 {
        (self.word() % 0x100) as u8
    }

    pub fn u16(&mut self) -> u16 {
        (self.word() % 0x1_0000) as u16
    }

    pub fn u32(&mut self) -> u32 {
        (self.word() % 0x1_0000_0000) as u32
    }

    // The next numbers.
    pub fn words<const N: usize>(&mut self) -> [usize; N] {
        let mut words = [0; N];
        for word in &mut words {
            *word = self.word();
        }
        words
    }

    // A flag: 1 is true, any other number false.
    pub fn flag(&mut self) -> bool {
        self.word() == 1
    }

    // A phase: 1 is search, any other number cleanup.
    pub fn phase(&mut self) -> Phase {
        match self.word() {
            1 => Phase::Search,
            _ => Phase::Cleanup,
        }
    }

    // LEN bytes, or as many as a range has at most.
    fn bytes(&mut self) -> Result<Vec<u8>, AllocError> {
        let mut bytes = vec![in self.alloc; 0; self.word().min(MOST_BYTES)]?;
        let (words, rest) = self.words.split_at(bytes.len().min(self.words.len()));
        for (byte, word) in bytes.iter_mut().zip(words) {
            *byte = (*word % 0x100) as u8;
        }
        self.words = rest;
        Ok(bytes)
    }

    // What is lent: SBASE SLEN bytes KBASE KLEN bytes.
    pub fn lent(&mut self) -> Result<Lent, AllocError> {
        let section_base = self.word();
        let section = self.bytes()?;
        let stack_base = self.word();
        let stack = self.bytes()?;
        Ok(Lent {
            section,
            section_base,
            stack,
            stack_base,
        })
    }

    // FILE: the first columns, and pc.
    pub fn file(&mut self, arch: u8) -> Regs {
        let mut r = [0; COLUMNS];
        let last = file_size(arch) - 1;
        for column in &mut r[..last] {
            *column = self.word();
        }
        r[PC_COLUMN] = self.word();
        Regs { r }
    }

    // STATE, which is FP UNITS COUNT N r1 s1 .. rN sN; pairs past the Nth are 0 0.
    pub fn state(&mut self) -> State {
        let cfa_fp = self.flag();
        let cfa_units = self.u32();
        let count = self.word();
        let n = self.word();
        let mut regs = [0; 32];
        let mut slots = [0; 32];
        for (reg, slot) in regs.iter_mut().zip(&mut slots).take(n) {
            *reg = self.u16();
            *slot = self.u16();
        }
        State {
            cfa_fp,
            cfa_units,
            count,
            regs,
            slots,
        }
    }

    // A record that a personality goes by: START HANDLERS VERSION FRAME PROGRAM LIMIT.
    pub fn record(&mut self) -> Record {
        Record {
            start: self.word(),
            end: 0,
            handlers: self.word(),
            version: self.u8(),
            frame: self.u32(),
            program: self.word(),
            limit: self.word(),
        }
    }
}
