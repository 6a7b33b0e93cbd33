// Captures (docs/CAPTURE.md), and what is wrong with an input that is none.
use arch::{AARCH64, COLUMNS, Regs, X86_64};
use mem::Memory;
use std::error::Error;
use std::fmt;
use unwind::Throw;

// The first eight bytes of a capture.
const MAGIC: &[u8] = b"MORTHCAP";

const VERSION: u32 = 1;

// The bytes before the section's, and the most that a capture has.
const HEAD: usize = 400;

pub const MOST: usize = 1048575;

// Where the numbers of the head stand.
const AT_VERSION: usize = 8;

const AT_ARCH: usize = 12;

const AT_SECTION: usize = 16;

const AT_SECTION_LENGTH: usize = 24;

const AT_STACK: usize = 32;

const AT_STACK_LENGTH: usize = 40;

const AT_REGS: usize = 48;

const AT_PC: usize = 376;

const AT_INTERRUPTED: usize = 384;

const AT_EXCEPTION: usize = 392;

// A captured failure.
#[derive(Clone, Copy)]
pub struct Capture<'a> {
    pub memory: Memory<'a>,
    pub arch: u8,
    pub throw: Throw,
}

// The parts of a capture.
#[derive(Clone, Copy, Debug, PartialEq, Eq)]
pub enum Part {
    Head,
    Section,
    Stack,
}

// Why an input is no capture: cut after so many bytes in a part, or with so many bytes too many.
#[derive(Clone, Copy, Debug, PartialEq, Eq)]
pub enum Broken {
    Empty,
    TooLong,
    Foreign,
    Version(u32),
    Interrupted(usize),
    Cut(usize, Part),
    Overlong(usize),
}

impl fmt::Display for Part {
    fn fmt<W: fmt::Write>(&self, f: &mut fmt::Formatter<W>) -> fmt::Result {
        match self {
            Part::Head => write!(f, "head of {HEAD}"),
            Part::Section => write!(f, "section"),
            Part::Stack => write!(f, "stack"),
        }
    }
}

impl fmt::Display for Broken {
    fn fmt<W: fmt::Write>(&self, f: &mut fmt::Formatter<W>) -> fmt::Result {
        match self {
            Broken::Empty => write!(f, "broken capture: empty input"),
            Broken::TooLong => write!(f, "broken capture: more than {MOST} bytes"),
            Broken::Foreign => write!(f, "no capture: the input does not begin with MORTHCAP"),
            Broken::Version(n) => write!(
                f,
                "broken capture: version {n}, and only {VERSION} is known"
            ),
            Broken::Interrupted(n) => write!(
                f,
                "broken capture: interrupted is {n}, and neither 0 nor 1"
            ),
            Broken::Cut(n, part) => write!(f, "broken capture: cut after {n} bytes, in its {part}"),
            Broken::Overlong(n) => write!(f, "broken capture: {n} bytes too many after its stack"),
        }
    }
}

impl Error for Broken {}

// The N bytes at an offset of the input, if it has them.
fn bytes_at<const N: usize>(input: &[u8], at: usize) -> Option<&[u8; N]> {
    input.get(at..)?.first_chunk()
}

// The u64 at an offset of the input; 0 past its end.
fn word(input: &[u8], at: usize) -> usize {
    bytes_at(input, at).map_or(0, |bytes| usize::from_le_bytes(*bytes))
}

// The u32 at an offset of the input, if it has one there. `replay` has the like: a crate for these lines would be no plainer.
fn half(input: &[u8], at: usize) -> Option<u32> {
    bytes_at(input, at).map(|bytes| u32::from_le_bytes(*bytes))
}

// The architecture by its number; one that no section can name is 0, which is refused like every unknown one.
fn architecture(n: u32) -> u8 {
    u8::try_from(n).unwrap_or(0)
}

// The register file of a capture, column by column.
fn registers(input: &[u8]) -> Regs {
    let mut r = [0; COLUMNS];
    for (k, column) in r.iter_mut().enumerate() {
        *column = word(input, AT_REGS + 8 * k);
    }
    Regs { r }
}

// What a capture says beside its memory.
fn throw_of(input: &[u8]) -> Throw {
    Throw {
        regs: registers(input),
        pc: word(input, AT_PC),
        interrupted: word(input, AT_INTERRUPTED) == 1,
        exception: word(input, AT_EXCEPTION),
    }
}

// The name of an architecture. No `Display`: it is a number here, and no type of this crate.
pub fn arch_name(arch: u8) -> &'static str {
    match arch {
        AARCH64 => "aarch64",
        X86_64 => "x86-64",
        _ => "unknown architecture",
    }
}

// An input that begins as a capture of this version does.
fn require_known(input: &[u8]) -> Result<(), Broken> {
    if input.is_empty() {
        return Err(Broken::Empty);
    }
    if MOST < input.len() {
        return Err(Broken::TooLong);
    }
    if !input.starts_with(MAGIC) {
        return Err(Broken::Foreign);
    }
    match half(input, AT_VERSION) {
        Some(VERSION) | None => {}
        Some(other) => return Err(Broken::Version(other)),
    }
    match word(input, AT_INTERRUPTED) {
        0 | 1 => Ok(()),
        other => Err(Broken::Interrupted(other)),
    }
}

impl<'a> Capture<'a> {
    // The capture that an input is. The lengths of its parts must make up its own.
    pub fn read(input: &'a [u8]) -> Result<Self, Broken> {
        require_known(input)?;
        let n = input.len();
        let (head, rest) = input
            .split_at_checked(HEAD)
            .ok_or(Broken::Cut(n, Part::Head))?;
        let (section, rest) = rest
            .split_at_checked(word(head, AT_SECTION_LENGTH))
            .ok_or(Broken::Cut(n, Part::Section))?;
        let (stack, rest) = rest
            .split_at_checked(word(head, AT_STACK_LENGTH))
            .ok_or(Broken::Cut(n, Part::Stack))?;
        if !rest.is_empty() {
            return Err(Broken::Overlong(rest.len()));
        }
        Ok(Capture {
            memory: Memory {
                section,
                section_base: word(head, AT_SECTION),
                stack,
                stack_base: word(head, AT_STACK),
            },
            arch: half(head, AT_ARCH).map_or(0, architecture),
            throw: throw_of(head),
        })
    }
}
