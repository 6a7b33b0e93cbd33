// Why a call is turned back (document 01, "Turned back, by who causes it", and document 02, request by request). The names are
// ps-unwind's; it has none from 27 on. specs/Failure.antt has the number and the name of each, and who causes it.
#![tactic(auto)]

ghost use Rattle.std.specs.Prelude.{◌≡◌, Some};
ghost use Rattle.failure.specs.Failure.{name, number};

use std::error::Error;
use std::fmt;

#[derive(Clone, Copy, Debug, PartialEq, Eq, Hash)]
pub enum Failure {
    // A fifth remember in a state program.
    RememberStackOverflow = 10,
    // A register number that the architecture's file does not have.
    UnknownRegister = 11,
    // The CFA that a state gives is 0.
    BadCfaRule = 12,
    // A fault in a chunk's header, its size or its end; a magic of 0 is none.
    BadEkoHeader = 17,
    // A record, frame word, state program or row breaks its rules, where no other failure says how.
    BadEkoRecord = 18,
    // The left neighbour of the record found ends above its start, or the right one starts below its end.
    EkoUnsorted = 19,
    // The caller's sp is lower than the frame's, or equal past the first frame.
    StackNotAdvancing = 20,
    // A catch below the chosen number, the chosen frame with another sp or without catch, or an end before it.
    HandlerFrameMissed = 22,
    // Fp is the base and is 0 or no multiple of 8.
    Misaligned = 23,
    // A row's neighbour breaks the strict order of offsets, or a delta is 0.
    EkoAmbiguousCallSite = 24,
    // An interrupted frame has a version 1 word of kind 1 or 2.
    EkoAsyncFrame = 25,
    // The bytes to be read lie whole in neither slice.
    OutsideMemory = 27,
    // The opening is broken, the architecture is not 1 or 2, or a state counts more than 32 pairs.
    BadOpening = 28,
    // 1,024 frames were given, and the walk goes on.
    TooManyFrames = 29,
    // The limit is met before a byte that a program or a row table needs (document 02 (c)).
    EkoTruncated = 30,
    // A uleb has no end in five bytes or is above 4294967295 (document 02 (c)).
    BadUleb = 31,
    // A 33rd register is saved (document 02 (c)).
    TooManySaved = 32,
}

impl Failure {
    // The number of document 01 or 02.
    pub fn number(self) -> u32
        ensures { result ≡ number self }
    {
        self as u32
    }
}

// The name, whatever the options of a format.
impl fmt::Display for Failure {
    ghost output = { λ f. Some (name f) };

    ghost styled_output = { λ f options. Some (name f) };

    fn fmt<W: fmt::Write>(&self, f: &mut fmt::Formatter<W>) -> fmt::Result {
        match self {
            Failure::RememberStackOverflow => f.write_str("RememberStackOverflow"),
            Failure::UnknownRegister => f.write_str("UnknownRegister"),
            Failure::BadCfaRule => f.write_str("BadCfaRule"),
            Failure::BadEkoHeader => f.write_str("BadEkoHeader"),
            Failure::BadEkoRecord => f.write_str("BadEkoRecord"),
            Failure::EkoUnsorted => f.write_str("EkoUnsorted"),
            Failure::StackNotAdvancing => f.write_str("StackNotAdvancing"),
            Failure::HandlerFrameMissed => f.write_str("HandlerFrameMissed"),
            Failure::Misaligned => f.write_str("Misaligned"),
            Failure::EkoAmbiguousCallSite => f.write_str("EkoAmbiguousCallSite"),
            Failure::EkoAsyncFrame => f.write_str("EkoAsyncFrame"),
            Failure::OutsideMemory => f.write_str("OutsideMemory"),
            Failure::BadOpening => f.write_str("BadOpening"),
            Failure::TooManyFrames => f.write_str("TooManyFrames"),
            Failure::EkoTruncated => f.write_str("EkoTruncated"),
            Failure::BadUleb => f.write_str("BadUleb"),
            Failure::TooManySaved => f.write_str("TooManySaved"),
        }
    }
}

impl Error for Failure {}
