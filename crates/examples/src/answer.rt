// What comes out of an example, and what should.
use failure::Failure;
use rows::Row;

// An answer, which is written as a number.
pub trait Answer: Copy {
    fn number(self) -> usize;
}

// Whether an opening is accepted: 1 or 0.
impl Answer for bool {
    fn number(self) -> usize {
        usize::from(self)
    }
}

// A call that has no value: 0, or the number of the refusal.
impl Answer for Result<(), Failure> {
    fn number(self) -> usize {
        match self {
            Ok(()) => 0,
            Err(failure) => failure.number() as usize,
        }
    }
}

// A value; a refusal counts from 2^32 on.
impl Answer for Result<usize, Failure> {
    fn number(self) -> usize {
        match self {
            Ok(value) => value,
            Err(failure) => 0x1_0000_0000 + failure.number() as usize,
        }
    }
}

// A row, its pad times 4 and its action; 2^33 for none; a refusal counts from 2^32 on.
impl Answer for Result<Option<Row>, Failure> {
    fn number(self) -> usize {
        match self {
            Ok(Some(row)) => row.pad % 0x1_0000_0000 * 4 + row.action as usize,
            Ok(None) => 0x2_0000_0000,
            Err(failure) => 0x1_0000_0000 + failure.number() as usize,
        }
    }
}
