// An answer of ours against the one on the line.
use arch::{Next, Regs};
use failure::Failure;
use rows::Row;
use state::State;

// The status of an answer that has none, as the recorded lists write it.
const NONE: usize = 0xff;

// The Rust's number for the refusal of a number: 18 where ours is 30 or 31 (document 02 (c); docs/DIFFERENCES.md, 7).
pub fn folded_number(failure: Failure) -> u32 {
    match failure {
        Failure::EkoTruncated | Failure::BadUleb => Failure::BadEkoRecord.number(),
        _ => failure.number(),
    }
}

// The Rust's number for the refusal of a program: 18 where ours is 30, 31 or 32.
pub fn folded_program(failure: Failure) -> u32 {
    match failure {
        Failure::TooManySaved => Failure::BadEkoRecord.number(),
        _ => folded_number(failure),
    }
}

// The Rust's number for the refusal of a changed state: 18 for a 33rd register too, where ours is 32.
pub fn folded_change(failure: Failure) -> u32 {
    match failure {
        Failure::TooManySaved => Failure::BadEkoRecord.number(),
        _ => failure.number(),
    }
}

// An answer is as recorded: the value where the status is 0, else the number of a refusal.
pub fn same_answer<T: PartialEq + Drop>(got: Result<T, u32>, status: usize, value: T) -> bool {
    match got {
        Ok(got) => status == 0 && got == value,
        Err(n) => status == n as usize,
    }
}

// The same of an answer that may be none.
pub fn same_found<T: PartialEq + Drop>(
    got: Result<Option<T>, u32>,
    status: usize,
    value: T,
) -> bool {
    match got.transpose() {
        Some(got) => same_answer(got, status, value),
        None => status == NONE,
    }
}

// A register file or a refusal is as recorded; a refusal hands back the file that came in, which the list repeats.
pub fn same_next(got: Next, status: usize, recorded: Regs) -> bool {
    got.regs.r == recorded.r && same_answer(got.status.map_err(Failure::number), status, ())
}

// A changed state is as recorded.
pub fn same_change(got: state::Next, status: usize, recorded: State) -> bool {
    got.state == recorded && same_answer(got.status.map_err(folded_change), status, ())
}

// A row is as recorded, by its pad and the number of its action.
pub fn same_row(got: Result<Option<Row>, u32>, status: usize, recorded: [usize; 2]) -> bool {
    let numbers = got.map(|row| row.map(|row| [row.pad, row.action as usize]));
    same_found(numbers, status, recorded)
}
