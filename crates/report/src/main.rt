// Reads a captured failure from standard input (docs/CAPTURE.md) and prints its frames, what the throw comes to, and the landing
// pads that will run. A refusal is printed by its number and name.
// A number in decimal is set to the right in its column; an address or a register has 16 hexadecimal digits.
#![tactic(auto)]

ghost use Rattle.std.specs.Prelude.{◌≡◌, ◌≤◌, length, IfOk};

use capture::{Capture, MOST, arch_name};
use frames::frames;
use pads::pads;
use refusal::{Refusal, Spot};
use std::io;
use std::io::Read;
use unwind::RaiseAnswer;
use unwind::search::raise;

mod capture;
mod frames;
mod pads;
mod refusal;

// What was captured, in three lines.
fn head_lines(rt: &impl Print, c: &Capture<'_>) -> io::Result<()> {
    let throw = c.throw;
    let memory = c.memory;
    let how = if throw.interrupted {
        "interrupted"
    } else {
        "thrown"
    };
    println!(rt;
        "{}, {how} at {:016x}, exception {:016x}",
        arch_name(c.arch),
        throw.pc,
        throw.exception
    )?;
    println!(rt;
        "section at {:016x}, {} bytes",
        memory.section_base,
        memory.section.len()
    )?;
    println!(rt;
        "stack at   {:016x}, {} bytes",
        memory.stack_base,
        memory.stack.len()
    )
}

// What the throw comes to, and the landing pads if a frame catches. A throw that is refused is refused at the first frame that is.
fn throw_lines(rt: &impl Print, c: &Capture<'_>, spot: Option<Spot>) -> io::Result<()> {
    let raised = raise(&c.memory, c.arch, c.throw);
    match raised.answer {
        Ok(RaiseAnswer::Chosen(number, _)) => {
            println!(rt; "throw: frame {number} catches")?;
            pads(rt, c, raised.unwinding)
        }
        Ok(RaiseAnswer::Stopped) => {
            println!(rt; "throw: stopped by a terminate row; no landing pad runs")
        }
        Ok(RaiseAnswer::Ended) => println!(rt; "throw: no frame catches; no landing pad runs"),
        Err(failure) => {
            println!(rt; "throw: {}; no landing pad runs", Refusal { failure, spot })
        }
    }
}

fn report(rt: &impl Print, c: &Capture<'_>) -> io::Result<()> {
    head_lines(rt, c)?;
    let spot = frames(rt, c)?;
    throw_lines(rt, c, spot)
}

// Zeros for a capture and one byte more.
fn room() -> [u8; MOST + 1]
    ensures { 1048576 ≡ length result }
{
    [0; MOST + 1]
}

// Fills the room from the start with what a reader gives, until either ends; how many bytes that are.
fn read_full(reader: &mut impl Read, room: &mut [u8]) -> io::Result<usize>
    ensures { IfOk result (λ n. n ≤ length room.new) }
{
    let mut done: usize = 0;
    while done < room.len() {
        let n = reader.read(&mut room[done..])?;
        if n == 0 {
            return Ok(done);
        }
        done += n;
    }
    Ok(done)
}

fn main(rt: HostRuntime) -> io::Result<()> {
    // a capture, and a byte more where the input is longer; on the stack, so that no input is refused for want of memory
    let mut input = room();
    let n = read_full(&mut rt.reader(), &mut input)?;
    match Capture::read(&input[..n]) {
        Ok(capture) => report(&rt, &capture),
        Err(broken) => println!(rt; "{broken}"),
    }
}
