// A cursor over bytes that moves on in place: ps-unwind's `Bytes`, with its `u8` and `uleb`.
// `byte_from` and `uleb_from` take a position: they make a cursor and read through it, and `uleb_from` gives back its place, so that
// their callers see no cursor. All four are for the crates above, which have tested what is lent.
#![tactic(auto)]

ghost use Rattle.std.specs.Prelude.{◌≡◌};
ghost use Rattle.failure.specs.Outcome.{outcome};
ghost use Rattle.mem.specs.Given.{lent_by};
ghost use Rattle.leb.specs.Reader.{read_byte, read_number, told};
ghost use Rattle.cursor.specs.Cursor as Cursor;

use failure::Failure;
use leb::{byte_at, uleb_at};
use mem::Memory;

// The position of the next byte, and the limit. Loops hold their position as a number, apart from the limit, since their quick ways
// read by index (DECISIONS, "Forms").
#[derive(Clone, Copy)]
pub struct Bytes {
    pub pos: usize,
    pub end: usize,
}

impl Bytes {
    // The byte at the cursor, which moves past it; on a refusal the cursor stays.
    pub fn u8(&mut self, memory: &Memory<'_>) -> Result<u8, Failure>
        ensures read { outcome result ≡ Cursor.read_byte_here (lent_by memory.now).regions self.old }
        ensures moved { self.new ≡ Cursor.past_byte self.old (Cursor.read_byte_here (lent_by memory.now).regions self.old) }
    {
        let b = byte_at(memory, self.pos, self.end)?;
        self.pos += 1;
        Ok(b)
    }

    // The number at the cursor, which moves past its bytes; on a refusal the cursor stays.
    pub fn uleb(&mut self, memory: &Memory<'_>) -> Result<usize, Failure>
        ensures read { outcome result ≡ Cursor.read_here (lent_by memory.now).regions self.old }
        ensures moved { self.new ≡ Cursor.past self.old (Cursor.uleb_here (lent_by memory.now).regions self.old) }
    {
        let (v, next) = uleb_at(memory, self.pos, self.end)?;
        self.pos = next;
        Ok(v)
    }
}

// The byte at a position, read through a cursor.
pub fn byte_from(memory: &Memory<'_>, pos: usize, limit: usize) -> Result<u8, Failure>
    ensures { outcome result ≡ read_byte (lent_by memory.now).regions limit pos }
{
    let mut bytes = Bytes { pos, end: limit };
    bytes.u8(memory)
}

// The number at a position and the position after it, read through a cursor.
pub fn uleb_from(memory: &Memory<'_>, pos: usize, limit: usize) -> Result<(usize, usize), Failure>
    ensures { told result ≡ read_number (lent_by memory.now).regions limit pos }
{
    let mut bytes = Bytes { pos, end: limit };
    let v = bytes.uleb(memory)?;
    Ok((v, bytes.pos))
}
