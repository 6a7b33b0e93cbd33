// Bytes and unsigned LEB128 numbers at an address, up to a limit: ps-unwind's `Bytes`, by value.
// `byte_at` and `uleb_at` are for the crates above, which have tested what is lent; `read_uleb` is the public form.
#![tactic(auto)]

ghost use Rattle.std.specs.Prelude.{◌≡◌, ◌+◌, ◌*◌, ◌%◌, ◌<◌, ◌≤◌};
ghost use Rattle.failure.specs.Outcome.{outcome};
ghost use Rattle.mem.specs.Given.{lent_by};
ghost use Rattle.leb.specs.Reader as Reader;

use failure::Failure;
use mem::Memory;

// The byte at a position below the limit.
#[tactic(auto, unfolding(crate::specs::Reader::read_byte))]
pub fn byte_at(memory: &Memory<'_>, pos: usize, limit: usize) -> Result<u8, Failure>
    ensures { outcome result ≡ Reader.read_byte (lent_by memory.now).regions limit pos }
{
    if limit <= pos {
        return Err(Failure::EkoTruncated);
    }
    memory.load_u8(pos)
}

// A number with one more group of seven bits above it.
fn with_group(v: usize, weight: usize, b: u8) -> usize
    requires { (v < weight) × (weight ≤ 268435456) }
    ensures { (result ≡ v + (b % 128) * weight) × (result < 128 * weight) }
{
    v + (b % 128) as usize * weight
}

// A number of at most 2^32 - 1 and the position after it.
fn at_most_32_bits(v: usize, next: usize) -> Result<(usize, usize), Failure>
    ensures { Reader.told result ≡ Reader.at_most32_bits (record { value = v; next = next }) }
{
    if 0x1_0000_0000 <= v {
        return Err(Failure::BadUleb);
    }
    Ok((v, next))
}

// The number at a position and the position after it.
pub fn uleb_at(memory: &Memory<'_>, pos: usize, limit: usize) -> Result<(usize, usize), Failure>
    ensures { Reader.told result ≡ Reader.read_number (lent_by memory.now).regions limit pos }
{
    let mut v: usize = 0;
    let mut weight: usize = 1;
    let mut at = pos;
    for _ in 0..5usize {
        let b = byte_at(memory, at, limit)?;
        v = with_group(v, weight, b);
        at += 1;
        if b < 128 {
            return at_most_32_bits(v, at);
        }
        weight *= 128;
    }
    Err(Failure::BadUleb)
}

// The number at a position below the limit and the position after it, in what is lent.
#[tactic(auto, unfolding(crate::specs::Reader::read_uleb, mem::specs::Opening::opened))]
pub fn read_uleb(memory: &Memory<'_>, pos: usize, limit: usize) -> Result<(usize, usize), Failure>
    ensures { Reader.told result ≡ Reader.read_uleb (lent_by memory.now) limit pos }
{
    memory.require_opened()?;
    uleb_at(memory, pos, limit)
}
