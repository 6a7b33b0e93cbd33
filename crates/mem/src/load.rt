// Bytes and little-endian words at an address. Nothing here asks that what is lent is accepted: whoever lends it asks that once.
ghost use Rattle.std.specs.Prelude.{◌≡◌, ◌^◌, ◌<◌, length};
ghost use Rattle.failure.specs.Outcome.{outcome};
ghost use Rattle.mem.specs.Memory.{lent};
ghost use Rattle.mem.specs.Given.{lent_by};
ghost use Rattle.mem.specs.Place.{holds, placed, place_of, bytes_at};
ghost use Rattle.mem.specs.Part.{PartOf};
ghost use Rattle.mem.specs.Word.{little_endian, load, word_in};

use crate::Memory;
use failure::Failure;

// Where bytes stand: an offset in the section or in the stack, or in neither. Three places, and none is a failure: a read of no bytes
// is the empty part there.
#[derive(Clone, Copy)]
pub enum Place {
    Section(usize),
    Stack(usize),
    Neither,
}

// The n bytes at address a all lie in the range of addresses.
fn holds(base: usize, size: usize, a: usize, n: usize) -> bool
    ensures { result ≡ holds base size a n }
{
    if a < base {
        return false;
    }
    let k = a - base;
    if size < k {
        return false;
    }
    n <= size - k
}

// The number in four bytes.
fn le4(b: &[u8]) -> usize
    requires { length b.now ≡ 4 }
    ensures { (result ≡ little_endian b.now) × (result < 256 ^ 4) }
{
    u32::from_le_bytes(<[u8; 4]>::try_from(b).unwrap()) as usize
}

// The number in eight bytes, from two 32-bit words (document 02 (b)).
fn le8(b: &[u8]) -> usize
    requires { length b.now ≡ 8 }
    ensures { (result ≡ little_endian b.now) × (result < 256 ^ 8) }
{
    // the lower word comes first; the other counts 2^32
    le4(&b[0..4]) + 0x1_0000_0000 * le4(&b[4..8])
}

// The u64 in eight bytes; 27 for any other count of them. Every slot is put together here.
#[tactic(auto, unfolding(crate::specs::Word::word_in))]
pub fn u64_in(b: &[u8]) -> Result<usize, Failure>
    ensures { outcome result ≡ word_in 8 b.now }
{
    if b.len() == 8 {
        return Ok(le8(b));
    }
    Err(Failure::OutsideMemory)
}

impl<'a> Memory<'a> {
    // Where the n bytes at address a stand.
    pub fn place_of(&self, a: usize, n: usize) -> Place
        ensures { placed result ≡ place_of (lent_by self.now).regions a n }
    {
        if holds(self.section_base, self.section.len(), a, n) {
            return Place::Section(a - self.section_base);
        }
        if holds(self.stack_base, self.stack.len(), a, n) {
            return Place::Stack(a - self.stack_base);
        }
        Place::Neither
    }

    // The n bytes at address a as a part of whichever slice holds them all; the empty part at 0 of the section where neither does.
    pub fn bytes_at(&self, a: usize, n: usize) -> &'a [u8]
        ensures { PartOf self.now.section self.now.stack n (place_of (lent_by self.now).regions a n) result }
    {
        match self.place_of(a, n) {
            Place::Section(k) => &self.section[k..k + n],
            Place::Stack(k) => &self.stack[k..k + n],
            Place::Neither => &self.section[0..0],
        }
    }

    // The N bytes at address a.
    fn array_at<const N: usize>(&self, a: usize) -> Result<[u8; N], Failure>
        requires { 0 < N }
        ensures { outcome result ≡ bytes_at (lent_by self.now).regions a N }
    {
        match <[u8; N]>::try_from(self.bytes_at(a, N)) {
            Ok(bytes) => Ok(bytes),
            Err(_) => Err(Failure::OutsideMemory),
        }
    }

    // The u8 at address a. It and the next are two functions: `from_le_bytes` is each type's own, and no trait's.
    pub fn load_u8(&self, a: usize) -> Result<u8, Failure>
        ensures { outcome result ≡ load (lent_by self.now).regions 1 a }
    {
        Ok(u8::from_le_bytes(self.array_at(a)?))
    }

    // The u32 at address a.
    pub fn load_u32(&self, a: usize) -> Result<u32, Failure>
        ensures { outcome result ≡ load (lent_by self.now).regions 4 a }
    {
        Ok(u32::from_le_bytes(self.array_at(a)?))
    }

    // The u64 at address a.
    pub fn load_u64(&self, a: usize) -> Result<usize, Failure>
        ensures { outcome result ≡ load (lent_by self.now).regions 8 a }
    {
        u64_in(self.bytes_at(a, 8))
    }
}
