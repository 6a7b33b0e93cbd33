// Sums of addresses, which wrap at 2^64.
ghost use Rattle.std.specs.Prelude.{◌≡◌};
ghost use Rattle.mem.specs.Wrapping as Wrapping;

// a + b modulo 2^64.
pub fn add(a: usize, b: usize) -> usize
    ensures { result ≡ Wrapping.sum a b }
{
    a.wrapping_add(b)
}

// a - b modulo 2^64.
pub fn sub(a: usize, b: usize) -> usize
    ensures { result ≡ Wrapping.difference a b }
{
    a.wrapping_sub(b)
}

// A 32-bit word read as a signed number, modulo 2^64: compiled to one instruction.
pub fn extend(word: u32) -> usize
    ensures { result ≡ Wrapping.signed32 word }
{
    i64::from(word.cast_signed()).cast_unsigned() as usize
}
