// Version 2 row tables: ps-unwind's `handler2`.
// A table in the section is read there as long as no number has more than three bytes, for speed; any other through a cursor, anywhere
// in what is lent.
ghost use Rattle.std.specs.Prelude.{◌≡◌, ℕ, Option, None, Some, ◌+◌, ◌^◌, ◌<◌, ◌≤◌, length};
ghost use Rattle.failure.specs.Outcome.{Refused};
ghost use Rattle.failure.specs.Failure.{EkoAmbiguousCallSite, number};
ghost use Rattle.mem.specs.Memory as lent;
ghost use Rattle.mem.specs.Given.{lent_by};
ghost use Rattle.rows.specs.Row.{Found, found};
ghost use Rattle.rows.specs.Handler2 as Handler2;
ghost use Rattle.rows.specs.Answers.{LeftOf, NumberOf, worded, WordOf};
ghost use Rattle.rows.specs.Held.{first, alone};

use crate::{Row, checked};
use cursor::uleb_from;
use failure::Failure;
use mem::Memory;

// How the numbers of one table are read, each at a position, up to a limit.
trait Numbers {
    // What is answered where the reader does not go on.
    type Left;

    ghost regions: { Self → lent.Memory };

    ghost limit: { Self → ℕ };

    // The address of a position.
    ghost address: { Self → ℕ → ℕ };

    // The refusal that it is, if it is one.
    ghost refusal: { Self.Left → Option ℕ };

    // The number at a position and the position after it.
    fn number(&self, pos: usize) -> Result<(usize, usize), Self::Left>
        ensures { NumberOf refusal (address self.now) result
            (Handler2.uleb (regions self.now) (limit self.now) (address self.now pos)) };

    // What is answered of a delta of 0.
    fn ambiguous(&self) -> Self::Left
        ensures { LeftOf {A = Found} (refusal result) (Refused EkoAmbiguousCallSite) };
}

// Anywhere in what is lent; a position is an address.
#[derive(Clone, Copy)]
struct Anywhere<'a> {
    memory: &'a Memory<'a>,
    limit: usize,
}

impl<'a> Numbers for Anywhere<'a> {
    type Left = Failure;

    ghost regions = { λ s. (lent_by s.memory.now).regions };

    ghost limit = { λ s. s.limit };

    ghost address = { λ s pos. pos };

    ghost refusal = { λ f. Some (number f) };

    fn number(&self, pos: usize) -> Result<(usize, usize), Failure> {
        uleb_from(self.memory, pos, self.limit)
    }

    fn ambiguous(&self) -> Failure {
        Failure::EkoAmbiguousCallSite
    }
}

// The answer is left to the other reader: a longer number, a refusal, or bytes outside the section.
#[derive(Clone, Copy)]
struct Unsettled;

// In the section, up to its last byte below the limit; a position counts from the section's base, which the contracts alone name. A
// number has at most three bytes.
#[derive(Clone, Copy)]
struct InSection<'a> {
    section: &'a [u8],
    base: usize,
    last: usize,
    ghost inside: { last < length section.now },
}

impl<'a> InSection<'a> {
    // The number that is the last byte.
    fn at_last(&self, pos: usize) -> Result<(usize, usize), Unsettled>
        ensures { NumberOf (λ u. None) (λ k. self.now.base + k) result
            (Handler2.uleb (alone self.now.section.now self.now.base) (self.now.base + (self.now.last + 1)) (self.now.base + pos)) }
    {
        if pos != self.last {
            return Err(Unsettled);
        }
        let low = usize::from(self.section[pos]);
        if low < 128 {
            return Ok((low, pos + 1));
        }
        Err(Unsettled)
    }
}

impl<'a> Numbers for InSection<'a> {
    type Left = Unsettled;

    ghost regions = { λ s. alone s.section.now s.base };

    ghost limit = { λ s. s.base + (s.last + 1) };

    ghost address = { λ s pos. s.base + pos };

    ghost refusal = { λ u. None };

    fn number(&self, pos: usize) -> Result<(usize, usize), Unsettled> {
        let (section, last) = (self.section, self.last);
        // one test for the first two bytes, for speed
        if last <= pos {
            return self.at_last(pos);
        }
        let low = usize::from(section[pos]);
        let second = pos + 1;
        if low < 128 {
            return Ok((low, second));
        }
        let middle = usize::from(section[second]);
        let third = second + 1;
        if middle < 128 {
            // two groups of seven bits, the low one first: bit 7 of its byte says that more follow
            return Ok((low - 128 + 128 * middle, third));
        }
        if last < third {
            return Err(Unsettled);
        }
        let high = usize::from(section[third]);
        if high < 128 {
            // three groups of seven bits, the lowest first
            return Ok((low - 128 + 128 * (middle - 128 + 128 * high), third + 1));
        }
        Err(Unsettled)
    }

    fn ambiguous(&self) -> Unsettled {
        Unsettled
    }
}

// A row that was found, with so many rows left at a position: its word.
fn matched<N: Numbers>(
    numbers: &N,
    left: usize,
    pos: usize,
    word: usize,
) -> Result<Option<usize>, N::Left>
    ensures { WordOf N.refusal result
        (Handler2.matched (N.regions numbers.now) (N.limit numbers.now) left (N.address numbers.now pos) word) }
{
    if left != 0 {
        let (delta, _) = numbers.number(pos)?;
        if delta == 0 {
            return Err(numbers.ambiguous());
        }
    }
    Ok(Some(word))
}

// The word of the row of a return offset among so many rows at a position.
fn among<N: Numbers>(
    numbers: &N,
    ret: usize,
    rows: usize,
    first: usize,
) -> Result<Option<usize>, N::Left>
    requires { ret < 2 ^ 32 }
    ensures { WordOf N.refusal result
        (Handler2.rows_from rows (N.regions numbers.now) (N.limit numbers.now) (N.address numbers.now first) 0 ret) }
{
    let mut pos = first;
    let mut at: usize = 0;
    for left in (0..rows).rev() {
        let (delta, word_at) = numbers.number(pos)?;
        let (word, next) = numbers.number(word_at)?;
        if delta == 0 {
            return Err(numbers.ambiguous());
        }
        at += delta;
        if at == ret {
            return matched(numbers, left, next, word);
        }
        if ret < at {
            return Ok(None);
        }
        pos = next;
    }
    Ok(None)
}

// The word of the row of a return offset in the table at a position.
fn word_of<N: Numbers>(numbers: &N, table: usize, ret: usize) -> Result<Option<usize>, N::Left>
    requires { ret < 2 ^ 32 }
    ensures { WordOf N.refusal result
        (Handler2.handler2 (N.regions numbers.now) (N.address numbers.now table) (N.limit numbers.now) ret) }
{
    let (rows, first) = numbers.number(table)?;
    among(numbers, ret, rows, first)
}

// The word of the row of a return offset in the table, read in the section, whatever else is lent.
fn handler2_in(
    section: &[u8],
    base: usize,
    table: usize,
    limit: usize,
    ret: usize,
) -> Result<Option<usize>, Unsettled>
    requires { ret < 2 ^ 32 }
    ensures { (rest : lent.Memory) → WordOf (λ u. None) result (Handler2.handler2 (first section.now base rest) table limit ret) }
{
    if table < base || limit <= base || section.len() < limit - base {
        return Err(Unsettled);
    }
    let last = limit - base - 1;
    word_of(
        &InSection {
            section,
            base,
            last,
        },
        table - base,
        ret,
    )
}

// The row of a word.
fn settled(word: Option<usize>) -> Result<Option<Row>, Failure>
    ensures { found result ≡ worded word }
{
    match word {
        // bits 0 and 1 are the action, those above the pad
        Some(word) => checked(word / 4, word % 4),
        None => Ok(None),
    }
}

// The row of a return offset in the table.
pub fn handler2_at(
    memory: &Memory<'_>,
    table: usize,
    limit: usize,
    ret: u32,
) -> Result<Option<Row>, Failure>
    ensures { found result ≡ Handler2.handler2 (lent_by memory.now).regions table limit ret }
{
    let ret = ret as usize;
    if let Ok(word) = handler2_in(memory.section, memory.section_base, table, limit, ret) {
        return settled(word);
    }
    settled(word_of(&Anywhere { memory, limit }, table, ret)?)
}

// The same in what is lent.
#[tactic(auto, unfolding(crate::specs::Handler2::handler2_in, mem::specs::Opening::opened))]
pub fn handler2(
    memory: &Memory<'_>,
    table: usize,
    limit: usize,
    ret: u32,
) -> Result<Option<Row>, Failure>
    ensures { found result ≡ Handler2.handler2_in (lent_by memory.now) table limit ret }
{
    memory.require_opened()?;
    handler2_at(memory, table, limit, ret)
}
