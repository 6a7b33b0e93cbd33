// Version 1 row tables: ps-unwind's `handler`; its closure `row` is `entry_at`.
ghost use Rattle.std.specs.Prelude.{◌≡◌, true, ◌+◌, ◌-◌, ◌*◌, ◌^◌, ◌<◌, ◌≤◌, length};
ghost use Rattle.failure.specs.Outcome.{Answer, outcome};
ghost use Rattle.mem.specs.Given.{lent_by};
ghost use Rattle.mem.specs.Word.{word_at};
ghost use Rattle.rows.specs.Row.{found};
ghost use Rattle.rows.specs.Handler as Handler;
ghost use Rattle.rows.specs.Answers.{row_of, entry};
ghost use Rattle.rows.specs.Held.{alone, Held, number, RowAt, judged_at};

use crate::{Row, checked};
use failure::Failure;
use mem::{Memory, wrapping};

// A row as it stands in the table.
#[derive(Clone, Copy)]
struct Entry {
    offset: usize,
    pad: usize,
    action: usize,
}

// Row i of the table.
#[tactic(auto, unfolding(crate::specs::Handler::entry_at))]
fn entry_at(memory: &Memory<'_>, table: usize, i: usize) -> Result<Entry, Failure>
    requires { i < 2 ^ 32 }
    ensures { entry result ≡ Handler.entry_at (lent_by memory.now).regions table i }
{
    Ok(Entry {
        offset: memory.load_u32(wrapping::add(table, 4 + 12 * i))? as usize,
        pad: memory.load_u32(wrapping::add(table, 8 + 12 * i))? as usize,
        action: memory.load_u32(wrapping::add(table, 12 + 12 * i))? as usize,
    })
}

// Whether the left neighbour, if there is one, is not below the row.
#[tactic(auto, unfolding(crate::specs::Handler::left_breaks))]
fn left_breaks(memory: &Memory<'_>, table: usize, i: usize, offset: usize) -> Result<bool, Failure>
    requires { i < 2 ^ 32 }
    ensures { outcome result ≡ Handler.left_breaks (lent_by memory.now).regions table i offset }
{
    if i == 0 {
        return Ok(false);
    }
    Ok(offset <= entry_at(memory, table, i - 1)?.offset)
}

// Whether the right neighbour, if there is one, is not above the row.
#[tactic(auto, unfolding(crate::specs::Handler::right_breaks))]
fn right_breaks(
    memory: &Memory<'_>,
    table: usize,
    count: usize,
    i: usize,
    offset: usize,
) -> Result<bool, Failure>
    requires { (i < count) × (count < 2 ^ 32) }
    ensures { outcome result ≡ Handler.right_breaks (lent_by memory.now).regions table count i offset }
{
    if count <= i + 1 {
        return Ok(false);
    }
    Ok(entry_at(memory, table, i + 1)?.offset <= offset)
}

// A row that was found: its neighbours, left first, and then the row itself.
#[tactic(auto, unfolding(crate::specs::Handler::judged))]
fn judged(
    memory: &Memory<'_>,
    table: usize,
    count: usize,
    i: usize,
    e: Entry,
) -> Result<Option<Row>, Failure>
    requires { (i < count) × (count < 2 ^ 32) }
    ensures { found result ≡ Handler.judged (lent_by memory.now).regions table count i (row_of e) }
{
    if left_breaks(memory, table, i, e.offset)?
        || right_breaks(memory, table, count, i, e.offset)?
    {
        return Err(Failure::EkoAmbiguousCallSite);
    }
    checked(e.pad, e.action)
}

// The row of a return offset in the table, wherever it lies.
#[tactic(auto, unfolding(crate::specs::Handler::handler))]
fn handler_anywhere(memory: &Memory<'_>, table: usize, ret: usize) -> Result<Option<Row>, Failure>
    ensures { found result ≡ Handler.handler (lent_by memory.now).regions table ret }
{
    let count = memory.load_u32(table)? as usize;
    // halving: the rows left are those from lo on, below hi; the library's search promises a place in sorted slices alone
    let mut lo: usize = 0;
    let mut hi = count;
    while lo < hi {
        let mid = lo + (hi - lo) / 2;
        let e = entry_at(memory, table, mid)?;
        if e.offset == ret {
            return judged(memory, table, count, mid, e);
        }
        if e.offset < ret {
            lo = mid + 1;
        } else {
            hi = mid;
        }
    }
    Ok(None)
}

// A table that lies whole in the section, where nearly all do. This way stands beside `handler_anywhere` for speed: no read here is
// refused, so none is tested. A row is known by its offset in the section, and the section comes with its base alone: what else is lent
// is not read.

// The u32 at an offset. `lookup` has one too: as a public function it would have to test that the bytes are there.
fn u32_at(section: &[u8], k: usize) -> usize
    requires { k + 4 ≤ length section.now }
    ensures { (result ≡ word_at section.now k) × (result < 2 ^ 32) }
{
    u32::from_le_bytes([section[k], section[k + 1], section[k + 2], section[k + 3]]) as usize
}

// Whether the table at an address lies whole in the section.
#[tactic(auto, using(crate::proofs::Held::held))]
fn is_held(section: &[u8], base: usize, table: usize) -> bool
    ensures { result ≡ true → Held section.now base table }
{
    if usize::MAX - base < section.len() || table < base {
        return false;
    }
    let k = table - base;
    if section.len() < k {
        return false;
    }
    let rest = section.len() - k;
    4 <= rest && 4 + 12 * u32_at(section, k) <= rest
}

// A row of such a table: it stands at offset k of the section.
#[derive(Clone, Copy)]
struct RowIn<'a> {
    section: &'a [u8],
    base: usize,
    table: usize,
    count: usize,
    k: usize,
    offset: usize,
    ghost at: { RowAt section.now base table count k offset },
}

impl RowIn<'_> {
    // Whether the left neighbour, if there is one, is not below the row. The first row is compared with itself, and is not below itself:
    // there is no branch to guess.
    fn left_breaks(&self) -> bool
        ensures { Answer result ≡ Handler.left_breaks (alone self.now.section.now self.now.base) self.now.table
            (number self.now.base self.now.table self.now.k) self.now.offset }
    {
        // 1 for the first row, else 0
        let first = (self.k == self.table - self.base + 4) as usize;
        // past the first row: offset < left + 1, so offset <= left; for the first: offset < offset, which is false
        self.offset < u32_at(self.section, self.k + 12 * first - 12) + 1 - first
    }

    // Whether the right neighbour, if there is one, is not above the row; the last row is compared with itself in the same way.
    fn right_breaks(&self) -> bool
        ensures { Answer result ≡ Handler.right_breaks (alone self.now.section.now self.now.base) self.now.table self.now.count
            (number self.now.base self.now.table self.now.k) self.now.offset }
    {
        // 1 for the last row, else 0
        let last = (self.k + 12 == self.table - self.base + 4 + 12 * self.count) as usize;
        // before the last row: right <= offset; for the last: offset + 1 <= offset, which is false
        u32_at(self.section, self.k + 12 - 12 * last) + last <= self.offset
    }

    // A row that was found: its neighbours, left first, and then the row itself.
    fn judged(&self) -> Result<Option<Row>, Failure>
        ensures { found result ≡ judged_at (alone self.now.section.now self.now.base) self.now.table self.now.count
            (number self.now.base self.now.table self.now.k) }
    {
        if self.left_breaks() || self.right_breaks() {
            return Err(Failure::EkoAmbiguousCallSite);
        }
        checked(
            u32_at(self.section, self.k + 4),
            u32_at(self.section, self.k + 8),
        )
    }
}

// The row of a return offset in the table. The rows left are n from offset at on. The `if` that chooses the half has no `else`, and
// compiles to a conditional move. It halves by hand for the same reason as `handler_anywhere`.
fn handler_in(section: &[u8], base: usize, table: usize, ret: usize) -> Result<Option<Row>, Failure>
    requires { Held section.now base table }
    ensures { found result ≡ Handler.handler (alone section.now base) table ret }
{
    let start = table - base;
    let count = u32_at(section, start);
    let mut at = start + 4;
    let mut n = count;
    while 0 < n {
        // the row with n / 2 rows below it
        let middle = at + 12 * (n / 2);
        let offset = u32_at(section, middle);
        if offset == ret {
            let row = RowIn {
                section,
                base,
                table,
                count,
                k: middle,
                offset,
            };
            return row.judged();
        }
        let down = ret < offset;
        if !down {
            at = middle + 12;
        }
        // below the middle are n / 2 rows, above it (n - 1) / 2
        n = (n - 1 + down as usize) / 2;
    }
    Ok(None)
}

// The row of a return offset in the table.
#[tactic(auto, using(crate::proofs::Held::handler_lent))]
pub fn handler_at(memory: &Memory<'_>, table: usize, ret: usize) -> Result<Option<Row>, Failure>
    ensures { found result ≡ Handler.handler (lent_by memory.now).regions table ret }
{
    if is_held(memory.section, memory.section_base, table) {
        return handler_in(memory.section, memory.section_base, table, ret);
    }
    handler_anywhere(memory, table, ret)
}

// The same in what is lent; without a call of `handler_at`, whose answer would go through memory.
#[tactic(auto, unfolding(crate::specs::Handler::handler_in, mem::specs::Opening::opened), using(crate::proofs::Held::handler_lent))]
pub fn handler(memory: &Memory<'_>, table: usize, ret: u32) -> Result<Option<Row>, Failure>
    ensures { found result ≡ Handler.handler_in (lent_by memory.now) table ret }
{
    memory.require_opened()?;
    if is_held(memory.section, memory.section_base, table) {
        return handler_in(memory.section, memory.section_base, table, ret as usize);
    }
    handler_anywhere(memory, table, ret as usize)
}
