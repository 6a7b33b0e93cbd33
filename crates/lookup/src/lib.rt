// EKO tables: the record of a pc (document 01, "Chunks and records").
// A part is a slice of bytes with the address of its first one, its base, which may be any number. Offsets count from the
// part's first byte. `lookup_part` searches any part. `lookup_arch` and `chunk_of` take what is lent: `lookup_arch` refuses with 28
// first, and `chunk_of`, which has to return a part, gives the empty part wherever `lookup_arch` finds no record.
#![tactic(auto)]

ghost use Rattle.std.specs.Prelude.{◌≡◌, ◌+◌, ◌^◌, ◌<◌, ◌≤◌, length, if◌then◌else◌, None, Some};
ghost use Rattle.failure.specs.Outcome.{Answer, outcome};
ghost use Rattle.lookup.specs.Field.{word};
ghost use Rattle.lookup.specs.Header as Header;
ghost use Rattle.lookup.specs.Record.{start_at, end_at, address_of, handlers_of, record_at, record_at2, record_in, record_of, bad_record};
ghost use Rattle.lookup.specs.Steps.{Inside, Stands, SomeStands, Meets, halved, searched, HeldIn, placed, Lies};
ghost use Rattle.lookup.specs.Search as Search;
ghost use Rattle.lookup.specs.Lookup.{lookup, lookup_arch, search_in, answer_or, ChunkOf};

use failure::Failure;
use mem::{Memory, wrapping};

// The first word of a chunk.
pub const MAGIC: u32 = 0x5755_4b45;

// The version whose records have a frame word. A version is a number and no enum: it is a byte of a header, which may be any, and of
// the record that C reads.
pub const VERSION: u8 = 1;

// The version whose records have a state program.
pub const VERSION2: u8 = 2;

// The flags of a chunk: a number, since a header may have any.
pub const FLAG_RUST_PERSONALITY: u32 = 1;

// The bytes of a header.
pub const HEADER: usize = 16;

// The bytes of a version 1 record.
pub const RECORD: usize = 16;

// The bytes of a version 2 record.
pub const RECORD2: usize = 12;

// Added to the program offset of a version 2 record that has a row table after its program.
pub const DATA_HANDLERS: u32 = 0x8000_0000;

// The record of a function, with addresses in the place of its offsets. C reads it, so 0 stands for none.
#[repr(C)]
#[derive(Clone, Copy, Debug, PartialEq, Eq)]
pub struct Record {
    pub start: usize,
    pub end: usize,
    pub frame: u32,
    // Where its row table stands, 0 for none; in version 2 the address of the program, which the table comes after.
    pub handlers: usize,
    // Where its state program stands, 0 for none and in version 1.
    pub program: usize,
    // The end of its chunk, which program and rows stay below; 0 in version 1.
    pub limit: usize,
    pub version: u8,
}

// A chunk: where it begins in its part, and what its header says.
#[derive(Clone, Copy, Debug, PartialEq, Eq)]
pub struct Chunk {
    pub offset: usize,
    pub version: u8,
    pub stride: usize,
    pub count: usize,
    pub size: usize,
}

// A record that was found, and its chunk.
#[derive(Clone, Copy, Debug, PartialEq, Eq)]
pub struct Found {
    pub function: Record,
    pub chunk: Chunk,
}

// Where a record stands: the offsets of its chunk and of itself.
#[derive(Clone, Copy)]
struct Place {
    chunk: usize,
    record: usize,
}

// Fields.

// The u8 at offset k.
fn u8_at(part: &[u8], k: usize) -> u8
    requires { k + 1 ≤ length part.now }
    ensures { result ≡ word part.now k 1 }
{
    // the byte is the number
    part[k]
}

// The u32 at offset k. `rows` has one too: as a public function it would have to test that the bytes are there.
fn u32_at(part: &[u8], k: usize) -> u32
    requires { k + 4 ≤ length part.now }
    ensures { result ≡ word part.now k 4 }
{
    u32::from_le_bytes([part[k], part[k + 1], part[k + 2], part[k + 3]])
}

// Headers.

// How many bytes a record of a version has, 0 where the version is not known: a number, since a chunk that is handed out holds it as
// one, and document 01's test of a version is that it is not 0.
fn stride(version: u8) -> usize
    ensures { result ≡ Header.stride version }
{
    if version == VERSION {
        return RECORD;
    }
    if version == VERSION2 {
        return RECORD2;
    }
    0
}

// The chunk whose header stands at offset k.
fn chunk_at(part: &[u8], k: usize) -> Chunk
    requires { k + 16 ≤ length part.now }
    ensures { (result ≡ Header.chunk_at part.now k) × (result.stride ≤ 16) × (result.count < 2 ^ 32) }
{
    let version = u8_at(part, k + 4);
    Chunk {
        offset: k,
        version,
        stride: stride(version),
        count: u32_at(part, k + 8) as usize,
        size: u32_at(part, k + 12) as usize,
    }
}

// The chunk whose header stands at offset k gets 17.
fn faulty(part: &[u8], arch: u8, k: usize, magic: u32, c: Chunk) -> bool
    requires { (k + 16 ≤ length part.now) × (magic ≡ word part.now k 4) × (c.version ≡ word part.now (k + 4) 1)
        × (c.stride ≤ 16) × (c.count < 2 ^ 32) }
    ensures { result ≡ Header.faulty part.now arch k c }
{
    if magic != MAGIC {
        return true;
    }
    if c.stride == 0 {
        return true;
    }
    // version, architecture and flags in one word
    if u32_at(part, k + 4)
        != u32::from_le_bytes([c.version, arch, FLAG_RUST_PERSONALITY as u8, 0])
    {
        return true;
    }
    if c.size < HEADER + c.count * c.stride {
        return true;
    }
    if c.size % 4 != 0 {
        return true;
    }
    part.len() - k < c.size
}

// A header at offset k that gets 17, or its chunk: never none, in the answer of `head_at`, which passes it on.
fn head_of(part: &[u8], arch: u8, k: usize, magic: u32, c: Chunk) -> Result<Option<Chunk>, Failure>
    requires { (k + 16 ≤ length part.now) × (magic ≡ word part.now k 4) × (magic ≡ 0 → ⊥) × (c ≡ Header.chunk_at part.now k)
        × (c.stride ≤ 16) × (c.count < 2 ^ 32) }
    ensures { outcome result ≡ Header.head_at part.now arch k }
{
    if faulty(part, arch, k, magic, c) {
        return Err(Failure::BadEkoHeader);
    }
    Ok(Some(c))
}

// What stands at offset k, where 16 bytes remain: a chunk, none for padding, or 17. Each field of a header is read once. The two
// literals differ in version and stride alone: where the compiler knows these, the tests are shorter.
fn head_at(part: &[u8], arch: u8, k: usize) -> Result<Option<Chunk>, Failure>
    requires { k + 16 ≤ length part.now }
    ensures { outcome result ≡ Header.head_at part.now arch k }
{
    let magic = u32_at(part, k);
    if magic == 0 {
        return Ok(None);
    }
    let c = chunk_at(part, k);
    if c.version == VERSION {
        let one = Chunk {
            version: VERSION,
            stride: RECORD,
            ..c
        };
        return head_of(part, arch, k, magic, one);
    }
    if c.version == VERSION2 {
        let two = Chunk {
            version: VERSION2,
            stride: RECORD2,
            ..c
        };
        return head_of(part, arch, k, magic, two);
    }
    Err(Failure::BadEkoHeader)
}

// A chunk, and the part in which it lies with all its records.
#[derive(Clone, Copy)]
struct ChunkIn<'a> {
    part: &'a [u8],
    base: usize,
    chunk: Chunk,
    ghost inside: { Inside part.now chunk },
}

// Records.

// The address at an offset from a chunk's, 0 for none.
fn address_of(chunk: usize, off: usize) -> usize
    ensures { result ≡ address_of chunk off }
{
    if off == 0 {
        return 0;
    }
    wrapping::add(chunk, off)
}

// The row table's address that a version 2 data word gives: the program's, 0 where no table follows it.
fn handlers2(chunk: usize, data: u32) -> usize
    ensures { result ≡ handlers_of chunk «data» }
{
    if data < DATA_HANDLERS {
        return 0;
    }
    // bits 0 to 30 are the program's offset in the chunk
    wrapping::add(chunk, (data % DATA_HANDLERS) as usize)
}

impl ChunkIn<'_> {
    // The start that the record at offset k gives.
    fn start_at(&self, k: usize) -> usize
        requires { k + 4 ≤ length self.now.part.now }
        ensures { result ≡ start_at self.now.part.now self.now.base k }
    {
        // the address of the record plus its first word, which is signed
        wrapping::add(
            wrapping::add(self.base, k),
            wrapping::extend(u32_at(self.part, k)),
        )
    }

    // The end that the record at offset k gives.
    fn end_at(&self, k: usize) -> usize
        requires { k + 8 ≤ length self.now.part.now }
        ensures { result ≡ end_at self.now.part.now self.now.base k }
    {
        // the start plus the second word, the length
        wrapping::add(self.start_at(k), u32_at(self.part, k + 4) as usize)
    }

    // The version 1 record at offset k, of the chunk at an address.
    fn record_at(&self, chunk: usize, k: usize) -> Record
        requires { k + 16 ≤ length self.now.part.now }
        ensures { result ≡ record_at self.now.part.now self.now.base chunk k }
    {
        Record {
            start: self.start_at(k),
            end: self.end_at(k),
            frame: u32_at(self.part, k + 8),
            handlers: address_of(chunk, u32_at(self.part, k + 12) as usize),
            program: 0,
            limit: 0,
            version: VERSION,
        }
    }

    // The version 2 record at offset k, of the chunk between two addresses.
    fn record_at2(&self, chunk: usize, limit: usize, k: usize) -> Record
        requires { k + 12 ≤ length self.now.part.now }
        ensures { result ≡ record_at2 self.now.part.now self.now.base chunk limit k }
    {
        // bit 31: a row table follows the program; bits 0 to 30: the program's offset in the chunk
        let data = u32_at(self.part, k + 8);
        Record {
            start: self.start_at(k),
            end: self.end_at(k),
            frame: 0,
            handlers: handlers2(chunk, data),
            program: address_of(chunk, (data % DATA_HANDLERS) as usize),
            limit,
            version: VERSION2,
        }
    }

    // The record at offset k.
    fn rec(&self, k: usize) -> Record
        requires { SomeStands self.now.chunk k }
        ensures { result ≡ record_in self.now.part.now self.now.base self.now.chunk k }
    {
        let c = self.chunk;
        let chunk = wrapping::add(self.base, c.offset);
        if c.version == VERSION {
            return self.record_at(chunk, k);
        }
        self.record_at2(chunk, wrapping::add(chunk, c.size), k)
    }
}

// The search of a chunk.

// One of two numbers: the `if` compiles to a choice, and no branch is guessed wrong.
fn choice(first: bool, x: usize, y: usize) -> usize
    ensures { result ≡ (if first then x else y) }
{
    if first { x } else { y }
}

impl ChunkIn<'_> {
    // The start of record number i.
    fn start_of<const STRIDE: usize>(&self, i: usize) -> usize
        requires { (i < self.now.chunk.count) × (self.now.chunk.stride ≡ STRIDE) }
        ensures { result ≡ (record_of self.now.part.now self.now.base self.now.chunk i).start }
    {
        self.start_at(self.chunk.offset + HEADER + i * STRIDE)
    }

    // Where halving on start ends: if the starts rise, at the last record that starts at pc or below it, else at the first. There are
    // as many turns for every pc. A turn halves twice, and reads what the second may compare before the first has compared. The
    // library's search promises a place in sorted slices alone; here the definition says which records are compared, in every chunk.
    // The stride is a parameter: a turn is shorter where the compiler knows it.
    fn halve<const STRIDE: usize>(&self, pc: usize) -> usize
        requires { (0 < self.now.chunk.count) × (self.now.chunk.stride ≡ STRIDE) }
        ensures { Stands self.now.chunk (halved self.now.part.now self.now.base self.now.chunk pc) result }
    {
        let c = self.chunk;
        // the records left are those from lo on, below hi
        let mut lo = 0;
        let mut hi = c.count;
        // no index is counted: what is left is halved. A halving for every binary digit of this: then one record is left, and more
        // halvings change nothing
        let mut turns = c.count - 1;
        while 0 < turns {
            // the middle of the records left, and of the halves below it and from it on
            let middle = (lo + hi) / 2;
            let low = (lo + middle) / 2;
            let high = (middle + hi) / 2;
            let start = self.start_of::<STRIDE>(middle);
            let below = self.start_of::<STRIDE>(low);
            let above = self.start_of::<STRIDE>(high);
            // those below are left where pc is below the middle's start, else the rest
            let down = pc < start;
            lo = choice(down, lo, middle);
            hi = choice(down, middle, hi);
            let next = choice(down, low, high);
            let again = pc < choice(down, below, above);
            lo = choice(again, lo, next);
            hi = choice(again, next, hi);
            // two binary digits less
            turns /= 4;
        }
        c.offset + HEADER + lo * STRIDE
    }

    // The same, by the version's stride.
    fn halve_by(&self, pc: usize) -> usize
        requires { 0 < self.now.chunk.count }
        ensures { Stands self.now.chunk (halved self.now.part.now self.now.base self.now.chunk pc) result }
    {
        if self.chunk.version == VERSION {
            return self.halve::<RECORD>(pc);
        }
        self.halve::<RECORD2>(pc)
    }

    // The left neighbour of the record at offset k ends above its start.
    fn left_meets(&self, k: usize, start: usize) -> bool
        requires { SomeStands self.now.chunk k × (start ≡ start_at self.now.part.now self.now.base k) }
        ensures { Meets self.now.chunk k (Search.left_meets (record_of self.now.part.now self.now.base self.now.chunk)) result }
    {
        let c = self.chunk;
        k != c.offset + HEADER && start < self.end_at(k - c.stride)
    }

    // The right neighbour of the record at offset k starts below its end.
    fn right_meets(&self, k: usize, end: usize) -> bool
        requires { SomeStands self.now.chunk k × (end ≡ end_at self.now.part.now self.now.base k) }
        ensures { Meets self.now.chunk k
            (Search.right_meets (record_of self.now.part.now self.now.base self.now.chunk) self.now.chunk.count) result }
    {
        let c = self.chunk;
        let next = k + c.stride;
        next != c.offset + HEADER + c.count * c.stride && self.start_at(next) < end
    }

    // The record at offset k, where halving ended, if its neighbours do not overlap it and it holds pc.
    fn settle(&self, pc: usize, k: usize) -> Result<Option<usize>, Failure>
        requires { Stands self.now.chunk (halved self.now.part.now self.now.base self.now.chunk pc) k }
        ensures { (searched self.now.part.now self.now.base self.now.chunk result ≡
            Search.search (record_of self.now.part.now self.now.base self.now.chunk) self.now.chunk.count pc)
            × HeldIn self.now.chunk result }
    {
        let start = self.start_at(k);
        if self.left_meets(k, start) {
            return Err(Failure::EkoUnsorted);
        }
        let end = self.end_at(k);
        if self.right_meets(k, end) {
            return Err(Failure::EkoUnsorted);
        }
        if pc < start {
            return Ok(None);
        }
        if end <= pc {
            return Ok(None);
        }
        Ok(Some(k))
    }

    // What a chunk has for pc: it is searched only if it has records and pc is in [first start, last end).
    fn search_in(&self, pc: usize) -> Result<Option<usize>, Failure>
        ensures { (searched self.now.part.now self.now.base self.now.chunk result ≡
            search_in self.now.part.now self.now.base pc self.now.chunk)
            × HeldIn self.now.chunk result }
    {
        let c = self.chunk;
        if c.count == 0 {
            return Ok(None);
        }
        let first = c.offset + HEADER;
        if pc < self.start_at(first) {
            return Ok(None);
        }
        if self.end_at(first + (c.count - 1) * c.stride) <= pc {
            return Ok(None);
        }
        self.settle(pc, self.halve_by(pc))
    }
}

// Lookup.

// In version 2, a table without program, or a program at or past the chunk's end. One test a line, each a branch that is foreseen: of
// one formula the compiler makes sums of flags, and a lookup in a chunk of one record takes an eighth longer (measured).
fn bad_record(r: Record) -> bool
    ensures { result ≡ bad_record r }
{
    if r.version != VERSION2 {
        return false;
    }
    if r.limit <= r.program {
        return true;
    }
    if r.handlers == 0 {
        return false;
    }
    r.program == 0
}

impl ChunkIn<'_> {
    // The record at offset k, tested for 18: its place, or the refusal; never none, in the answer of `find`, which passes it on.
    fn place_tested(&self, k: usize) -> Result<Option<Place>, Failure>
        requires { SomeStands self.now.chunk k × (self.now.chunk ≡ Header.chunk_at self.now.part.now self.now.chunk.offset) }
        ensures { (placed self.now.part.now self.now.base result ≡
            answer_or self.now.chunk (Answer None) (Some (record_in self.now.part.now self.now.base self.now.chunk k)))
            × Lies self.now.part.now result }
    {
        if bad_record(self.rec(k)) {
            return Err(Failure::BadEkoRecord);
        }
        Ok(Some(Place {
            chunk: self.chunk.offset,
            record: k,
        }))
    }
}

// Where the record of pc stands in a part, for chunks of an architecture.
fn find(part: &[u8], base: usize, pc: usize, arch: u8) -> Result<Option<Place>, Failure>
    ensures { (placed part.now base result ≡ lookup part.now base pc arch) × Lies part.now result }
{
    // a chunk says how far the next one is, so there is no range or iterator of chunks
    let mut k = 0;
    while HEADER <= part.len() - k {
        match head_at(part, arch, k)? {
            None => {
                k += 4;
            }
            Some(chunk) => {
                let c = ChunkIn { part, base, chunk };
                if let Some(at) = c.search_in(pc)? {
                    return c.place_tested(at);
                }
                k += chunk.size;
            }
        }
    }
    Ok(None)
}

// The record and the chunk at a place.
fn found_at(
    part: &[u8],
    base: usize,
    place: Result<Option<Place>, Failure>,
) -> Result<Option<Found>, Failure>
    requires { Lies part.now place }
    ensures { outcome result ≡ placed part.now base place }
{
    match place? {
        Some(p) => {
            let chunk = chunk_at(part, p.chunk);
            let function = ChunkIn { part, base, chunk }.rec(p.record);
            Ok(Some(Found { function, chunk }))
        }
        None => Ok(None),
    }
}

// The record of pc in a part, for chunks of an architecture. Small, so that a caller has the record in registers. The part is cut
// to its own length, so that its address and length go on as two words: copied as one, they would be waited for.
pub fn lookup_part(part: &[u8], base: usize, pc: usize, arch: u8) -> Result<Option<Found>, Failure>
    ensures { outcome result ≡ lookup part.now base pc arch }
{
    let n = part.len();
    let whole = &part[0..n];
    found_at(whole, base, find(whole, base, pc, arch))
}

// The record of pc in the section that is lent; without a call of `lookup_part`, whose answer would go through memory.
#[tactic(auto, unfolding(crate::specs::Lookup::lookup_arch, mem::specs::Opening::opened, arch::specs::Arch::known))]
pub fn lookup_arch(memory: &Memory<'_>, pc: usize, arch: u8) -> Result<Option<Found>, Failure>
    ensures { outcome result ≡
        lookup_arch memory.now.section.now memory.now.section_base memory.now.stack.now memory.now.stack_base pc arch }
{
    memory.require_opened()?;
    arch::require_known(arch)?;
    let section = memory.section;
    let base = memory.section_base;
    found_at(section, base, find(section, base, pc, arch))
}

// The chunk of the record of pc, as a part of the section of 16 bytes at least. Where `lookup_arch` finds none or refuses, it is the
// empty part at 0, and `lookup_arch` has the number.
pub fn chunk_of<'a>(memory: &Memory<'a>, pc: usize, arch: u8) -> &'a [u8]
    ensures { ChunkOf memory.now.section
        (lookup_arch memory.now.section.now memory.now.section_base memory.now.stack.now memory.now.stack_base pc arch) result }
{
    match lookup_arch(memory, pc, arch) {
        Ok(Some(found)) => {
            let k = found.chunk.offset;
            &memory.section[k..k + found.chunk.size]
        }
        _ => &memory.section[0..0],
    }
}
