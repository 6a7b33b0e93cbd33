// The chunk of a record that was found, against the record.
ghost use Rattle.std.specs.Prelude.{◌<◌, ◌≤◌};

use lookup::{Chunk, HEADER, MAGIC, RECORD, RECORD2, Record, VERSION};
use mem::{Memory, wrapping};

// The u32 at a place of a chunk, if it has one there. `report` has the like: a crate for these lines would be no plainer.
fn half(chunk: &[u8], at: usize) -> Option<u32> {
    let bytes = chunk.get(at..)?.first_chunk()?;
    Some(u32::from_le_bytes(*bytes))
}

// The bytes of a record.
fn stride_of(version: u8) -> usize
    ensures { (0 < result) × (result ≤ 16) }
{
    if version == VERSION { RECORD } else { RECORD2 }
}

// The bytes of a record, which stand at an address, start and end so.
fn spans(bytes: &[u8], address: usize, r: Record) -> bool {
    match (half(bytes, 0), half(bytes, 4)) {
        (Some(rel), Some(length)) => {
            let start = wrapping::add(address, wrapping::extend(rel));
            start == r.start && wrapping::add(start, length as usize) == r.end
        }
        _ => false,
    }
}

// A chunk at an address has a record that starts and ends so.
fn has(chunk: &[u8], address: usize, r: Record) -> bool {
    let records = chunk.get(HEADER..).unwrap_or(&[]);
    let mut at = wrapping::add(address, HEADER);
    for bytes in records.chunks_exact(stride_of(r.version)) {
        if spans(bytes, at, r) {
            return true;
        }
        at = wrapping::add(at, bytes.len());
    }
    false
}

// A part is the bytes of a section from a place on.
fn is_part(section: &[u8], k: usize, part: &[u8]) -> bool {
    section.get(k..).is_some_and(|rest| rest.starts_with(part))
}

// The part is the chunk of the record: it lies where lookup says, it is as long as its header says, it has that record,
// and in version 2 it ends at the record's limit.
pub fn same_chunk(memory: &Memory<'_>, part: &[u8], c: Chunk, r: Record) -> bool {
    let address = wrapping::add(memory.section_base, c.offset);
    half(part, 0) == Some(MAGIC)
        && half(part, 12).is_some_and(|size| size as usize == part.len())
        && c.size == part.len()
        && is_part(memory.section, c.offset, part)
        && has(part, address, r)
        && (r.version == VERSION || wrapping::add(address, part.len()) == r.limit)
}
