// The map of a Data Field: which pages a block has.
ghost use Rattle.std.specs.Prelude.{◌≡◌, ℕ, ◌+◌, ◌*◌, ◌<◌, ◌≤◌, [], length, take, drop, slice_index_or};
ghost use Rattle.pages.specs.Map.{entry_at, lawful_entry, map_step, map_size, page_start};

use crate::entry::{ENTRY_LEN, Entry};
use crate::page_type::PageType;
use bits::Layout;
use block::FIELD_LEN;

// With this many bytes free or fewer no page starts.
pub const MAX_FREE: usize = 16;
// No block has room for more entries.
const MAX_ENTRIES: usize = FIELD_LEN / ENTRY_LEN;
// The bytes of the longest record.
const MAX_RECORD: u32 = 1_048_576;

// What a lawful entry says of the map.
#[derive(Clone, Copy)]
pub enum Step {
    // The map ends here.
    Last,
    // Another entry follows, and so many bytes are free.
    Next(usize),
}

// How many entries the map of a Data Field has, if it is lawful.
pub(crate) fn map_size(field: &[u8; FIELD_LEN]) -> Option<usize>
    ensures { result ≡ map_size field.now }
{
    let mut free = FIELD_LEN;
    for (i, bytes) in slots(field).iter().rev().enumerate() {
        match judge_entry(free, i == 0, Entry::read(bytes))? {
            Step::Last => return Some(i + 1),
            Step::Next(rest) => free = rest,
        }
    }
    None
}

// Where the page behind the first `count` pages starts.
pub(crate) fn start_of(field: &[u8; FIELD_LEN], count: usize) -> usize
    requires { count ≤ 1026 }
    ensures { result ≡ page_start field.now count }
{
    slots(field)[MAX_ENTRIES - count..]
        .iter()
        .map(|bytes| usize::from(Entry::read(bytes).count))
        .sum()
}

// The i-th entry, from 0.
pub(crate) fn entry_in(field: &[u8; FIELD_LEN], i: usize) -> Entry
    requires { i < 1026 }
    ensures { result ≡ entry_at field.now i }
{
    Entry::read(&slots(field)[MAX_ENTRIES - 1 - i])
}

// The Data Field by the places that entries can have, from the front: the first entry stands in the last.
fn slots(field: &[u8; FIELD_LEN]) -> &[[u8; ENTRY_LEN]]
    ensures count { length result.now ≡ 1026 }
    ensures each { (k : ℕ) → k < 1026 → slice_index_or result.now k [] ≡ take 8 (drop (8 * k) field.now) }
{
    field.as_chunks().0
}

// What an entry says, where `free` bytes are free; nothing if the map is then not lawful.
fn judge_entry(free: usize, first: bool, e: Entry) -> Option<Step>
    ensures { result ≡ map_step free first e }
{
    let taken = usize::from(e.count) + ENTRY_LEN;
    if !is_lawful(first, e) || taken > free {
        None
    } else if !e.last {
        Some(Step::Next(free - taken))
    } else if free - taken <= MAX_FREE {
        Some(Step::Last)
    } else {
        None
    }
}

// Whether an entry may stand in a map, as the first or not.
fn is_lawful(first: bool, e: Entry) -> bool
    ensures { result ≡ lawful_entry first e }
{
    !e.compressed
        && e.reserved == 0
        && 1 <= e.count
        && match e.kind {
            PageType::Data => {
                (!e.prev || first) && (!e.next || e.last) && 1 <= e.total && e.total <= MAX_RECORD
            }
            PageType::Filler | PageType::TapeMark => {
                !e.prev && !e.next && e.last && e.total == 0
            }
            _ => false,
        }
}
