// A reader over one certificate: the bytes of a FULL, and the index of the next entry. The functions over it are thin: `entry_at`,
// over bytes and an index, does the work.
ghost use Rattle.std.specs.Prelude.{◌≡◌, ◌+◌, ◌<◌, ◌^◌};
ghost use Rattle.wire.specs.Answers.{Found};

use crate::entries::{Entry, seat_of_entry};

#[derive(Clone, Copy)]
pub struct Reader<'a> {
    pub full: &'a [u8],
    pub next: usize,
}

// The entry of a FULL at an index from 0; none at the end.
fn entry_at(full: &[u8], next: usize) -> Option<Entry>
    ensures { Found next full.now result }
{
    let count = usize::from(*full.get(layout::full_count_at())?);
    let entries = layout::full_entries(count);
    if full.len() < layout::entry_at(entries, count) || count <= next {
        return None;
    }
    Some(Entry {
        seat: seat_of_entry(full, entries, next),
        signature: layout::entry_held_at(entries, next),
    })
}

// A reader before the first entry.
pub fn open<'a>(full: &'a [u8]) -> Reader<'a>
    ensures { (result.full ≡ full.entry) × (result.next ≡ 0) }
{
    Reader { full, next: 0 }
}

// The next entry; none at the end.
pub fn entry<'a>(r: Reader<'a>) -> Option<Entry>
    ensures { Found r.entry.next r.entry.full.now result }
{
    entry_at(r.full, r.next)
}

// The reader moved on by one entry.
pub fn advance<'a>(r: Reader<'a>) -> Reader<'a>
    requires { r.next + 1 < 2 ^ 64 }
    ensures { (result.full ≡ r.entry.full) × (result.next ≡ r.entry.next + 1) }
{
    Reader {
        full: r.full,
        next: r.next + 1,
    }
}
