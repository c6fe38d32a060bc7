// Walks over the entries of a message: their commands and their seats.
ghost use Rattle.std.specs.Prelude.{◌≡◌, true, ℕ, ◌<◌, ltb};
ghost use Rattle.quorum.specs.Quorum.{most_seats};
ghost use Rattle.protocol.specs.Message.{byte_at};
ghost use Rattle.protocol.specs.Certificate.{set_of};
ghost use Rattle.protocol.specs.Refusals.{every, rising};
ghost use Rattle.wire.specs.Reading.{command_place, seat_place, commands_are, seats_in, Inside};

use layout::Entries;
use quorum::Mask;

// An entry that was read: its seat, and the place of its signature in the message.
#[derive(Clone, Copy, Debug, PartialEq, Eq)]
pub struct Entry {
    pub seat: u32,
    pub signature: usize,
}

// The command of an entry, by its index from 0.
fn command_of_entry(m: &[u8], entries: Entries, i: usize) -> u32
    requires { Inside entries m.now × (i < entries.count) }
    ensures { result ≡ byte_at m.now (command_place entries i) }
{
    let at = layout::entry_at(entries, i);
    u32::from(m[at])
}

// The seat of an entry.
pub fn seat_of_entry(m: &[u8], entries: Entries, i: usize) -> u32
    requires { Inside entries m.now × (i < entries.count) }
    ensures { (result ≡ byte_at m.now (seat_place entries i)) × (result < 256) }
{
    let at = layout::entry_seat_at(entries, i);
    u32::from(m[at])
}

// Whether every entry has the command.
pub(crate) fn have_command(m: &[u8], entries: Entries, command: u32) -> bool
    requires { Inside entries m.now }
    ensures { result ≡ commands_are command entries m.now }
{
    for i in 0..entries.count {
        if command_of_entry(m, entries, i) != command {
            return false;
        }
    }
    true
}

// Whether every seat is below n.
pub fn seats_below(m: &[u8], entries: Entries, n: u32) -> bool
    requires { Inside entries m.now }
    ensures { result ≡ every (λ (x : ℕ). ltb x n) (seats_in entries m.now) }
{
    for i in 0..entries.count {
        if n <= seat_of_entry(m, entries, i) {
            return false;
        }
    }
    true
}

// Whether the seats rise.
pub fn seats_rise(m: &[u8], entries: Entries) -> bool
    requires { Inside entries m.now }
    ensures { result ≡ rising (seats_in entries m.now) }
{
    for i in 1..entries.count {
        if seat_of_entry(m, entries, i) <= seat_of_entry(m, entries, i - 1) {
            return false;
        }
    }
    true
}

// The set of all seats.
pub(crate) fn seat_set(m: &[u8], entries: Entries) -> Mask
    requires { Inside entries m.now × (every (λ (x : ℕ). ltb x most_seats) (seats_in entries m.now) ≡ true) }
    ensures { result ≡ set_of (seats_in entries m.now) }
{
    let mut mask = 0;
    for i in 0..entries.count {
        mask = quorum::with(mask, seat_of_entry(m, entries, i));
    }
    mask
}
