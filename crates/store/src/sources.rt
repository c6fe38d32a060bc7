// Sources of a certificate's signatures: the entries of a FULL, or a bank of the store.
ghost use Rattle.std.specs.Prelude.{◌≡◌, ◌<◌, ◌≤◌, length};
ghost use Rattle.quorum.specs.Quorum.{most_seats, In};
ghost use Rattle.protocol.specs.Layout.{signature_length};
ghost use Rattle.store.specs.Sources.{bytes_of, entry_place, Readable, signature_from};

use crate::slots::signature_at;
use layout::Bank;
use quorum::Mask;

#[derive(Clone, Copy)]
pub enum Place {
    Entries,
    Slots(Bank),
}

// A certificate's seats, and the place of their signatures.
#[derive(Clone, Copy)]
pub struct Source {
    pub place: Place,
    pub seats: Mask,
}

// A certificate to read: its value, its source, and the bytes with its signatures.
#[derive(Clone, Copy)]
pub struct Certificate<'a> {
    pub value: [u8; 32],
    pub source: Source,
    pub bytes: &'a [u8],
}

// The bytes with the signatures: the message m, or the store.
pub fn bytes_of<'a>(source: Source, store: &'a [u8], m: &'a [u8]) -> &'a [u8]
    ensures { result.now ≡ bytes_of source.place store.now m.now }
{
    match source.place {
        Place::Entries => m,
        Place::Slots(_) => store,
    }
}

// The place of a seat's signature in a FULL, after the entries of the seats below it.
fn entry_place(seats: Mask, seat: u32) -> usize
    requires { seat < most_seats }
    ensures { result ≡ entry_place seats seat }
{
    let entries = layout::full_entries(quorum::size(seats) as usize);
    let below = quorum::shared_count(seats, quorum::all(seat));
    layout::entry_held_at(entries, below as usize)
}

// The signature of a seat of the certificate.
pub fn signature_of(source: Source, n: u32, seat: u32, bytes: &[u8]) -> &[u8]
    requires { (n ≤ most_seats) × (seat < n) × In seat source.seats × Readable n source bytes.now }
    ensures { (result.now ≡ signature_from n source bytes.now seat) × (length result.now ≡ signature_length) }
{
    match source.place {
        Place::Entries => signature_at(bytes, entry_place(source.seats, seat)),
        Place::Slots(bank) => signature_at(bytes, layout::slot_at(n, bank, seat)),
    }
}
