// Holding a certificate: its signatures go, seat by seat, to the first certificate's bank of the store.
ghost use Rattle.std.specs.Prelude.{◌≡◌, ◌<◌, ◌≤◌, length};
ghost use Rattle.quorum.specs.Quorum.{most_seats, In, seats};
ghost use Rattle.protocol.specs.Layout.{store_length, first_bank};
ghost use Rattle.protocol.specs.Certificate.{fill, fill_each};
ghost use Rattle.store.specs.Sources.{bytes_of, Readable, signature_from};

use crate::slots::{fill, signature_copy};
use crate::sources::{Source, bytes_of, signature_of};
use layout::Bank;

// Copies the signature of one seat, by way of an array: two slots of one store can't be lent at the same time.
fn hold_seat(store: &mut [u8], n: u32, source: Source, seat: u32, m: &[u8])
    requires { (n ≤ most_seats) × (seat < n) × In seat source.seats × (store_length n ≤ length store.old) × Readable n source (bytes_of source.place store.old m.now) }
    ensures { store.new ≡ fill n first_bank seat (signature_from n source (bytes_of source.place store.old m.now) seat) store.old }
{
    let signature = signature_copy(signature_of(source, n, seat, bytes_of(source, store, m)));
    fill(store, n, Bank::First, seat, &signature);
}

// Holds a certificate whose signatures stand in m or in the store itself.
pub fn hold(store: &mut [u8], n: u32, source: Source, m: &[u8])
    requires { (n ≤ most_seats) × (store_length n ≤ length store.old) × Readable n source (bytes_of source.place store.old m.now) }
    ensures { store.new ≡ fill_each n first_bank (signature_from n source (bytes_of source.place store.old m.now)) (seats n source.seats) store.old }
{
    let mask = source.seats;
    for s in 0..n {
        if quorum::has(mask, s) {
            hold_seat(store, n, source, s, m);
        }
    }
}
