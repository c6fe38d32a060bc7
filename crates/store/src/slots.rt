// Signatures at a place of lent bytes, and slots filled with them.
ghost use Rattle.std.specs.Prelude.{◌≡◌, ◌+◌, ◌<◌, ◌≤◌, length};
ghost use Rattle.quorum.specs.Quorum.{most_seats};
ghost use Rattle.protocol.specs.Layout.{signature_length, store_length};
ghost use Rattle.protocol.specs.Certificate.{slot, fill};
ghost use Rattle.protocol.specs.Message.{read_signature};
ghost use Rattle.layout.specs.Places.{bank_of};

use layout::{Bank, SIGNATURE};

// The signature at index `at`.
pub fn signature_at(m: &[u8], at: usize) -> &[u8]
    requires { at + signature_length ≤ length m.now }
    ensures { result.now ≡ read_signature at m.now }
{
    &m[at..at + SIGNATURE]
}

// "A signature is copied into its seat's slot, and only that slot is written."
pub fn fill(store: &mut [u8], n: u32, bank: Bank, seat: u32, signature: &[u8])
    requires { (n ≤ most_seats) × (seat < n) × (store_length n ≤ length store.old) × (length signature.now ≡ signature_length) }
    ensures { store.new ≡ fill n (bank_of bank) seat signature.now store.old }
{
    let at = layout::slot_at(n, bank, seat);
    store[at..at + SIGNATURE].copy_from_slice(signature);
}

// A copy of a signature.
pub(crate) fn signature_copy(signature: &[u8]) -> [u8; SIGNATURE]
    requires { length signature.now ≡ signature_length }
    ensures { result ≡ signature.now }
{
    let mut copy = [0u8; SIGNATURE];
    copy.copy_from_slice(signature);
    copy
}

// A copy of a seat's signature in a bank. Two slots of one store can't be lent at the same time.
pub fn slot_copy(store: &[u8], n: u32, bank: Bank, seat: u32) -> [u8; SIGNATURE]
    requires { (n ≤ most_seats) × (seat < n) × (store_length n ≤ length store.now) }
    ensures { result ≡ slot n (bank_of bank) store.now seat }
{
    signature_copy(signature_at(store, layout::slot_at(n, bank, seat)))
}
