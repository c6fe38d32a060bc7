// SUBMITs heard before the own submit: the first of each seat is kept with its value, and collected at the own submit.
ghost use Rattle.std.specs.Prelude.{◌≡◌, ◌≤◌, ◌<◌, length};
ghost use Rattle.quorum.specs.Quorum.{most_seats};
ghost use Rattle.protocol.specs.Layout.{signature_length};
ghost use Rattle.protocol.specs.Step.{keep, hear_submit, is_open_to, collect_kept_seat, collect_kept};
ghost use Rattle.phase.specs.Phases.{Changed, Fits};

use crate::Submit;
use crate::collect::collect_if_wanted;
use layout::Bank;
use protocol::Record;

// A seat's SUBMIT is kept: its signature, then its value.
#[tactic(auto, unfolding(protocol::specs::Step::keep, protocol::specs::Certificate::fill_kept, protocol::specs::Certificate::fill, layout::specs::Places::bank_of))]
fn keep(r: Record, store: &mut [u8], s: Submit<'_>) -> Record
    requires { Fits r store.old × (s.seat < r.n) }
    ensures { Changed (keep s.entry.seat s.entry.value s.entry.signature.now) r store.old result store.new }
{
    store::slots::fill(store, r.n, Bank::Kept, s.seat, s.signature);
    let at = layout::kept_value_at(r.n, s.seat);
    octets::copy(store, at, &s.value);
    let kept = quorum::with(r.kept, s.seat);
    Record { kept, ..r }
}

// SUBMIT heard: after the own submit its signature is collected where it is wanted; before, the first of its seat is kept.
#[tactic(auto, unfolding(protocol::specs::Step::hear_submit, protocol::specs::Step::keep_if_first))]
pub fn hear_submit(r: Record, store: &mut [u8], s: Submit<'_>) -> Record
    requires { Fits r store.old × (s.seat < r.n) }
    ensures { Changed (hear_submit s.entry.seat s.entry.value s.entry.signature.now) r store.old result store.new }
{
    if r.own.submitted {
        return collect_if_wanted(r, store, s);
    }
    if quorum::has(r.kept, s.seat) {
        return r;
    }
    keep(r, store, s)
}

// The seat is kept, and fewer than k are collected.
#[tactic(auto, unfolding(protocol::specs::Step::is_open_to))]
fn is_open_to(r: Record, seat: u32) -> bool
    requires { (1 ≤ r.n) × (r.n ≤ most_seats) × (seat < most_seats) }
    ensures { result ≡ is_open_to seat r }
{
    quorum::has(r.kept, seat) && quorum::size(r.own.collected) < quorum::k(r.n)
}

// A kept seat's signature is collected where it is wanted, while fewer than k are. Never in line: the copy of the signature would
// lie on the stack of every submit, of a refused one too (docs/HOST.md states 4 KiB for these).
#[inline(never)]
#[tactic(auto, unfolding(protocol::specs::Step::collect_kept_seat, protocol::specs::Layout::signature_length))]
fn collect_kept_seat(r: Record, store: &mut [u8], seat: u32) -> Record
    requires { Fits r store.old × (seat < r.n) }
    ensures { Changed (collect_kept_seat seat) r store.old result store.new }
{
    if !is_open_to(r, seat) {
        return r;
    }
    let at = layout::kept_value_at(r.n, seat);
    let value = wire::values::value_at(store, at);
    let signature = store::slots::slot_copy(store, r.n, Bank::Kept, seat);
    let kept = Submit {
        seat,
        value,
        signature: &signature,
    };
    collect_if_wanted(r, store, kept)
}

// All kept seats, rising; then none is kept.
pub fn collect_kept(r: Record, store: &mut [u8]) -> Record
    requires { Fits r store.old }
    ensures { Changed collect_kept r store.old result store.new × Fits result store.new × (result.n ≡ r.n) }
{
    let mut u = r;
    for seat in 0..r.n {
        u = collect_kept_seat(u, store, seat);
    }
    Record { kept: 0, ..u }
}
