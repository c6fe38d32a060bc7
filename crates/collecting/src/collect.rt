// The own submission, and the signatures collected over its value.
ghost use Rattle.std.specs.Prelude.{◌≡◌, ◌<◌, ◌≤◌, length, []};
ghost use Rattle.quorum.specs.Quorum.{most_seats};
ghost use Rattle.protocol.specs.Calls.{start};
ghost use Rattle.protocol.specs.Layout.{signature_length, submit_length, value_length};
ghost use Rattle.protocol.specs.Step.{is_wanted, set_own_value, collect, submit_own, collect_if_wanted};
ghost use Rattle.phase.specs.Phases.{Did, Changed, Fits};

use crate::Submit;
use layout::Bank;
use phase::Phase;
use protocol::{Own, Record};

// Collects a seat's signature over the own value.
#[tactic(auto, unfolding(protocol::specs::Step::collect, layout::specs::Places::bank_of))]
fn collect(r: Record, store: &mut [u8], seat: u32, signature: &[u8]) -> Record
    requires { Fits r store.old × (seat < r.n) × (length signature.now ≡ signature_length) }
    ensures { Changed (collect seat signature.now) r store.old result store.new }
{
    store::slots::fill(store, r.n, Bank::Collected, seat, signature);
    let collected = quorum::with(r.own.collected, seat);
    Record {
        own: Own { collected, ..r.own },
        ..r
    }
}

// The record with the own value set.
#[tactic(auto, unfolding(protocol::specs::Step::set_own_value))]
fn set_own_value(r: Record, value: [u8; 32]) -> Record
    ensures { result ≡ (set_own_value value (start r [])).unit }
{
    Record {
        own: Own {
            submitted: true,
            value,
            ..r.own
        },
        ..r
    }
}

// Submit: the own value is set, the own signature collected, SUBMIT written from the start of `out`.
pub fn submit_own(
    r: Record,
    store: &mut [u8],
    out: &mut [u8],
    value: &[u8],
    signature: &[u8],
) -> Phase
    requires { Fits r store.old × (length value.now ≡ value_length) × (length signature.now ≡ signature_length) × (submit_length ≤ length out.old) }
    ensures { Did (submit_own value.now signature.now) r store.old out.old 0 result.unit store.new out.new result.at × (result.at ≡ submit_length) }
{
    let said = set_own_value(r, wire::values::value_at(value, 0));
    let unit = collect(said, store, r.seat, signature);
    let at = wire_write::write_submit(out, 0, r.round, r.seat, value, signature);
    Phase { unit, at }
}

// Whether a signature is wanted: not confirmed, the value is the own one and the seat is new.
#[tactic(auto, using(octets::specs::StringsLaws::equal_same), unfolding(protocol::specs::Step::is_wanted))]
fn is_wanted(r: Record, seat: u32, value: [u8; 32]) -> bool
    requires { seat < most_seats }
    ensures { result ≡ is_wanted seat value r }
{
    !r.confirmed && value == r.own.value && !quorum::has(r.own.collected, seat)
}

// A signature is collected if it is wanted.
#[tactic(auto, unfolding(protocol::specs::Step::collect_if_wanted))]
pub(crate) fn collect_if_wanted(r: Record, store: &mut [u8], s: Submit<'_>) -> Record
    requires { Fits r store.old × (s.seat < r.n) }
    ensures { Changed (collect_if_wanted s.entry.seat s.entry.value s.entry.signature.now) r store.old result store.new }
{
    if is_wanted(r, s.seat, s.value) {
        return collect(r, store, s.seat, s.signature);
    }
    r
}
