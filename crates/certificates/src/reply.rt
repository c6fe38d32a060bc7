// The reply: FULL, once, where the unit has confirmed and hears of another value.
ghost use Rattle.std.specs.Prelude.{◌≡◌, ◌+◌, ◌≤◌, length};
ghost use Rattle.protocol.specs.Layout.{full_length};
ghost use Rattle.protocol.specs.Step.{other_heard, owes_full, send_full, reply};
ghost use Rattle.phase.specs.Phases.{Did, Fits};

use layout::Bank;
use phase::Phase;
use protocol::Record;
use store::sources::{Certificate, Place, Source};

// Whether a value was heard that isn't the own one.
#[tactic(auto, using(octets::specs::StringsLaws::equal_same), unfolding(protocol::specs::Step::other_heard, protocol::specs::Record::none_heard, protocol::specs::Record::one_heard))]
fn other_heard(r: Record) -> bool
    ensures { result ≡ other_heard r }
{
    match r.notices.heard {
        0 => false,
        1 => r.notices.value != r.own.value,
        _ => true,
    }
}

// Whether FULL is owed: confirmed, FULL not sent, and another value heard.
#[tactic(auto, unfolding(protocol::specs::Step::owes_full))]
fn owes_full(r: Record) -> bool
    ensures { result ≡ owes_full r }
{
    r.confirmed && !r.sent && other_heard(r)
}

// Writes FULL from the own collected signatures.
fn send_full(p: Phase, store: &[u8], out: &mut [u8]) -> Phase
    requires { Fits p.unit store.now × (p.at + full_length p.unit.n ≤ length out.old) }
    ensures { Did send_full p.unit store.now out.old p.at result.unit store.now out.new result.at × (result.at ≤ p.at + full_length p.unit.n) }
{
    let r = p.unit;
    let value = r.own.value;
    let own = Certificate {
        value,
        source: Source {
            place: Place::Slots(Bank::Collected),
            seats: r.own.collected,
        },
        bytes: store,
    };
    let at = wire_write::write_full(out, p.at, r.n, r.round, r.seat, own);
    let unit = Record { sent: true, ..r };
    Phase { unit, at }
}

// Writes FULL where it is owed.
#[tactic(auto, unfolding(protocol::specs::Step::reply))]
pub fn reply(p: Phase, store: &[u8], out: &mut [u8]) -> Phase
    requires { Fits p.unit store.now × (p.at + full_length p.unit.n ≤ length out.old) }
    ensures { Did reply p.unit store.now out.old p.at result.unit store.now out.new result.at × (result.at ≤ p.at + full_length p.unit.n) }
{
    if owes_full(p.unit) {
        return send_full(p, store, out);
    }
    p
}
