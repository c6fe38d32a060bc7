// Confirming: k seats collected, NOTICE written, and the own certificate treated like one heard.
ghost use Rattle.std.specs.Prelude.{◌≡◌, List, ℕ, ◌+◌, ◌<◌, ◌≤◌, length};
ghost use Rattle.quorum.specs.Quorum.{most_seats, k};
ghost use Rattle.protocol.specs.Layout.{notice_length, full_length, evidence_length};
ghost use Rattle.protocol.specs.Step.{is_complete, confirm, confirm_if_complete};
ghost use Rattle.phase.specs.Phases.{Did, Fits};

use certificates::certificate::hear_certificate;
use certificates::reply::reply;
use layout::Bank;
use phase::Phase;
use protocol::Record;
use store::sources::{Certificate, Place, Source};

// Whether k seats are collected and the unit hasn't confirmed.
#[tactic(auto, unfolding(protocol::specs::Step::is_complete))]
fn is_complete(r: Record) -> bool
    requires { (1 ≤ r.n) × (r.n ≤ most_seats) }
    ensures { result ≡ is_complete r }
{
    !r.confirmed && quorum::size(r.own.collected) == quorum::k(r.n)
}

// Confirms and writes NOTICE, with any store.
fn confirm(p: Phase, out: &mut [u8]) -> Phase
    requires { (p.unit.seat < most_seats) × (p.at + notice_length ≤ length out.old) }
    ensures { ((store : List ℕ) → Did confirm p.unit store out.old p.at result.unit store out.new result.at) × (result.at ≡ p.at + notice_length) }
{
    let r = p.unit;
    let value = r.own.value;
    let at = wire_write::write_notice(out, p.at, r.round, r.seat, &value);
    let unit = Record {
        confirmed: true,
        ..r
    };
    Phase { unit, at }
}

// k seats collected: the unit confirms, and treats its own certificate like one heard. Otherwise the reply alone.
pub(crate) fn confirm_if_complete(p: Phase, store: &mut [u8], out: &mut [u8]) -> Phase
    requires { Fits p.unit store.old × (p.at + notice_length + full_length p.unit.n + evidence_length (k p.unit.n) ≤ length out.old) }
    ensures { Did confirm_if_complete p.unit store.old out.old p.at result.unit store.new out.new result.at }
{
    if is_complete(p.unit) {
        let confirmed = confirm(p, out);
        let r = confirmed.unit;
        let value = r.own.value;
        let own = Certificate {
            value,
            source: Source {
                place: Place::Slots(Bank::Collected),
                seats: r.own.collected,
            },
            bytes: &[],
        };
        return hear_certificate(confirmed, store, out, own);
    }
    reply(p, store, out)
}
