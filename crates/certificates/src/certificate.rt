// Certificates heard: the first is held, and each with another value makes the seats guilty that it shares with the first.
ghost use Rattle.std.specs.Prelude.{◌≡◌, [], ◌+◌, ◌≤◌, length};
ghost use Rattle.quorum.specs.Quorum.{k};
ghost use Rattle.protocol.specs.Layout.{full_length, evidence_length};
ghost use Rattle.protocol.specs.Step.{hold, found, blames, blame, hold_or_blame, hear_certificate};
ghost use Rattle.phase.specs.Phases.{Changed, Did, Fits};
ghost use Rattle.certificates.specs.Certificates.{Heard, heard, heard_of};

use crate::hear::hear;
use crate::reply::reply;
use layout::Bank;
use phase::Phase;
use protocol::{First, Record};
use quorum::Mask;
use store::sources::{Certificate, Place, Source, bytes_of};

// Holds a certificate, whose signatures stand in its bytes or in the store.
#[tactic(auto, unfolding(protocol::specs::Step::hold))]
fn hold(r: Record, store: &mut [u8], c: Certificate<'_>) -> Record
    requires { Fits r store.old × Heard r.n c.source store.old c.bytes.now }
    ensures { Changed (hold (heard_of r.n c.entry store.old)) r store.old result store.new }
{
    store::held::hold(store, r.n, c.source, c.bytes);
    let first = First {
        value: c.value,
        seats: c.source.seats,
    };
    Record { first, ..r }
}

// The seats newly found: those that a certificate shares with the first one held, less those guilty already. Of the certificate its
// seats alone matter.
#[tactic(auto, unfolding(protocol::specs::Step::found))]
fn found(r: Record, source: Source) -> Mask
    ensures { result ≡ found (heard r.n source [] [] []) r }
{
    let shared = quorum::shared(r.first.seats, source.seats);
    quorum::less(shared, r.guilty)
}

// Whether a certificate has another value than the first one held, and seats newly found. Its signatures don't matter.
#[tactic(auto, using(octets::specs::StringsLaws::equal_same), unfolding(protocol::specs::Step::blames, protocol::specs::Step::found))]
fn blames(r: Record, c: Certificate<'_>) -> bool
    ensures { result ≡ blames (heard r.n c.entry.source c.entry.value [] []) r }
{
    c.value != r.first.value && found(r, c.source) != 0
}

// Makes the seats newly found guilty, and writes EVIDENCE for them.
fn blame(p: Phase, store: &[u8], out: &mut [u8], c: Certificate<'_>) -> Phase
    requires { Fits p.unit store.now × Heard p.unit.n c.source store.now c.bytes.now × (p.at + evidence_length (k p.unit.n) ≤ length out.old) }
    ensures { Did (blame (heard_of p.unit.n c.entry store.now)) p.unit store.now out.old p.at result.unit store.now out.new result.at }
{
    let r = p.unit;
    let mask = found(r, c.source);
    let value = r.first.value;
    let first = Certificate {
        value,
        source: Source {
            place: Place::Slots(Bank::First),
            seats: r.first.seats,
        },
        bytes: store,
    };
    let second = Certificate {
        bytes: bytes_of(c.source, store, c.bytes),
        ..c
    };
    let at = wire_write::write_evidence(out, p.at, r.n, r.round, mask, first, second);
    let guilty = quorum::union(r.guilty, mask);
    let unit = Record { guilty, ..r };
    Phase { unit, at }
}

// Holds a certificate where none is held; otherwise blames, where its value is another and it adds seats.
fn hold_or_blame(p: Phase, store: &mut [u8], out: &mut [u8], c: Certificate<'_>) -> Phase
    requires { Fits p.unit store.old × Heard p.unit.n c.source store.old c.bytes.now × (p.at + evidence_length (k p.unit.n) ≤ length out.old) }
    ensures { Did (hold_or_blame (heard_of p.unit.n c.entry store.old)) p.unit store.old out.old p.at result.unit store.new out.new result.at }
{
    if p.unit.first.seats == 0 {
        let unit = hold(p.unit, store, c);
        return Phase { unit, ..p };
    }
    if blames(p.unit, c) {
        return blame(p, store, out, c);
    }
    p
}

// A certificate heard, with the message in its bytes, or nothing where its signatures stand in the store: a notice for its value,
// then the reply, then the certificate held or the seats newly found blamed.
pub fn hear_certificate(p: Phase, store: &mut [u8], out: &mut [u8], c: Certificate<'_>) -> Phase
    requires { Fits p.unit store.old × Heard p.unit.n c.source store.old c.bytes.now × (p.at + full_length p.unit.n + evidence_length (k p.unit.n) ≤ length out.old) }
    ensures { Did (hear_certificate (heard_of p.unit.n c.entry store.old)) p.unit store.old out.old p.at result.unit store.new out.new result.at }
{
    let unit = hear(p.unit, c.value);
    let replied = reply(Phase { unit, ..p }, store, out);
    hold_or_blame(replied, store, out, c)
}
