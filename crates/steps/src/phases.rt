// Submit and step once nothing is refused (document 01, "Steps"; document 02, items 1 and 3), as phases one after another.
ghost use Rattle.std.specs.Prelude.{◌≡◌, false, length};
ghost use Rattle.protocol.specs.Layout.{value_length, signature_length};
ghost use Rattle.protocol.specs.Message.{read};
ghost use Rattle.protocol.specs.Refusals.{said, stranger, disorder};
ghost use Rattle.protocol.specs.Step.{submitted, stepped};
ghost use Rattle.wire.specs.Reading.{kind_of};
ghost use Rattle.wire.specs.declared.read.Kind.TheVariants as kind;
ghost use Rattle.phase.specs.Phases.{Did};
ghost use Rattle.protocol.specs.Record.{Ready};

use crate::confirm::confirm_if_complete;
use certificates::certificate::hear_certificate;
use certificates::hear::hear;
use certificates::reply::reply;
use collecting::Submit;
use collecting::collect::submit_own;
use collecting::kept::{collect_kept, hear_submit};
use phase::Phase;
use protocol::Record;
use store::sources::{Certificate, Place, Source};
use wire::read::Kind;

// A submit.
pub fn submit_phase(
    r: Record,
    store: &mut [u8],
    out: &mut [u8],
    value: &[u8],
    signature: &[u8],
) -> Phase
    requires { Ready r store.old out.old × (said r ≡ false) × (length value.now ≡ value_length) × (length signature.now ≡ signature_length) }
    ensures { Did (submitted value.now signature.now) r store.old out.old 0 result.unit store.new out.new result.at }
{
    let p = submit_own(r, store, out, value, signature);
    let unit = collect_kept(p.unit, store);
    confirm_if_complete(Phase { unit, ..p }, store, out)
}

// A SUBMIT heard.
fn step_submit(r: Record, store: &mut [u8], out: &mut [u8], message: &[u8]) -> Phase
    requires { Ready r store.old out.old × (kind.Submit ≡ kind_of (read r.n message.now)) × (stranger r.n (read r.n message.now) ≡ false) }
    ensures { Did (stepped (read r.n message.now)) r store.old out.old 0 result.unit store.new out.new result.at }
{
    let submit = Submit {
        seat: wire::read::number_at(message, layout::seat_at()),
        value: wire::values::value_at(message, layout::value_at()),
        signature: store::slots::signature_at(message, layout::submit_signature_at()),
    };
    let unit = hear_submit(r, store, submit);
    confirm_if_complete(Phase { unit, at: 0 }, store, out)
}

// A NOTICE heard.
fn step_notice(r: Record, store: &[u8], out: &mut [u8], message: &[u8]) -> Phase
    requires { Ready r store.now out.old × (kind.Notice ≡ kind_of (read r.n message.now)) }
    ensures { Did (stepped (read r.n message.now)) r store.now out.old 0 result.unit store.now out.new result.at }
{
    let value = wire::values::value_at(message, layout::value_at());
    let unit = hear(r, value);
    reply(Phase { unit, at: 0 }, store, out)
}

// A FULL heard.
fn step_full(r: Record, store: &mut [u8], out: &mut [u8], message: &[u8]) -> Phase
    requires { Ready r store.old out.old × (kind.Full ≡ kind_of (read r.n message.now)) × (stranger r.n (read r.n message.now) ≡ false) × (disorder (read r.n message.now) ≡ false) }
    ensures { Did (stepped (read r.n message.now)) r store.old out.old 0 result.unit store.new out.new result.at }
{
    let full = Certificate {
        value: wire::values::value_at(message, layout::value_at()),
        source: Source {
            place: Place::Entries,
            seats: wire::read::entry_set(r.n, Kind::Full, message),
        },
        bytes: message,
    };
    hear_certificate(Phase { unit: r, at: 0 }, store, out, full)
}

// A step, by the kind of its message.
pub fn step_phase(r: Record, store: &mut [u8], out: &mut [u8], kind: Kind, message: &[u8]) -> Phase
    requires { Ready r store.old out.old × (kind ≡ kind_of (read r.n message.now)) × (stranger r.n (read r.n message.now) ≡ false) × (disorder (read r.n message.now) ≡ false) }
    ensures { Did (stepped (read r.n message.now)) r store.old out.old 0 result.unit store.new out.new result.at }
{
    match kind {
        Kind::Submit => step_submit(r, store, out, message),
        Kind::Notice => step_notice(r, store, out, message),
        Kind::Full => step_full(r, store, out, message),
        Kind::OldEvidence | Kind::Evidence | Kind::Garbled => Phase { unit: r, at: 0 },
    }
}
