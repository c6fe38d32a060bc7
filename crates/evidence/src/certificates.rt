// Two certificates in hand that conflict: the test for the lower value, and the evidence written from them.
ghost use Rattle.std.specs.Prelude.{◌≡◌, ◌≤◌, length};
ghost use Rattle.quorum.specs.Quorum.{most_seats, k, size};
ghost use Rattle.protocol.specs.Values.{is_lower};
ghost use Rattle.protocol.specs.Layout.{evidence_out_length};
ghost use Rattle.protocol.specs.Message.{read, render};
ghost use Rattle.protocol.specs.Certificate.{certificate_in, conflict_of};
ghost use Rattle.store.specs.Sources.{Sound, Readable};
ghost use Rattle.wire_write.specs.Writing.{Wrote, certificate_of};
ghost use Rattle.signatures.specs.Entries.{FullTaken};
ghost use Rattle.validate.specs.Calls.{Conflict};

use store::sources::{Certificate, Place, Source};
use validate::conflict::certificate_value;
use wire::read::Kind;

// Whether the first has the lower value.
pub(crate) fn first_is_lower(n: u32, first: &[u8], second: &[u8]) -> bool
    requires { FullTaken n first.now × FullTaken n second.now }
    ensures { result ≡ is_lower (certificate_in (read n first.now)).value (certificate_in (read n second.now)).value }
{
    let a = certificate_value(n, first);
    let b = certificate_value(n, second);
    wire::values::lower(&a, &b)
}

// A FULL as a certificate to read.
fn certificate(n: u32, m: &[u8]) -> Certificate<'_>
    requires { (1 ≤ n) × (n ≤ most_seats) × Sound n m.now (certificate_in (read n m.now)).seats }
    ensures { Readable n result.source result.bytes.now × (size result.source.seats ≡ k n) × (certificate_of n result ≡ certificate_in (read n m.entry.now)) }
{
    let source = Source {
        place: Place::Entries,
        seats: wire::read::entry_set(n, Kind::Full, m),
    };
    Certificate {
        value: certificate_value(n, m),
        source,
        bytes: m,
    }
}

// Writes the EVIDENCE of two certificates that conflict to the start of `out`, and answers its length.
pub(crate) fn write_conflict(n: u32, round: u32, first: &[u8], second: &[u8], out: &mut [u8]) -> u32
    requires { (1 ≤ n) × (n ≤ most_seats) × Conflict n round (read n first.now) (read n second.now) × (evidence_out_length n ≤ length out.old) }
    ensures { Wrote 0 (render (conflict_of n round (certificate_in (read n first.now)) (certificate_in (read n second.now)))) out.old out.new result }
{
    let a = certificate(n, first);
    let b = certificate(n, second);
    let mask = quorum::shared(a.source.seats, b.source.seats);
    wire_write::write_evidence(out, 0, n, round, mask, a, b) as u32
}
