// Tests of the values of evidence and of two certificates: 15.
ghost use Rattle.std.specs.Prelude.{◌≡◌};
ghost use Rattle.protocol.specs.Message.{read};
ghost use Rattle.protocol.specs.Certificate.{certificate_in};
ghost use Rattle.protocol.specs.Refusals.{lower_first, not_lower_first, equal_values};
ghost use Rattle.signatures.specs.Places.{PlaceInside, pair_read};
ghost use Rattle.signatures.specs.Entries.{FullTaken, EvidenceTaken};

use signatures::verdicts::{Pair, pair_at};

// Whether the first value of a pair is lower than the second.
fn lower_first(m: &[u8], pair: Pair) -> bool
    requires { PlaceInside pair.lower m.now × PlaceInside pair.higher m.now }
    ensures { result ≡ lower_first (pair_read m.now pair) }
{
    let lower = wire::values::value_at(m, pair.lower.value);
    let higher = wire::values::value_at(m, pair.higher.value);
    wire::values::lower(&lower, &higher)
}

// Whether the values of an entry of EVIDENCE are equal or not lower first.
pub(crate) fn not_lower_first(n: u32, m: &[u8]) -> bool
    requires { EvidenceTaken n m.now }
    ensures { result ≡ not_lower_first (read n m.now) }
{
    let entries = wire::read::evidence_entries(m);
    for t in 0..entries.count {
        if !lower_first(m, pair_at(m, entries, t)) {
            return true;
        }
    }
    false
}

// The value of a certificate.
pub fn certificate_value(n: u32, m: &[u8]) -> [u8; 32]
    requires { FullTaken n m.now }
    ensures { result ≡ (certificate_in (read n m.now)).value }
{
    wire::values::value_at(m, layout::value_at())
}

// Whether two certificates have equal values.
#[tactic(auto, using(octets::specs::StringsLaws::equal_same), unfolding(protocol::specs::Refusals::equal_values))]
pub(crate) fn equal_values(n: u32, first: &[u8], second: &[u8]) -> bool
    requires { FullTaken n first.now × FullTaken n second.now }
    ensures { result ≡ equal_values (read n first.now) (read n second.now) }
{
    let a = certificate_value(n, first);
    let b = certificate_value(n, second);
    a == b
}
