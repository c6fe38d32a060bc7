// The evidence check, evidence from two certificates, and the lower certificate of two.
#![tactic(auto)]

ghost use Rattle.std.specs.Prelude.{◌≡◌, [], IfOk};
ghost use Rattle.refusal.specs.Refusal.{first_of};
ghost use Rattle.refusal.specs.Answers.{number_in};
ghost use Rattle.protocol.specs.Layout.{evidence_out_length};
ghost use Rattle.validate.specs.Calls.{given_conditions};
ghost use Rattle.protocol.specs.Answers.{written_in, checked_in};
ghost use Rattle.protocol.specs.Signatures.{checks};
ghost use Rattle.protocol.specs.Calls.{out_after, making, made, evidence_check, lower_certificate};
ghost use Rattle.evidence.specs.Making.{lower_number, lower_first};

use crate::certificates::{first_is_lower, write_conflict};
use quorum::Mask;
use refusal::Refusal;
use signatures::fleet::Fleet;
use validate::calls::{evidence_refusal, fleet, out_refusal, two_refusal};

mod certificates;

// The evidence check: the refusal, or the seats that the evidence names.
pub fn check_evidence(n: u32, round: u32, keys: &[u8], evidence: &[u8]) -> Result<Mask, Refusal>
    ensures { checked_in result ≡ evidence_check (checks keys.now round) n round keys.now evidence.now }
{
    let fleet = fleet(n, round, keys)?;
    let kind = wire::read::classify(n, evidence);
    evidence_refusal(fleet, kind, evidence)?;
    Ok(wire::read::entry_set(n, kind, evidence))
}

// The fleet of the call, or the refusal of what it is given besides the certificates: 1, 3, 5, 7.
#[tactic(auto, using(crate::specs::LentLaws::first_refused, crate::specs::LentLaws::out_answered, refusal::specs::AnswersLaws::handed_on))]
fn lent<'a>(n: u32, round: u32, keys: &'a [u8], out: &[u8]) -> Result<Fleet<'a>, Refusal>
    ensures number { number_in result ≡ first_of (given_conditions n round keys.entry.now (evidence_out_length n) out.now) }
    ensures made { IfOk result (λ f. (f.n ≡ n) × (f.round ≡ round) × (f.keys ≡ keys.entry)) }
{
    let given = fleet(n, round, keys)?;
    out_refusal(layout::evidence_out_length(n), out)?;
    Ok(given)
}

// Evidence from two certificates, given in either order: the refusal, or the number of bytes written to `out`.
pub fn make_evidence(
    n: u32,
    round: u32,
    keys: &[u8],
    first: &[u8],
    second: &[u8],
    out: &mut [u8],
) -> Result<u32, Refusal>
    ensures { let outcome = making (checks keys.now round) n round keys.now
        first.now second.now out.old in
        (written_in result ≡ made outcome)
        × (out.new ≡ out_after outcome.written out.old) }
{
    let given = lent(n, round, keys, out)?;
    two_refusal(given, first, second)?;
    Ok(write_conflict(n, round, first, second, out))
}

// A part of length 0.
fn nothing<'a>(m: &'a [u8]) -> &'a [u8]
    ensures { result.now ≡ [] }
{
    &m[..0]
}

// Of two certificates that conflict, the one with the lower value, as the whole of the buffer lent; a part of length 0 where
// the call or either certificate is refused or they don't conflict. The contract leaves the buffer of that part free: document 01
// says only its length.
pub fn lower_certificate<'a>(
    n: u32,
    round: u32,
    keys: &[u8],
    first: &'a [u8],
    second: &'a [u8],
) -> &'a [u8]
    ensures bytes { result.now ≡ lower_certificate (checks keys.now round) n round keys.now first.now second.now }
    ensures buffer { lower_number (checks keys.now round) n round keys.now first.now second.now ≡ 0 → result ≡ lower_first n first.now second.now first.entry second.entry }
{
    let Ok(fleet) = fleet(n, round, keys) else {
        return nothing(first);
    };
    let Ok(()) = two_refusal(fleet, first, second) else {
        return nothing(first);
    };
    if first_is_lower(n, first, second) {
        return first;
    }
    second
}
