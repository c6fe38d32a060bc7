// Tests of the signatures of a message, each under its seat's key and over the value that it signs: 14.
ghost use Rattle.std.specs.Prelude.{◌≡◌, false, [], ◌∷◌, ◌+◌, ◌≤◌, ◌<◌, ◌^◌, length};
ghost use Rattle.refusal.specs.Answers.{number_in};
ghost use Rattle.refusal.specs.Refusal.{first_of};
ghost use Rattle.protocol.specs.Layout.{value_length, signature_length, value_at};
ghost use Rattle.protocol.specs.Message.{count_of, read};
ghost use Rattle.protocol.specs.Refusals.{stranger, SIGNATURE};
ghost use Rattle.protocol.specs.Signatures.{signed_bytes, checks, signature_number};
ghost use Rattle.wire.specs.Reading.{kind_of, pack_entries};
ghost use Rattle.signatures.specs.Entries.{SubmitTaken, FullTaken, Ends, EvidenceTaken};
ghost use Rattle.signatures.specs.Places.{PlaceInside, PairInside, place_checks, pair_checks, pair_from, pair_in};

use crate::fleet::Fleet;
use layout::Entries;
use refusal::Refusal;
use sha256_constants::RoundConstants;
use wire::entries::seat_of_entry;
use wire::read::{Kind, number_at};

// The command of the old EVIDENCE.
const OLD_EVIDENCE: u32 = 5;

// The 36 bytes that a seat signs.
fn signed_bytes(round: u32, seat: u32, value: &[u8]) -> [u8; 36]
    requires { (round ≤ 65535) × (seat < 256) × (length value.now ≡ 32) }
    ensures { result ≡ signed_bytes round seat value.now }
{
    let mut m = [0u8; 36];
    octets::put_word(&mut m, 0, 16777216 + round * 256 + seat);
    octets::copy(&mut m, 4, value);
    m
}

// Verdict on the signature of a seat over a value: its leaf is the round, and RFC 8554 accepts it under the seat's key.
pub fn seat_verdict(
    k: &RoundConstants,
    fleet: Fleet,
    seat: u32,
    value: &[u8],
    signature: &[u8],
) -> Result<(), Refusal>
    requires { (seat < fleet.n) × (length value.now ≡ value_length) × (length signature.now ≡ signature_length) }
    ensures { number_in result ≡ signature_number (checks fleet.entry.keys.now fleet.entry.round seat value.now signature.now) }
{
    if octets::word_at(signature, 0) != fleet.round {
        return Err(Refusal::Signature);
    }
    let message = signed_bytes(fleet.round, seat, value);
    lms::verify::verified(k, fleet.seat_key(seat), &message, signature)
}

// A signature in a message: its place, and the place of the value that it signs.
#[derive(Clone, Copy)]
pub struct Place {
    pub value: usize,
    pub signature: usize,
}

// Verdict on a seat's signature in a message.
fn place_verdict(
    k: &RoundConstants,
    fleet: Fleet,
    m: &[u8],
    seat: u32,
    place: Place,
) -> Result<(), Refusal>
    requires { (seat < fleet.n) × PlaceInside place m.now }
    ensures { number_in result ≡ signature_number (place_checks (checks fleet.entry.keys.now fleet.entry.round) m.now seat place) }
{
    let value = wire::values::value_at(m, place.value);
    let signature = store::slots::signature_at(m, place.signature);
    seat_verdict(k, fleet, seat, &value, signature)
}

// ---- SUBMIT

fn submit_verdict(k: &RoundConstants, fleet: Fleet, m: &[u8]) -> Result<(), Refusal>
    requires { SubmitTaken fleet.n m.now }
    ensures { number_in result ≡ first_of (SIGNATURE (checks fleet.entry.keys.now fleet.entry.round) (read fleet.entry.n m.now) ∷ []) }
{
    let seat = number_at(m, layout::seat_at());
    let place = Place {
        value: layout::value_at(),
        signature: layout::submit_signature_at(),
    };
    place_verdict(k, fleet, m, seat, place)
}

// ---- FULL

// Verdict on the signatures of FULL: a reader goes from entry to entry (document 01 names its functions, so it is no iterator).
fn full_verdict(k: &RoundConstants, fleet: Fleet, m: &[u8]) -> Result<(), Refusal>
    requires { FullTaken fleet.n m.now }
    ensures { number_in result ≡ first_of (SIGNATURE (checks fleet.entry.keys.now fleet.entry.round) (read fleet.entry.n m.now) ∷ []) }
{
    let mut reader = wire::reader::open(m);
    while let Some(entry) = wire::reader::entry(reader) {
        let place = Place {
            value: layout::value_at(),
            signature: entry.signature,
        };
        place_verdict(k, fleet, m, entry.seat, place)?;
        reader = wire::reader::advance(reader);
    }
    Ok(())
}

// ---- EVIDENCE

// A pair of signatures in a message: the seat of both, and their places.
#[derive(Clone, Copy)]
pub struct Pair {
    pub seat: u32,
    pub lower: Place,
    pub higher: Place,
}

// Verdict on both signatures of a pair.
fn pair_verdict(k: &RoundConstants, fleet: Fleet, m: &[u8], pair: Pair) -> Result<(), Refusal>
    requires { PairInside fleet.n pair m.now }
    ensures { number_in result ≡ signature_number (pair_checks (checks fleet.entry.keys.now fleet.entry.round) m.now pair) }
{
    place_verdict(k, fleet, m, pair.seat, pair.lower)?;
    place_verdict(k, fleet, m, pair.seat, pair.higher)
}

// A seat's pair over two values, one after the other, with their signatures in the same order.
fn pair_from(seat: u32, values: usize, signatures: usize) -> Pair
    requires { (values + value_length < 2 ^ 64) × (signatures + signature_length < 2 ^ 64) }
    ensures { result ≡ pair_from seat values signatures }
{
    let lower = Place {
        value: values,
        signature: signatures,
    };
    let higher = Place {
        value: values + layout::value_length(),
        signature: signatures + layout::signature_length(),
    };
    Pair {
        seat,
        lower,
        higher,
    }
}

// The pair in an entry of EVIDENCE: over the entry's own values or, in the old one, over those of the message.
pub fn pair_at(m: &[u8], entries: Entries, i: usize) -> Pair
    requires { (entries ≡ pack_entries m.now) × Ends m.now × (i < count_of m.now) }
    ensures { result ≡ pair_in m.now i }
{
    let seat = seat_of_entry(m, entries, i);
    let held = layout::entry_held_at(entries, i);
    if number_at(m, 0) == OLD_EVIDENCE {
        return pair_from(seat, layout::lower_at(), held);
    }
    pair_from(seat, held, held + layout::pair_lower_at())
}

// Verdict on the signatures of EVIDENCE: its pairs one after another.
fn evidence_verdict(k: &RoundConstants, fleet: Fleet, m: &[u8]) -> Result<(), Refusal>
    requires { EvidenceTaken fleet.n m.now }
    ensures { number_in result ≡ first_of (SIGNATURE (checks fleet.entry.keys.now fleet.entry.round) (read fleet.entry.n m.now) ∷ []) }
{
    let entries = wire::read::evidence_entries(m);
    for t in 0..entries.count {
        pair_verdict(k, fleet, m, pair_at(m, entries, t))?;
    }
    Ok(())
}

// ---- a message

// Verdict on the signatures of a message in which no seat is a stranger.
pub fn message_verdict(
    k: &RoundConstants,
    fleet: Fleet,
    kind: Kind,
    m: &[u8],
) -> Result<(), Refusal>
    requires { let said = read fleet.n m.now in (kind ≡ kind_of said) × (stranger fleet.n said ≡ false) }
    ensures { number_in result ≡ first_of (SIGNATURE (checks fleet.entry.keys.now fleet.entry.round) (read fleet.entry.n m.now) ∷ []) }
{
    match kind {
        Kind::Submit => submit_verdict(k, fleet, m),
        Kind::Full => full_verdict(k, fleet, m),
        Kind::OldEvidence | Kind::Evidence => evidence_verdict(k, fleet, m),
        Kind::Notice | Kind::Garbled => Ok(()),
    }
}
