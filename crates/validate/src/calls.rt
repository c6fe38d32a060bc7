// Refusals of the calls. The tests stand in the order of the table, and a test relies on those before it.
ghost use Rattle.std.specs.Prelude.{◌≡◌, true, [], ◌∷◌, ◌<◌, IfOk};
ghost use Rattle.refusal.specs.Answers.{number_in};
ghost use Rattle.refusal.specs.Refusal.{first_of};
ghost use Rattle.protocol.specs.Signatures.{checks};
ghost use Rattle.protocol.specs.Message.{read};
ghost use Rattle.protocol.specs.Refusals.{OUT, wrong_lengths, is_for_step, is_evidence, outside_conditions, opening_conditions, record_conditions, message_conditions, pack_conditions, certificate_conditions, two_conditions};
ghost use Rattle.wire.specs.Reading.{kind_of};
ghost use Rattle.validate.specs.Calls.{own_conditions};

use crate::conflict::{equal_values, not_lower_first};
use crate::message::message_refusal;
use arguments::buffers::{short_out, short_store};
use arguments::range::{wrong_round, wrong_seat, wrong_size};
use arguments::record::is_impossible;
use protocol::Record;
use refusal::Refusal;
use sha256_constants::RoundConstants;
use signatures::fleet::Fleet;
use signatures::keys::wrong_keys;
use signatures::verdicts::seat_verdict;
use wire::read::Kind;

// The fleet of a call without a record, or the refusal of n, round or key table: 1, 3, 5.
pub fn fleet<'a>(n: u32, round: u32, keys: &'a [u8]) -> Result<Fleet<'a>, Refusal>
    ensures number { number_in result ≡ first_of (outside_conditions n round keys.entry.now) }
    ensures made { IfOk result (λ f. (f.n ≡ n) × (f.round ≡ round) × (f.keys ≡ keys.entry)) }
{
    if wrong_size(n) {
        return Err(Refusal::Size);
    }
    if wrong_round(round) {
        return Err(Refusal::Round);
    }
    if wrong_keys(n, keys) {
        return Err(Refusal::Keys);
    }
    Ok(Fleet { n, round, keys })
}

// Refusal of an out buffer, by the length stated for the call: 7.
pub fn out_refusal(stated: usize, out: &[u8]) -> Result<(), Refusal>
    ensures { number_in result ≡ first_of (OUT stated out.now ∷ []) }
{
    if short_out(stated, out) {
        return Err(Refusal::Out);
    }
    Ok(())
}

// Refusal of an opening: 1, 2, 3, 5.
pub fn opening_refusal(n: u32, seat: u32, round: u32, keys: &[u8]) -> Result<(), Refusal>
    ensures { number_in result ≡ first_of (opening_conditions n seat round keys.now) }
{
    if wrong_size(n) {
        return Err(Refusal::Size);
    }
    if wrong_seat(n, seat) {
        return Err(Refusal::Seat);
    }
    if wrong_round(round) {
        return Err(Refusal::Round);
    }
    if wrong_keys(n, keys) {
        return Err(Refusal::Keys);
    }
    Ok(())
}

// The fleet of a submit or a step, or the refusal of its record, key table, store or out: 4, 5, 6, 7.
pub fn record_fleet<'a>(
    r: Record,
    keys: &'a [u8],
    store: &[u8],
    out: &[u8],
) -> Result<Fleet<'a>, Refusal>
    ensures number { number_in result ≡ first_of (record_conditions keys.entry.now r store.now out.now) }
    ensures made { IfOk result (λ f. (f.n ≡ r.n) × (f.round ≡ r.round) × (f.keys ≡ keys.entry)) }
{
    if is_impossible(r) {
        return Err(Refusal::Record);
    }
    if wrong_keys(r.n, keys) {
        return Err(Refusal::Keys);
    }
    if short_store(r.n, store) {
        return Err(Refusal::Store);
    }
    if short_out(layout::out_length(r.n), out) {
        return Err(Refusal::Out);
    }
    Ok(Fleet {
        n: r.n,
        round: r.round,
        keys,
    })
}

// Whether a value isn't 32 bytes, or a signature isn't 1,452.
fn wrong_lengths(value: &[u8], signature: &[u8]) -> bool
    ensures { result ≡ wrong_lengths value.now signature.now }
{
    value.len() != layout::value_length() || signature.len() != layout::signature_length()
}

// Refusal of the own submission: 8, 9, 14. The fleet is the record's.
pub fn own_refusal(fleet: Fleet, r: Record, value: &[u8], signature: &[u8]) -> Result<(), Refusal>
    requires { (r.seat < fleet.n) × (fleet.round ≡ r.round) }
    ensures { number_in result ≡ first_of (own_conditions (checks fleet.entry.keys.now r.round) r value.now signature.now) }
{
    if r.own.submitted {
        return Err(Refusal::Said);
    }
    if wrong_lengths(value, signature) {
        return Err(Refusal::Garbled);
    }
    let k = sha256_constants::round_constants();
    seat_verdict(&k, fleet, r.seat, value, signature)
}

// Refusal of the message given to a step: 9 to 14.
pub fn step_refusal(fleet: Fleet, kind: Kind, m: &[u8]) -> Result<(), Refusal>
    requires { kind ≡ kind_of (read fleet.n m.now) }
    ensures { let said = read fleet.entry.n m.now in
        number_in result ≡ first_of (message_conditions (checks fleet.entry.keys.now fleet.entry.round) fleet.entry.n fleet.entry.round (is_for_step said) said) }
{
    let k = sha256_constants::round_constants();
    message_refusal(&k, fleet, forms::is_for_step(kind), kind, m)
}

// Refusal of a pack, for every call: 9 to 15. `taken`: whether the call takes its command, which is one of EVIDENCE's then.
pub fn pack_refusal(
    k: &RoundConstants,
    fleet: Fleet,
    taken: bool,
    kind: Kind,
    m: &[u8],
) -> Result<(), Refusal>
    requires { let said = read fleet.n m.now in (kind ≡ kind_of said) × (taken ≡ true → is_evidence said ≡ true) }
    ensures { number_in result ≡ first_of (pack_conditions (checks fleet.entry.keys.now fleet.entry.round) fleet.entry.n fleet.entry.round taken (read fleet.entry.n m.now)) }
{
    message_refusal(k, fleet, taken, kind, m)?;
    if not_lower_first(fleet.n, m) {
        return Err(Refusal::NoConflict);
    }
    Ok(())
}

// Refusal of an EVIDENCE in the evidence check: 9 to 15.
pub fn evidence_refusal(fleet: Fleet, kind: Kind, m: &[u8]) -> Result<(), Refusal>
    requires { kind ≡ kind_of (read fleet.n m.now) }
    ensures { let said = read fleet.entry.n m.now in
        number_in result ≡ first_of (pack_conditions (checks fleet.entry.keys.now fleet.entry.round) fleet.entry.n fleet.entry.round (is_evidence said) said) }
{
    let k = sha256_constants::round_constants();
    pack_refusal(&k, fleet, forms::is_evidence(kind), kind, m)
}

// Refusal of one certificate: 9 to 14.
fn certificate_refusal(k: &RoundConstants, fleet: Fleet, m: &[u8]) -> Result<(), Refusal>
    ensures { number_in result ≡ first_of (certificate_conditions (checks fleet.entry.keys.now fleet.entry.round) fleet.entry.n fleet.entry.round (read fleet.entry.n m.now)) }
{
    let kind = wire::read::classify(fleet.n, m);
    message_refusal(k, fleet, forms::is_certificate(kind), kind, m)
}

// Refusal of two certificates: the first's 9 to 14, the second's, and 15.
pub fn two_refusal(fleet: Fleet, first: &[u8], second: &[u8]) -> Result<(), Refusal>
    ensures { let f = fleet.entry in
        number_in result ≡ first_of (two_conditions (checks f.keys.now f.round) f.n f.round (read f.n first.now) (read f.n second.now)) }
{
    let k = sha256_constants::round_constants();
    certificate_refusal(&k, fleet, first)?;
    certificate_refusal(&k, fleet, second)?;
    if equal_values(fleet.n, first, second) {
        return Err(Refusal::NoConflict);
    }
    Ok(())
}
