// The C interface: the functions that libzolbine.a exports, declared in include/zolbine.h. Each is thin over the crates below.
#![tactic(auto)]

ghost use Rattle.std.specs.Prelude.{◌≡◌, length};
ghost use Rattle.octets.specs.Octets.{patch};
ghost use Rattle.protocol.specs.Calls as calls;
ghost use Rattle.protocol.specs.Signatures.{check_signature, make_key, sign, checks};
ghost use Rattle.framing.specs.Framing.{message_length};
ghost use Rattle.dispatch.specs.Calls.{open_dispatcher, add_ticket, take_turn};
ghost use Rattle.zolbine.specs.Version.{version};

use dispatch::{Dispatched, Dispatcher, Eight, Turn};
use protocol::{Checked, Opened, Record, Stepped, Written};
use refusal::answers::number_in;

// The interface's version, ZOLBINE_VERSION in the header.
#[unsafe(no_mangle)]
pub extern "C" fn zolbine_version() -> u32
    ensures { result ≡ version }
{
    6
}

// The length of the first message in a buffer; 0 where no message of a fleet of n seats stands there whole.
#[unsafe(no_mangle)]
pub extern "C" fn zolbine_message_length(n: u32, bytes: &[u8]) -> u32
    ensures { result ≡ message_length n bytes.now }
{
    framing::message_length(n, bytes)
}

// The stand-alone check of a signature: the refusal number or 0.
#[unsafe(no_mangle)]
pub extern "C" fn zolbine_check_signature(key: &[u8], message: &[u8], signature: &[u8]) -> u32
    ensures { result ≡ check_signature key.now message.now signature.now }
{
    number_in(lms::calls::check_signature(key, message, signature))
}

// The key maker: fills the tree and writes the public key.
#[unsafe(no_mangle)]
pub extern "C" fn zolbine_make_key(
    seed: &[u8],
    identifier: &[u8],
    tree: &mut [u8],
    out: &mut [u8],
) -> Written
    ensures { let outcome = make_key seed.now identifier.now tree.old out.old in
        (result.number ≡ outcome.refusal)
        × (result.written ≡ length outcome.written)
        × (tree.new ≡ outcome.tree)
        × (out.new ≡ patch 0 outcome.written out.old) }
{
    Written::from(lms::calls::make_key(seed, identifier, tree, out))
}

// The signer: writes the signature of a message with a leaf of the tree.
#[unsafe(no_mangle)]
pub extern "C" fn zolbine_sign(
    leaf: u32,
    seed: &[u8],
    identifier: &[u8],
    randomizer: &[u8],
    tree: &[u8],
    message: &[u8],
    out: &mut [u8],
) -> Written
    ensures { let outcome = sign leaf message.now
        seed.now identifier.now randomizer.now tree.now out.old in
        (result.number ≡ outcome.refusal)
        × (result.written ≡ length outcome.written)
        × (out.new ≡ patch 0 outcome.written out.old) }
{
    Written::from(lms::calls::sign(leaf, seed, identifier, randomizer, tree, message, out))
}

// "The evidence check answers the mask of the seats named, 0 with a refusal." "The old 0x05 is still accepted by the check." (document
// 02, item 3)
#[unsafe(no_mangle)]
pub extern "C" fn zolbine_check_evidence(
    n: u32,
    round: u32,
    keys: &[u8],
    evidence: &[u8],
) -> Checked
    ensures { result ≡ calls.evidence_check (checks keys.now round) n round keys.now evidence.now }
{
    Checked::from(evidence::check_evidence(n, round, keys, evidence))
}

// "Evidence can be made from two certificates in hand, given in either order, by the same rules."
#[unsafe(no_mangle)]
pub extern "C" fn zolbine_make_evidence(
    n: u32,
    round: u32,
    keys: &[u8],
    first: &[u8],
    second: &[u8],
    out: &mut [u8],
) -> Written
    ensures { let outcome = calls.making (checks keys.now round) n round keys.now
        first.now second.now out.old in
        (result ≡ calls.made outcome)
        × (out.new ≡ calls.out_after outcome.written out.old) }
{
    Written::from(evidence::make_evidence(n, round, keys, first, second, out))
}

// "Two accepted 0x07 packs of one round and one key table become one" (document 02, item 5).
#[unsafe(no_mangle)]
pub extern "C" fn zolbine_join_evidence(
    n: u32,
    round: u32,
    keys: &[u8],
    first: &[u8],
    second: &[u8],
    out: &mut [u8],
) -> Written
    ensures { let outcome = calls.joining (checks keys.now round) n round keys.now
        first.now second.now out.old in
        (result ≡ calls.made outcome)
        × (out.new ≡ calls.out_after outcome.written out.old) }
{
    Written::from(joining::join_evidence(n, round, keys, first, second, out))
}

// "Opening takes n, seat, round and key table and gives the record with nothing else set; a refused opening gives a record of
// zeros."
#[unsafe(no_mangle)]
pub extern "C" fn zolbine_open(n: u32, seat: u32, round: u32, keys: &[u8]) -> Opened
    ensures { result ≡ calls.opening n seat round keys.now }
{
    confirmer::opening::open(n, seat, round, keys)
}

// "Submit: the own signature is checked like any other, the value kept, the signature collected, SUBMIT written." "At the own
// submit, after the own signature, kept ones .. are collected" (document 02, item 1).
#[unsafe(no_mangle)]
pub extern "C" fn zolbine_submit(
    unit: Record,
    keys: &[u8],
    store: &mut [u8],
    value: &[u8],
    signature: &[u8],
    out: &mut [u8],
) -> Stepped
    ensures { let outcome = calls.submit (checks keys.now unit.round) keys.now unit
        store.old value.now signature.now out.old in
        (result ≡ calls.answer outcome)
        × (store.new ≡ outcome.store)
        × (out.new ≡ calls.out_after outcome.written out.old) }
{
    confirmer::calls::submit(unit, keys, store, value, signature, out)
}

// A step, by value: a SUBMIT, NOTICE or FULL heard.
#[unsafe(no_mangle)]
pub extern "C" fn zolbine_step(
    unit: Record,
    keys: &[u8],
    store: &mut [u8],
    message: &[u8],
    out: &mut [u8],
) -> Stepped
    ensures { let outcome = calls.step (checks keys.now unit.round) keys.now unit
        store.old message.now out.old in
        (result ≡ calls.answer outcome)
        × (store.new ≡ outcome.store)
        × (out.new ≡ calls.out_after outcome.written out.old) }
{
    confirmer::calls::step(unit, keys, store, message, out)
}

// "a thin entry takes the record lent and overwrites it with the stepped one"
#[unsafe(no_mangle)]
pub extern "C" fn zolbine_step_lent(
    unit: &mut Record,
    keys: &[u8],
    store: &mut [u8],
    message: &[u8],
    out: &mut [u8],
) -> Written
    ensures { let outcome = calls.step (checks keys.now unit.old.round) keys.now
        unit.old store.old message.now out.old in
        (result.number ≡ outcome.refusal)
        × (result.written ≡ length outcome.written)
        × (unit.new ≡ outcome.unit)
        × (store.new ≡ outcome.store)
        × (out.new ≡ calls.out_after outcome.written out.old) }
{
    let a = confirmer::calls::step(*unit, keys, store, message, out);
    *unit = a.unit;
    Written {
        number: a.number,
        written: a.written,
    }
}

// "The record shall be written out as a note" (document 02, item 2).
#[unsafe(no_mangle)]
pub extern "C" fn zolbine_write_note(unit: Record, out: &mut [u8]) -> Written
    ensures { let outcome = calls.write_note unit out.old in
        (result ≡ calls.made outcome)
        × (out.new ≡ calls.out_after outcome.written out.old) }
{
    Written::from(notes::write_note(unit, out))
}

// "A note read back is the record it came from"; "a refused note gives a record of zeros" (document 02, item 2).
#[unsafe(no_mangle)]
pub extern "C" fn zolbine_read_note(note: &[u8]) -> Opened
    ensures { result ≡ calls.read_note note.now }
{
    notes::read_note(note)
}

// "A dispatcher takes eight different rounds at opening" (document 02, item 6).
#[unsafe(no_mangle)]
pub extern "C" fn zolbine_open_dispatcher(rounds: Eight) -> Dispatched
    ensures { result ≡ open_dispatcher rounds }
{
    dispatcher::calls::open_dispatcher(rounds)
}

// "and, in each lane, up to 16 message tickets (16-bit numbers of the host's)" (document 02, item 6).
#[unsafe(no_mangle)]
pub extern "C" fn zolbine_add_ticket(dispatcher: Dispatcher, round: u32, ticket: u16) -> Dispatched
    ensures { result ≡ add_ticket dispatcher round ticket }
{
    dispatcher::calls::add_ticket(dispatcher, round, ticket)
}

// "Each turn it gives out the oldest ticket of the waiting lane served longest ago" (document 02, item 6).
#[unsafe(no_mangle)]
pub extern "C" fn zolbine_take_turn(dispatcher: Dispatcher) -> Turn
    ensures { result ≡ take_turn dispatcher }
{
    dispatcher::calls::take_turn(dispatcher)
}
