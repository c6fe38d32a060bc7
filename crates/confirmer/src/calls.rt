// Submit and step: refusals, then phases.
ghost use Rattle.std.specs.Prelude.{◌≡◌, ◌^◌, ◌<◌, IfOk};
ghost use Rattle.protocol.specs.Signatures.{checks};
ghost use Rattle.protocol.specs.Calls as calls;
ghost use Rattle.confirmer.specs.Returns.{answered_in};

use phase::Phase;
use protocol::{Record, Stepped};
use refusal::Refusal;
use steps::phases::{step_phase, submit_phase};
use validate::calls::{own_refusal, record_fleet, step_refusal};

// Answer of a call, as C gets it: of a refused one its number, no byte written and the record as it was; else the bytes written and
// the record after its phases.
fn answer(r: Record, phases: Result<Phase, Refusal>) -> Stepped
    requires { IfOk phases (λ p. p.at < 2 ^ 32) }
    ensures { result ≡ answered_in r phases }
{
    match phases {
        Ok(p) => Stepped {
            number: 0,
            written: p.at as u32,
            unit: p.unit,
        },
        Err(refusal) => Stepped {
            number: refusal.number(),
            written: 0,
            unit: r,
        },
    }
}

// The phases of a submit, or its refusal.
fn submitted(
    r: Record,
    keys: &[u8],
    store: &mut [u8],
    value: &[u8],
    signature: &[u8],
    out: &mut [u8],
) -> Result<Phase, Refusal>
    ensures small { IfOk result (λ p. p.at < 2 ^ 32) }
    ensures outcome { let outcome = calls.submit (checks keys.now r.round) keys.now r
        store.old value.now signature.now out.old in
        (answered_in r result ≡ calls.answer outcome)
        × (store.new ≡ outcome.store)
        × (out.new ≡ calls.out_after outcome.written out.old) }
{
    let fleet = record_fleet(r, keys, store, out)?;
    own_refusal(fleet, r, value, signature)?;
    let room = layout::out_length(r.n);
    Ok(submit_phase(r, store, &mut out[..room], value, signature))
}

// "Submit: the own signature is checked like any other, the value kept, the signature collected, SUBMIT written." "At the own
// submit, after the own signature, kept ones .. are collected" (document 02, item 1).
pub fn submit(
    r: Record,
    keys: &[u8],
    store: &mut [u8],
    value: &[u8],
    signature: &[u8],
    out: &mut [u8],
) -> Stepped
    ensures { let outcome = calls.submit (checks keys.now r.round) keys.now r
        store.old value.now signature.now out.old in
        (result ≡ calls.answer outcome)
        × (store.new ≡ outcome.store)
        × (out.new ≡ calls.out_after outcome.written out.old) }
{
    answer(r, submitted(r, keys, store, value, signature, out))
}

// The phases of a step, or its refusal.
fn stepped(
    r: Record,
    keys: &[u8],
    store: &mut [u8],
    message: &[u8],
    out: &mut [u8],
) -> Result<Phase, Refusal>
    ensures small { IfOk result (λ p. p.at < 2 ^ 32) }
    ensures outcome { let outcome = calls.step (checks keys.now r.round) keys.now r
        store.old message.now out.old in
        (answered_in r result ≡ calls.answer outcome)
        × (store.new ≡ outcome.store)
        × (out.new ≡ calls.out_after outcome.written out.old) }
{
    let fleet = record_fleet(r, keys, store, out)?;
    let kind = wire::read::classify(r.n, message);
    let heard = step_refusal(fleet, kind, message);
    heard?;
    let room = layout::out_length(r.n);
    Ok(step_phase(r, store, &mut out[..room], kind, message))
}

// A step: a SUBMIT, NOTICE or FULL heard.
pub fn step(r: Record, keys: &[u8], store: &mut [u8], message: &[u8], out: &mut [u8]) -> Stepped
    ensures { let outcome = calls.step (checks keys.now r.round) keys.now r
        store.old message.now out.old in
        (result ≡ calls.answer outcome)
        × (store.new ≡ outcome.store)
        × (out.new ≡ calls.out_after outcome.written out.old) }
{
    answer(r, stepped(r, keys, store, message, out))
}
