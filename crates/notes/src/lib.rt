// The note of a unit's record, written and read back (document 02, item 2).
#![tactic(auto)]

ghost use Rattle.std.specs.Prelude.{◌≡◌, false, [], ◌∷◌};
ghost use Rattle.refusal.specs.Refusal.{first_of};
ghost use Rattle.protocol.specs.Refusals.{RECORD, write_note_conditions};
ghost use Rattle.protocol.specs.Note.{wrong_note};
ghost use Rattle.refusal.specs.Answers.{number_in};
ghost use Rattle.protocol.specs.Answers.{written_in, opened_in};
ghost use Rattle.protocol.specs.Calls as calls;

use crate::read::{note_record, wrong_note};
use crate::write::put_note;
use arguments::buffers::short_out;
use arguments::record::{is_impossible, opened_by};
use protocol::{Opened, Record};
use refusal::Refusal;

mod flags;
mod read;
mod write;

// Refusal of writing a note: 4, 7.
#[tactic(auto, using(refusal::specs::RefusalLaws::rows), unfolding(protocol::specs::Refusals::write_note_conditions))]
fn write_refusal(r: Record, out: &[u8]) -> Result<(), Refusal>
    ensures { number_in result ≡ first_of (write_note_conditions r out.now) }
{
    if is_impossible(r) {
        return Err(Refusal::Record);
    }
    if short_out(layout::note_length(), out) {
        return Err(Refusal::Out);
    }
    Ok(())
}

// "The record shall be written out as a note": the refusal, or the number of bytes written to `out`.
pub fn write_note(r: Record, out: &mut [u8]) -> Result<u32, Refusal>
    ensures { let outcome = calls.write_note r out.old in
        (written_in result ≡ calls.made outcome)
        × (out.new ≡ calls.out_after outcome.written out.old) }
{
    write_refusal(r, out)?;
    Ok(put_note(r, out))
}

// Refusal of the record in a note: 4.
#[tactic(auto, using(refusal::specs::RefusalLaws::rows))]
fn record_refusal(r: Record) -> Result<(), Refusal>
    ensures { number_in result ≡ first_of (RECORD r ∷ []) }
{
    if is_impossible(r) {
        return Err(Refusal::Record);
    }
    Ok(())
}

// The record in a note of the right form, or its refusal: 4.
fn record_in(note: &[u8]) -> Result<Record, Refusal>
    requires { wrong_note note.now ≡ false }
    ensures { opened_in result ≡ calls.read_note note.now }
{
    let unit = note_record(note);
    record_refusal(unit)?;
    Ok(unit)
}

// "A note read back is the record it came from": the record, or the refusal number and a record of zeros.
pub fn read_note(note: &[u8]) -> Opened
    ensures { result ≡ calls.read_note note.now }
{
    if wrong_note(note) {
        return opened_by(Err(Refusal::Note));
    }
    opened_by(record_in(note))
}
