// Reading a note.
ghost use Rattle.std.specs.Prelude.{◌≡◌, length};
ghost use Rattle.protocol.specs.Layout.{note_length};
ghost use Rattle.protocol.specs.Note.{note_round, note_record, wrong_note};
ghost use Rattle.notes.specs.Parts.{note_own, note_notices, note_first};

use crate::flags::{CONFIRMED, SENT, SUBMITTED, heard_by, is_set, wrong_flags};
use layout::{
    NOTE_COLLECTED_AT, NOTE_FIRST_AT, NOTE_FIRST_VALUE_AT, NOTE_FLAGS_AT, NOTE_GUILTY_AT,
    NOTE_HEARD_VALUE_AT, NOTE_KEPT_AT, NOTE_OWN_VALUE_AT, NOTE_ROUND_AT, NOTE_SEAT_AT,
    NOTE_SIZE_AT,
};
use octets::word_at;
use protocol::{First, Notices, Own, Record};
use wire::values::value_at;

// 17: "when the length isn't 118, the command isn't 0x20, both heard flags or an unknown flag are set"
#[tactic(auto, using(crate::specs::ReturnsLaws::others_tested), unfolding(protocol::specs::Layout::note_length, protocol::specs::Note::wrong_note, protocol::specs::Note::note_flags))]
pub(crate) fn wrong_note(note: &[u8]) -> bool
    ensures { result ≡ wrong_note note.now }
{
    if note.len() != layout::note_length() {
        return true;
    }
    let flags = u32::from(note[NOTE_FLAGS_AT]);
    note[0] != 0x20 || wrong_flags(flags)
}

// The round.
#[tactic(auto, unfolding(protocol::specs::Layout::note_length, protocol::specs::Note::note_round))]
fn note_round(note: &[u8]) -> u32
    requires { length note.now ≡ note_length }
    ensures { result ≡ note_round note.now }
{
    u32::from(u16::from_be_bytes([note[NOTE_ROUND_AT], note[NOTE_ROUND_AT + 1]]))
}

// The own submission.
#[tactic(auto, unfolding(protocol::specs::Layout::note_length))]
fn note_own(note: &[u8], flags: u32) -> Own
    requires { length note.now ≡ note_length }
    ensures { result ≡ note_own flags note.now }
{
    let submitted = is_set(SUBMITTED, flags);
    let value = value_at(note, NOTE_OWN_VALUE_AT);
    let collected = word_at(note, NOTE_COLLECTED_AT);
    Own {
        submitted,
        value,
        collected,
    }
}

// The notices heard.
#[tactic(auto, unfolding(protocol::specs::Layout::note_length))]
fn note_notices(note: &[u8], flags: u32) -> Notices
    requires { length note.now ≡ note_length }
    ensures { result ≡ note_notices flags note.now }
{
    let heard = heard_by(flags);
    let value = value_at(note, NOTE_HEARD_VALUE_AT);
    Notices { heard, value }
}

// The first certificate.
#[tactic(auto, unfolding(protocol::specs::Layout::note_length))]
fn note_first(note: &[u8]) -> First
    requires { length note.now ≡ note_length }
    ensures { result ≡ note_first note.now }
{
    let value = value_at(note, NOTE_FIRST_VALUE_AT);
    let seats = word_at(note, NOTE_FIRST_AT);
    First { value, seats }
}

// The record in a note, possible or not.
#[tactic(auto, unfolding(protocol::specs::Layout::note_length, protocol::specs::Note::note_record, protocol::specs::Note::note_flags))]
pub(crate) fn note_record(note: &[u8]) -> Record
    requires { length note.now ≡ note_length }
    ensures { result ≡ note_record note.now }
{
    let n = u32::from(note[NOTE_SIZE_AT]);
    let seat = u32::from(note[NOTE_SEAT_AT]);
    let flags = u32::from(note[NOTE_FLAGS_AT]);
    let round = note_round(note);
    let own = note_own(note, flags);
    let confirmed = is_set(CONFIRMED, flags);
    let notices = note_notices(note, flags);
    let first = note_first(note);
    let sent = is_set(SENT, flags);
    let guilty = word_at(note, NOTE_GUILTY_AT);
    let kept = word_at(note, NOTE_KEPT_AT);
    Record {
        n,
        seat,
        round,
        own,
        confirmed,
        notices,
        first,
        sent,
        guilty,
        kept,
    }
}
