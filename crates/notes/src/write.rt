// Writing a note, part by part.
ghost use Rattle.std.specs.Prelude.{◌≡◌, ◌+◌, ◌<◌, ◌≤◌, length};
ghost use Rattle.octets.specs.Octets.{patch};
ghost use Rattle.protocol.specs.Layout.{value_length, note_collected_at, note_length};
ghost use Rattle.protocol.specs.Note.{render_note};
ghost use Rattle.notes.specs.Parts.{note_start, note_masks};

use crate::flags::flags_of;
use layout::{
    NOTE_COLLECTED_AT, NOTE_FIRST_AT, NOTE_FIRST_VALUE_AT, NOTE_FLAGS_AT, NOTE_GUILTY_AT,
    NOTE_HEARD_VALUE_AT, NOTE_KEPT_AT, NOTE_OWN_VALUE_AT, NOTE_ROUND_AT, NOTE_SEAT_AT,
    NOTE_SIZE_AT,
};
use protocol::Record;

// "0x20, n 1, seat 1, round 2, flags 1"
#[tactic(auto, unfolding(protocol::specs::Layout::note_length))]
fn put_start(r: Record, out: &mut [u8])
    requires { (r.n < 256) × (r.seat < 256) × (note_length ≤ length out.old) }
    ensures { out.new ≡ patch 0 (note_start r) out.old }
{
    let flags = flags_of(r);
    out[0] = 0x20;
    out[NOTE_SIZE_AT] = r.n as u8;
    out[NOTE_SEAT_AT] = r.seat as u8;
    out[NOTE_ROUND_AT..NOTE_FLAGS_AT].copy_from_slice(&r.round.to_be_bytes()[2..]);
    out[NOTE_FLAGS_AT] = flags as u8;
}

// "the masks collected, kept, first certificate and guilty at 4 each"
#[tactic(auto, unfolding(protocol::specs::Layout::note_length))]
fn put_masks(r: Record, out: &mut [u8])
    requires { note_length ≤ length out.old }
    ensures { out.new ≡ patch note_collected_at (note_masks r) out.old }
{
    octets::put_word(out, NOTE_COLLECTED_AT, r.own.collected);
    octets::put_word(out, NOTE_KEPT_AT, r.kept);
    octets::put_word(out, NOTE_FIRST_AT, r.first.seats);
    octets::put_word(out, NOTE_GUILTY_AT, r.guilty);
}

// A value, of 32 bytes.
fn put_value(out: &mut [u8], at: usize, value: [u8; 32])
    requires { at + value_length ≤ length out.old }
    ensures { (length value ≡ value_length) × (out.new ≡ patch at value out.old) }
{
    octets::copy(out, at, &value);
}

// The note of a record. Answers the number of bytes written.
#[tactic(auto, unfolding(protocol::specs::Layout::note_length))]
pub(crate) fn put_note(r: Record, out: &mut [u8]) -> u32
    requires { (r.n < 256) × (r.seat < 256) × (note_length ≤ length out.old) }
    ensures { (out.new ≡ patch 0 (render_note r) out.old) × (result ≡ length (render_note r)) }
{
    let own = r.own.value;
    let heard = r.notices.value;
    let first = r.first.value;
    put_start(r, out);
    put_value(out, NOTE_OWN_VALUE_AT, own);
    put_masks(r, out);
    put_value(out, NOTE_HEARD_VALUE_AT, heard);
    put_value(out, NOTE_FIRST_VALUE_AT, first);
    layout::note_length() as u32
}
