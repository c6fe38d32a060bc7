// Readers: the kind, operands and entries of a message from its bytes.
ghost use Rattle.std.specs.Prelude.{◌≡◌, false, ◌&&◌, ◌<◌, ◌≤◌, ◌^◌, eqb, length};
ghost use Rattle.quorum.specs.Quorum.{most_seats};
ghost use Rattle.protocol.specs.Layout.{operands_at};
ghost use Rattle.protocol.specs.Message.{byte_at, read_round, fits_full, fits_evidence, read, entry_seats};
ghost use Rattle.protocol.specs.Certificate.{set_of};
ghost use Rattle.protocol.specs.Refusals.{stranger};
ghost use Rattle.wire.specs.Reading.{kind_of, command_place, seats_in, pack_entries, Inside};
ghost use Rattle.wire.specs.Answers.{command_of, command};

use crate::entries;
use layout::Entries;
use quorum::Mask;

// The kinds of messages: EVIDENCE is of two, the old 0x05 and 0x07; `Garbled` is for bytes that are none. It stands here, and not as the
// None of an Option, since document 01's messages have that case: the kind is that of `Message`, case by case.
#[derive(Clone, Copy, Debug, PartialEq, Eq)]
pub enum Kind {
    Submit,
    Notice,
    Full,
    OldEvidence,
    Evidence,
    Garbled,
}

// The number at index `at` of a message: a seat or a count.
pub fn number_at(m: &[u8], at: usize) -> u32
    requires { at < length m.now }
    ensures { (result ≡ byte_at m.now at) × (result < 256) }
{
    u32::from(m[at])
}

// The byte at an index, 0 past the end.
pub fn byte_or_zero(m: &[u8], at: usize) -> u32
    ensures { (result ≡ byte_at m.now at) × (result < 256) }
{
    match m.get(at) {
        Some(&b) => u32::from(b),
        None => 0,
    }
}

// The round: the two bytes after the command.
pub fn round_of(m: &[u8]) -> u32
    requires { operands_at ≤ length m.now }
    ensures { result ≡ read_round m.now }
{
    let at = layout::round_at();
    u32::from(u16::from_be_bytes([m[at], m[at + 1]]))
}

// Whether the bytes have the code and the length of a command.
fn fits(m: &[u8], code: u32, size: usize) -> bool
    ensures { result ≡ (eqb (length m.now) size && eqb (byte_at m.now 0) code) }
{
    m.len() == size && byte_or_zero(m, 0) == code
}

// Whether they are those of a FULL: its code, length, count and entry commands.
fn is_full(n: u32, m: &[u8]) -> bool
    requires { (1 ≤ n) × (n ≤ most_seats) }
    ensures { result ≡ fits_full n m.now }
{
    if !fits(m, 3, layout::full_length(n)) {
        return false;
    }
    let count = quorum::k(n);
    if number_at(m, layout::full_count_at()) != count {
        return false;
    }
    entries::have_command(m, layout::full_entries(count as usize), 4)
}

// The entries of an EVIDENCE: at the places of the old one where the command is 0x05, else at those of 0x07.
pub fn evidence_entries(m: &[u8]) -> Entries
    ensures { (result ≡ pack_entries m.now) × (command_place result result.count < 2 ^ 32) }
{
    let is_old = byte_or_zero(m, 0) == 5;
    if is_old {
        let count = byte_or_zero(m, layout::old_evidence_count_at());
        return layout::old_evidence_entries(count as usize);
    }
    let count = byte_or_zero(m, layout::evidence_count_at());
    layout::evidence_entries(count as usize)
}

// Whether the bytes are those of an EVIDENCE in either form. The command of an entry is the next after the message's.
fn is_evidence(n: u32, m: &[u8]) -> bool
    ensures { result ≡ fits_evidence n m.now }
{
    let command = byte_or_zero(m, 0);
    if (command != 5) & (command != 7) {
        return false;
    }
    let found = evidence_entries(m);
    let count = found.count;
    if count < 1 {
        return false;
    }
    if (n as usize) < count {
        return false;
    }
    if m.len() != layout::entry_at(found, count) {
        return false;
    }
    entries::have_command(m, found, command + 1)
}

// The kind of a message in a fleet of n seats.
pub fn classify(n: u32, m: &[u8]) -> Kind
    requires { (1 ≤ n) × (n ≤ most_seats) }
    ensures { command_of result ≡ command (read n m.now) }
{
    if fits(m, 1, layout::submit_length()) {
        return Kind::Submit;
    }
    if fits(m, 2, layout::notice_length()) {
        return Kind::Notice;
    }
    if is_full(n, m) {
        return Kind::Full;
    }
    if !is_evidence(n, m) {
        return Kind::Garbled;
    }
    if byte_or_zero(m, 0) == 5 {
        return Kind::OldEvidence;
    }
    Kind::Evidence
}

// The entries of a message: none where its command has no entries. Promised are the seats read there, in the message; start and
// length are free where there are none.
pub fn entries_of(n: u32, kind: Kind, m: &[u8]) -> Entries
    requires { (1 ≤ n) × (n ≤ most_seats) × (kind ≡ kind_of (read n m.now)) }
    ensures { (seats_in result m.now ≡ entry_seats (read n m.now)) × Inside result m.now }
{
    match kind {
        Kind::Full => layout::full_entries(quorum::k(n) as usize),
        Kind::OldEvidence | Kind::Evidence => evidence_entries(m),
        Kind::Submit | Kind::Notice | Kind::Garbled => layout::full_entries(0),
    }
}

// The set of the seats of a message's entries.
pub fn entry_set(n: u32, kind: Kind, m: &[u8]) -> Mask
    requires { (1 ≤ n) × (n ≤ most_seats) × (kind ≡ kind_of (read n m.now)) × (stranger n (read n m.now) ≡ false) }
    ensures { result ≡ set_of (entry_seats (read n m.now)) }
{
    let found = entries_of(n, kind, m);
    entries::seat_set(m, found)
}
