// Lengths and places in bytes, each equal to that of protocol's `Layout`.
#![tactic(auto)]

ghost use Rattle.std.specs.Prelude.{◌≡◌, ◌+◌, ◌*◌, ◌<◌, ◌≤◌, ◌^◌};
ghost use Rattle.quorum.specs.Quorum.{most_seats};
ghost use Rattle.protocol.specs.Layout as Layout;
ghost use Rattle.protocol.specs.Record.{last_round};
ghost use Rattle.layout.specs.Places.{full, evidence, old_evidence, bank_of};

// The constants, also for lengths of arrays. Each is made of its parts. A constant has no contract, so small functions below, one for
// each that others read, tie them to their definitions.

// The lengths of a value, a key and a signature.
pub const VALUE: usize = 32;

pub const KEY: usize = 56;

pub const SIGNATURE: usize = 1452;

// The places of the round and of the first operand after it.
const ROUND_AT: usize = 1;

const OPERANDS_AT: usize = ROUND_AT + 2;

// SUBMIT, NOTICE and FULL: the places of seat and value.
const SEAT_AT: usize = OPERANDS_AT;

const VALUE_AT: usize = SEAT_AT + 1;

// The length of NOTICE.
pub const NOTICE: usize = VALUE_AT + VALUE;

// SUBMIT: the place of its signature, and its length.
const SUBMIT_SIGNATURE_AT: usize = VALUE_AT + VALUE;

pub const SUBMIT: usize = SUBMIT_SIGNATURE_AT + SIGNATURE;

// An entry: the places of its seat and of its content, from its start.
const ENTRY_SEAT_AT: usize = 1;

const ENTRY_HELD_AT: usize = ENTRY_SEAT_AT + 1;

// FULL: the places of its count and of its first entry, and the length of an entry.
const FULL_COUNT_AT: usize = VALUE_AT + VALUE;

pub const FULL_START: usize = FULL_COUNT_AT + 1;

pub const FULL_ENTRY: usize = ENTRY_HELD_AT + SIGNATURE;

// EVIDENCE: the places of its count and of its first entry.
const EVIDENCE_COUNT_AT: usize = OPERANDS_AT;

pub const EVIDENCE_START: usize = EVIDENCE_COUNT_AT + 1;

// Its entry's content: the places of the higher value and of both signatures, from its start, where the lower value is; and the length of
// an entry.
const PAIR_HIGHER_VALUE_AT: usize = VALUE;

const PAIR_LOWER_AT: usize = PAIR_HIGHER_VALUE_AT + VALUE;

const PAIR_HIGHER_AT: usize = PAIR_LOWER_AT + SIGNATURE;

pub const EVIDENCE_ENTRY: usize = ENTRY_HELD_AT + PAIR_HIGHER_AT + SIGNATURE;

// The old EVIDENCE: the places of both values, of its count and of its first entry, and the length of an entry.
const LOWER_AT: usize = OPERANDS_AT;

const HIGHER_AT: usize = LOWER_AT + VALUE;

const OLD_EVIDENCE_COUNT_AT: usize = HIGHER_AT + VALUE;

const OLD_EVIDENCE_START: usize = OLD_EVIDENCE_COUNT_AT + 1;

const OLD_EVIDENCE_ENTRY: usize = ENTRY_HELD_AT + SIGNATURE + SIGNATURE;

// The store: the signatures of one seat, one in each of three banks, and all its slots with the kept value.
const SEAT_SIGNATURES: usize = 3 * SIGNATURE;

pub const SEAT_SLOTS: usize = SEAT_SIGNATURES + VALUE;

// The note (document 02, item 2): the places of its parts, and its length.
const MASK: usize = 4;

pub const NOTE_SIZE_AT: usize = 1;

pub const NOTE_SEAT_AT: usize = NOTE_SIZE_AT + 1;

pub const NOTE_ROUND_AT: usize = NOTE_SEAT_AT + 1;

pub const NOTE_FLAGS_AT: usize = NOTE_ROUND_AT + 2;

pub const NOTE_OWN_VALUE_AT: usize = NOTE_FLAGS_AT + 1;

pub const NOTE_COLLECTED_AT: usize = NOTE_OWN_VALUE_AT + VALUE;

pub const NOTE_KEPT_AT: usize = NOTE_COLLECTED_AT + MASK;

pub const NOTE_FIRST_AT: usize = NOTE_KEPT_AT + MASK;

pub const NOTE_GUILTY_AT: usize = NOTE_FIRST_AT + MASK;

pub const NOTE_HEARD_VALUE_AT: usize = NOTE_GUILTY_AT + MASK;

pub const NOTE_FIRST_VALUE_AT: usize = NOTE_HEARD_VALUE_AT + VALUE;

pub const NOTE: usize = NOTE_FIRST_VALUE_AT + VALUE;

pub fn signature_length() -> usize
    ensures { result ≡ Layout.signature_length }
{
    SIGNATURE
}

// ---- places in a message

// The round, after the command.
pub fn round_at() -> usize
    ensures { result ≡ Layout.round_at }
{
    ROUND_AT
}

// The sender's seat in SUBMIT, NOTICE and FULL.
pub fn seat_at() -> usize
    ensures { result ≡ Layout.seat_at }
{
    SEAT_AT
}

// The value in SUBMIT, NOTICE and FULL.
pub fn value_at() -> usize
    ensures { result ≡ Layout.value_at }
{
    VALUE_AT
}

// The signature in SUBMIT.
pub fn submit_signature_at() -> usize
    ensures { result ≡ Layout.submit_signature_at }
{
    SUBMIT_SIGNATURE_AT
}

// The lower value in the old EVIDENCE.
pub fn lower_at() -> usize
    ensures { result ≡ Layout.lower_at }
{
    LOWER_AT
}

// The count in FULL.
pub fn full_count_at() -> usize
    ensures { result ≡ Layout.full_count_at }
{
    FULL_COUNT_AT
}

// The count in EVIDENCE.
pub fn evidence_count_at() -> usize
    ensures { result ≡ Layout.evidence_count_at }
{
    EVIDENCE_COUNT_AT
}

// The count in the old EVIDENCE.
pub fn old_evidence_count_at() -> usize
    ensures { result ≡ Layout.old_evidence_count_at }
{
    OLD_EVIDENCE_COUNT_AT
}

// ---- lists of entries

// The entries of a message: the place of the first, the length of each, and their number. A list is made by a function for each kind, since
// each is tied to a definition of its own.
#[derive(Clone, Copy)]
pub struct Entries {
    pub start: usize,
    pub length: usize,
    pub count: usize,
}

// The entries of FULL.
pub fn full_entries(count: usize) -> Entries
    ensures { result ≡ full count }
{
    Entries {
        start: FULL_START,
        length: FULL_ENTRY,
        count,
    }
}

// The entries of EVIDENCE.
pub fn evidence_entries(count: usize) -> Entries
    ensures { result ≡ evidence count }
{
    Entries {
        start: EVIDENCE_START,
        length: EVIDENCE_ENTRY,
        count,
    }
}

// The entries of the old EVIDENCE.
pub fn old_evidence_entries(count: usize) -> Entries
    ensures { result ≡ old_evidence count }
{
    Entries {
        start: OLD_EVIDENCE_START,
        length: OLD_EVIDENCE_ENTRY,
        count,
    }
}

// The place of an entry, by its index from 0.
pub fn entry_at(entries: Entries, i: usize) -> usize
    requires { Layout.entry_at entries.start entries.length i < 2 ^ 64 }
    ensures { result ≡ Layout.entry_at entries.start entries.length i }
{
    entries.start + entries.length * i
}

// The place of an entry's seat.
pub fn entry_seat_at(entries: Entries, i: usize) -> usize
    requires { Layout.entry_at entries.start entries.length i + Layout.entry_seat_at < 2 ^ 64 }
    ensures { result ≡ Layout.entry_at entries.start entries.length i + Layout.entry_seat_at }
{
    entry_at(entries, i) + ENTRY_SEAT_AT
}

// The place of its content.
pub fn entry_held_at(entries: Entries, i: usize) -> usize
    requires { Layout.entry_at entries.start entries.length i + Layout.entry_held_at < 2 ^ 64 }
    ensures { result ≡ Layout.entry_at entries.start entries.length i + Layout.entry_held_at }
{
    entry_at(entries, i) + ENTRY_HELD_AT
}

// The signatures in an entry of EVIDENCE, from the start of its content, where its values are.
pub fn pair_lower_at() -> usize
    ensures { result ≡ Layout.pair_lower_at }
{
    PAIR_LOWER_AT
}

// ---- lengths of messages

pub fn submit_length() -> usize
    ensures { result ≡ Layout.submit_length }
{
    SUBMIT
}

pub fn notice_length() -> usize
    ensures { result ≡ Layout.notice_length }
{
    NOTICE
}

// FULL in a fleet of n seats.
pub fn full_length(n: u32) -> usize
    requires { (1 ≤ n) × (n ≤ most_seats) }
    ensures { result ≡ Layout.full_length n }
{
    FULL_START + FULL_ENTRY * (quorum::k(n) as usize)
}

// ---- store and out

// The banks of the store that hold signatures: those collected, those of the first certificate, and those kept.
#[derive(Clone, Copy)]
pub enum Bank {
    Collected,
    First,
    Kept,
}

pub fn store_length(n: u32) -> usize
    requires { n ≤ most_seats }
    ensures { result ≡ Layout.store_length n }
{
    SEAT_SLOTS * (n as usize)
}

// The place of a seat's slot in a bank.
pub fn slot_at(n: u32, bank: Bank, seat: u32) -> usize
    requires { (n ≤ most_seats) × (seat < n) }
    ensures { (result ≡ Layout.slot_at n (bank_of bank) seat) × (result + Layout.slot_length (bank_of bank) ≤ Layout.store_length n) }
{
    let at = SIGNATURE * (seat as usize);
    match bank {
        Bank::Collected => at,
        Bank::First => SIGNATURE * (n as usize) + at,
        Bank::Kept => 2 * SIGNATURE * (n as usize) + at,
    }
}

// The place of a seat's kept value.
pub fn kept_value_at(n: u32, seat: u32) -> usize
    requires { (n ≤ most_seats) × (seat < n) }
    ensures { (result ≡ Layout.slot_at n Layout.kept_value_bank seat) × (result + Layout.value_length ≤ Layout.store_length n) }
{
    SEAT_SIGNATURES * (n as usize) + VALUE * (seat as usize)
}

// `out` for evidence from two certificates.
pub fn evidence_out_length(n: u32) -> usize
    requires { (1 ≤ n) × (n ≤ most_seats) }
    ensures { result ≡ Layout.evidence_out_length n }
{
    EVIDENCE_START + EVIDENCE_ENTRY * (quorum::k(n) as usize)
}

// `out` for two packs joined: an entry for every seat.
pub fn joined_out_length(n: u32) -> usize
    ensures { result ≡ Layout.joined_out_length n }
{
    EVIDENCE_START + EVIDENCE_ENTRY * (n as usize)
}

// `out` for a submit or a step: SUBMIT, NOTICE, FULL and EVIDENCE.
pub fn out_length(n: u32) -> usize
    requires { (1 ≤ n) × (n ≤ most_seats) }
    ensures { result ≡ Layout.out_length n }
{
    SUBMIT + NOTICE + full_length(n) + evidence_out_length(n)
}

// A note, and `out` for one.
pub fn note_length() -> usize
    ensures { result ≡ Layout.note_length }
{
    NOTE
}

// ---- values, keys, trees, signed messages, rounds

pub fn value_length() -> usize
    ensures { result ≡ Layout.value_length }
{
    VALUE
}

pub fn key_length() -> usize
    ensures { result ≡ Layout.key_length }
{
    KEY
}

// The place of a seat's key in the key table.
pub fn key_at(seat: u32) -> usize
    ensures { result ≡ Layout.key_at seat }
{
    KEY * (seat as usize)
}

pub fn tree_length() -> usize
    ensures { result ≡ Layout.tree_length }
{
    65536
}

// The longest message that is signed or checked.
pub fn message_limit() -> usize
    ensures { result ≡ Layout.message_limit }
{
    65535
}

pub fn last_round() -> u32
    ensures { result ≡ last_round }
{
    1023
}
