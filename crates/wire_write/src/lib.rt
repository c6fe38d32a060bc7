// Writers: each writes one command, or a part of one, from an index of `out` on, and answers the index after it. They keep the buffer
// whole, and its place beside it, since `Wrote` says of all of it what changed; and there is no heap for one that grows.
#![tactic(auto)]

ghost use Rattle.std.specs.Prelude.{◌≡◌, [], ◌∷◌, ◌+◌, ◌*◌, ◌^◌, ◌<◌, ◌≤◌, length};
ghost use Rattle.octets.specs.Octets.{be};
ghost use Rattle.quorum.specs.Quorum.{most_seats, seats, size};
ghost use Rattle.protocol.specs.Layout.{value_length, signature_length, operands_at, submit_length, notice_length, entry_held_at, full_entry_length, full_entry_at, evidence_start, evidence_entry_length, evidence_length};
ghost use Rattle.protocol.specs.Entries.{render_entry, render_entries};
ghost use Rattle.protocol.specs.Message.{Submit, Notice, ValuesEach, full_form, evidence_form, render};
ghost use Rattle.protocol.specs.Certificate.{entries_of, full_of, pairs_of, ordered_evidence, evidence_of};
ghost use Rattle.store.specs.Sources.{Readable};
ghost use Rattle.wire_write.specs.Writing.{Wrote, Within, head, pack_head, entry, pair, certificate_of};

use quorum::Mask;
use store::sources::{Certificate, signature_of};
use wire::values::lower;

// One byte.
fn put_byte(out: &mut [u8], at: usize, b: u8) -> usize
    requires { at < length out.old }
    ensures { Wrote at (b ∷ []) out.old out.new result }
{
    out[at] = b;
    at + 1
}

// All of src.
pub fn put(out: &mut [u8], at: usize, src: &[u8]) -> usize
    requires { at + length src.now ≤ length out.old }
    ensures { Wrote at src.now out.old out.new result }
{
    octets::copy(out, at, src);
    at + src.len()
}

// The start of every command: its code and the round.
fn put_command(out: &mut [u8], at: usize, command: u8, round: u32) -> usize
    requires { at + operands_at ≤ length out.old }
    ensures { Wrote at (command ∷ be 2 round) out.old out.new result }
{
    let a = put_byte(out, at, command);
    put(out, a, &round.to_be_bytes()[2..])
}

// The start of SUBMIT, NOTICE and FULL: code, round, seat and value.
fn write_head(out: &mut [u8], at: usize, command: u8, round: u32, seat: u32, value: &[u8]) -> usize
    requires { (seat < 256) × (length value.now ≡ value_length) × (at + notice_length ≤ length out.old) }
    ensures { Wrote at (head command round seat value.now) out.old out.new result × (result ≡ at + notice_length) }
{
    let a = put_command(out, at, command, round);
    let b = put_byte(out, a, seat as u8);
    put(out, b, value)
}

// NOTICE.
pub fn write_notice(out: &mut [u8], at: usize, round: u32, seat: u32, value: &[u8]) -> usize
    requires { (seat < 256) × (length value.now ≡ value_length) × (at + notice_length ≤ length out.old) }
    ensures { Wrote at (render (Notice round seat value.now)) out.old out.new result × (result ≡ at + notice_length) }
{
    write_head(out, at, 2, round, seat, value)
}

// SUBMIT.
pub fn write_submit(
    out: &mut [u8],
    at: usize,
    round: u32,
    seat: u32,
    value: &[u8],
    signature: &[u8],
) -> usize
    requires { (seat < 256) × (length value.now ≡ value_length) × (length signature.now ≡ signature_length) × (at + submit_length ≤ length out.old) }
    ensures { Wrote at (render (Submit round seat value.now signature.now)) out.old out.new result × (result ≡ at + submit_length) }
{
    let a = write_head(out, at, 1, round, seat, value);
    put(out, a, signature)
}

// The start of an entry: its command and the seat.
fn put_tag(out: &mut [u8], at: usize, tag: u8, seat: u32) -> usize
    requires { (seat < 256) × (at + entry_held_at ≤ length out.old) }
    ensures { Wrote at (tag ∷ seat ∷ []) out.old out.new result }
{
    let a = put_byte(out, at, tag);
    put_byte(out, a, seat as u8)
}

// An entry of FULL.
fn write_entry(out: &mut [u8], at: usize, seat: u32, signature: &[u8]) -> usize
    requires { (seat < 256) × (length signature.now ≡ signature_length) × (at + full_entry_length ≤ length out.old) }
    ensures { Wrote at (render_entry full_form (entry seat signature.now)) out.old out.new result }
{
    let a = put_tag(out, at, 4, seat);
    put(out, a, signature)
}

// An entry of EVIDENCE: the seat, both values, and the signatures over them.
fn write_pair(
    out: &mut [u8],
    at: usize,
    seat: u32,
    lower: &[u8; 32],
    higher: &[u8; 32],
    low: &[u8],
    high: &[u8],
) -> usize
    requires { (seat < 256) × (length low.now ≡ signature_length) × (length high.now ≡ signature_length) × (at + evidence_entry_length ≤ length out.old) }
    ensures { Wrote at (render_entry (evidence_form ValuesEach) (pair seat lower.now higher.now low.now high.now)) out.old out.new result }
{
    let a = put_tag(out, at, 8, seat);
    let b = put(out, a, lower);
    let c = put(out, b, higher);
    let d = put(out, c, low);
    put(out, d, high)
}

// The entries of FULL for a certificate, rising.
fn write_entries(out: &mut [u8], at: usize, n: u32, c: Certificate<'_>) -> usize
    requires { (n ≤ most_seats) × Readable n c.source c.bytes.now × (at + full_entry_length * length (seats n c.source.seats) ≤ length out.old) }
    ensures { Wrote at (render_entries full_form (entries_of n (certificate_of n c.entry))) out.old out.new result × (result ≡ at + full_entry_length * length (seats n c.entry.source.seats)) }
{
    let mask = c.source.seats;
    let mut end = at;
    for s in 0..n {
        if quorum::has(mask, s) {
            end = write_entry(out, end, s, signature_of(c.source, n, s, c.bytes));
        }
    }
    end
}

// FULL of a certificate.
pub fn write_full(
    out: &mut [u8],
    at: usize,
    n: u32,
    round: u32,
    sender: u32,
    c: Certificate<'_>,
) -> usize
    requires { (n ≤ most_seats) × (sender < 256) × Readable n c.source c.bytes.now × (at + full_entry_at (size c.source.seats) ≤ length out.old) }
    ensures { Wrote at (render (full_of n round sender (certificate_of n c.entry))) out.old out.new result × (result ≡ at + full_entry_at (size c.entry.source.seats)) }
{
    let count = quorum::size(c.source.seats);
    let a = write_head(out, at, 3, round, sender, &c.value);
    let b = put_byte(out, a, count as u8);
    write_entries(out, b, n, c)
}

// The start of EVIDENCE: code, round and count.
pub fn write_pack_head(out: &mut [u8], at: usize, round: u32, count: u32) -> usize
    requires { (count < 256) × (at + evidence_start ≤ length out.old) }
    ensures { Wrote at (pack_head round count) out.old out.new result × (result ≡ at + evidence_start) }
{
    let a = put_command(out, at, 7, round);
    put_byte(out, a, count as u8)
}

// The entries of EVIDENCE for the seats of a set, rising. Both certificates have these seats.
fn write_pairs(
    out: &mut [u8],
    at: usize,
    n: u32,
    mask: Mask,
    lower: Certificate<'_>,
    higher: Certificate<'_>,
) -> usize
    requires { (n ≤ most_seats) × Within mask lower.source × Readable n lower.source lower.bytes.now × Within mask higher.source × Readable n higher.source higher.bytes.now × (at + evidence_entry_length * length (seats n mask) ≤ length out.old) }
    ensures { Wrote at (render_entries (evidence_form ValuesEach) (pairs_of n mask (certificate_of n lower.entry) (certificate_of n higher.entry))) out.old out.new result × (result ≡ at + evidence_entry_length * length (seats n mask)) }
{
    let mut end = at;
    for s in 0..n {
        if quorum::has(mask, s) {
            let l = signature_of(lower.source, n, s, lower.bytes);
            let h = signature_of(higher.source, n, s, higher.bytes);
            end = write_pair(out, end, s, &lower.value, &higher.value, l, h);
        }
    }
    end
}

// EVIDENCE from two certificates for a set of seats that both have, the one with the lower value first.
fn write_ordered(
    out: &mut [u8],
    at: usize,
    n: u32,
    round: u32,
    mask: Mask,
    lower: Certificate<'_>,
    higher: Certificate<'_>,
) -> usize
    requires { (n ≤ most_seats) × Readable n lower.source lower.bytes.now × Readable n higher.source higher.bytes.now × (mask < 2 ^ n) × Within mask lower.source × Within mask higher.source × (at + evidence_length (size mask) ≤ length out.old) }
    ensures { Wrote at (render (ordered_evidence n round mask (certificate_of n lower.entry) (certificate_of n higher.entry))) out.old out.new result × (result ≡ at + evidence_length (size mask)) }
{
    let count = quorum::size(mask);
    let a = write_pack_head(out, at, round, count);
    write_pairs(out, a, n, mask, lower, higher)
}

// EVIDENCE from two certificates for a set of seats that both have, in either order.
pub fn write_evidence(
    out: &mut [u8],
    at: usize,
    n: u32,
    round: u32,
    mask: Mask,
    a: Certificate<'_>,
    b: Certificate<'_>,
) -> usize
    requires { (n ≤ most_seats) × Readable n a.source a.bytes.now × Readable n b.source b.bytes.now × (mask < 2 ^ n) × Within mask a.source × Within mask b.source × (at + evidence_length (size mask) ≤ length out.old) }
    ensures { Wrote at (render (evidence_of n round mask (certificate_of n a.entry) (certificate_of n b.entry))) out.old out.new result × (result ≡ at + evidence_length (size mask)) }
{
    if lower(&a.value, &b.value) {
        return write_ordered(out, at, n, round, mask, a, b);
    }
    write_ordered(out, at, n, round, mask, b, a)
}
