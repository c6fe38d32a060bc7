// The entries of two packs, written as those of one.
ghost use Rattle.std.specs.Prelude.{◌≡◌, map, ◌+◌, ◌*◌, ◌≤◌, ◌<◌, length};
ghost use Rattle.quorum.specs.Quorum.{most_seats, In, has, union, seats};
ghost use Rattle.protocol.specs.Layout.{evidence_entry_length, joined_out_length};
ghost use Rattle.protocol.specs.Entries.{render_entry, render_entries};
ghost use Rattle.protocol.specs.Message.{ValuesEach, evidence_form, read, render};
ghost use Rattle.protocol.specs.Joining.{pairs_in, pair_among, joined_pair, joined_of};
ghost use Rattle.wire_write.specs.Writing.{Wrote};
ghost use Rattle.joining.specs.Packs.{Pack, Packs, wanted_entry};

use quorum::Mask;
use wire::read::Kind;

// The entry of a seat in a pack, after the entries of the seats below it.
fn entry_of(n: u32, pack: &[u8], set: Mask, seat: u32) -> &[u8]
    requires { (n ≤ most_seats) × (seat < n) × In seat set × Pack n pack.now set }
    ensures { (result.now ≡ render_entry (evidence_form ValuesEach) (pair_among (pairs_in (read n pack.now)) seat)) × (length result.now ≡ evidence_entry_length) }
{
    let entries = layout::evidence_entries(quorum::size(set) as usize);
    let below = quorum::shared_count(set, quorum::all(seat));
    let at = layout::entry_at(entries, below as usize);
    let end = layout::entry_at(entries, (below as usize) + 1);
    &pack[at..end]
}

// The same, written to `out` where the seat is wanted; else nothing is written.
fn write_wanted(
    out: &mut [u8],
    at: usize,
    n: u32,
    pack: &[u8],
    set: Mask,
    wanted: Mask,
    seat: u32,
) -> usize
    requires { (n ≤ most_seats) × (seat < n) × Pack n pack.now set × (In seat wanted → In seat set) × (In seat wanted → at + evidence_entry_length ≤ length out.old) }
    ensures { Wrote at (wanted_entry (has seat wanted) (pair_among (pairs_in (read n pack.now)) seat)) out.old out.new result }
{
    if !quorum::has(wanted, seat) {
        return at;
    }
    wire_write::put(out, at, entry_of(n, pack, set, seat))
}

// The entries of the seats of either, rising: the first's of its seats, the second's of those that it alone has.
// A pack and its set stay parameters: `Pack` speaks of n, which both packs share, so that a struct of each would hold n twice, with a
// `requires` that they are equal.
fn write_entries(
    out: &mut [u8],
    at: usize,
    n: u32,
    first: &[u8],
    a: Mask,
    second: &[u8],
    b: Mask,
) -> usize
    requires { (n ≤ most_seats) × Pack n first.now a × Pack n second.now b × (at + evidence_entry_length * length (seats n (union a b)) ≤ length out.old) }
    ensures { Wrote at (render_entries (evidence_form ValuesEach) (map (joined_pair (read n first.now) (read n second.now)) (seats n (union a b)))) out.old out.new result × (result ≡ at + evidence_entry_length * length (seats n (union a b))) }
{
    let rest = quorum::less(b, a);
    let mut end = at;
    for s in 0..n {
        end = write_wanted(out, end, n, first, a, a, s);
        end = write_wanted(out, end, n, second, b, rest, s);
    }
    end
}

// Writes the pack that two become to the start of `out`, and answers its length.
pub(crate) fn write_joined(n: u32, round: u32, first: &[u8], second: &[u8], out: &mut [u8]) -> u32
    requires { (1 ≤ n) × (n ≤ most_seats) × Packs n round (read n first.now) (read n second.now) × (joined_out_length n ≤ length out.old) }
    ensures { Wrote 0 (render (joined_of n round (read n first.now) (read n second.now))) out.old out.new result }
{
    let a = wire::read::entry_set(n, Kind::Evidence, first);
    let b = wire::read::entry_set(n, Kind::Evidence, second);
    let count = quorum::size(quorum::union(a, b));
    let start = wire_write::write_pack_head(out, 0, round, count);
    let end = write_entries(out, start, n, first, a, second, b);
    end as u32
}
