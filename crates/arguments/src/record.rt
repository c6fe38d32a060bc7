// A unit's record: with nothing set, as an answer, and impossible records, test by test (document 01, "A record is impossible
// if"; document 02, item 1): 4.
ghost use Rattle.std.specs.Prelude.{◌≡◌};
ghost use Rattle.octets.specs.Strings.{same};
ghost use Rattle.protocol.specs.Record as Records;
ghost use Rattle.protocol.specs.Record.{holds, out_of_range, names_stranger, wrong_collected, wrong_first, lacks_first, wrong_guilty, wrong_sent, wrong_kept, wrong_unset, impossible, InRange};
ghost use Rattle.protocol.specs.Values.{unset};
ghost use Rattle.protocol.specs.Answers.{opened_in};

use crate::range::{wrong_round, wrong_seat, wrong_size};
use protocol::{First, Notices, Opened, Own, Record};
use refusal::Refusal;

// The record with n, seat and round set, and nothing else.
#[tactic(auto, unfolding(protocol::specs::Record::fresh, protocol::specs::Values::unset))]
pub fn fresh(n: u32, seat: u32, round: u32) -> Record
    ensures { result ≡ Records.fresh n seat round }
{
    let zeros = [0u8; 32];
    Record {
        n,
        seat,
        round,
        own: Own {
            submitted: false,
            value: zeros,
            collected: 0,
        },
        confirmed: false,
        notices: Notices {
            heard: 0,
            value: zeros,
        },
        first: First {
            value: zeros,
            seats: 0,
        },
        sent: false,
        guilty: 0,
        kept: 0,
    }
}

// Answer of opening and of reading a note, as C gets it: the record, or the refusal number and a record of zeros.
#[tactic(auto, unfolding(protocol::specs::Record::zeros))]
pub fn opened_by(answer: Result<Record, Refusal>) -> Opened
    ensures { result ≡ opened_in answer }
{
    match answer {
        Ok(unit) => Opened { number: 0, unit },
        Err(refusal) => Opened {
            number: refusal.number(),
            unit: fresh(0, 0, 0),
        },
    }
}

// Whether a value is 32 zero bytes.
#[tactic(auto, using(octets::specs::StringsLaws::equal_same), unfolding(protocol::specs::Values::unset))]
fn is_unset(value: [u8; 32]) -> bool
    ensures { result ≡ same value unset }
{
    value == [0u8; 32]
}

// Whether a certificate is held.
#[tactic(auto, unfolding(protocol::specs::Record::holds))]
fn is_holding(r: Record) -> bool
    ensures { result ≡ holds r }
{
    r.first.seats != 0
}

// "n, seat or round is out of range"
#[tactic(auto, unfolding(protocol::specs::Record::out_of_range))]
fn out_of_range(r: Record) -> bool
    ensures { result ≡ out_of_range r }
{
    wrong_size(r.n) || wrong_seat(r.n, r.seat) || wrong_round(r.round)
}

// "a mask names a seat at or above n"
#[tactic(auto, unfolding(protocol::specs::Record::names_stranger))]
fn names_stranger(r: Record) -> bool
    requires { InRange r.n r.seat r.round }
    ensures { result ≡ names_stranger r }
{
    quorum::names_outside(r.n, r.own.collected)
        || quorum::names_outside(r.n, r.first.seats)
        || quorum::names_outside(r.n, r.guilty)
        || quorum::names_outside(r.n, r.kept)
}

// "collected seats are non-empty without a submission, lack the own seat after one, exceed k, or number k without confirmed or
// the reverse"
#[tactic(auto, unfolding(protocol::specs::Record::wrong_collected))]
fn wrong_collected(r: Record) -> bool
    requires { InRange r.n r.seat r.round }
    ensures { result ≡ wrong_collected r }
{
    let k = quorum::k(r.n);
    let size = quorum::size(r.own.collected);
    !r.own.submitted && r.own.collected != 0
        || r.own.submitted && !quorum::has(r.own.collected, r.seat)
        || k < size
        || size == k && !r.confirmed
        || r.confirmed && size != k
}

// "the first certificate's seats number neither 0 nor k"
#[tactic(auto, unfolding(protocol::specs::Record::wrong_first))]
fn wrong_first(r: Record) -> bool
    requires { InRange r.n r.seat r.round }
    ensures { result ≡ wrong_first r }
{
    let k = quorum::k(r.n);
    let size = quorum::size(r.first.seats);
    size != 0 && size != k
}

// "confirmed, or guilty seats, stand without a first certificate"
#[tactic(auto, unfolding(protocol::specs::Record::lacks_first))]
fn lacks_first(r: Record) -> bool
    ensures { result ≡ lacks_first r }
{
    (r.confirmed || r.guilty != 0) && !is_holding(r)
}

// "a guilty seat is outside it"
#[tactic(auto, unfolding(protocol::specs::Record::wrong_guilty))]
fn wrong_guilty(r: Record) -> bool
    ensures { result ≡ wrong_guilty r }
{
    quorum::shared(r.guilty, r.first.seats) != r.guilty
}

// "FULL was sent unconfirmed"
#[tactic(auto, unfolding(protocol::specs::Record::wrong_sent))]
fn wrong_sent(r: Record) -> bool
    ensures { result ≡ wrong_sent r }
{
    r.sent && !r.confirmed
}

// "a record with kept seats after a submission"
#[tactic(auto, unfolding(protocol::specs::Record::wrong_kept))]
fn wrong_kept(r: Record) -> bool
    ensures { result ≡ wrong_kept r }
{
    r.own.submitted && r.kept != 0
}

// "an unset value is not zero"
#[tactic(auto, unfolding(protocol::specs::Record::wrong_unset, protocol::specs::Record::none_heard))]
fn wrong_unset(r: Record) -> bool
    ensures { result ≡ wrong_unset r }
{
    !r.own.submitted && !is_unset(r.own.value)
        || r.notices.heard == 0 && !is_unset(r.notices.value)
        || !is_holding(r) && !is_unset(r.first.value)
}

// Whether a record is impossible.
#[tactic(auto, using(protocol::specs::RecordLaws::in_range), unfolding(protocol::specs::Record::impossible, protocol::specs::Record::wrong_heard))]
pub fn is_impossible(r: Record) -> bool
    ensures { result ≡ impossible r }
{
    out_of_range(r)
        || 2 < r.notices.heard
        || names_stranger(r)
        || wrong_collected(r)
        || wrong_first(r)
        || lacks_first(r)
        || wrong_guilty(r)
        || wrong_sent(r)
        || wrong_kept(r)
        || wrong_unset(r)
}
