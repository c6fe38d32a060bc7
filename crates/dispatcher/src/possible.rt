// Impossible dispatchers, test by test (document 02, item 6): 4.
ghost use Rattle.std.specs.Prelude.{◌≡◌, not};
ghost use Rattle.refusal.specs.Order.{distinct};
ghost use Rattle.protocol.specs.Record.{last_round};
ghost use Rattle.dispatch.specs.Dispatcher.{some_above, wrong_rounds, wrong_counts, wrong_order, impossible};

use crate::lists::{LANES, is_distinct, some_above};
use dispatch::Dispatcher;

// The places of a lane.
pub(crate) const PLACES: u32 = 16;

const LAST_LANE: u32 = 7;

// Whether one of eight rounds is above 1,023.
pub(crate) fn some_late(rounds: &[u32; LANES]) -> bool
    ensures { result ≡ some_above last_round rounds.now }
{
    some_above(rounds, layout::last_round())
}

// Whether two of eight rounds are equal.
pub(crate) fn some_equal(rounds: &[u32; LANES]) -> bool
    ensures { result ≡ not (distinct rounds.now) }
{
    !is_distinct(rounds)
}

// "whose rounds aren't eight different ones up to 1,023"
fn wrong_rounds(d: &Dispatcher) -> bool
    ensures { result ≡ wrong_rounds d.now }
{
    some_late(&d.rounds) || some_equal(&d.rounds)
}

// "that counts more than 16 tickets in a lane"
fn wrong_counts(d: &Dispatcher) -> bool
    ensures { result ≡ wrong_counts d.now }
{
    some_above(&d.counts, PLACES)
}

// "whose order of serving names a lane twice or one outside the eight"
fn wrong_order(d: &Dispatcher) -> bool
    ensures { result ≡ wrong_order d.now }
{
    let Some(serving) = d.order.get(..d.served as usize) else {
        return true;
    };
    some_above(serving, LAST_LANE) || !is_distinct(serving)
}

// Whether a dispatcher is impossible.
pub(crate) fn is_impossible(d: &Dispatcher) -> bool
    ensures { result ≡ impossible d.now }
{
    wrong_rounds(d) || wrong_counts(d) || wrong_order(d)
}
