// Whose turn it is: "the waiting lane served longest ago; never served counts as longest, and among those the lowest round goes first".
ghost use Rattle.std.specs.Prelude.{◌≡◌, false, ◌&&◌, ◌≤◌, ◌<◌, unwrap_or, IfSome};
ghost use Rattle.dispatch.specs.Dispatcher.{lanes, serving, impossible};
ghost use Rattle.dispatch.specs.Turns.{is_waiting, never_served, goes_first, first_new, longest_ago, next_lane};

use crate::lists::{LANES, serving};
use dispatch::Dispatcher;

// Whether a ticket waits in a lane.
fn is_waiting(d: &Dispatcher, lane: usize) -> bool
    requires { lane < lanes }
    ensures { result ≡ is_waiting d.now lane }
{
    d.counts[lane] != 0
}

// Whether a lane was never served.
fn never_served(d: &Dispatcher, lane: usize) -> bool
    requires lane { lane < lanes }
    requires few { d.now.served ≤ lanes }
    ensures { result ≡ never_served d.now lane }
{
    !serving(d).contains(&(lane as u32))
}

// "among those the lowest round goes first": whether a lane goes before another, or before none.
fn goes_first(d: &Dispatcher, lane: usize, other: Option<usize>) -> bool
    requires lane { lane < lanes }
    requires other { IfSome other (λ l. l < lanes) }
    ensures { result ≡ goes_first d.now lane (unwrap_or other lanes) }
{
    match other {
        Some(other) => d.rounds[lane] < d.rounds[other],
        None => true,
    }
}

// Whether a lane waits, was never served and goes before the one found so far.
fn is_first_new(d: &Dispatcher, lane: usize, found: Option<usize>) -> bool
    requires lane { lane < lanes }
    requires few { d.now.served ≤ lanes }
    requires found { IfSome found (λ l. l < lanes) }
    ensures { result
        ≡ (is_waiting d.now lane && never_served d.now lane && goes_first d.now lane (unwrap_or found lanes)) }
{
    is_waiting(d, lane) && never_served(d, lane) && goes_first(d, lane, found)
}

// Of the lanes that wait and were never served, the one that goes first.
fn first_new(d: &Dispatcher) -> Option<usize>
    requires { d.now.served ≤ lanes }
    ensures lane { unwrap_or result lanes ≡ first_new d.now lanes }
    ensures within { IfSome result (λ l. l < lanes) }
{
    let mut found = None;
    for lane in 0..LANES {
        if is_first_new(d, lane, found) {
            found = Some(lane);
        }
    }
    found
}

// "the waiting lane served longest ago"
fn longest_ago(d: &Dispatcher) -> Option<usize>
    requires { impossible d.now ≡ false }
    ensures lane { unwrap_or result lanes ≡ longest_ago d.now (serving d.now) }
    ensures within { IfSome result (λ l. l < lanes) }
{
    for lane in serving(d) {
        let lane = *lane as usize;
        if is_waiting(d, lane) {
            return Some(lane);
        }
    }
    None
}

// "never served counts as longest": the lane whose turn it is; none where no ticket waits. The definitions say 8 for none.
pub(crate) fn next_lane(d: &Dispatcher) -> Option<usize>
    requires { impossible d.now ≡ false }
    ensures lane { unwrap_or result lanes ≡ next_lane d.now }
    ensures within { IfSome result (λ l. l < lanes) }
{
    first_new(d).or(longest_ago(d))
}
