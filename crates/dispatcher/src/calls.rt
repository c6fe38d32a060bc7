// The three calls, with their refusals in the order of the table: 3, 4, 18, 19.
ghost use Rattle.std.specs.Prelude.{◌≡◌, true, false, ◌<◌, IfOk};
ghost use Rattle.refusal.specs.Refusal.{first_of};
ghost use Rattle.refusal.specs.Answers.{number_in};
ghost use Rattle.dispatch.specs.Dispatcher as Dispatchers;
ghost use Rattle.dispatch.specs.Dispatcher.{lanes, lane_of, impossible};
ghost use Rattle.dispatch.specs.Turns as Turns;
ghost use Rattle.dispatch.specs.Turns.{is_waiting};
ghost use Rattle.dispatch.specs.Calls.{opening_conditions, adding_conditions, open_dispatcher, add_ticket, gives_none, gives_oldest, take_turn};
ghost use Rattle.dispatcher.specs.Answers.{dispatched_in};

use crate::lanes::{added, less_oldest, ticket_at};
use crate::lists::{LANES, index_of};
use crate::possible::{PLACES, is_impossible, some_equal, some_late};
use crate::turns::next_lane;
use arguments::range::wrong_round;
use dispatch::{Dispatched, Dispatcher, Eight, Turn};
use refusal::Refusal;
use refusal::answers::number_in;

// What C gets of an add: the new dispatcher, or the refusal's number and the old one.
fn dispatched(answer: Result<Dispatcher, Refusal>, old: Dispatcher) -> Dispatched
    ensures { result ≡ dispatched_in answer old }
{
    match answer {
        Ok(dispatcher) => Dispatched {
            number: 0,
            dispatcher,
        },
        Err(refusal) => Dispatched {
            number: refusal.number(),
            dispatcher: old,
        },
    }
}

// Eight rounds, and nothing else set.
fn opened(rounds: [u32; LANES]) -> Dispatcher
    ensures { result ≡ Dispatchers.opened rounds }
{
    Dispatcher {
        rounds,
        counts: [0; LANES],
        heads: [0; LANES],
        served: 0,
        order: [0; LANES],
        tickets: [0; 128],
    }
}

// Refusal of an opening: 3, 18.
fn opening_refusal(rounds: &[u32; LANES]) -> Result<(), Refusal>
    ensures { number_in result ≡ first_of (opening_conditions rounds.now) }
{
    if some_late(rounds) {
        return Err(Refusal::Round);
    }
    if some_equal(rounds) {
        return Err(Refusal::Lane);
    }
    Ok(())
}

// Opening: a dispatcher of eight rounds, or the refusal number and one of zeros. Only the one that is handed out is made: with both made
// and one chosen by `dispatched`, a call took twice the time.
pub fn open_dispatcher(eight: Eight) -> Dispatched
    ensures { result ≡ open_dispatcher eight }
{
    match opening_refusal(&eight.round) {
        Ok(()) => Dispatched {
            number: 0,
            dispatcher: opened(eight.round),
        },
        Err(refusal) => Dispatched {
            number: refusal.number(),
            dispatcher: opened([0; LANES]),
        },
    }
}

// A ticket added to the lane of its round, or the refusal: 3, 4, 18, 19.
fn add(d: Dispatcher, round: u32, ticket: u16) -> Result<Dispatcher, Refusal>
    ensures number { number_in result ≡ first_of (adding_conditions d round) }
    ensures new { IfOk result (λ next. next ≡ Turns.added d (lane_of d round) ticket) }
{
    if wrong_round(round) {
        return Err(Refusal::Round);
    }
    if is_impossible(&d) {
        return Err(Refusal::Record);
    }
    let Some(lane) = index_of(&d.rounds, round) else {
        return Err(Refusal::Lane);
    };
    let is_full = d.counts[lane] == PLACES;
    if is_full {
        return Err(Refusal::Full);
    }
    Ok(added(d, lane, ticket))
}

// A ticket added to the lane of its round; with a refusal the dispatcher as it was given.
pub fn add_ticket(d: Dispatcher, round: u32, ticket: u16) -> Dispatched
    ensures { result ≡ add_ticket d round ticket }
{
    dispatched(add(d, round, ticket), d)
}

// A turn that gives no ticket: refused, or with none waiting.
fn gives_none(answer: Result<(), Refusal>, d: Dispatcher) -> Turn
    ensures { result ≡ gives_none (number_in answer) d }
{
    Turn {
        number: number_in(answer),
        given: false,
        round: 0,
        ticket: 0,
        dispatcher: d,
    }
}

// A turn that gives the oldest ticket of a lane.
fn gives_oldest(d: &Dispatcher, lane: usize) -> Turn
    requires { (lane < lanes) × (is_waiting d.now lane ≡ true) × (impossible d.now ≡ false) }
    ensures { result ≡ gives_oldest d.now lane }
{
    Turn {
        number: 0,
        given: true,
        round: d.rounds[lane],
        ticket: ticket_at(d, lane, 0),
        dispatcher: less_oldest(d, lane),
    }
}

// A turn: the oldest ticket of the lane whose turn it is. With none waiting, or a refusal, the dispatcher as it was given.
pub fn take_turn(d: Dispatcher) -> Turn
    ensures { result ≡ take_turn d }
{
    if is_impossible(&d) {
        return gives_none(Err(Refusal::Record), d);
    }
    match next_lane(&d) {
        Some(lane) => gives_oldest(&d, lane),
        None => gives_none(Ok(()), d),
    }
}
