// A lane's tickets: where one stands, one added, and the oldest gone.
ghost use Rattle.std.specs.Prelude.{◌≡◌, true, false, ◌+◌, ◌*◌, ◌%◌, ◌<◌};
ghost use Rattle.dispatch.specs.Dispatcher.{lanes, places, count, ticket_at, impossible};
ghost use Rattle.dispatch.specs.Turns as Turns;
ghost use Rattle.dispatch.specs.Turns.{is_waiting};

use crate::lists::serve_last;
use crate::possible::PLACES;
use dispatch::Dispatcher;

// Where the ticket i places after the oldest stands; after a lane's last place comes its first.
fn place(lane: usize, head: u32, i: u32) -> usize
    requires { (lane < lanes) × (i < places) }
    ensures { (result ≡ places * lane + (head % places + i) % places) × (result < 128) }
{
    (PLACES * lane as u32 + (head % PLACES + i) % PLACES) as usize
}

// The ticket i places after the oldest of a lane.
pub(crate) fn ticket_at(d: &Dispatcher, lane: usize, i: u32) -> u32
    requires { (lane < lanes) × (i < places) }
    ensures { result ≡ ticket_at d.now lane i }
{
    u32::from(d.tickets[place(lane, d.heads[lane], i)])
}

// A ticket added to a lane, after those that wait there.
pub(crate) fn added(d: Dispatcher, lane: usize, ticket: u16) -> Dispatcher
    requires { (lane < lanes) × (count d lane < places) }
    ensures { result ≡ Turns.added d lane ticket }
{
    let at = place(lane, d.heads[lane], d.counts[lane]);
    let mut next = d;
    next.counts[lane] += 1;
    next.tickets[at] = ticket;
    next
}

// A lane served: its oldest ticket is gone, and it is the one served last.
pub(crate) fn less_oldest(d: &Dispatcher, lane: usize) -> Dispatcher
    requires { (lane < lanes) × (is_waiting d.now lane ≡ true) × (impossible d.now ≡ false) }
    ensures { result ≡ Turns.less_oldest d.now lane }
{
    let mut next = serve_last(d, lane);
    next.counts[lane] -= 1;
    next.heads[lane] = (d.heads[lane] % PLACES + 1) % PLACES;
    next
}
