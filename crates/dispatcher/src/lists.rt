// What is asked of lists of numbers, and an order of serving in which a lane goes to the end.
ghost use Rattle.std.specs.Prelude.{◌≡◌, ◌≤◌, ◌<◌, length, unwrap_or, IfSome};
ghost use Rattle.refusal.specs.Order.{distinct};
ghost use Rattle.dispatch.specs.Dispatcher.{lanes, index_of, serving, some_above};
ghost use Rattle.dispatch.specs.Turns.{without, served_last, with_serving};

use dispatch::Dispatcher;

// The lanes of a dispatcher.
pub(crate) const LANES: usize = 8;

// Whether a number is above the most that is allowed.
pub(crate) fn some_above(list: &[u32], most: u32) -> bool
    ensures { result ≡ some_above most list.now }
{
    list.iter().any(|x| most < *x)
}

// Whether no number stands twice. `any` and not `contains`, which LLVM doesn't put in line here: an opening calls this once, and took a
// third more time.
pub(crate) fn is_distinct(list: &[u32]) -> bool
    ensures { result ≡ distinct list.now }
{
    for (i, x) in list.iter().enumerate() {
        if list[i + 1..].iter().any(|y| *y == *x) {
            return false;
        }
    }
    true
}

// Where x stands first; the definition says the list's length where it doesn't.
pub(crate) fn index_of(list: &[u32], x: u32) -> Option<usize>
    ensures first { unwrap_or result (length list.now) ≡ index_of x list.now }
    ensures within { IfSome result (λ i. i < length list.now) }
{
    list.iter().position(|y| *y == x)
}

// The lanes served so far, longest ago first.
pub(crate) fn serving(d: &Dispatcher) -> &[u32]
    requires { d.now.served ≤ lanes }
    ensures lanes { result.now ≡ serving d.now }
    ensures count { length result.now ≡ d.now.served }
{
    &d.order[..d.served as usize]
}

// The dispatcher once a lane is served: in its order of serving all others as they were, then that lane. Entries beyond keep what they
// held.
pub(crate) fn serve_last(d: &Dispatcher, lane: usize) -> Dispatcher
    requires few { d.now.served ≤ lanes }
    requires room { length (without lane (serving d.now)) < lanes }
    requires lane { lane < lanes }
    ensures { result ≡ with_serving d.now (served_last lane (serving d.now)) }
{
    let mut order = d.order;
    let mut served = 0;
    for other in serving(d) {
        if *other as usize != lane {
            order[served] = *other;
            served += 1;
        }
    }
    order[served] = lane as u32;
    Dispatcher {
        served: served as u32 + 1,
        order,
        ..*d
    }
}
