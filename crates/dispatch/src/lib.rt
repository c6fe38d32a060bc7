// A dispatcher of eight rounds, and the answers of its calls (document 02, item 6). The definitions of every call over these types
// are in specs/.
#![tactic(auto)]

// "eight different rounds at opening", in any order.
#[repr(C)]
#[derive(Clone, Copy)]
pub struct Eight {
    pub round: [u32; 8],
}

// A dispatcher: for each lane its round, the number of tickets that wait, and the place of the oldest, modulo 16; the lanes served
// so far, longest ago first, which are the first `served` of `order`; and 16 places for tickets a lane, lane l's from 16 * l on.
#[repr(C)]
#[derive(Clone, Copy)]
pub struct Dispatcher {
    pub rounds: [u32; 8],
    pub counts: [u32; 8],
    pub heads: [u32; 8],
    pub served: u32,
    pub order: [u32; 8],
    pub tickets: [u16; 128],
}

// Answer of opening and of adding a ticket: the refusal number or 0, and the dispatcher.
#[repr(C)]
#[derive(Clone, Copy)]
pub struct Dispatched {
    pub number: u32,
    pub dispatcher: Dispatcher,
}

// Answer of a turn: the refusal number or 0, whether a ticket is given out, its round and the ticket, and the dispatcher.
#[repr(C)]
#[derive(Clone, Copy)]
pub struct Turn {
    pub number: u32,
    pub given: bool,
    pub round: u32,
    pub ticket: u32,
    pub dispatcher: Dispatcher,
}
