// Where a phase of submit and step begins, and what it leaves: the record, and the messages in `out` so far. The definitions over it
// are in specs/.
#![tactic(auto)]

use protocol::Record;

// The record, and the next place in `out`. What holds of a record before and after every phase, `Fits`, is in no type: it speaks of
// the store too, which is lent to be written.
#[derive(Clone, Copy)]
pub struct Phase {
    pub unit: Record,
    pub at: usize,
}
