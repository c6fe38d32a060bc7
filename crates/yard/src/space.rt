// The buffers of the yard's program. An array's length is a constant: each is made here of its parts, and a contract ties it to
// its definition.
ghost use Rattle.std.specs.Prelude.{◌≡◌, length};
ghost use Rattle.yard.specs.Commands.{longest_opening, longest_call, yard_store, yard_out};

// The yard's most seats, and k for that many.
pub(crate) const MOST_SEATS: usize = 7;

const QUORUM: usize = MOST_SEATS - ((MOST_SEATS + 2) / 3 - 1);

// The bytes before an opening's keys and before a message.
pub(crate) const OPENING_HEAD: usize = 5;

pub(crate) const MESSAGE_HEAD: usize = 3;

// The start and the end of a submit's signature.
pub(crate) const SUBMIT_HEAD: usize = 1 + layout::VALUE;

pub(crate) const SUBMIT: usize = SUBMIT_HEAD + layout::SIGNATURE;

// The longest opening, and the longest later command.
const OPENING: usize = OPENING_HEAD + layout::KEY * MOST_SEATS;

const CALL: usize = MESSAGE_HEAD + 65535;

// Store and out for the most seats.
const STORE: usize = layout::SEAT_SLOTS * MOST_SEATS;

const FULL: usize = layout::FULL_START + layout::FULL_ENTRY * QUORUM;

const EVIDENCE: usize = layout::EVIDENCE_START + layout::EVIDENCE_ENTRY * QUORUM;

const OUT: usize = layout::SUBMIT + layout::NOTICE + FULL + EVIDENCE;

// Room for an opening.
pub fn new_opening() -> [u8; OPENING]
    ensures { longest_opening ≡ length result }
{
    [0; OPENING]
}

// Room for a later command.
pub fn new_call() -> [u8; CALL]
    ensures { longest_call ≡ length result }
{
    [0; CALL]
}

#[tactic(auto, unfolding(crate::specs::Commands::yard_store, protocol::specs::Layout::store_length, protocol::specs::Layout::length_of_banks, protocol::specs::Layout::banks, protocol::specs::Layout::signature_length))]
pub fn new_store() -> [u8; STORE]
    ensures { result ≡ yard_store }
{
    [0; STORE]
}

pub fn new_out() -> [u8; OUT]
    ensures { result ≡ yard_out }
{
    [0; OUT]
}
