// Tests of n, seat and round outside a record and a message: 1, 2, 3.
ghost use Rattle.std.specs.Prelude.{◌≡◌};
ghost use Rattle.protocol.specs.Record.{wrong_size, wrong_seat, wrong_round};

// Whether n is outside 1 to 32.
#[tactic(auto, unfolding(protocol::specs::Record::wrong_size))]
pub fn wrong_size(n: u32) -> bool
    ensures { result ≡ wrong_size n }
{
    n == 0 || quorum::MOST_SEATS < n
}

// Whether the own seat is at or above n.
#[tactic(auto, unfolding(protocol::specs::Record::wrong_seat))]
pub fn wrong_seat(n: u32, seat: u32) -> bool
    ensures { result ≡ wrong_seat n seat }
{
    n <= seat
}

// Whether a round is above 1,023.
#[tactic(auto, unfolding(protocol::specs::Record::wrong_round))]
pub fn wrong_round(round: u32) -> bool
    ensures { result ≡ wrong_round round }
{
    layout::last_round() < round
}
