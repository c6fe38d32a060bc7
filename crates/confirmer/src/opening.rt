// Opening: the record of a unit with nothing set.
ghost use Rattle.std.specs.Prelude.{◌≡◌};
ghost use Rattle.protocol.specs.Answers.{opened_in};
ghost use Rattle.protocol.specs.Calls.{opening};

use arguments::record::{fresh, opened_by};
use protocol::{Opened, Record};
use refusal::Refusal;
use validate::calls::opening_refusal;

// The record with nothing else set, or its refusal.
fn opened(n: u32, seat: u32, round: u32, keys: &[u8]) -> Result<Record, Refusal>
    ensures { opened_in result ≡ opening n seat round keys.now }
{
    opening_refusal(n, seat, round, keys)?;
    Ok(fresh(n, seat, round))
}

// Answer of an opening: the record with nothing else set, or the refusal number and a record of zeros.
pub fn open(n: u32, seat: u32, round: u32, keys: &[u8]) -> Opened
    ensures { result ≡ opening n seat round keys.now }
{
    opened_by(opened(n, seat, round, keys))
}
