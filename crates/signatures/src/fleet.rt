// What a call is given besides a message: the size of the fleet, the round and the key table.
ghost use Rattle.signatures.specs.Given.{Given};

// A fleet of n seats in a round, with its key table: none of them is refused.
#[derive(Clone, Copy)]
pub struct Fleet<'a> {
    pub n: u32,
    pub round: u32,
    pub keys: &'a [u8],
    pub ghost given: { Given n round keys.now },
}

impl<'a> Fleet<'a> {
    ghost use Rattle.std.specs.Prelude.{◌≡◌, ◌<◌, false};
    ghost use Rattle.protocol.specs.Refusals.{wrong_key};
    ghost use Rattle.protocol.specs.Signatures.{seat_key};

    // The key of a seat.
    pub(crate) fn seat_key(self, seat: u32) -> &'a [u8]
        requires { seat < self.n }
        ensures { (result.now ≡ seat_key self.entry.keys.now seat) × (wrong_key result.now ≡ false) }
    {
        let start = layout::key_at(seat);
        &self.keys[start..start + layout::key_length()]
    }
}
