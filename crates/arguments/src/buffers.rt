// Tests of the buffers lent: 6, 7.
ghost use Rattle.std.specs.Prelude.{◌≡◌, ◌≤◌};
ghost use Rattle.quorum.specs.Quorum.{most_seats};
ghost use Rattle.protocol.specs.Refusals.{short_store, short_out};

// Whether the store is too short.
#[tactic(auto, unfolding(protocol::specs::Conditions::short_store))]
pub fn short_store(n: u32, store: &[u8]) -> bool
    requires { n ≤ most_seats }
    ensures { result ≡ short_store n store.now }
{
    store.len() < layout::store_length(n)
}

// Whether `out` is shorter than the length stated for the call.
#[tactic(auto, unfolding(protocol::specs::Conditions::short_out))]
pub fn short_out(stated: usize, out: &[u8]) -> bool
    ensures { result ≡ short_out stated out.now }
{
    out.len() < stated
}
