// SHA-256, FIPS 180-4: digests of whole messages. The round constants are lent as `k: &RoundConstants`; a caller works them out
// once, with `sha256_constants::round_constants`.
#![tactic(auto)]

pub mod hash;
