// The width of a digit.
ghost use Rattle.std.specs.Prelude.{◌≡◌, ◌-◌, ◌^◌, ◌<◌, ◌≤◌};
ghost use Rattle.rfc8554.specs.Ots as Ots;

// The bits of a digit, w in RFC 8554 (section 4.1).
#[derive(Clone, Copy, Debug, PartialEq, Eq)]
pub enum Width {
    Four,
    Eight,
}

impl Width {
    ghost use Rattle.lmots_digits.specs.Width.{bits_of};

    // The largest digit.
    pub fn most(self) -> u32
        ensures { (result ≡ 2 ^ bits_of self - 1) × (result ≤ 255) }
    {
        match self {
            Width::Four => 15,
            Width::Eight => 255,
        }
    }

    // u, the number of digits in a digest.
    #[tactic(auto, unfolding(rfc8554::specs::Ots::digits))]
    pub fn digits(self) -> usize
        ensures { (result ≡ Ots.digits (bits_of self)) × (result ≤ 64) }
    {
        match self {
            Width::Four => 64,
            Width::Eight => 32,
        }
    }

    // p, the number of chains of a key.
    #[tactic(auto, unfolding(rfc8554::specs::Ots::chains))]
    pub fn chains(self) -> usize
        ensures { (result ≡ Ots.chains (bits_of self)) × (0 < result) × (result ≤ 67) }
    {
        match self {
            Width::Four => 67,
            Width::Eight => 34,
        }
    }

    // ls, the left shift of a checksum.
    #[tactic(auto, unfolding(rfc8554::specs::Ots::left_shift))]
    pub fn left_shift(self) -> u32
        ensures { (result ≡ Ots.left_shift (bits_of self)) × (result ≤ 4) }
    {
        match self {
            Width::Four => 4,
            Width::Eight => 0,
        }
    }
}
