// Answers as C gets them.
ghost use Rattle.std.specs.Prelude.{◌≡◌};

use crate::{Checked, Written};
use quorum::Mask;
use refusal::Refusal;

impl From<Result<u32, Refusal>> for Written {
    ghost use Rattle.protocol.specs.Answers.{written_in};

    ghost from_gives = { λ answer given. given ≡ written_in answer };

    fn from(answer: Result<u32, Refusal>) -> Written {
        match answer {
            Ok(written) => Written { number: 0, written },
            Err(refusal) => Written {
                number: refusal.number(),
                written: 0,
            },
        }
    }
}

impl From<Result<Mask, Refusal>> for Checked {
    ghost use Rattle.protocol.specs.Answers.{checked_in};

    ghost from_gives = { λ answer given. given ≡ checked_in answer };

    fn from(answer: Result<Mask, Refusal>) -> Checked {
        match answer {
            Ok(mask) => Checked { number: 0, mask },
            Err(refusal) => Checked {
                number: refusal.number(),
                mask: 0,
            },
        }
    }
}
