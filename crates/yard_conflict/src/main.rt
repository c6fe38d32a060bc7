// The yard's program, given a round with certificates of three layouts: FULL and two packs of EVIDENCE answer them. A pack given to it is
// refused.
#![tactic(auto)]

use std::io;

fn main(rt: HostRuntime) -> io::Result<()> {
    yard_io::run(&rt)?;
    Ok(())
}
