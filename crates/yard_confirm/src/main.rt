// The yard's program, given a round in which four units agree.
#![tactic(auto)]

use std::io;

fn main(rt: HostRuntime) -> io::Result<()> {
    yard_io::run(&rt)?;
    Ok(())
}
