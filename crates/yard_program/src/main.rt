// The yard's program, given document 01's example.
#![tactic(auto)]

use std::io;

fn main(rt: HostRuntime) -> io::Result<()> {
    yard_io::run(&rt)?;
    Ok(())
}
