// The dispatcher of eight rounds (document 02, item 6): `lists` has what is asked of eight numbers, `possible` the test of impossible
// dispatchers, `lanes` the tickets of a lane, `turns` whose turn it is, `calls` the three calls.
#![tactic(auto)]

pub mod calls;
mod lanes;
mod lists;
mod possible;
mod turns;
