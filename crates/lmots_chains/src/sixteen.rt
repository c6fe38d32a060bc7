// Sixteen chains side by side, each with the leaf of its lane: a step of all of them is one compression in each lane.
ghost use Rattle.std.specs.Prelude.{◌≡◌, ℕ, ◌<◌, ◌≤◌, get_or};
ghost use Rattle.lmots_chains.specs.Sixteen.{Slid, Placed, Numbered, Ready, Stepped, Walked, AllWalked};

use crate::chain::across;
use sha256_constants::{RoundConstants, initial_value};
use sha256_lanes::{Lanes, spread};

// Where each lane is: 65536 times its chain's number plus 256 times the place in it.
#[derive(Clone, Copy)]
struct Places {
    words: [u32; 16],

    ghost small: { (l : ℕ) → l < 16 → get_or words l 0 < 16777216 },
}

// Words 6 to 12 of the blocks: the values, moved by one byte.
fn put_values(v: &[u32; 128], w: &mut [u32; 1024])
    ensures { Slid 112 v.now w.old w.new }
{
    for n in 0..112 {
        w[n + 96] = across(v[n], v[n + 16]);
    }
}

// Word 5 of the blocks, with chain number and place, and word 13, where the padding begins.
fn put_places(places: &Places, t: u32, v: &[u32; 128], w: &mut [u32; 1024])
    requires { t < 256 }
    ensures { Placed 16 places.now.words t v.now w.old w.new }
{
    for l in 0..16 {
        w[l + 80] = places.words[l] + 256 * t + v[l] / 16777216 % 256;
        w[l + 208] = v[l + 112] % 16777216 * 256 + 128;
    }
}

// Word 4 of the blocks, the leaf's number.
fn put_numbers(leaves: [u32; 16], w: &mut [u32; 1024])
    ensures { Numbered 16 leaves w.old w.new }
{
    w[64..80].copy_from_slice(&leaves);
}

// One step of every chain, t places after the place of its lane. Scratch: the words of the lanes that `Ready` does not name.
fn step(k: &RoundConstants, places: &Places, t: u32, lanes: &mut Lanes, v: &mut [u32; 128])
    requires { t < 256 }
    ensures same { lanes.new.shares ≡ lanes.old.shares }
    ensures stepped { Stepped places.now.words t lanes.old.schedule lanes.new.shares lanes.old.state v.old lanes.new.schedule lanes.new.state v.new }
{
    put_places(places, t, v, &mut lanes.schedule);
    put_values(v, &mut lanes.schedule);
    lanes.compress(k, v);
}

// The part of the blocks that is the same in every step: the words around place and value, with their common start. Scratch: the
// words of the lanes that `Ready` does not name.
fn prepare(k: &RoundConstants, id: [u32; 4], leaves: [u32; 16], lanes: &mut Lanes)
    ensures { Ready id leaves lanes.new.schedule lanes.new.shares lanes.new.state }
{
    let h = initial_value();
    spread(
        [
            id[0], id[1], id[2], id[3], 0, 0, 0, 0, 0, 0, 0, 0, 0, 0, 0, 440,
        ],
        &mut lanes.schedule,
    );
    put_numbers(leaves, &mut lanes.schedule);
    lanes.begin(k, h);
}

// `count` steps of every chain, for leaves that the lanes are ready for. Scratch as in `step`.
fn walk(k: &RoundConstants, places: &Places, count: u32, lanes: &mut Lanes, v: &mut [u32; 128])
    requires { count ≤ 255 }
    ensures { AllWalked places.now.words count lanes.old.schedule lanes.old.shares lanes.old.state v.old lanes.new.schedule lanes.new.state v.new }
{
    for t in 0..count {
        step(k, places, t, lanes, v);
    }
}

// The values of sixteen chains after `count` steps. A lane's place is 65536 times the chain's number plus 256 times the place in it.
pub fn steps(
    k: &RoundConstants,
    id: [u32; 4],
    leaves: [u32; 16],
    places: &[u32; 16],
    count: u32,
    v: &mut [u32; 128],
)
    requires { (count ≤ 255) × ((l : ℕ) → l < 16 → get_or places.now l 0 < 16777216) }
    ensures { Walked id leaves places.now count v.old v.new }
{
    let mut lanes = Lanes {
        schedule: [0; 1024],
        shares: [0; 96],
        state: [0; 3264],
    };
    prepare(k, id, leaves, &mut lanes);
    walk(k, &Places { words: *places }, count, &mut lanes, v);
}
