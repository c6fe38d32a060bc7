// SHA-256's compression of sixteen blocks side by side. The lanes stand in rows of sixteen words, and the compiler turns a loop
// over a row into vector code. A lane's schedule is a column of 64 words; its working variables a and e, and b ^ c, are columns
// of 68 words, and each round adds a word to each of them.
//
// Blocks of a lane that agree in words 0 to 4, 14 and 15, and in the hash value before them, have a common start: the first five
// rounds, round 5 without its word, and the share of these words in the schedule. `begin` makes it once, and `compress` goes on
// from it.
#![tactic(auto)]

ghost use Rattle.std.specs.Prelude.{◌≡◌, ℕ, ◌+◌, ◌-◌, ◌*◌, ◌<◌, ◌≤◌, List, get_or};
ghost use Rattle.std.specs.Int.Bits.{bit_and, bit_xor};
ghost use Rattle.fips180.specs.Constants.{constants};
ghost use Rattle.fips180.specs.Fips as Fips;
ghost use Rattle.sha256_lanes.specs.Rows.{column, place, State, Same, Unchanged, Rounded, Resumed, Common, Compressed, Shares, share_at, scheduled_at, temp1_at, temp2_at, round_at};

use sha256_constants::RoundConstants;
use sha256_words::{add, big_sigma0, small_sigma0, small_sigma1, temp1};

// The words of one block, in every lane. Scratch: the rows of w from 16 on.
pub fn spread(m: [u32; 16], w: &mut [u32; 1024])
    ensures { (l : ℕ) → l < 16 → column l 16 w.new ≡ m }
{
    for n in 0..256 {
        w[n] = m[n / 16];
    }
}

// One hash value as the working variables before the rounds, in every lane. Scratch: the rest of s.
fn start(h: [u32; 8], s: &mut [u32; 3264])
    ensures { (l : ℕ) → l < 16 → State h (place 0 l) s.new }
{
    let differ = h[1] ^ h[2];
    for n in 0..64 {
        s[n + 1024] = h[n / 16];
        s[n + 2112] = h[4 + n / 16];
        s[n + 3200] = differ;
    }
}

// The share of the words at n and n + 16 in the word at n + 256.
#[tactic(auto, unfolding(crate::specs::Rows::share_at))]
fn share_at(w: &[u32; 1024], n: usize) -> u32
    requires { n < 1008 }
    ensures { result ≡ share_at w.now n }
{
    add(small_sigma0(w[n + 16]), w[n])
}

// The shares of words 0 to 4, 14 and 15 in words 16 to 19. Scratch: the last two rows of x.
fn shares(w: &[u32; 1024], x: &mut [u32; 96])
    ensures { Shares w.now x.new }
{
    for n in 0..32 {
        x[n] = add(small_sigma1(w[n + 224]), share_at(w, n));
        x[n + 32] = share_at(w, n + 32);
    }
}

// Word 16 or 17 of a schedule, at index n.
#[tactic(auto, using(crate::specs::RowsLaws::shared_first))]
fn scheduled_first(w: &[u32; 1024], x: &[u32; 96], n: usize) -> u32
    requires { (256 ≤ n) × (n < 288) }
    ensures { Shares w.now x.now → result ≡ scheduled_at w.now n }
{
    add(w[n - 112], x[n - 256])
}

// Word 18 or 19 of a schedule, at index n.
#[tactic(auto, using(crate::specs::RowsLaws::shared_next))]
fn scheduled_next(w: &[u32; 1024], x: &[u32; 96], n: usize) -> u32
    requires { (288 ≤ n) × (n < 320) }
    ensures { Shares w.now x.now → result ≡ scheduled_at w.now n }
{
    add(add(small_sigma1(w[n - 32]), w[n - 112]), x[n - 256])
}

// Any word from 16 on, at index n, from the rows before it.
#[tactic(auto, unfolding(crate::specs::Rows::scheduled_at))]
fn scheduled(w: &[u32; 1024], n: usize) -> u32
    requires { (256 ≤ n) × (n < 1024) }
    ensures { result ≡ scheduled_at w.now n }
{
    add(
        add(
            add(small_sigma1(w[n - 32]), w[n - 112]),
            small_sigma0(w[n - 240]),
        ),
        w[n - 256],
    )
}

// The schedules of sixteen blocks, whose words are in the first sixteen rows.
fn schedule(w: &mut [u32; 1024], x: &[u32; 96])
    ensures same { Same 256 w.old w.new }
    ensures w_after { Shares w.old x.now → (l : ℕ) → l < 16 → column l 64 w.new ≡ Fips.schedule (column l 16 w.old) 48 }
{
    for n in 256..288 {
        w[n] = scheduled_first(w, x, n);
    }
    for n in 288..320 {
        w[n] = scheduled_next(w, x, n);
    }
    for n in 320..1024 {
        w[n] = scheduled(w, n);
    }
}

// Maj of a, b and c, from b and the differences a ^ b and b ^ c.
fn majority(b: u32, ab: u32, bc: u32) -> u32
    ensures { result ≡ bit_xor b (bit_and ab bc) }
{
    b ^ (ab & bc)
}

// T1 of one lane.
#[tactic(auto, unfolding(crate::specs::Rows::temp1_at))]
fn temp1_at(k: u32, x: u32, s: &[u32; 3264], n: usize) -> u32
    requires { n < 1024 }
    ensures { result ≡ temp1_at k x n s.now }
{
    temp1(k, x, s[n + 1104], s[n + 1120], s[n + 1136], s[n + 1152])
}

// T2 of one lane.
#[tactic(auto, unfolding(crate::specs::Rows::temp2_at))]
fn temp2_at(s: &[u32; 3264], n: usize) -> u32
    requires { n < 1024 }
    ensures { result ≡ temp2_at n s.now }
{
    let a = s[n + 16];
    let b = s[n + 32];
    add(big_sigma0(a), majority(b, a ^ b, s[n + 2192]))
}

// One round of one lane, from the working variables at n + 16 to those at n.
#[tactic(auto, unfolding(crate::specs::Rows::round_at))]
fn round_at(k: u32, x: u32, s: &mut [u32; 3264], n: usize)
    requires { n < 1024 }
    ensures { s.new ≡ round_at k x n s.old }
{
    let t1 = temp1_at(k, x, s, n);
    let t2 = temp2_at(s, n);
    let e = add(s[n + 64], t1);
    let a = add(t1, t2);
    s[n + 2176] = s[n + 16] ^ s[n + 32];
    s[n + 1088] = e;
    s[n] = a;
}

// Round t of every lane. Scratch: the rows of later rounds.
fn round(k: u32, w: &[u32; 1024], s: &mut [u32; 3264], t: usize)
    requires { (t < 64) × (k ≡ get_or constants t 0) }
    ensures unchanged { Unchanged (1024 - 16 * t) s.old s.new }
    ensures rounded { Rounded w.now t (t + 1) s.old s.new }
{
    for l in 0..16 {
        let x = w[16 * t + l];
        round_at(k, x, s, 1008 - 16 * t + l);
    }
}

// Rounds `from` to `to` - 1 of every lane. Scratch as in `round`.
fn rounds(k: &RoundConstants, w: &[u32; 1024], s: &mut [u32; 3264], from: usize, to: usize)
    requires { (from ≤ to) × (to ≤ 64) }
    ensures unchanged { Unchanged (1024 - 16 * from) s.old s.new }
    ensures rounded { Rounded w.now from to s.old s.new }
{
    for t in from..to {
        round(k.words[t], w, s, t);
    }
}

// The hash value of every lane: the one before the rounds plus the working variables after them.
fn sums(s: &[u32; 3264], v: &mut [u32; 128])
    ensures { (l : ℕ) (h q : List ℕ) → l < 16 → State h (place 0 l) s.now → State q (place 64 l) s.now → column l 8 v.new ≡ Fips.sums h q }
{
    for n in 0..64 {
        v[n] = add(s[n + 1024], s[n]);
        v[n + 64] = add(s[n + 2112], s[n + 1088]);
    }
}

// Saves a and e after round 5 in the last two rows of x.
fn save(s: &[u32; 3264], x: &mut [u32; 96])
    ensures same { Same 64 x.old x.new }
    ensures by_index { (l : ℕ) → l < 16 → (get_or x.new (64 + l) 0 ≡ get_or s.now (928 + l) 0) × (get_or x.new (80 + l) 0 ≡ get_or s.now (2016 + l) 0) }
{
    x[64..80].copy_from_slice(&s[928..944]);
    x[80..96].copy_from_slice(&s[2016..2032]);
}

// Round 5 of every lane: its word, added to the saved a and e. Scratch as in `round`.
fn resume(w: &[u32; 1024], x: &[u32; 96], s: &mut [u32; 3264])
    ensures unchanged { Unchanged 944 s.old s.new }
    ensures resumed { Resumed w.now x.now s.old s.new }
{
    for n in 0..16 {
        s[928 + n] = add(x[64 + n], w[80 + n]);
        s[2016 + n] = add(x[80 + n], w[80 + n]);
    }
}

// Sixteen blocks: their schedules, the share of the common start in these, and the working variables before and after each round.
#[derive(Drop)]
pub struct Lanes {
    pub schedule: [u32; 1024],
    pub shares: [u32; 96],
    pub state: [u32; 3264],
}

impl Lanes {
    // The common start of blocks with words 0 to 4, 14 and 15 of the schedules' first sixteen rows, after one hash value: `compress` goes
    // on from it. Word 5 is zero there, so that round 5 is without it. Scratch: the words of the state that `Common` does not name.
    pub fn begin(&mut self, k: &RoundConstants, h: [u32; 8])
        requires { (l : ℕ) → l < 16 → get_or self.old.schedule (80 + l) 0 ≡ 0 }
        ensures same { self.new.schedule ≡ self.old.schedule }
        ensures common { Common h self.new.schedule self.new.shares self.new.state }
    {
        shares(&self.schedule, &mut self.shares);
        start(h, &mut self.state);
        rounds(k, &self.schedule, &mut self.state, 0, 5);
        rounds(k, &self.schedule, &mut self.state, 5, 6);
        save(&self.state, &mut self.shares);
    }

    // The hash value of every lane after one more block, with the schedules' first sixteen rows as its words. Scratch: the rows from 16
    // on, and the words of the state that `Common` does not name.
    pub fn compress(&mut self, k: &RoundConstants, v: &mut [u32; 128])
        ensures same { Same 256 self.old.schedule self.new.schedule }
        ensures shares_same { self.new.shares ≡ self.old.shares }
        ensures compressed { Compressed self.old.schedule self.new.shares self.old.state self.new.schedule self.new.state v.new }
    {
        schedule(&mut self.schedule, &self.shares);
        resume(&self.schedule, &self.shares, &mut self.state);
        rounds(k, &self.schedule, &mut self.state, 6, 64);
        sums(&self.state, v);
    }
}
