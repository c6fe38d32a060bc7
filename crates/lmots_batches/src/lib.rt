// All chains of a leaf, in batches of sixteen. The values of up to 67 chains stand one after the other in z. The contracts leave free
// which chains go together and how far: each one comes to its own end.
#![tactic(auto)]

ghost use Rattle.std.specs.Prelude.{◌≡◌, ℕ, ◌+◌, ◌-◌, ◌*◌, ◌<◌, ◌≤◌, take, get_or};
ghost use Rattle.octets.specs.Octets.{part, bytes};
ghost use Rattle.octets.specs.Strings.{joined};
ghost use Rattle.sha256_lanes.specs.Rows.{column};
ghost use Rattle.lmots_batches.specs.Batches.{Ordered, Scattered, Moved, ended};

use lmots_chains::chain::chain;
use lmots_chains::sixteen::steps;
use lmots_digits::words::words_at;
use octets::put_words;
use sha256_constants::RoundConstants;

// The bytes of 67 values.
pub const VALUES: usize = 2144;

// The first n of up to 67 chains: the place of each, and the end that it goes to. Two arrays and not one of pairs: `Moved` and `ended`
// (docs/STATEMENTS.md names them) are about a list of places and a list of ends.
#[derive(Clone, Copy)]
pub struct Chains {
    pub n: usize,
    pub places: [u32; 67],
    pub ends: [u32; 67],

    pub ghost counted: { (0 < n) × (n ≤ 67) },
    pub ghost ordered: { Ordered places ends },
}

// A chain for each of sixteen lanes.
#[derive(Clone, Copy)]
struct Picks {
    chains: [usize; 16],

    ghost known: { (l : ℕ) → l < 16 → get_or chains l 0 < 67 },
}

impl Chains {
    // The number of steps that chain i has left.
    fn left(&self, i: usize) -> u32
        requires { i < 67 }
        ensures { result ≡ get_or self.now.ends i 0 - get_or self.now.places i 0 }
    {
        self.ends[i] - self.places[i]
    }

    // The number of steps left, for each chain.
    fn lefts(&self) -> [u32; 67]
        ensures { (i : ℕ) → i < 67 → get_or result i 0 ≡ get_or self.now.ends i 0 - get_or self.now.places i 0 }
    {
        let mut out = [0u32; 67];
        for i in 0..67 {
            out[i] = self.left(i);
        }
        out
    }

    // The number of steps that sixteen chains go together: at most 64, and none past its end.
    fn together(&self, picks: &Picks) -> u32
        ensures { (result ≤ 64) × ((l : ℕ) → l < 16 → result ≤ get_or self.now.ends (get_or picks.now.chains l 0) 0 - get_or self.now.places (get_or picks.now.chains l 0) 0) }
    {
        let mut count: u32 = 64;
        for &i in &picks.chains {
            count = count.min(self.left(i));
        }
        count
    }

    // The places of sixteen chains, as `steps` takes them.
    fn row(&self, picks: &Picks) -> [u32; 16]
        ensures { (l : ℕ) → l < 16 → get_or result l 0 ≡ get_or picks.now.chains l 0 * 65536 + get_or self.now.places (get_or picks.now.chains l 0) 0 * 256 }
    {
        let mut out = [0u32; 16];
        for (l, &i) in picks.chains.iter().enumerate() {
            out[l] = i as u32 * 65536 + self.places[i] * 256;
        }
        out
    }
}

// A chain with the most steps left, of the first n.
fn longest(rest: &[u32; 67], n: usize) -> usize
    requires { (0 < n) × (n ≤ 67) }
    ensures { result < n }
{
    (0..n).max_by_key(|&i| rest[i]).unwrap_or(0)
}

// The sixteen chains with the most steps left. Where fewer than sixteen have steps left, the longest is taken again.
fn choose(chains: &Chains) -> Picks
    ensures { (l : ℕ) → l < 16 → get_or result.chains l 0 < chains.now.n }
{
    let mut rest = chains.lefts();
    let first = longest(&rest, chains.n);
    let mut picks = [first; 16];
    for pick in picks.iter_mut() {
        let i = longest(&rest, chains.n);
        if 0 < rest[i] {
            *pick = i;
        }
        rest[i] = 0;
    }
    Picks { chains: picks }
}

// Writes y to column l; the columns before it stay. Scratch: the columns after it.
pub fn put_column(v: &mut [u32; 128], l: usize, y: [u32; 8])
    requires { l < 16 }
    ensures { (column l 8 v.new ≡ y) × ((j : ℕ) → j < l → column j 8 v.new ≡ column j 8 v.old) }
{
    for (r, &word) in y.iter().enumerate() {
        v[16 * r + l] = word;
    }
}

// The eight words of column l.
pub fn column(v: &[u32; 128], l: usize) -> [u32; 8]
    requires { l < 16 }
    ensures { result ≡ column l 8 v.now }
{
    let mut y = [0u32; 8];
    for r in 0..8 {
        y[r] = v[16 * r + l];
    }
    y
}

// The values of sixteen chains, each in a column.
fn gather(z: &[u8; VALUES], picks: &Picks, v: &mut [u32; 128])
    ensures { (l : ℕ) → l < 16 → bytes (column l 8 v.new) ≡ part (32 * get_or picks.now.chains l 0) 32 z.now }
{
    for (l, &i) in picks.chains.iter().enumerate() {
        let y = words_at(z, 32 * i);
        put_column(v, l, y);
    }
}

// Writes the columns back as values, and returns the new places.
fn scatter(
    v: &[u32; 128],
    picks: &Picks,
    places: [u32; 67],
    count: u32,
    z: &mut [u8; VALUES],
) -> [u32; 67]
    requires { (l : ℕ) → l < 16 → get_or places (get_or picks.now.chains l 0) 0 + count ≤ 255 }
    ensures { (i : ℕ) → i < 67 → Scattered 16 picks.now.chains places count v.now z.old result z.new i }
{
    let mut next = places;
    for (l, &i) in picks.chains.iter().enumerate() {
        let y = column(v, l);
        put_words(z, 32 * i, &y);
        next[i] = places[i] + count;
    }
    next
}

// One batch: sixteen chains go some steps together.
fn batch(
    k: &RoundConstants,
    id: [u32; 4],
    q: u32,
    chains: &Chains,
    picks: &Picks,
    z: &mut [u8; VALUES],
) -> Chains
    ensures rest { (result.n ≡ chains.now.n) × (result.ends ≡ chains.now.ends) }
    ensures moved { Moved (bytes id) q chains.now.ends chains.now.places z.old result.places z.new }
{
    let count = chains.together(picks);
    let at = chains.row(picks);
    let mut v = [0u32; 128];
    gather(z, picks, &mut v);
    steps(k, id, [q; 16], &at, count, &mut v);
    let places = scatter(&v, picks, chains.places, count, z);
    Chains {
        n: chains.n,
        places,
        ends: chains.ends,
    }
}

// Batches until fewer than four chains have steps left: at most 17,085, which is 67 chains times 255 steps.
fn advance(k: &RoundConstants, id: [u32; 4], q: u32, chains: Chains, z: &mut [u8; VALUES]) -> Chains
    ensures rest { (result.n ≡ chains.n) × (result.ends ≡ chains.ends) }
    ensures moved { Moved (bytes id) q chains.ends chains.places z.old result.places z.new }
{
    let mut gone = chains;
    for _ in 0..17085 {
        let picks = choose(&gone);
        if picks.chains[3] == picks.chains[0] {
            return gone;
        }
        gone = batch(k, id, q, &gone, &picks, z);
    }
    gone
}

// Each chain to its end, one after the other. Scratch: the values after the n-th.
fn finish(k: &RoundConstants, id: [u32; 4], q: u32, chains: &Chains, z: &mut [u8; VALUES])
    ensures { take (32 * chains.now.n) z.new ≡ joined (ended (bytes id) q chains.now.places chains.now.ends z.old) chains.now.n }
{
    for i in 0..chains.n {
        let y = words_at(z, 32 * i);
        let x = chain(k, id, q, i as u32, chains.places[i], chains.left(i), y);
        put_words(z, 32 * i, &x);
    }
}

// Each chain from its place to its end. Scratch: the values after the n-th.
pub fn run(k: &RoundConstants, id: [u32; 4], q: u32, chains: Chains, z: &mut [u8; VALUES])
    ensures { take (32 * chains.n) z.new ≡ joined (ended (bytes id) q chains.places chains.ends z.old) chains.n }
{
    let gone = advance(k, id, q, chains, z);
    finish(k, id, q, &gone, z);
}
