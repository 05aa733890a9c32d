// The Phi pass: which Phis die, the source pairs that survive, and phi_map indexed anew.
#![tactic(auto)]

ghost use Rattle.std.specs.Prelude.{MatchOption, true, false, ◌≡◌, ◌++◌, ◌+◌, ◌-◌, ◌*◌, ◌/◌, ◌%◌, ◌≤◌, ◌<◌, length, get_or, take, replicate};
ghost use Rattle.laws.specs.All.{every, many};
ghost use Rattle.chunk.specs.Chunk.{chunk_count, is_phi};
ghost use Rattle.positions.specs.Remap.{alive};
ghost use Rattle.phi_pass.specs.Phi.{paired, left_source, right_source, noop, phi_mark_at, marked, pairs_left, indexed};
ghost use Rattle.phi_pass.specs.Inner.{spread};

use ops::Phi;

// Whether instruction i is a Phi that has a pair.
#[inline]
#[tactic(auto, unfolding(crate::specs::Phi::paired))]
fn has_pair(code: &[u16], map: &[u32], sources: &[u16], i: usize) -> bool
    requires { i < chunk_count code.now }
    ensures { result ≡ paired code.now map.now sources.now i }
{
    chunk::op_at(code, i) == Phi && i < map.len() && (map[i] as usize) < sources.len() / 2
}

// The two sources of the Phi at i, if instruction i is a Phi that has a pair.
#[inline]
#[tactic(auto, unfolding(crate::specs::Phi::paired))]
fn pair_of(code: &[u16], map: &[u32], sources: &[u16], i: usize) -> Option<(u16, u16)>
    requires { i < chunk_count code.now }
    ensures { MatchOption result (paired code.now map.now sources.now i ≡ false) (λ p. (paired code.now map.now sources.now i ≡ true)
        × (p.0 ≡ left_source map.now sources.now i) × (p.1 ≡ right_source map.now sources.now i)) }
{
    if has_pair(code, map, sources, i) {
        let at = 2 * map[i] as usize;
        return Some((sources[at], sources[at + 1]));
    }
    None
}

// Whether instruction i is a Phi whose sources both equal its operand.
#[tactic(auto, unfolding(crate::specs::Phi::noop))]
fn is_noop(code: &[u16], map: &[u32], sources: &[u16], i: usize) -> bool
    requires { i < chunk_count code.now }
    ensures { result ≡ noop code.now map.now sources.now i }
{
    let Some((left, right)) = pair_of(code, map, sources, i) else {
        return false;
    };
    let operand = chunk::operand_at(code, i);
    (left == operand) & (right == operand)
}

// The dead mark of instruction i after the pass.
#[tactic(auto, unfolding(crate::specs::Phi::phi_mark_at))]
fn mark(code: &[u16], dead: &[u8], map: &[u32], sources: &[u16], i: usize) -> u8
    requires { (i < chunk_count code.now) × (i < length dead.now) }
    ensures { result ≡ phi_mark_at code.now map.now sources.now dead.now i }
{
    let was = dead[i];
    if was != 0 {
        return was;
    }
    u8::from(is_noop(code, map, sources, i))
}

// Marks the Phis that die.
#[tactic(auto, using(crate::proofs::Pairs::marking))]
pub fn mark_noops(code: &[u16], dead: &mut [u8], map: &[u32], sources: &[u16])
    requires { length dead.old ≡ chunk_count code.now }
    ensures { dead.new ≡ marked code.now map.now sources.now dead.old }
{
    if map.len() == 0 {
        return;
    }
    for i in 0..dead.len() {
        dead[i] = mark(code, dead, map, sources, i);
    }
}

// Whether nothing died.
pub fn all_alive(dead: &[u8]) -> bool
    ensures { result ≡ every (alive dead.now) (length dead.now) }
{
    dead.iter().all(|d| *d == 0)
}

// The pair of the Phi at i, packed.
fn pack(map: &[u32], sources: &[u16], i: usize) -> u32
    requires { (i < length map.now) × (get_or map.now i 0 < length sources.now / 2) }
    ensures { (result / 65536 ≡ left_source map.now sources.now i) × (result % 65536 ≡ right_source map.now sources.now i) }
{
    let at = 2 * map[i] as usize;
    u32::from(sources[at]) * 65536 + u32::from(sources[at + 1])
}

// Packs the surviving pairs into a queue: phi_sources can't be compacted in place. Answers how many there are.
#[tactic(auto, using(crate::proofs::Pairs::gathering), unfolding(crate::specs::Phi::paired))]
pub fn gather(code: &[u16], dead: &[u8], map: &[u32], sources: &[u16], queue: &mut [u32]) -> usize
    requires { (length dead.now ≡ chunk_count code.now) × (length dead.now ≤ length queue.old) }
    ensures { (spread (take result queue.new) ≡ pairs_left code.now map.now sources.now dead.now)
        × (result ≤ many (is_phi code.now) (length dead.now)) × (result ≤ length queue.new) }
{
    if map.len() == 0 {
        return 0;
    }
    let mut to: usize = 0;
    for k in 0..dead.len() {
        if dead[k] == 0 {
            if has_pair(code, map, sources, k) {
                queue[to] = pack(map, sources, k);
                to += 1;
            }
        }
    }
    to
}

// The first m pairs of a queue become the table, and the rest is cleared.
#[tactic(auto, using(crate::proofs::Pairs::spreading))]
pub fn unpack(queue: &[u32], sources: &mut [u16], m: usize)
    requires { (m ≤ length queue.now) × (2 * m ≤ length sources.old) }
    ensures { sources.new ≡ spread (take m queue.now) ++ replicate (length sources.old - 2 * m) 0 }
{
    for j in 0..m {
        let at = 2 * j;
        let q = queue[j];
        sources[at] = (q / 65536) as u16;
        sources[at + 1] = (q % 65536) as u16;
    }
    sources[2 * m..].fill(0);
}

// Maps each Phi to its pair by order. Answers how many there are.
#[tactic(auto, using(crate::proofs::Pairs::indexing))]
pub fn index_phis(code: &[u16], map: &mut [u32]) -> usize
    requires { (length map.old ≡ chunk_count code.now) × (chunk_count code.now ≤ 65535) }
    ensures { (result ≡ many (is_phi code.now) (chunk_count code.now)) × (map.new ≡ indexed code.now) }
{
    let mut next: u32 = 0;
    for i in 0..map.len() {
        let phi = chunk::op_at(code, i) == Phi;
        map[i] = if phi { next } else { 0 };
        next += u32::from(phi);
    }
    next as usize
}
