// Where positions go when instructions die: the remap, and the tables that follow it.
#![tactic(auto)]

ghost use Rattle.std.specs.Prelude.{◌≡◌, ◌+◌, ◌%◌, ◌≤◌, length};
ghost use Rattle.positions.specs.Remap.{mapped};
ghost use Rattle.positions.specs.Inner.{Remap};
ghost use Rattle.positions.specs.Moved.{placed, moved_all};

// remap(0) to remap(n), front to back: the number of live instructions before each position.
#[tactic(auto, using(laws::proofs::Many::many_few, crate::proofs::Moves::counting), unfolding(laws::specs::All::many))]
pub fn fill_remap(dead: &[u8], remap: &mut [u32])
    requires { (length remap.old ≡ length dead.now + 1) × (length dead.now ≤ 65535) }
    ensures { Remap dead.now remap.new }
{
    let n = dead.len();
    let mut at: u32 = 0;
    for i in 0..n {
        remap[i] = at;
        at += u32::from(dead[i] == 0);
    }
    remap[n] = at;
}

// Where a position goes.
#[tactic(auto, using(crate::proofs::Moves::reading))]
pub fn moved(dead: &[u8], remap: &[u32], v: u32) -> u32
    requires { Remap dead.now remap.now }
    ensures { (result ≡ mapped dead.now v) × (result ≤ v) }
{
    let at = v as usize;
    if at <= dead.len() {
        return remap[at];
    }
    v
}

// The first word of each pair follows.
#[tactic(auto, using(crate::proofs::Moves::placing))]
pub fn place(pairs: &mut [u32], dead: &[u8], remap: &[u32])
    requires { (length pairs.old % 2 ≡ 0) × Remap dead.now remap.now }
    ensures { pairs.new ≡ placed dead.now pairs.old }
{
    let n = pairs.len() / 2;
    for k in 0..n {
        let at = 2 * k;
        pairs[at] = moved(dead, remap, pairs[at]);
    }
}

// Every word follows: the tries are pairs of positions.
#[tactic(auto, using(crate::proofs::Moves::moving))]
pub fn place_words(words: &mut [u32], dead: &[u8], remap: &[u32])
    requires { Remap dead.now remap.now }
    ensures { words.new ≡ moved_all dead.now words.old }
{
    for w in words.iter_mut() {
        *w = moved(dead, remap, *w);
    }
}
