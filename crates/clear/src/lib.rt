// Clearing: constants that no instruction names go, and the others move up in their order.
#![tactic(auto)]

ghost use Rattle.std.specs.Prelude.{◌≡◌, ◌≤◌, length};
ghost use Rattle.named.specs.Inner.{marked_in};
ghost use Rattle.clear.specs.Inner.{Down, freed, ClearRoom};
ghost use Rattle.clear.specs.Clear.{Is, pool_buffers, clear_outcome, cleared, clear_ready_of, ClearTold};

use refusals::{Answer, Refusal};

// Each marked constant moves down in place, and scratch takes its new number. Answers how many there are.
fn keep(kinds: &mut [u8], words: &mut [u64], scratch: &mut [u32], m: usize) -> usize
    requires { (m ≤ 65536) × (m ≤ length kinds.old) × (m ≤ length words.old) × (m ≤ length scratch.old) }
    ensures { Down (marked_in scratch.old) m result kinds.old kinds.new words.old words.new
        scratch.old scratch.new }
{
    let mut to = 0;
    for i in 0..m {
        let named = scratch[i] != 0;
        scratch[i] = to as u32;
        if named {
            kinds[to] = kinds[i];
            words[to] = words[i];
            to += 1;
        }
    }
    to
}

// Entries from a up to m become 0.
fn free(kinds: &mut [u8], words: &mut [u64], a: usize, m: usize)
    requires { (a ≤ m) × (m ≤ length kinds.old) × (m ≤ length words.old) }
    ensures { (kinds.new ≡ freed a m kinds.old) × (words.new ≡ freed a m words.old) }
{
    kinds[a..m].fill(0);
    words[a..m].fill(0);
}

// Clears a chunk that passed the tests. Answers how many constants are left.
fn clear_unused(
    code: &mut [u16],
    kinds: &mut [u8],
    words: &mut [u64],
    scratch: &mut [u32],
    m: usize,
) -> usize
    requires { ClearRoom (pool_buffers code.old kinds.old words.old scratch.old) m }
    ensures { clear_outcome (Is result) (pool_buffers code.new kinds.new words.new scratch.new)
        ≡ cleared (pool_buffers code.old kinds.old words.old scratch.old) m }
{
    named::mark_named(code, scratch, m);
    let r = keep(kinds, words, scratch, m);
    free(kinds, words, r, m);
    named::renumber(code, scratch, m);
    r
}

// Refusals 1, 2, 7 and 5.
fn ready(
    code: &[u16],
    kinds: &[u8],
    words: &[u64],
    scratch: &[u32],
    constants: usize,
) -> Result<usize, Refusal>
    ensures { result ≡ clear_ready_of (pool_buffers code.now kinds.now words.now scratch.now) constants }
{
    let v = chunk::check(code);
    let v = chunk::table(v, 1, chunk::constants_kept(kinds, words, constants));
    refusals::room(v, 1, scratch.len(), constants)
}

// The clearing call.
pub fn clear(
    code: &mut [u16],
    kinds: &mut [u8],
    words: &mut [u64],
    constants: usize,
    scratch: &mut [u32],
) -> Answer
    ensures { ClearTold (pool_buffers code.old kinds.old words.old scratch.old) constants result
        (pool_buffers code.new kinds.new words.new scratch.new) }
{
    match ready(code, kinds, words, scratch, constants) {
        Err(r) => Answer::from(r),
        Ok(_) => {
            let left = clear_unused(code, kinds, words, scratch, constants);
            refusals::tell(left as u64, 0, 0, 0)
        }
    }
}
