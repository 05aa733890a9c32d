// A recorded trace as bytes: blocks of 512, 127 slots and a check in each (document 02, wish 9).
#![tactic(auto)]

ghost use Rattle.std.specs.Prelude.{◌≡◌, ◌+◌, ◌*◌, ◌/◌, ◌<◌, ◌≤◌, length};
ghost use Rattle.blocks.specs.Blocks.{word_at, slot_at, filler_at, weighed, bad_check, follows, bad_fill, steps_of};

// The entry of slot s: 127 to a block.
#[tactic(auto, unfolding(crate::specs::Blocks::slot_at))]
pub fn slot_at(t: &[u8], s: usize) -> usize
    requires { s / 127 < length t.now / 512 }
    ensures { result ≡ slot_at t.now s }
{
    word_at(t, 512 * (s / 127) + 4 * (s % 127))
}

// The positions recorded: those before the first filler.
#[tactic(auto, using(laws::proofs::Walk::finds), unfolding(crate::specs::Blocks::steps_of))]
pub fn steps_of(t: &[u8]) -> usize
    ensures { result ≡ steps_of t.now }
{
    let end = 127 * (t.len() / 512);
    for s in 0..end {
        if filler_at(t, s) {
            return s;
        }
    }
    end
}

// Block b, which is whole, has a bad check.
#[tactic(auto, unfolding(crate::specs::Blocks::bad_check))]
pub fn bad_check(t: &[u8], b: usize) -> bool
    requires { b < length t.now / 512 }
    ensures { result ≡ bad_check t.now b }
{
    let at = 512 * b;
    weigh(t, at) != word_at(t, at + 508)
}

// Block b has a filler before a position.
#[tactic(auto, using(laws::proofs::Some::somewhere), unfolding(crate::specs::Blocks::bad_fill))]
pub fn bad_fill(t: &[u8], b: usize) -> bool
    requires { b < length t.now / 512 }
    ensures { result ≡ bad_fill t.now b }
{
    for j in 0..127 {
        if follows_at(t, 127 * b + j) {
            return true;
        }
    }
    false
}

// Slot s has a position right behind a filler.
#[tactic(auto, unfolding(crate::specs::Blocks::follows))]
fn follows_at(t: &[u8], s: usize) -> bool
    requires { s / 127 < length t.now / 512 }
    ensures { result ≡ follows t.now s }
{
    s != 0 && filler_at(t, s - 1) && !filler_at(t, s)
}

// Slot s holds a filler and no position.
#[tactic(auto, unfolding(crate::specs::Blocks::filler_at))]
fn filler_at(t: &[u8], s: usize) -> bool
    requires { s / 127 < length t.now / 512 }
    ensures { result ≡ filler_at t.now s }
{
    slot_at(t, s) == u32::MAX as usize
}

// The sum of each byte times its place from 1, of the 508 bytes from `at` on.
#[tactic(auto, using(crate::proofs::Bytes::weighings))]
fn weigh(t: &[u8], at: usize) -> usize
    requires { at + 508 ≤ length t.now }
    ensures { result ≡ weighed t.now at 508 }
{
    let mut sum = 0;
    for m in 0..508 {
        sum += usize::from(t[at + m]) * (m + 1);
    }
    sum
}

// The u32 at byte i.
fn word_at(t: &[u8], i: usize) -> usize
    requires { i + 3 < length t.now }
    ensures { result ≡ word_at t.now i }
{
    u32::from_le_bytes([t[i], t[i + 1], t[i + 2], t[i + 3]]) as usize
}
