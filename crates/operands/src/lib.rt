// The operands of an attempt to fold: where they stand, what they load, and whether a jump or a landing keeps them from folding.
#![tactic(auto, unfolding(crate::specs::Operands::operand_of, crate::specs::Operands::skips_into, crate::specs::Operands::blocked))]

ghost use Rattle.std.specs.Prelude.{◌≡◌, ◌≤◌, ◌<◌, length, IfSome};
ghost use Rattle.chunk.specs.Chunk.{chunk_count, lands};
ghost use Rattle.operands.specs.Operands.{prev_live, operand_of, skips_into, blocked, after};

use ops::*;
use values::Val;

// The nearest live instruction before `from`.
pub fn prev_live(dead: &[u8], from: usize) -> Option<usize>
    requires { from ≤ length dead.now }
    ensures live { result ≡ prev_live dead.now from }
    ensures before { IfSome result (λ i. i < from) }
{
    for i in (0..from).rev() {
        if dead[i] == 0 {
            return Some(i);
        }
    }
    None
}

// The constant that a LoadConst at p loads, as an operand.
pub fn operand_of(
    code: &[u16],
    kinds: &[u8],
    words: &[u64],
    constants: usize,
    p: usize,
) -> Option<Val>
    requires { (p < chunk_count code.now) × (constants ≤ length kinds.now) × (constants ≤ length words.now) }
    ensures { result ≡ operand_of code.now kinds.now words.now constants p }
{
    if chunk::op_at(code, p) != LoadConst {
        return None;
    }
    pool::const_to_val(
        kinds,
        words,
        constants,
        usize::from(chunk::operand_at(code, p)),
    )
}

// Whether a jump just before, or the last landing, keeps the fold of (start, end] from being made.
pub fn blocks(code: &[u16], last: usize, start: usize, end: usize) -> bool
    requires { start < chunk_count code.now }
    ensures { result ≡ blocked (after last) code.now start end }
{
    skips_into(code, start, end) || start < last
}

// Whether the jump just before `start` lands in (start, end].
fn skips_into(code: &[u16], start: usize, end: usize) -> bool
    requires { start < chunk_count code.now }
    ensures { result ≡ skips_into code.now start end }
{
    start != 0 && lands_at(code, start, end, start - 1)
}

// Whether the instruction at k is a jump into (start, end].
fn lands_at(code: &[u16], start: usize, end: usize, k: usize) -> bool
    requires { k < chunk_count code.now }
    ensures { result ≡ lands code.now start end k }
{
    let target = usize::from(chunk::operand_at(code, k));
    chunk::is_jump(code, k) && start < target && target <= end
}
