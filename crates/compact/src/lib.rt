// Compaction: dead instructions go, and whatever names a position follows.
#![tactic(auto)]

ghost use Rattle.std.specs.Prelude.{◌≡◌, ◌+◌, ◌*◌, ◌%◌, ◌≤◌, ◌<◌, length, set};
ghost use Rattle.chunk.specs.Chunk.{stride, chunk_count, op_at, mark_at, origin_at};
ghost use Rattle.positions.specs.Remap.{live};
ghost use Rattle.positions.specs.Inner.{Remap};
ghost use Rattle.compact.specs.Tables.{moved_operand, compacted};
ghost use Rattle.compact.specs.Inner.{Compacted};

use chunk::STRIDE;

// The operand of instruction i: a jump's follows.
#[tactic(auto, unfolding(crate::specs::Tables::moved_operand))]
fn operand_of(code: &[u16], dead: &[u8], remap: &[u32], i: usize) -> u16
    requires { (i < chunk_count code.now) × Remap dead.now remap.now }
    ensures { result ≡ moved_operand dead.now code.now i }
{
    let v = chunk::operand_at(code, i);
    if chunk::is_jump(code, i) {
        return positions::moved(dead, remap, u32::from(v)) as u16;
    }
    v
}

// Instruction i moves down to `to`.
fn shift(code: &mut [u16], dead: &[u8], remap: &[u32], i: usize, to: usize)
    requires { (i < chunk_count code.old) × (to ≤ i) × Remap dead.now remap.now }
    ensures { code.new ≡ set (set (set (set code.old (stride * to) (op_at code.old i)) (stride * to + 1)
        (mark_at code.old i)) (stride * to + 2) (moved_operand dead.now code.old i)) (stride * to + 3)
        (origin_at code.old i) }
{
    let op = chunk::op_at(code, i);
    let marks = chunk::mark_at(code, i);
    let operand = operand_of(code, dead, remap, i);
    let origin = chunk::origin_at(code, i);
    code[STRIDE * to] = op;
    code[STRIDE * to + 1] = marks;
    code[STRIDE * to + 2] = operand;
    code[STRIDE * to + 3] = origin;
}

// The live instructions move down in place, and the rest is cleared.
#[tactic(auto, using(crate::proofs::Moves::keeping))]
fn retain(code: &mut [u16], dead: &[u8], remap: &[u32]) -> usize
    requires { (length code.old ≡ stride * length dead.now) × Remap dead.now remap.now }
    ensures { (result ≡ live dead.now (length dead.now)) × (code.new ≡ compacted dead.now code.old) }
{
    let n = dead.len();
    let mut to: usize = 0;
    for i in 0..n {
        if dead[i] == 0 {
            shift(code, dead, remap, i, to);
            to += 1;
        }
    }
    code[STRIDE * to..].fill(0);
    to
}

// What is left of a chunk when its dead instructions go. Answers how many instructions there are then.
pub fn compact_with_jump_remap(
    code: &mut [u16],
    dead: &[u8],
    remap: &mut [u32],
    stmt_pos: &mut [u32],
    call_byte_pos: &mut [u32],
) -> usize
    requires { (length code.old ≡ stride * length dead.now) × (length dead.now ≤ 65535) × (length remap.old ≡ length dead.now + 1)
        × (length stmt_pos.old % 2 ≡ 0) × (length call_byte_pos.old % 2 ≡ 0) }
    ensures { Compacted dead.now code.old stmt_pos.old call_byte_pos.old result code.new
        remap.new stmt_pos.new call_byte_pos.new }
{
    positions::fill_remap(dead, remap);
    positions::place(stmt_pos, dead, remap);
    positions::place(call_byte_pos, dead, remap);
    retain(code, dead, remap)
}
