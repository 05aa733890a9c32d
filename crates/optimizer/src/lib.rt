// The exact fold of one chunk: folding, the Phi pass and compaction under one statement, over buffers that are as long as needed.
#![tactic(auto)]

ghost use Rattle.std.specs.Prelude.{◌≡◌, ◌+◌, ◌≤◌, length};
ghost use Rattle.chunk.specs.Chunk.{chunk_count};
ghost use Rattle.fold.specs.Plan.{chunk};
ghost use Rattle.fold.specs.Pass.{by_table};
ghost use Rattle.fold.specs.Inner.{PassRoom};
ghost use Rattle.positions.specs.Moved.{moved_all};
ghost use Rattle.optimizer.specs.Fold.{buffers, fold_outcome, settled, fold_lent, fold_pass};
ghost use Rattle.optimizer.specs.Inner.{Exact, Mapped};

use chunk::Counts;
use finish::Left;

// What is left: instructions, constants, entries of phi_map and words of phi_sources.
#[derive(Clone, Copy)]
pub struct Folded {
    pub instructions: usize,
    pub constants: usize,
    pub map: usize,
    pub sources: usize,
}

// The folding pass, from marks that may hold anything. Answers the new count of constants.
#[tactic(auto, unfolding(crate::specs::Fold::fold_pass))]
fn fold_pass(
    code: &mut [u16],
    dead: &mut [u8],
    kinds: &mut [u8],
    words: &mut [u64],
    constants: usize,
    landings: &[u64],
    strict: bool,
) -> usize
    requires { PassRoom (chunk code.old dead.old kinds.old words.old constants) × (chunk_count code.old ≤ length landings.now) }
    ensures { chunk code.new dead.new kinds.new words.new result
        ≡ fold_pass (by_table strict landings.now) (chunk code.old dead.old kinds.old words.old
        constants) }
{
    dead.fill(0);
    pass::fold_all(code, dead, kinds, words, constants, landings, strict)
}

// The tries follow, if anything died.
#[tactic(auto, using(crate::proofs::Whole::tries_stay, crate::proofs::Whole::map_there))]
fn move_tries(tries: &mut [u32], dead: &[u8], remap: &[u32])
    requires { Mapped dead.now remap.now }
    ensures { tries.new ≡ moved_all dead.now tries.old }
{
    if phi_pass::all_alive(dead) {
        return;
    }
    positions::place_words(tries, dead, remap);
}

// Folding, the Phi pass and compaction, over buffers that are as long as needed. The table of landings is filled first, and once more for the chunk
// that is left.
pub fn constant_fold(
    code: &mut [u16],
    kinds: &mut [u8],
    words: &mut [u64],
    phi_map: &mut [u32],
    phi_sources: &mut [u16],
    stmt_pos: &mut [u32],
    call_byte_pos: &mut [u32],
    dead: &mut [u8],
    remap: &mut [u32],
    tries: &mut [u32],
    landings: &mut [u64],
    counts: Counts,
    strict: bool,
) -> Folded
    requires { Exact (buffers code.old kinds.old words.old phi_map.old phi_sources.old stmt_pos.old call_byte_pos.old dead.old
        remap.old) counts × (length landings.old ≡ chunk_count code.old + 1) }
    ensures { settled (fold_outcome result (buffers code.new kinds.new words.new phi_map.new
        phi_sources.new
        stmt_pos.new call_byte_pos.new dead.new remap.new)) tries.new landings.new
        ≡ fold_lent strict tries.old (buffers code.old kinds.old words.old phi_map.old
        phi_sources.old stmt_pos.old call_byte_pos.old dead.old remap.old) counts }
{
    landings::fill(code, tries, landings);
    let left = Left {
        instructions: dead.len(),
        map: counts.map,
        sources: counts.sources,
    };
    let constants = fold_pass(code, dead, kinds, words, counts.constants, landings, strict);
    let after = finish::finish(
        code,
        phi_map,
        phi_sources,
        stmt_pos,
        call_byte_pos,
        dead,
        remap,
        left,
    );
    move_tries(tries, dead, remap);
    landings::fill(code, tries, landings);
    Folded {
        instructions: after.instructions,
        constants,
        map: after.map,
        sources: after.sources,
    }
}
