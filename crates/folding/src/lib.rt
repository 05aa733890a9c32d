// The folding call: its refusals, then the fold over each buffer as far as it is needed, told.
#![tactic(auto)]

ghost use Rattle.std.specs.Prelude.{◌≡◌};
ghost use Rattle.chunk.specs.Check.{source_room, tally_of};
ghost use Rattle.optimizer.specs.Fold.{buffers};
ghost use Rattle.folding.specs.Answers.{folded_told, FoldTold};

use chunk::{Counts, Lens, STRIDE};
use optimizer::Folded;
use refusals::Answer;

// How many words of phi_sources are needed.
#[tactic(auto, using(optimizer::proofs::Whole::few_phis))]
fn sources_needed(code: &[u16], sources: usize) -> usize
    ensures { result ≡ source_room sources (tally_of code.now).phis }
{
    chunk::source_room(sources, chunk::tallied(code).phis)
}

// The counts of what is left.
fn told(f: Folded) -> Answer
    ensures { result ≡ folded_told f }
{
    refusals::tell(
        f.instructions as u64,
        f.constants as u64,
        f.map as u64,
        f.sources as u64,
    )
}

// The folding call.
pub fn fold(
    code: &mut [u16],
    kinds: &mut [u8],
    words: &mut [u64],
    constants: usize,
    phi_map: &mut [u32],
    phi_map_count: usize,
    phi_sources: &mut [u16],
    phi_sources_count: usize,
    stmt_pos: &mut [u32],
    stmt_pos_count: usize,
    call_byte_pos: &mut [u32],
    call_byte_pos_count: usize,
    dead: &mut [u8],
    remap: &mut [u32],
    tries: &mut [u32],
    landings: &mut [u64],
    strict: bool,
) -> Answer
    ensures { FoldTold strict
        (buffers code.old kinds.old words.old phi_map.old phi_sources.old
        stmt_pos.old call_byte_pos.old dead.old remap.old)
        tries.old landings.old
        (record {
          constants = constants;
          map = phi_map_count;
          sources = phi_sources_count;
          stmts = stmt_pos_count;
          calls = call_byte_pos_count;
        }) result
        (buffers code.new kinds.new words.new phi_map.new phi_sources.new
        stmt_pos.new call_byte_pos.new dead.new remap.new)
        tries.new landings.new }
{
    let counts = Counts {
        constants,
        map: phi_map_count,
        sources: phi_sources_count,
        stmts: stmt_pos_count,
        calls: call_byte_pos_count,
    };
    let lens = Lens {
        kinds: kinds.len(),
        words: words.len(),
        map: phi_map.len(),
        sources: phi_sources.len(),
        stmts: stmt_pos.len(),
        calls: call_byte_pos.len(),
        dead: dead.len(),
        remap: remap.len(),
    };
    if let Err(r) = chunk::ready(code, tries, kinds, words, counts, lens, landings.len()) {
        return Answer::from(r);
    }
    let n = code.len() / STRIDE;
    let more = n + 1;
    let sources = sources_needed(code, phi_sources_count);
    told(optimizer::constant_fold(
        code,
        kinds,
        words,
        &mut phi_map[..n],
        &mut phi_sources[..sources],
        &mut stmt_pos[..stmt_pos_count],
        &mut call_byte_pos[..call_byte_pos_count],
        &mut dead[..n],
        &mut remap[..more],
        tries,
        &mut landings[..more],
        counts,
        strict,
    ))
}
