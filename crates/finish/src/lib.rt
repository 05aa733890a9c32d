// The Phi pass, then every table anew if anything died (optimizer.rs: the end of `constant_fold`).
#![tactic(auto)]

ghost use Rattle.std.specs.Prelude.{◌≡◌, ◌*◌, ◌≤◌, length, take};
ghost use Rattle.laws.specs.All.{many};
ghost use Rattle.chunk.specs.Chunk.{stride, is_phi};
ghost use Rattle.finish.specs.Finish.{tables, sources_left, sources_after, map_count, renewed, finished};
ghost use Rattle.finish.specs.Inner.{TableRoom};

// How many instructions there are, entries of phi_map, and words of phi_sources.
#[derive(Clone, Copy)]
pub struct Left {
    pub instructions: usize,
    pub map: usize,
    pub sources: usize,
}

// phi_sources keeps the surviving pairs. Answers how many words they have.
fn renew_sources(
    code: &[u16],
    dead: &[u8],
    phi_map: &[u32],
    phi_sources: &mut [u16],
    remap: &mut [u32],
    left: Left,
) -> usize
    requires room { (length code.now ≡ stride * length dead.now) × (length dead.now ≤ length remap.old)
        × (2 * many (is_phi code.now) (length dead.now) ≤ length phi_sources.old) }
    requires left_within { (left.map ≤ length phi_map.now) × (left.sources ≤ length phi_sources.old) }
    ensures { (result ≡ length (sources_left code.now (take left.map phi_map.now)
        (take left.sources phi_sources.old) dead.now)) × (phi_sources.new
        ≡ sources_after code.now (take left.map phi_map.now) (take left.sources phi_sources.old) dead.now
        (length phi_sources.old)) }
{
    let m = phi_pass::gather(
        code,
        dead,
        &phi_map[..left.map],
        &phi_sources[..left.sources],
        remap,
    );
    phi_pass::unpack(remap, phi_sources, m);
    2 * m
}

// phi_map is empty if no Phi is left.
fn map_count(phis: usize, instructions: usize) -> usize
    ensures { result ≡ map_count phis instructions }
{
    if phis == 0 { 0 } else { instructions }
}

// Every table anew, where something died.
fn renew(
    code: &mut [u16],
    phi_map: &mut [u32],
    phi_sources: &mut [u16],
    stmt_pos: &mut [u32],
    call_byte_pos: &mut [u32],
    dead: &[u8],
    remap: &mut [u32],
    left: Left,
) -> Left
    requires { TableRoom (tables code.old phi_map.old phi_sources.old stmt_pos.old call_byte_pos.old dead.now remap.old left) }
    ensures { tables code.new phi_map.new phi_sources.new stmt_pos.new call_byte_pos.new
        dead.now remap.new result ≡ renewed (tables code.old phi_map.old phi_sources.old
        stmt_pos.old call_byte_pos.old dead.now remap.old left) }
{
    let sources = renew_sources(code, dead, phi_map, phi_sources, remap, left);
    let instructions = compact::compact_with_jump_remap(code, dead, remap, stmt_pos, call_byte_pos);
    let phis = phi_pass::index_phis(code, phi_map);
    Left {
        instructions,
        map: map_count(phis, instructions),
        sources,
    }
}

// The Phi pass, then every table anew if anything died.
#[tactic(auto, using(crate::proofs::Anew::finishing))]
pub fn finish(
    code: &mut [u16],
    phi_map: &mut [u32],
    phi_sources: &mut [u16],
    stmt_pos: &mut [u32],
    call_byte_pos: &mut [u32],
    dead: &mut [u8],
    remap: &mut [u32],
    left: Left,
) -> Left
    requires { TableRoom (tables code.old phi_map.old phi_sources.old stmt_pos.old call_byte_pos.old dead.old remap.old left) }
    ensures { tables code.new phi_map.new phi_sources.new stmt_pos.new call_byte_pos.new
        dead.new remap.new result ≡ finished (tables code.old phi_map.old phi_sources.old
        stmt_pos.old call_byte_pos.old dead.old remap.old left) }
{
    phi_pass::mark_noops(
        code,
        dead,
        &phi_map[..left.map],
        &phi_sources[..left.sources],
    );
    if phi_pass::all_alive(dead) {
        return left;
    }
    renew(
        code,
        phi_map,
        phi_sources,
        stmt_pos,
        call_byte_pos,
        dead,
        remap,
        left,
    )
}
