// Lent chunks: four words an instruction, and the refusals of the folding call in document 01's order of test.
#![tactic(auto)]

ghost use Rattle.std.specs.Prelude.{◌≡◌, not, ◌^◌, ◌<◌, ◌≤◌, length};
ghost use Rattle.laws.specs.All.{every};
ghost use Rattle.chunk.specs.Chunk.{chunk_count, op_at, mark_at, operand_at, origin_at, marks_jump, names, folds, chunk_rules};
ghost use Rattle.chunk.specs.Tables.{constant_kept, constants_kept, map_kept, pairs_kept, table_of};
ghost use Rattle.chunk.specs.Check.{first_bad_of, chunk_check_of, tables_of, tally_of, constant_room, source_room, rooms_of, ready_of};
ghost use Rattle.chunk.specs.Inner.{ample};

use ops::*;
use refusals::Refusal;

// How many entries each table has, the tables of pairs in words.
#[derive(Clone, Copy)]
pub struct Counts {
    pub constants: usize,
    pub map: usize,
    pub sources: usize,
    pub stmts: usize,
    pub calls: usize,
}

// How long each lent buffer is.
#[derive(Clone, Copy)]
pub struct Lens {
    pub kinds: usize,
    pub words: usize,
    pub map: usize,
    pub sources: usize,
    pub stmts: usize,
    pub calls: usize,
    pub dead: usize,
    pub remap: usize,
}

// How many folding operators and Phis a chunk has.
#[derive(Clone, Copy)]
pub struct Tally {
    pub folding: usize,
    pub phis: usize,
}

// The words of an instruction.
pub const STRIDE: usize = 4;

// The opcode of instruction k.
pub fn op_at(code: &[u16], k: usize) -> u16
    requires { k < chunk_count code.now }
    ensures { result ≡ op_at code.now k }
{
    code[STRIDE * k]
}

// The marks of instruction k.
pub fn mark_at(code: &[u16], k: usize) -> u16
    requires { k < chunk_count code.now }
    ensures { result ≡ mark_at code.now k }
{
    code[STRIDE * k + 1]
}

// The operand of instruction k.
pub fn operand_at(code: &[u16], k: usize) -> u16
    requires { k < chunk_count code.now }
    ensures { result ≡ operand_at code.now k }
{
    code[STRIDE * k + 2]
}

// The origin of instruction k.
pub fn origin_at(code: &[u16], k: usize) -> u16
    requires { k < chunk_count code.now }
    ensures { result ≡ origin_at code.now k }
{
    code[STRIDE * k + 3]
}

// Whether instruction k has the jump mark.
pub fn is_jump(code: &[u16], k: usize) -> bool
    requires { k < chunk_count code.now }
    ensures { result ≡ marks_jump code.now k }
{
    mark_at(code, k) % 2 == 1
}

// Whether instruction k names a constant.
pub fn names_constant(code: &[u16], k: usize) -> bool
    requires { k < chunk_count code.now }
    ensures { result ≡ names code.now k }
{
    mark_at(code, k) / 2 % 2 == 1
}

// Whether an opcode is a folding operator.
#[tactic(auto, unfolding(crate::specs::Chunk::folds))]
pub fn is_folding(o: u16) -> bool
    ensures { result ≡ folds o }
{
    matches!(
        o,
        Add | Sub
            | Mul
            | Div
            | Mod
            | FloorDiv
            | Eq
            | NotEq
            | Lt
            | Gt
            | LtEq
            | GtEq
            | BitAnd
            | BitOr
            | BitXor
            | Shl
            | Shr
            | Not
            | Minus
    )
}

// Whether an instruction breaks a record rule: LoadConst has the mark 2, a Phi or a folding operator none, any other no two marks. Most have none: of
// these the number alone is asked.
#[tactic(auto, unfolding(crate::specs::Chunk::chunk_rules, crate::specs::Chunk::folds))]
fn breaks(o: u16, marks: u16) -> bool
    ensures { result ≡ not (chunk_rules o marks) }
{
    if o == LoadConst {
        return marks != 2;
    }
    if marks == 0 {
        return LAST < o;
    }
    let most = if (o == Phi) | is_folding(o) { 0 } else { 2 };
    (LAST < o) | (most < marks)
}

// The first instruction that breaks a record rule, else how many there are.
#[tactic(auto, using(laws::proofs::Walk::finds))]
fn first_bad(code: &[u16]) -> usize
    ensures { result ≡ first_bad_of code.now }
{
    let n = code.len() / STRIDE;
    for k in 0..n {
        if breaks(op_at(code, k), mark_at(code, k)) {
            return k;
        }
    }
    n
}

// Refusals 1 and 2.
#[tactic(auto, unfolding(crate::specs::Check::chunk_check_of))]
pub fn check(code: &[u16]) -> Result<usize, Refusal>
    ensures { result ≡ chunk_check_of code.now }
{
    let len = code.len();
    let n = len / STRIDE;
    let uneven = (len % STRIDE != 0) | (65535 < n);
    if uneven {
        return Err(Refusal::Length(len));
    }
    let k = first_bad(code);
    if k < n {
        return Err(Refusal::Record(k));
    }
    Ok(n)
}

// Whether each constant has a kind, and each bool a word, that there is.
#[tactic(auto, using(laws::proofs::Every::all))]
fn each_kept(kinds: &[u8], words: &[u64], constants: usize) -> bool
    requires { (constants ≤ length kinds.now) × (constants ≤ length words.now) }
    ensures { result ≡ every (constant_kept kinds.now words.now) constants }
{
    for i in 0..constants {
        let kept = (kinds[i] <= 3) & ((kinds[i] != 3) | (words[i] <= 1));
        if !kept {
            return false;
        }
    }
    true
}

// Whether the constants keep their rule.
pub fn constants_kept(kinds: &[u8], words: &[u64], constants: usize) -> bool
    ensures { result ≡ constants_kept kinds.now words.now constants }
{
    let within = (constants <= 65536) & (constants <= kinds.len()) & (constants <= words.len());
    within && each_kept(kinds, words, constants)
}

// Refusal 7 for one table.
pub fn table(v: Result<usize, Refusal>, number: u8, kept: bool) -> Result<usize, Refusal>
    ensures { result ≡ table_of v number kept }
{
    let n = v?;
    if kept {
        return Ok(n);
    }
    Err(Refusal::Table(number))
}

// Whether phi_map has 0 or n entries, none past its buffer's end.
fn map_kept(n: usize, entries: usize, len: usize) -> bool
    ensures { result ≡ map_kept n entries len }
{
    ((entries == 0) | (entries == n)) & (entries <= len)
}

// Whether a table of pairs has whole pairs, none past its buffer's end.
fn pairs_kept(words: usize, len: usize) -> bool
    ensures { result ≡ pairs_kept words len }
{
    (words % 2 == 0) & (words <= len)
}

// Refusal 7: the lowest table that breaks its rule.
#[tactic(auto, unfolding(crate::specs::Check::tables_of))]
fn tables(
    v: Result<usize, Refusal>,
    n: usize,
    kinds: &[u8],
    words: &[u64],
    counts: Counts,
    lens: Lens,
) -> Result<usize, Refusal>
    ensures { result ≡ tables_of v n kinds.now words.now counts lens }
{
    let v = table(v, 1, constants_kept(kinds, words, counts.constants));
    let v = table(v, 2, map_kept(n, counts.map, lens.map));
    let v = table(v, 3, pairs_kept(counts.sources, lens.sources));
    let v = table(v, 4, pairs_kept(counts.stmts, lens.stmts));
    table(v, 5, pairs_kept(counts.calls, lens.calls))
}

// Counts the folding operators and the Phis.
#[tactic(auto, using(laws::proofs::Many::many_few), unfolding(crate::specs::Check::tally_of, laws::specs::All::many))]
pub fn tallied(code: &[u16]) -> Tally
    ensures { result ≡ tally_of code.now }
{
    let n = code.len() / STRIDE;
    let mut folding: usize = 0;
    let mut phis: usize = 0;
    for k in 0..n {
        let o = op_at(code, k);
        folding += usize::from(is_folding(o));
        phis += usize::from(o == Phi);
    }
    Tally { folding, phis }
}

// The constants that folding needs room for.
fn constant_room(constants: usize, folding: usize) -> usize
    ensures { result ≡ constant_room constants folding }
{
    constants.saturating_add(folding).min(65535).max(constants)
}

// The words of phi_sources that folding needs room for.
pub fn source_room(sources: usize, phis: usize) -> usize
    requires { phis < 2 ^ 63 }
    ensures { result ≡ source_room sources phis }
{
    2 * phis.max(sources / 2)
}

// Whether the buffers have room for any chunk of n instructions, which has n folding operators and n Phis at most.
#[tactic(auto, unfolding(crate::specs::Inner::ample))]
fn is_ample(n: usize, counts: Counts, lens: Lens) -> bool
    requires { n < 2 ^ 63 }
    ensures { result ≡ ample n counts lens }
{
    if 65536 < counts.constants {
        return false;
    }
    let most = counts.constants + n;
    let pool = (most <= lens.kinds) & (most <= lens.words);
    let phis = (n <= lens.map) & (n <= lens.sources / 2) & (counts.sources <= lens.sources);
    pool & phis & (n <= lens.dead) & (n < lens.remap)
}

// Refusal 5: the first buffer that is too short. Nothing is counted where there is room for anything.
#[tactic(auto, using(laws::proofs::Many::many_few), unfolding(crate::specs::Check::rooms_of, crate::specs::Check::tally_of))]
fn rooms(
    v: Result<usize, Refusal>,
    code: &[u16],
    counts: Counts,
    lens: Lens,
) -> Result<usize, Refusal>
    ensures { result ≡ rooms_of v code.now counts lens }
{
    let n = code.len() / STRIDE;
    if is_ample(n, counts, lens) {
        return v;
    }
    let t = tallied(code);
    let constants = constant_room(counts.constants, t.folding);
    let v = refusals::room(v, 1, lens.kinds, constants);
    let v = refusals::room(v, 2, lens.words, constants);
    let v = refusals::room(v, 3, lens.map, n);
    let v = refusals::room(v, 4, lens.sources, source_room(counts.sources, t.phis));
    let v = refusals::room(v, 5, lens.dead, n);
    refusals::room(v, 6, lens.remap, n + 1)
}

// The tests of the folding call: refusals 1, 2, 4, 7 and 5.
#[tactic(auto, unfolding(crate::specs::Check::ready_of))]
pub fn ready(
    code: &[u16],
    tries: &[u32],
    kinds: &[u8],
    words: &[u64],
    counts: Counts,
    lens: Lens,
    landings: usize,
) -> Result<usize, Refusal>
    ensures { result ≡ ready_of code.now tries.now kinds.now words.now counts lens landings }
{
    let n = code.len() / STRIDE;
    let v = refusals::tried(check(code), tries);
    let v = tables(v, n, kinds, words, counts, lens);
    let v = rooms(v, code, counts, lens);
    refusals::room(v, 7, landings, n + 1)
}
