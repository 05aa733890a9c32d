// Folding: an attempt's write, and the pass, which tries each operator once, first to last.
#![tactic(auto, unfolding(fold::specs::Pass::applied, fold::specs::Pass::landed, fold::specs::Pass::const_load, fold::specs::Pass::mark_of))]

ghost use Rattle.std.specs.Prelude.{◌≡◌, ◌≤◌, ◌<◌, length, Some};
ghost use Rattle.chunk.specs.Chunk.{chunk_count};
ghost use Rattle.pool.specs.Pool.{find_or_push_const};
ghost use Rattle.pool.specs.Inner.{PushRoom};
ghost use Rattle.fold.specs.Plan.{chunk, after};
ghost use Rattle.fold.specs.Pass.{loading, from_pool, const_load, mark_of, put, applied, try_fold, by_table, fold_all};
ghost use Rattle.fold.specs.Inner.{OperatorRoom, PassRoom};

use chunk::STRIDE;
use fold::{Load, Plan};
use ops::*;
use values::Val;

// The pass over a chunk, which asks each count of landings once. Answers the new count of constants.
pub fn fold_all(
    code: &mut [u16],
    dead: &mut [u8],
    kinds: &mut [u8],
    words: &mut [u64],
    constants: usize,
    landings: &[u64],
    strict: bool,
) -> usize
    requires room { PassRoom (chunk code.old dead.old kinds.old words.old constants) }
    requires landings_within { chunk_count code.old ≤ length landings.now }
    ensures { chunk code.new dead.new kinds.new words.new result ≡ fold_all (by_table strict landings.now)
        (chunk code.old dead.old kinds.old words.old constants) }
{
    let mut held = constants;
    let mut last: usize = 0;
    for ip in 0..code.len() / STRIDE {
        last = landings::last_at(landings, strict, last, ip);
        held = try_fold(code, dead, kinds, words, held, last, ip);
    }
    held
}

// One attempt. Answers the new count of constants.
#[tactic(auto, unfolding(fold::specs::Pass::try_fold, fold::specs::Pass::applied))]
fn try_fold(
    code: &mut [u16],
    dead: &mut [u8],
    kinds: &mut [u8],
    words: &mut [u64],
    constants: usize,
    last: usize,
    ip: usize,
) -> usize
    requires { OperatorRoom (chunk code.old dead.old kinds.old words.old constants) ip }
    ensures { chunk code.new dead.new kinds.new words.new result ≡ try_fold (after last) ip
        (chunk code.old dead.old kinds.old words.old constants) }
{
    if dead[ip] != 0 {
        return constants;
    }
    let Some(plan) = fold::plan_at(code, dead, kinds, words, constants, last, ip) else {
        return constants;
    };
    apply(code, dead, kinds, words, constants, plan, ip)
}

// The plan's result as a load; what dies with ip is marked, and ip. Answers the new count of constants.
fn apply(
    code: &mut [u16],
    dead: &mut [u8],
    kinds: &mut [u8],
    words: &mut [u64],
    constants: usize,
    plan: Plan,
    ip: usize,
) -> usize
    requires { (plan.at < chunk_count code.old) × (plan.dies < length dead.old) × (ip < length dead.old) × PushRoom kinds.old words.old constants }
    ensures { chunk code.new dead.new kinds.new words.new result ≡ applied (Some plan) ip
        (chunk code.old dead.old kinds.old words.old constants) }
{
    let Some(load) = const_load(kinds, words, constants, plan.value) else {
        return constants;
    };
    put_at(code, plan.at, load.opcode, load.operand);
    dead[plan.dies] = 1;
    dead[ip] = 1;
    load.constants
}

// The marks of a load: LoadConst names a constant.
fn marks_of(o: u16) -> u16
    ensures { result ≡ mark_of o }
{
    if o == LoadConst { 2 } else { 0 }
}

// A load with its mark.
#[tactic(auto, unfolding(fold::specs::Pass::put))]
fn put_at(code: &mut [u16], p: usize, o: u16, x: u16)
    requires { p < chunk_count code.old }
    ensures { code.new ≡ put code.old p o x }
{
    code[STRIDE * p] = o;
    code[STRIDE * p + 1] = marks_of(o);
    code[STRIDE * p + 2] = x;
}

// A result as a load.
fn const_load(kinds: &mut [u8], words: &mut [u64], constants: usize, v: Val) -> Option<Load>
    requires { PushRoom kinds.old words.old constants }
    ensures { loading result kinds.new words.new ≡ const_load v kinds.old words.old constants }
{
    match v {
        Val::Bool(b) => Some(Load {
            opcode: if b { LoadTrue } else { LoadFalse },
            operand: 0,
            constants,
        }),
        Val::Int(_) | Val::Float(_) => pool_load(kinds, words, constants, v),
    }
}

// A load of the constant that the pool keeps.
fn pool_load(kinds: &mut [u8], words: &mut [u64], constants: usize, v: Val) -> Option<Load>
    requires { PushRoom kinds.old words.old constants }
    ensures { loading result kinds.new words.new ≡ from_pool (find_or_push_const kinds.old words.old constants v) }
{
    let (operand, constants) = pool::find_or_push_const(kinds, words, constants, v)?;
    Some(Load {
        opcode: LoadConst,
        operand,
        constants,
    })
}
