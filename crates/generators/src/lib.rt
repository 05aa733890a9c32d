// Whether a generator's body may be laid (block.rs: `gen_pure`).
#![tactic(auto)]

ghost use Rattle.std.specs.Prelude.{◌≡◌, ◌+◌, ◌/◌, length};
ghost use Rattle.refusals.specs.Answers.{answered, Straight};
ghost use Rattle.paths.specs.Search.{SearchSettles};
ghost use Rattle.phi_paths.specs.Inner.{PhiRoom};
ghost use Rattle.generators.specs.Generator.{PhisDead, GenPure};
ghost use Rattle.generators.specs.Inner.{Clear};
ghost use Rattle.generators.specs.Answers.{GenTold};

use ops::*;
use refusals::{Answer, Refusal};

// `gen_pure`: refusals 1, 2, 5.
pub fn gen_pure(code: &[u16], seen: &mut [u8], todo: &mut [u32]) -> Result<Answer, Refusal>
    ensures answer { GenTold code.now seen.old todo.old (answered result) seen.new todo.new }
    ensures straight { Straight result }
{
    let m = code.len() / 6 + 1;
    let v = refusals::room(code::check(code), 1, seen.len(), m);
    refusals::room(v, 2, todo.len(), m)?;
    Ok(refusals::tell(u64::from(generates(code, seen, todo)), 0, 0, 0))
}

// Whether every Phi is dead; both buffers are clear, and stay so.
fn walk_phis(code: &[u16], seen: &mut [u8], todo: &mut [u32]) -> bool
    requires { Clear code.now seen.old todo.old }
    ensures { SearchSettles (PhisDead code.now (length code.now / 6)) (length code.now / 6 + 1) seen.old
        todo.old result seen.new todo.new }
{
    let n = code.len() / 6;
    for k in 0..n {
        let i = code::ins_at(code, k);
        if i.op != Phi {
            continue;
        }
        if !unread::dead(code, k, i.a, seen, todo) {
            return false;
        }
    }
    true
}

// Whether every Phi is dead, from buffers that may hold anything.
fn phis_dead(code: &[u16], seen: &mut [u8], todo: &mut [u32]) -> bool
    requires { PhiRoom code.now seen.old todo.old }
    ensures { SearchSettles (PhisDead code.now (length code.now / 6)) (length code.now / 6 + 1) seen.old
        todo.old result seen.new todo.new }
{
    let m = code.len() / 6 + 1;
    sections::clear_marks(seen, m);
    sections::clear_words(todo, m);
    walk_phis(code, seen, todo)
}

// `gen_pure` in accepted code.
fn generates(code: &[u16], seen: &mut [u8], todo: &mut [u32]) -> bool
    requires { PhiRoom code.now seen.old todo.old }
    ensures { SearchSettles (GenPure code.now) (length code.now / 6 + 1) seen.old todo.old result
        seen.new todo.new }
{
    let dead = phis_dead(code, seen, todo);
    let laid = laid::all_laid(code, true);
    let made = outside::any_makes(code);
    let outside = outside::returns_outside(code);
    laid & dead & !made & outside
}
