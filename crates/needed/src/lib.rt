// Whether one register is needed at one position: the call about it, and the clearing of its buffers around the search.
#![tactic(auto)]

ghost use Rattle.std.specs.Prelude.{◌≡◌, ◌+◌, ◌/◌, ◌≤◌, length};
ghost use Rattle.steps.specs.Code.{flow};
ghost use Rattle.needed.specs.Path.{Needs};
ghost use Rattle.needed.specs.Answers.{upto_of, NeededTold};
ghost use Rattle.refusals.specs.Answers.{answered, Straight};
ghost use Rattle.paths.specs.Search.{SearchSettles};
ghost use Rattle.seek.specs.Inner.{AskedRoom};

use refusals::{Answer, Refusal};

// Whether register r is needed at a position, n allowed: refusals 1, 2, 3, 6, 5.
pub fn needed(
    code: &[u16],
    regs: usize,
    at: usize,
    r: u16,
    seen: &mut [u8],
    todo: &mut [u32],
) -> Result<Answer, Refusal>
    ensures answer { NeededTold code.now regs at r seen.old todo.old (answered result) seen.new todo.new }
    ensures straight { Straight result }
{
    let m = code.len() / 6 + 1;
    let v = up_to(refusals::registers(code::check(code), regs), at);
    let marks = refusals::room(v, 1, seen.len(), m);
    refusals::room(marks, 2, todo.len(), m)?;
    Ok(refusals::tell(u64::from(asks(code, regs, at, r, seen, todo)), 0, 0, 0))
}

// Refusal 6 for a position beyond n.
fn up_to(v: Result<usize, Refusal>, at: usize) -> Result<usize, Refusal>
    ensures { result ≡ upto_of v at }
{
    let n = v?;
    if n < at {
        return Err(Refusal::Position(at));
    }
    Ok(n)
}

// The same in accepted code.
fn asks(code: &[u16], regs: usize, k: usize, r: u16, seen: &mut [u8], todo: &mut [u32]) -> bool
    requires { AskedRoom code.now seen.old todo.old × (k ≤ length code.now / 6) }
    ensures { SearchSettles (Needs (flow regs code.now) r k) (length code.now / 6 + 1) seen.old todo.old result
        seen.new todo.new }
{
    let words = code.len() / 6 + 1;
    sections::clear_marks(seen, words);
    let found = seek::search(code, r, k, seen, todo);
    sections::clear_marks(seen, words);
    sections::clear_words(todo, words);
    found & (usize::from(r) < regs)
}
