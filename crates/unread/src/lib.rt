// Whether a Phi's value is dead: the call about it, and the clearing of its buffers around the search (block.rs: `dead_phi`).
#![tactic(auto)]

ghost use Rattle.std.specs.Prelude.{◌≡◌, ◌+◌, ◌/◌, ◌<◌, length};
ghost use Rattle.refusals.specs.Answers.{answered, Straight};
ghost use Rattle.paths.specs.Search.{SearchSettles};
ghost use Rattle.phi_paths.specs.Inner.{PhiRoom};
ghost use Rattle.unread.specs.Phi.{Dead};
ghost use Rattle.unread.specs.Answers.{DeadPhi};

use refusals::{Answer, Refusal};
use roles::Roles;

// `dead_phi`: refusals 1, 2, 6, 5.
pub fn dead_phi(
    code: &[u16],
    at: usize,
    r: u16,
    seen: &mut [u8],
    todo: &mut [u32],
) -> Result<Answer, Refusal>
    ensures answer { DeadPhi code.now at r seen.old todo.old (answered result) seen.new todo.new }
    ensures straight { Straight result }
{
    let m = code.len() / 6 + 1;
    let v = refusals::room(refusals::inside(code::check(code), at), 1, seen.len(), m);
    refusals::room(v, 2, todo.len(), m)?;
    Ok(refusals::tell(u64::from(dead(code, at, r, seen, todo)), 0, 0, 0))
}

// `dead_phi` in accepted code.
pub fn dead(code: &[u16], k: usize, r: u16, seen: &mut [u8], todo: &mut [u32]) -> bool
    requires { PhiRoom code.now seen.old todo.old × (k < length code.now / 6) }
    ensures { SearchSettles (Dead code.now k r) (length code.now / 6 + 1) seen.old todo.old result
        seen.new todo.new }
{
    let roles = Roles::new();
    let words = code.len() / 6 + 1;
    sections::clear_marks(seen, words);
    let found = phi_paths::search(&roles, code, r, (k + 1) as u32, seen, todo);
    sections::clear_marks(seen, words);
    sections::clear_words(todo, words);
    !found
}
