// Whether what a Phi writes is read: paths are followed to the first read (block.rs: `dead_phi`).
#![tactic(auto)]

ghost use Rattle.std.specs.Prelude.{◌≡◌, ℕ, ◌+◌, ◌/◌, ◌<◌, length, get_or};
ghost use mir.Val.{bool_byte};
ghost use Rattle.roles.specs.Kinds.{is_jump};
ghost use Rattle.paths.specs.Inner.{pushed, Searched};
ghost use Rattle.phi_paths.specs.Read.{phi_reads, stops, goes_on, Read};
ghost use Rattle.phi_paths.specs.Inner.{PhiRoom};

use code::Ins;
use ops::*;
use roles::Roles;

// Whether i reads r.
#[tactic(auto, unfolding(crate::specs::Read::phi_reads))]
fn reads(roles: &Roles, i: Ins, r: u16) -> bool
    ensures { result ≡ phi_reads i r }
{
    let k = roles::kinds_in(&roles.bytes, i);
    let o = i.op;
    let a = i.a == r;
    let named = (k / roles::A % 2 == 1) & a
        | (k / roles::B % 2 == 1) & (i.b == r)
        | (k / roles::C % 2 == 1) & (i.c == r);
    let none = k / roles::NONE % 2 == 1;
    !none & (o != ForIterR) & named | none & (o == LoadName) & a
}

// Whether a path stops at i: r is written, or the code is left.
#[tactic(auto, unfolding(crate::specs::Read::stops, crate::specs::Read::phi_writes))]
fn stops(roles: &Roles, i: Ins, r: u16) -> bool
    ensures { result ≡ stops i r }
{
    let k = roles::kinds_in(&roles.bytes, i);
    let o = i.op;
    let a = i.a == r;
    let none = k / roles::NONE % 2 == 1;
    let step = (o == ForIterR) & (i.b == r);
    let other = (o != ForIterR) & (k / roles::DEST % 2 == 1) & a;
    let writes = !none & (step | other) | none & (o == StoreName) & a;
    writes | (o == ReturnR) | (o == ReturnValue) | (o == Raise)
}

// The waiting stack's height with what comes after j on it, by its instruction.
fn follow(roles: &Roles, todo: &mut [u32], top: usize, j: usize, i: Ins) -> usize
    requires { (top + 1 < length todo.old) × (j < 65535) }
    ensures { (result ≡ top + bool_byte (goes_on i) + bool_byte (is_jump i))
        × (todo.new ≡ pushed (pushed todo.old top (j + 1) (goes_on i)) (top + bool_byte (goes_on i)) i.a (is_jump i)) }
{
    let to = roles::is_jump_in(&roles.bytes, i);
    paths::follow(todo, top, (j + 1) as u32, i.op != Jump, u32::from(i.a), to)
}

// Whether a path from `start` reads r; no mark is set at entry.
pub fn search(
    roles: &Roles,
    code: &[u16],
    r: u16,
    start: u32,
    seen: &mut [u8],
    todo: &mut [u32],
) -> bool
    requires { PhiRoom code.now seen.old todo.old × ((j : ℕ) → j < length code.now / 6 → get_or seen.old j 0 ≡ 0) }
    ensures { Searched (Read code.now r start) (length code.now / 6)
        seen.old todo.old result seen.new todo.new }
{
    let n = code.len() / 6;
    todo[0] = start;
    let mut top = 1;
    while 0 < top {
        top -= 1;
        let j = todo[top] as usize;
        if n <= j {
            continue;
        }
        if seen[j] != 0 {
            continue;
        }
        seen[j] = 1;
        let i = code::ins_at(code, j);
        if reads(roles, i, r) {
            return true;
        }
        if stops(roles, i, r) {
            continue;
        }
        top = follow(roles, todo, top, j, i);
    }
    false
}
