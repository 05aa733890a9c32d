// The callee of a call on the stack: the push of the value that lies under its arguments (block.rs: `stack_callee`).
#![tactic(auto)]

ghost use Rattle.std.specs.Prelude.{◌≡◌, ◌<◌, ◌≤◌};
ghost use Rattle.code.specs.Ins.{count};
ghost use Rattle.code.specs.Inner.{Valid};
ghost use Rattle.stack.specs.Stack.{work_of, effect_of, source_of, turn_of, stack_callee};
ghost use Rattle.stack.specs.Inner.{Narrow, Grows};
ghost use Rattle.stack.specs.Answers.{stack_answer};

use code::Ins;
use ops::*;
use refusals::Answer;
use roles::Roles;

// An opcode's work on the stack.
#[derive(Clone, Copy)]
pub enum Work {
    // Pushes x registers.
    Push,
    // Pops one where x is 0.
    Store,
    // Pops and pushes so many.
    Plain(u8, u8),
    // Pops a values and pushes one.
    Build,
    // Pops a values and the function, and pushes one, where a is below 256.
    Calls,
    // None where it has a role.
    Role,
}

// How many values an instruction pops and how many it then pushes.
#[derive(Clone, Copy)]
pub struct Effect {
    pub pops: u16,
    pub pushes: u8,
}

// Where the walk over the stack's work ends, at a push and one of its registers or nowhere, or how deep the value lies before the instruction.
#[derive(Clone, Copy)]
pub enum Turn {
    Ends(Option<(usize, u16)>),
    Needs(usize),
}

// The work of an opcode on the stack; one that is not named works by its role.
fn work_of(o: u16) -> Work
    ensures { result ≡ work_of o }
{
    match o {
        PushRegs => Work::Push,
        StoreTopR => Work::Store,
        PopTop => Work::Plain(1, 0),
        Dup => Work::Plain(1, 2),
        BuildSlice | BuildList | BuildTuple | BuildSet => Work::Build,
        GetItem
        | Add
        | Sub
        | Mul
        | Div
        | FloorDiv
        | Mod
        | Pow
        | BitAnd
        | BitOr
        | BitXor
        | Shl
        | Shr
        | Eq
        | NotEq
        | Lt
        | LtEq
        | Gt
        | GtEq
        | In
        | NotIn
        | Is
        | IsNot => Work::Plain(2, 1),
        Minus | Not | LoadAttr => Work::Plain(1, 1),
        Call => Work::Calls,
        _ => Work::Role,
    }
}

// What i does to the stack, if that is known.
#[tactic(auto, unfolding(crate::specs::Stack::effect_of))]
fn effect_of(roles: &Roles, i: Ins) -> Option<Effect>
    requires { Narrow i }
    ensures { result ≡ effect_of i }
{
    let (pops, pushes) = match work_of(i.op) {
        Work::Push => (0, i.x as u8),
        Work::Store if i.x == 0 => (1, 0),
        Work::Plain(pops, pushes) => (u16::from(pops), pushes),
        Work::Build => (i.a, 1),
        Work::Calls if i.a < 256 => (i.a + 1, 1),
        Work::Role if roles::has_role_in(&roles.bytes, i) => (0, 0),
        _ => return None,
    };
    Some(Effect { pops, pushes })
}

// Register f of i at k, if i is a push.
#[tactic(auto, unfolding(crate::specs::Stack::source_of))]
fn source_of(i: Ins, k: usize, f: u8) -> Option<(usize, u16)>
    ensures { result ≡ source_of i k f }
{
    if i.op == PushRegs {
        return Some((k, roles::field_of(i, f)));
    }
    None
}

// The walk's step over i at k, for the value that lies `need` deep after it.
#[tactic(auto, unfolding(crate::specs::Stack::turn_of))]
fn turn_of(roles: &Roles, i: Ins, k: usize, need: usize) -> Turn
    requires { Narrow i × (need ≤ 4294967296) }
    ensures { (result ≡ turn_of i k need) × Grows need result }
{
    let Some(e) = effect_of(roles, i) else {
        return Turn::Ends(None);
    };
    let pushed = usize::from(e.pushes);
    if need <= pushed {
        return Turn::Ends(source_of(i, k, (pushed - need) as u8));
    }
    Turn::Needs(need - pushed + usize::from(e.pops))
}

// The push of the value that lies under n values before j, and its register.
pub fn stack_callee_of(code: &[u16], j: usize, n: u16) -> Option<(usize, u16)>
    requires { Valid code.now × (j < count code.now) }
    ensures { result ≡ stack_callee code.now j n }
{
    let roles = Roles::new();
    let mut need = usize::from(n) + 1;
    for k in (0..j).rev() {
        match turn_of(&roles, code::ins_at(code, k), k, need) {
            Turn::Ends(s) => return s,
            Turn::Needs(m) => need = m,
        }
    }
    None
}

// For the stack call of `count` positionals at a position, the push of its function: refusals 1, 2, 6.
#[tactic(auto, using(crate::proofs::Accepted::accepted), unfolding(crate::specs::Answers::stack_answer))]
pub fn stack_callee(code: &[u16], at: usize, count: u16) -> Answer
    ensures { result ≡ stack_answer code.now at count }
{
    match refusals::inside(code::check(code), at) {
        Err(q) => Answer::from(q),
        Ok(_) => match stack_callee_of(code, at, count) {
            Some((p, r)) => refusals::tell(1, p as u64, u64::from(r), 0),
            None => refusals::tell(0, 0, 0, 0),
        },
    }
}
