// Folding: what an operator may fold to. Nothing is written here.
#![tactic(auto, using(operands::proofs::Parts::operand_sound), unfolding(crate::specs::Plan::try_fold_binop, crate::specs::Plan::try_fold_unary))]

ghost use Rattle.std.specs.Prelude.{◌≡◌};
ghost use Rattle.values.specs.Inner.{SoundInt};
ghost use Rattle.fold.specs.Plan.{chunk, kind_of, after, fold_unary, try_fold_binop, try_fold_unary, plan_at};
ghost use Rattle.fold.specs.Inner.{Readable};

use ops::*;
use values::{Op, Val};

// What an opcode folds as.
#[derive(Clone, Copy)]
pub enum Kind {
    Binop(Op),
    Not,
    Minus,
    Other,
}

// A fold that may be made: its result stands at one place, and what is at another dies with the operator.
#[derive(Clone, Copy)]
pub struct Plan {
    pub at: usize,
    pub dies: usize,
    pub value: Val,
}

// A result as a load: its opcode, its operand and the new count of constants.
#[derive(Clone, Copy)]
pub struct Load {
    pub opcode: u16,
    pub operand: u16,
    pub constants: usize,
}

// The fold of the operator at ip, if there is one.
#[tactic(auto, unfolding(crate::specs::Plan::plan_at, crate::specs::Plan::plan_for))]
pub fn plan_at(
    code: &[u16],
    dead: &[u8],
    kinds: &[u8],
    words: &[u64],
    constants: usize,
    last: usize,
    ip: usize,
) -> Option<Plan>
    requires { Readable (chunk code.now dead.now kinds.now words.now constants) ip }
    ensures { result ≡ plan_at (after last) ip (chunk code.now dead.now kinds.now words.now constants) }
{
    let kind = kind_of(chunk::op_at(code, ip));
    match kind {
        Kind::Binop(op) => try_fold_binop(code, dead, kinds, words, constants, last, op, ip),
        Kind::Not => try_fold_unary(code, dead, kinds, words, constants, last, false, ip),
        Kind::Minus => try_fold_unary(code, dead, kinds, words, constants, last, true, ip),
        Kind::Other => None,
    }
}

// What an opcode folds as, if it is an operator.
#[tactic(auto, unfolding(crate::specs::Plan::kind_of, crate::specs::Plan::operator_page))]
fn kind_of(o: u16) -> Kind
    ensures { result ≡ kind_of o }
{
    match o {
        Add => Kind::Binop(Op::Add),
        Sub => Kind::Binop(Op::Sub),
        Mul => Kind::Binop(Op::Mul),
        Div => Kind::Binop(Op::Div),
        Mod => Kind::Binop(Op::Mod),
        FloorDiv => Kind::Binop(Op::FloorDiv),
        Eq => Kind::Binop(Op::Eq),
        NotEq => Kind::Binop(Op::NotEq),
        Lt => Kind::Binop(Op::Lt),
        Gt => Kind::Binop(Op::Gt),
        LtEq => Kind::Binop(Op::LtEq),
        GtEq => Kind::Binop(Op::GtEq),
        BitAnd => Kind::Binop(Op::BitAnd),
        BitOr => Kind::Binop(Op::BitOr),
        BitXor => Kind::Binop(Op::BitXor),
        Shl => Kind::Binop(Op::Shl),
        Shr => Kind::Binop(Op::Shr),
        Not => Kind::Not,
        Minus => Kind::Minus,
        _ => Kind::Other,
    }
}

// What a folding operator of two operands becomes; each missing operand ends the attempt.
fn try_fold_binop(
    code: &[u16],
    dead: &[u8],
    kinds: &[u8],
    words: &[u64],
    constants: usize,
    last: usize,
    op: Op,
    ip: usize,
) -> Option<Plan>
    requires { Readable (chunk code.now dead.now kinds.now words.now constants) ip }
    ensures { result ≡ try_fold_binop (after last) op ip (chunk code.now dead.now kinds.now words.now constants) }
{
    let prev1 = operands::prev_live(dead, ip)?;
    let prev2 = operands::prev_live(dead, prev1)?;
    let a = operands::operand_of(code, kinds, words, constants, prev2)?;
    let b = operands::operand_of(code, kinds, words, constants, prev1)?;
    let result = values::fold_binop(op, a, b)?;
    if operands::blocks(code, last, prev2, ip) {
        return None;
    }
    Some(Plan {
        at: prev2,
        dies: prev1,
        value: result,
    })
}

// The fold of Minus, or of Not, if its operand is a constant, there is a result, and nothing blocks it.
fn try_fold_unary(
    code: &[u16],
    dead: &[u8],
    kinds: &[u8],
    words: &[u64],
    constants: usize,
    last: usize,
    minus: bool,
    ip: usize,
) -> Option<Plan>
    requires { Readable (chunk code.now dead.now kinds.now words.now constants) ip }
    ensures { result ≡ try_fold_unary (after last) minus ip (chunk code.now dead.now kinds.now words.now constants) }
{
    let prev1 = operands::prev_live(dead, ip)?;
    let v = operands::operand_of(code, kinds, words, constants, prev1)?;
    let result = fold_unary(minus, v)?;
    if operands::blocks(code, last, prev1, ip) {
        return None;
    }
    Some(Plan {
        at: prev1,
        dies: ip,
        value: result,
    })
}

// What Minus, or Not, makes of an operand.
#[tactic(auto, unfolding(crate::specs::Plan::fold_unary))]
fn fold_unary(minus: bool, v: Val) -> Option<Val>
    requires { SoundInt v }
    ensures { result ≡ fold_unary minus v }
{
    if minus {
        values::fold_neg(v)
    } else {
        values::fold_not(v)
    }
}
