// Whether code may be laid as a section (block.rs: `pure`, `laid`).
#![tactic(auto)]

ghost use Rattle.std.specs.Prelude.{◌≡◌, ◌<◌, length};
ghost use Rattle.refusals.specs.Answers.{answered, Straight};
ghost use Rattle.code.specs.Inner.{Whole};
ghost use Rattle.laid.specs.Section.{stack_work, jump_fits, plain_fits, yield_fits, fits, laid_at, laid};
ghost use Rattle.laid.specs.Answers.{pure_answer};

use code::Ins;
use ops::*;
use refusals::{Answer, Refusal};
use roles::Roles;

// `pure`: refusals 1, 2.
#[tactic(auto, using(refusals::proofs::Answers::telling), unfolding(crate::specs::Answers::pure_answer))]
pub fn pure(code: &[u16]) -> Result<Answer, Refusal>
    ensures answer { answered result ≡ pure_answer code.now }
    ensures straight { Straight result }
{
    code::check(code)?;
    Ok(refusals::tell(all_laid(code, false).into(), 0, 0, 0))
}

// `stack_work`, even numbers and then odd ones.
fn stack_work(o: u16) -> bool
    ensures { result ≡ stack_work o }
{
    match o {
        StoreName
        | Call
        | PopTop
        | ReturnValue
        | BuildString
        | CallPrint
        | CallLen
        | FormatValue
        | CallAbs
        | Minus
        | CallStr
        | CallInt
        | CallRange
        | Phi
        | CallChr
        | CallType
        | MakeFunction
        | Add
        | Sub
        | Mul
        | Div
        | Eq
        | CallFloat
        | CallBool
        | CallRound
        | CallMin
        | CallMax
        | CallSum
        | CallEnumerate
        | CallZip
        | CallList
        | CallTuple
        | CallDict
        | CallIsInstance
        | CallSet
        | CallInput
        | CallOrd
        | BuildDict
        | BuildList
        | NotEq
        | Lt
        | Gt
        | LtEq
        | GtEq
        | Not
        | GetIter
        | GetItem
        | Mod
        | Pow
        | FloorDiv
        | LoadTrue
        | LoadFalse
        | LoadNone
        | LoadAttr
        | StoreAttr
        | BuildSlice
        | SetupExcept
        | PopExcept
        | Raise
        | BitAnd
        | BitOr
        | BitXor
        | BitNot
        | Shl
        | Shr
        | In
        | NotIn
        | Is
        | IsNot
        | UnpackSequence
        | BuildTuple
        | WithEnter
        | WithExit
        | SetupFinally
        | BeginFinally
        | EndFinally
        | Assert
        | ListAppend
        | SetAdd
        | MapAdd
        | BuildSet
        | LoadEllipsis
        | MakeCoroutine
        | StoreItem
        | Dup2 => true,
        Dup
        | CallMethod
        | CallMethodArgs
        | CallAll
        | CallAny
        | CallBin
        | CallOct
        | CallHex
        | CallDivmod
        | CallPow
        | CallRepr
        | CallReversed
        | PopIter
        | DelItem
        | DelAttr
        | DictUpdate
        | SetUpdate
        | ListExtend
        | MatchSeq
        | InPlaceAdd
        | InPlaceSub
        | WithJudge
        | Swap
        | MatchClass
        | MatchMap
        | PushRegs
        | StoreTopR => true,
        _ => false,
    }
}

// Whether a jump from k to t may stand.
#[tactic(auto, unfolding(crate::specs::Section::jump_fits))]
fn jump_fits(i: Ins, t: Ins, k: usize, n: usize) -> bool
    ensures { result ≡ jump_fits i t k n }
{
    let a = usize::from(i.a);
    let jump = i.op == Jump;
    let back = jump & (i.x == 0) & (a <= k);
    let skip = !jump & (t.op == ForIterR) & (t.x == 0) & (k < usize::from(t.a));
    (k < a) & (a <= n) | back | skip
}

// Whether an instruction with a role, but no jump, may stand.
#[tactic(auto, unfolding(crate::specs::Section::plain_fits))]
fn plain_fits(i: Ins, prev: Ins, s: Ins) -> bool
    ensures { result ≡ plain_fits i prev s }
{
    if code::is_call(i.op) {
        return (s.op == StoreTopR) & (s.x == 0);
    }
    if i.op == ArgsR {
        let wide = prev.marks % 2 == 1;
        return code::is_call(prev.op) & wide;
    }
    true
}

// Whether a generator's body may hold i.
#[tactic(auto, unfolding(crate::specs::Section::yield_fits))]
fn yield_fits(i: Ins, next: Ins) -> bool
    ensures { result ≡ yield_fits i next }
{
    let o = i.op;
    let popped = next.op == PopTop;
    let spreads = matches!(o, BeginArgs | UnpackArgs | CallSpread);
    (o == Yield) & ((i.x == 1) | popped) | spreads | (o == LoadYieldFrom) & popped
}

// Whether i may stand at k of n.
#[tactic(auto, unfolding(crate::specs::Section::fits))]
fn fits(
    roles: &Roles,
    i: Ins,
    prev: Ins,
    next: Ins,
    s: Ins,
    t: Ins,
    k: usize,
    n: usize,
    yields: bool,
) -> bool
    ensures { result ≡ fits i prev next s t k n yields }
{
    if roles::is_jump_in(&roles.bytes, i) {
        return jump_fits(i, t, k, n);
    }
    if roles::has_role_in(&roles.bytes, i) {
        return plain_fits(i, prev, s);
    }
    let work = stack_work(i.op);
    let yielded = yield_fits(i, next);
    work | yields & yielded
}

// Whether the instruction at k may stand in a section; `yields` allows what only a generator's body holds.
#[tactic(auto, unfolding(crate::specs::Section::laid_at))]
fn laid_at(roles: &Roles, code: &[u16], yields: bool, k: usize) -> bool
    requires { Whole code.now × (k < length code.now) }
    ensures { result ≡ laid_at code.now yields k }
{
    let i = code::ins_at(code, k);
    let wide = i.marks % 2 == 1;
    let prev = code::ins_at(code, k.saturating_sub(1));
    let next = code::ins_at(code, k + 1);
    let s = code::ins_at(code, k + 1 + usize::from(wide));
    let t = code::ins_at(code, usize::from(i.a));
    fits(roles, i, prev, next, s, t, k, code.len() / 6, yields)
}

// `laid`.
#[tactic(auto, using(laws::proofs::Every::all), unfolding(crate::specs::Section::laid))]
pub fn all_laid(code: &[u16], yields: bool) -> bool
    requires { Whole code.now }
    ensures { result ≡ laid code.now yields }
{
    let roles = Roles::new();
    let n = code.len() / 6;
    for k in 0..n {
        if !laid_at(&roles, code, yields, k) {
            return false;
        }
    }
    true
}
