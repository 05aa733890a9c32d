// Lent code: its instructions, its record rules, and refusals 1 and 2.
#![tactic(auto)]

ghost use Rattle.std.specs.Prelude.{◌≡◌, not, ◌+◌, ◌*◌, ◌<◌, length};
ghost use Rattle.code.specs.Ins.{ins_at, count, is_call};
ghost use Rattle.code.specs.Rules.{rules, rule_at};
ghost use Rattle.code.specs.Inner.{has_rule, Whole};
ghost use Rattle.code.specs.Check.{first_bad, check_of, instruction_of};

use ops::*;
use refusals::Refusal;

// One instruction: six words of lent code.
#[derive(Clone, Copy, Default)]
pub struct Ins {
    pub op: u16,
    pub marks: u16,
    pub a: u16,
    pub b: u16,
    pub c: u16,
    pub x: u16,
}

// The instruction at k, which is there.
pub fn ins_in(code: &[u16], k: usize) -> Ins
    requires { 6 * k + 5 < length code.now }
    ensures { result ≡ ins_at code.now k }
{
    let i = 6 * k;
    Ins {
        op: code[i],
        marks: code[i + 1],
        a: code[i + 2],
        b: code[i + 3],
        c: code[i + 4],
        x: code[i + 5],
    }
}

// The instruction at k; past the end, zeros.
pub fn ins_at(code: &[u16], k: usize) -> Ins
    requires { Whole code.now }
    ensures { result ≡ ins_at code.now k }
{
    if k < code.len() / 6 {
        ins_in(code, k)
    } else {
        Ins::default()
    }
}

// One of the four calls.
#[inline(always)]
pub fn is_call(o: u16) -> bool
    ensures { result ≡ is_call o }
{
    matches!(o, CallGlobalR | CallR | CallMethodR | CallSpreadR)
}

// The record rules for i at k, before an instruction with opcode next.
#[tactic(auto, unfolding(crate::specs::Rules::rules))]
fn keeps_rules(i: Ins, k: usize, next: u16) -> bool
    ensures { result ≡ rules i k next }
{
    let o = i.op;
    let x = i.x;
    let b = i.b;
    let wide = i.marks % 2 == 1;
    let marks = (i.marks <= 7) & (!wide | is_call(o));
    let push = (o != PushRegs) | (x <= 3);
    let unpack = (o != UnpackR) | (1 <= x);
    let args = (o != ArgsR) | (k != 0);
    let followed = !wide | (next == ArgsR);
    let enter = (o != WithEnter) | (x == 0) | (b <= 65533);
    let exit = (o != WithExit) | (x == 0) | (b <= 65530);
    (o <= LAST) & marks & (x <= 255) & push & unpack & args & followed & enter & exit
}

// Whether a rule speaks of the opcode by name.
fn has_rule(o: u16) -> bool
    ensures { result ≡ has_rule o }
{
    matches!(
        o,
        CallGlobalR
            | CallR
            | CallMethodR
            | CallSpreadR
            | PushRegs
            | UnpackR
            | ArgsR
            | WithEnter
            | WithExit
    )
}

// Whether the instruction at k breaks a record rule. Most opcodes have no rule of their own: of these the instruction alone is read.
fn breaks(code: &[u16], k: usize) -> bool
    requires { Whole code.now × (k < count code.now) }
    ensures { result ≡ not (rule_at code.now k) }
{
    let i = ins_in(code, k);
    if has_rule(i.op) {
        let next = ins_at(code, k + 1);
        let kept = keeps_rules(i, k, next.op);
        return !kept;
    }
    let kept = (i.op <= LAST) & (i.marks <= 7) & (i.marks % 2 != 1) & (i.x <= 255);
    !kept
}

// The first instruction that breaks a record rule, else how many there are.
#[tactic(auto, using(laws::proofs::Walk::finds))]
fn first_bad(code: &[u16]) -> usize
    requires { Whole code.now }
    ensures { result ≡ first_bad code.now }
{
    let n = code.len() / 6;
    for k in 0..n {
        if breaks(code, k) {
            return k;
        }
    }
    n
}

// Refusals 1 and 2: the test of a whole code.
pub fn check(code: &[u16]) -> Result<usize, Refusal>
    ensures { result ≡ check_of code.now }
{
    let len = code.len();
    let n = len / 6;
    let uneven = (len % 6 != 0) | (65535 < n);
    if uneven {
        return Err(Refusal::Length(len));
    }
    let k = first_bad(code);
    if k < n {
        return Err(Refusal::Record(k));
    }
    Ok(n)
}

// The instruction at a position: refusals 1, 2, 6.
#[tactic(auto, using(refusals::proofs::Stages::onward, refusals::proofs::Answers::passed))]
pub fn instruction(code: &[u16], at: usize) -> Result<Ins, Refusal>
    ensures { result ≡ instruction_of code.now at }
{
    refusals::inside(check(code), at)?;
    Ok(ins_at(code, at))
}
