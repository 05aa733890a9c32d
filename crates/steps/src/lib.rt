// What a sweep sees of lent code: levels, the registers that a position uses and gives up, and what comes after it (block.rs: `level_at`, `live_rows`).
#![tactic(auto)]

ghost use Rattle.std.specs.Prelude.{◌≡◌, ◌+◌, ◌-◌, ◌*◌, ◌/◌, ◌%◌, ◌<◌, min};
ghost use Rattle.code.specs.Ins.{ins_at, count};
ghost use Rattle.code.specs.Inner.{Whole, Valid};
ghost use Rattle.roles.specs.Kinds.{kinds_of};
ghost use Rattle.steps.specs.Level.{is_level, first_level};
ghost use Rattle.steps.specs.Code.{store_of, over_pending, past_store, idle as idle_at};
ghost use Rattle.steps.specs.Inner.{Goes, TouchesAt, goes_before, StepAt, calm_of, calm_step, turn_step, word_of};

use code::Ins;
use ops::*;
use touch::Touch;

// Where a level goes on, and the register of its result.
#[derive(Clone, Copy)]
pub struct Onward {
    pub at: usize,
    pub result: usize,
}

// No register.
const NONE: usize = 65536;

// An instruction as a sweep sees it: its fields, what it uses and gives up, and whether the row after it and its target's row are read.
#[derive(Clone, Copy)]
pub struct Step {
    pub a: u16,
    pub b: u16,
    pub c: u16,
    pub used: u8,
    pub given: u8,
    pub run: u8,
    pub on: bool,
    pub to: bool,
    pub target: usize,
}

// `level_at`.
#[tactic(auto, unfolding(crate::specs::Level::is_level))]
pub fn level_at(i: Ins) -> bool
    ensures { result ≡ is_level i }
{
    let dunder = i.marks / 2 % 2 == 1;
    matches!(
        i.op,
        CallGlobalR | CallR | CallMethodR | CallSpreadR | JumpIfFalseR | GetAttrR | Call
    ) | dunder
}

// The first level, else how many instructions there are.
#[tactic(auto, using(laws::proofs::Walk::finds), unfolding(crate::specs::Level::first_level))]
pub fn first_level(code: &[u16]) -> usize
    requires { Whole code.now }
    ensures { result ≡ first_level code.now }
{
    let n = code.len() / 6;
    for k in 0..n {
        if level_at(code::ins_at(code, k)) {
            return k;
        }
    }
    n
}

// The place of a call's store.
#[tactic(auto, using(crate::proofs::Follows::wide_store, crate::proofs::Follows::next_store))]
pub fn store_of(code: &[u16], c: usize) -> usize
    requires { Whole code.now × (c < count code.now) }
    ensures { result ≡ store_of code.now c }
{
    let call = code::ins_at(code, c);
    if call.marks % 2 == 1 {
        return c + 2;
    }
    c + 1
}

// `after`.
pub fn after(code: &[u16], k: usize) -> Onward
    requires { Valid code.now × (k < count code.now) }
    ensures { Goes code.now k result.at result.result }
{
    let i = code::ins_at(code, k);
    let o = i.op;
    if o == JumpIfFalseR {
        return Onward {
            at: k,
            result: NONE,
        };
    }
    if o == Call {
        return Onward {
            at: k + 1,
            result: NONE,
        };
    }
    if code::is_call(o) {
        let s = store_of(code, k);
        if s < code.len() / 6 {
            let t = code::ins_at(code, s);
            return Onward {
                at: s,
                result: usize::from(t.a),
            };
        }
        return Onward {
            at: s,
            result: NONE,
        };
    }
    Onward {
        at: k + 1,
        result: usize::from(i.a),
    }
}

// Whether there is a call over a pending value at c.
#[tactic(auto, using(crate::proofs::Follows::none_before, crate::proofs::Follows::no_call, crate::proofs::Follows::one_before))]
fn over_pending(code: &[u16], c: usize) -> bool
    requires { Whole code.now }
    ensures { result ≡ over_pending code.now c }
{
    if c == 0 {
        return false;
    }
    let call = code::ins_at(code, c);
    if code::is_call(call.op) {
        let push = code::ins_at(code, c - 1);
        return (push.op == PushRegs) & (push.x == 1);
    }
    false
}

// Whether k is right after the store of such a call at c.
#[tactic(auto, using(crate::proofs::Follows::store_le, crate::proofs::Follows::past_is, crate::proofs::Follows::not_past))]
fn past_store(code: &[u16], c: usize, k: usize) -> bool
    requires { Whole code.now × (c < count code.now) }
    ensures { result ≡ past_store code.now c k }
{
    if over_pending(code, c) {
        return store_of(code, c) + 1 == k;
    }
    false
}

// Whether the instruction at k, whose opcode is o, pushes or restores a pending value.
#[tactic(auto, using(crate::proofs::Follows::pending))]
fn idle(code: &[u16], k: usize, o: u16) -> bool
    requires { Whole code.now × (k < count code.now) × (o ≡ (ins_at code.now k).op) }
    ensures { result ≡ idle_at code.now k }
{
    if o == PushRegs {
        return over_pending(code, k + 1);
    }
    if matches!(o, StoreTopR | PopTop) {
        return past_store(code, k.saturating_sub(2), k) | past_store(code, k.saturating_sub(3), k);
    }
    false
}

// What the instruction i at k touches; where it pushes or restores a pending value, nothing.
#[tactic(auto, using(crate::proofs::Touched::as_touched))]
fn touch_at(code: &[u16], k: usize, i: Ins, kind: u8) -> Touch
    requires { Whole code.now × (k < count code.now) × (i ≡ ins_at code.now k) × (kind ≡ kinds_of i) }
    ensures { TouchesAt code.now k result }
{
    if idle(code, k, i.op) {
        return touch::NOTHING;
    }
    touch::touch_of(i, kind)
}

// The row of an opcode in the table of roles as one word, a byte for each column: a `match` that the compiler lays down as it is, where a table is made anew.
fn word_of(o: u16) -> u64
    ensures { result ≡ word_of o }
{
    match o {
        Jump | ForIter | JumpIfFalse | JumpIfFalseOrPop | JumpIfTrueOrPop => 0x1010101010,
        JumpIfFalseR => 0x1414141414,
        JumpUnlessLt
        | JumpUnlessLtEq
        | JumpUnlessGt
        | JumpUnlessGtEq
        | JumpUnlessEq
        | JumpUnlessNotEq => 0x1c1c1c1c1c,
        ReturnR | StoreGlobalR | StoreGlobalAtR => 0x0404040404,
        PopTop | CallValueR => 0,
        PushRegs => 0x0e0e060200,
        StoreTopR => 0x2020202001,
        LoadGlobalR | LoadGlobalAtR | UnbindR | UnpackR => 0x0101010101,
        WrapCellR => 0x0303030303,
        Move | MinusR | NotR | LenR | GetAttrR | LoadCellR => 0x0505050505,
        AddR
        | InPlaceAddR
        | SubR
        | InPlaceSubR
        | MulR
        | DivR
        | ModR
        | FloorDivR
        | BitAndR
        | BitOrR
        | BitXorR
        | ShlR
        | ShrR
        | LtR
        | LtEqR
        | GtR
        | GtEqR
        | EqR
        | NotEqR
        | IsR
        | IsNotR
        | PowR
        | InR
        | NotInR
        | GetItemR
        | SuperR => 0x0d0d0d0d0d,
        StoreCellR | SetAttrR | CallSpreadR | ListPushR => 0x0606060606,
        StoreItemR | ArgsR => 0x0e0e0e0e0e,
        CallGlobalR => 0x0c0c0c0400,
        CallR => 0x0e0e0e0602,
        CallMethodR => 0x0c0c0c0c04,
        Raise => 0x2020202000,
        AppendR => 0x0707070707,
        OwnResetR => 0x0202020202,
        ListAppendR | SetAddR | MapAddR => 0x0c0c0c0c0c,
        ForIterR => 0x2020202014,
        Del => 0x0000000001,
        _ => 0x2020202020,
    }
}

// `kinds` of an instruction, by the word of its opcode, where 4 and more have one byte; beside it Raise, which has no role where its a is not 0.
#[tactic(auto, using(crate::proofs::Worded::word_raised, crate::proofs::Worded::word_other))]
fn kinds_by(i: Ins) -> u8
    ensures { result ≡ kinds_of i }
{
    let k = (word_of(i.op) >> (8 * u64::from(i.x.min(4)))) % 256;
    if (i.op == Raise) & (i.a != 0) {
        return roles::NONE;
    }
    k as u8
}

// The step at k, in code of n instructions.
#[tactic(auto, using(crate::proofs::Follows::step_is))]
pub fn step_of(code: &[u16], n: usize, k: usize) -> Step
    requires { Whole code.now × (n ≡ count code.now) × (k < n) }
    ensures { StepAt code.now k result }
{
    let i = code::ins_in(code, k);
    let kind = kinds_by(i);
    let t = touch_at(code, k, i, kind);
    let o = i.op;
    Step {
        a: i.a,
        b: i.b,
        c: i.c,
        used: t.used,
        given: t.given,
        run: t.run,
        on: (o != ReturnR) & (o != Jump),
        to: kind / 16 % 4 == 1,
        target: usize::from(i.a).min(n),
    }
}

// The step of an instruction that only reads and writes the registers that m tells.
pub fn calm(i: Ins, m: u8) -> Step
    ensures { result ≡ calm_step i m }
{
    Step {
        a: i.a,
        b: i.b,
        c: i.c,
        used: m / 2 % 8 * 2,
        given: m % 2 * 2,
        run: 0,
        on: true,
        to: false,
        target: 0,
    }
}

// The step of an instruction of which m tells all.
fn turn(i: Ins, m: u8, n: usize) -> Step
    ensures { result ≡ turn_step i m n }
{
    Step {
        a: i.a,
        b: i.b,
        c: i.c,
        used: m / 2 % 8 * 2,
        given: m % 2 * 2,
        run: 0,
        on: m / 32 % 2 != 1,
        to: m / 16 % 2 == 1,
        target: usize::from(i.a).min(n),
    }
}

// The step at k, where i stands, of which m tells what its opcode does.
pub fn step_with(code: &[u16], n: usize, k: usize, i: Ins, m: u8) -> Step
    requires { Whole code.now × (n ≡ count code.now) × (k < n) × (i ≡ ins_at code.now k) × (m ≡ calm_of i.op) }
    ensures { StepAt code.now k result }
{
    if m < 64 {
        return turn(i, m, n);
    }
    step_of(code, n, k)
}

// Whether a step jumps to before p.
pub fn goes_before(s: Step, p: usize) -> bool
    ensures { result ≡ goes_before s p }
{
    s.to & (s.target < p)
}
