// The live registers before each instruction, by the word route and the wide route (block.rs: `live_rows`, `live_across`).
#![tactic(auto)]

ghost use Rattle.std.specs.Prelude.{◌≡◌, suc, ◌*◌, ◌≤◌, length};
ghost use Rattle.code.specs.Ins.{count};
ghost use Rattle.code.specs.Inner.{Valid};
ghost use Rattle.flow.specs.Sweep.{Found};
ghost use Rattle.flow.specs.Words.{rows_of};
ghost use Rattle.steps.specs.Level.{first_level};
ghost use Rattle.steps.specs.Code.{flow};
ghost use Rattle.steps.specs.Inner.{calm_of};
ghost use Rattle.rows.specs.Route.{words_for};
ghost use Rattle.rows.specs.Inner.{Rows};

use ops::*;
use rows::Counts;
use sets::Word;

// What the opcode alone tells of a step: the bits of `kinds`, none for no role; 32 more where the
// row after it is not read; 64 where it does not tell all.
#[inline(always)]
pub fn calm_of(o: u16) -> u8
    requires { o ≤ 190 }
    ensures { result ≡ calm_of o }
{
    match o {
        Jump => 48,
        ForIter | JumpIfFalse | JumpIfFalseOrPop | JumpIfTrueOrPop => 16,
        JumpIfFalseR => 20,
        JumpUnlessLt
        | JumpUnlessLtEq
        | JumpUnlessGt
        | JumpUnlessGtEq
        | JumpUnlessEq
        | JumpUnlessNotEq => 28,
        ReturnR => 36,
        StoreGlobalR | StoreGlobalAtR => 4,
        LoadGlobalR | LoadGlobalAtR | UnbindR => 1,
        WrapCellR => 3,
        Move | MinusR | NotR | LenR | GetAttrR | LoadCellR => 5,
        AddR
        | InPlaceAddR
        | SubR
        | InPlaceSubR
        | MulR
        | DivR
        | ModR
        | FloorDivR
        | BitAndR
        | BitOrR
        | BitXorR
        | ShlR
        | ShrR
        | LtR
        | LtEqR
        | GtR
        | GtEqR
        | EqR
        | NotEqR
        | IsR
        | IsNotR
        | PowR
        | InR
        | NotInR
        | GetItemR
        | SuperR => 13,
        StoreCellR | SetAttrR | CallSpreadR | ListPushR => 6,
        StoreItemR | ArgsR => 14,
        AppendR => 7,
        OwnResetR => 2,
        ListAppendR | SetAddR | MapAddR => 12,
        PopTop
        | PushRegs
        | StoreTopR
        | UnpackR
        | CallGlobalR
        | CallR
        | CallMethodR
        | Raise
        | ForIterR
        | Del
        | WithEnter
        | WithExit
        | WithJudge => 64,
        _ => 0,
    }
}

// `live_rows`: the rows from the first level on, for 64 registers at most.
fn live_word<W: Word>(code: &[u16], regs: usize, rows: &mut [W]) -> Counts
    requires { Valid code.now × (regs ≤ W.BITS) × (length rows.old ≡ suc (count code.now)) }
    ensures { Found (flow regs code.now) (first_level code.now) (W.nums rows.new) result.full result.abandoned }
{
    let n = code.len() / 6;
    let mut start = steps::first_level(code);
    let mut full: u32 = 0;
    let mut abandoned: u32 = 0;
    W::clear(rows);
    'again: loop {
        let mut changed = false;
        let mut back = false;
        for k in (start..n).rev() {
            let i = code::ins_in(code, k);
            let m = calm_of(i.op);
            if m < 16 {
                changed = rows::put_calm(i, m, regs, rows, k) | changed;
                continue;
            }
            let step = steps::step_with(code, n, k, i, m);
            if steps::goes_before(step, start) {
                W::clear(rows);
                start = 0;
                abandoned += 1;
                continue 'again;
            }
            changed = rows::put_word(step, regs, rows, k) | changed;
            back = steps::goes_before(step, k + 1) | back;
        }
        full += 1;
        if !(changed & back) {
            return Counts { full, abandoned };
        }
    }
}

// `live_across`: the rows from 0 on, in as many words each as the registers need.
fn live_wide<W: Word>(code: &[u16], regs: usize, rows: &mut [W], words: usize) -> Counts
    requires { Valid code.now × (regs ≤ words * W.BITS) × (words ≤ W.WORDS) × (length rows.old ≡ suc (count code.now) * words) }
    ensures { Found (flow regs code.now) 0 (rows_of W.BITS words (suc (count code.now)) (W.nums rows.new)) result.full result.abandoned }
{
    let n = code.len() / 6;
    let mut full: u32 = 0;
    W::clear(rows);
    loop {
        let mut changed = false;
        let mut back = false;
        for k in (0..n).rev() {
            let s = steps::step_of(code, n, k);
            changed = rows::put_wide(s, regs, rows, n, words, k) | changed;
            back = steps::goes_before(s, k + 1) | back;
        }
        full += 1;
        if !(changed & back) {
            return Counts { full, abandoned: 0 };
        }
    }
}

// The rows by the route that the register count asks for, or the wide one if forced.
pub fn find_rows<W: Word>(code: &[u16], regs: usize, wide: bool, rows: &mut [W]) -> Counts
    requires { Valid code.now × (regs ≤ 1024) × (length rows.old ≡ suc (count code.now) * words_for W.BITS regs) }
    ensures { Rows W.BITS wide regs code.now (W.nums rows.new) result.full result.abandoned }
{
    if wide | (W::BITS < regs) {
        return live_wide(code, regs, rows, rows::words_for::<W>(regs));
    }
    live_word(code, regs, rows)
}
