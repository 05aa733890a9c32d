// A row of live registers, found from the rows after it and stored, in one word and in several.
#![tactic(auto)]

ghost use Rattle.std.specs.Prelude.{◌≡◌, suc, ◌+◌, ◌*◌, ◌<◌, ◌≤◌, length};
ghost use Rattle.roles.specs.Sets.{only};
ghost use Rattle.flow.specs.Flow.{joined, row_at};
ghost use Rattle.flow.specs.Sweep.{row};
ghost use Rattle.flow.specs.Inner.{Put, Holds};
ghost use Rattle.flow.specs.Words.{rows_of, Small};
ghost use Rattle.steps.specs.Code.{set_of};
ghost use Rattle.steps.specs.Inner.{given_of, after_of, step_flow, calm_step};
ghost use Rattle.rows.specs.Route.{words_for};

use code::Ins;
use sets::Word;
use steps::Step;

// How many sweeps there were: full ones, and ones left because a jump goes to before their start.
#[derive(Clone, Copy)]
pub struct Counts {
    pub full: u32,
    pub abandoned: u32,
}

// Row k, if.
#[inline(always)]
pub fn row_if<W: Word>(t: bool, rows: &[W], k: usize) -> W
    requires { k < length rows.now }
    ensures { W.num result ≡ joined (row (W.nums rows.now)) (only t k) }
{
    if t { rows[k] } else { W::none() }
}

// The rows after a step at k, together.
#[inline(always)]
fn after_word<W: Word>(s: Step, rows: &[W], k: usize) -> W
    requires { (k + 1 < length rows.now) × (s.target < length rows.now) }
    ensures { W.num result ≡ joined (row (W.nums rows.now)) (after_of s k) }
{
    row_if(s.on, rows, k + 1).or(row_if(s.to, rows, s.target))
}

// What a step gives up.
#[inline(always)]
fn given_word<W: Word>(s: Step, regs: usize) -> W
    requires { regs ≤ W.BITS }
    ensures { W.num result ≡ set_of regs (given_of s) }
{
    let named: W = sets::named_word(regs, s.given, s.a, s.b, s.c);
    named.or(sets::run_word(regs, s.b as usize, s.run))
}

// Row k, found from the rows as they are.
#[inline(always)]
pub fn row_word<W: Word>(s: Step, regs: usize, rows: &[W], k: usize) -> W
    requires { (regs ≤ W.BITS) × (k + 1 < length rows.now) × (s.target < length rows.now) }
    ensures { W.num result ≡ row_at (step_flow regs s) (row (W.nums rows.now)) k }
{
    let set = after_word(s, rows, k);
    let gone = given_word(s, regs);
    let used: W = sets::named_word(regs, s.used, s.a, s.b, s.c);
    used.or(set.less(gone))
}

// Row k is found and stored: whether that changed it.
pub fn put_word<W: Word>(s: Step, regs: usize, rows: &mut [W], k: usize) -> bool
    requires { (regs ≤ W.BITS) × (k + 1 < length rows.old) × (s.target < length rows.old) }
    ensures { Put (step_flow regs s) (W.nums rows.old) k (W.nums rows.new) result }
{
    let set = row_word(s, regs, rows, k);
    if rows[k].same(set) {
        return false;
    }
    rows[k] = set;
    true
}

// Row k is found and stored, where an instruction only reads and writes the registers that m tells; most write a and read b and c, which is 13.
pub fn put_calm<W: Word>(i: Ins, m: u8, regs: usize, rows: &mut [W], k: usize) -> bool
    requires { (regs ≤ W.BITS) × (k + 1 < length rows.old) }
    ensures { Put (step_flow regs (calm_step i m)) (W.nums rows.old) k (W.nums rows.new) result }
{
    if m == 13 {
        return put_word(steps::calm(i, 13), regs, rows, k);
    }
    put_word(steps::calm(i, m), regs, rows, k)
}

// The rows after a step at k, together.
fn after_wide<W: Word>(s: Step, rows: &[W], n: usize, words: usize, k: usize) -> W::Set
    requires { (words ≤ W.WORDS) × (k < n) × (s.target ≤ n) × (suc n * words ≤ length rows.now) × Small W.BITS (W.nums rows.now) }
    ensures { Holds W.BITS (W.words_of result) (joined (row (rows_of W.BITS words (suc n) (W.nums rows.now))) (after_of s k)) }
{
    let next = sets::join_if(s.on, W::empty(), rows, k + 1, words);
    sets::join_if(s.to, next, rows, s.target, words)
}

// Row k, found from the rows as they are.
pub fn row_wide<W: Word>(
    s: Step,
    regs: usize,
    rows: &[W],
    n: usize,
    words: usize,
    k: usize,
) -> W::Set
    requires { (regs ≤ 1024) × (words ≤ W.WORDS) × (k < n) × (s.target ≤ n) × (suc n * words ≤ length rows.now) × Small W.BITS (W.nums rows.now) }
    ensures { Holds W.BITS (W.words_of result) (row_at (step_flow regs s) (row (rows_of W.BITS words (suc n) (W.nums rows.now))) k) }
{
    let after = after_wide(s, rows, n, words, k);
    let rest = sets::without_named::<W>(after, regs, s.given, s.a, s.b, s.c);
    let left = sets::without_run::<W>(rest, regs, s.b as usize, s.run);
    sets::with_named::<W>(left, regs, s.used, s.a, s.b, s.c)
}

// Row k is found and stored: whether that changed it.
pub fn put_wide<W: Word>(
    s: Step,
    regs: usize,
    rows: &mut [W],
    n: usize,
    words: usize,
    k: usize,
) -> bool
    requires { (regs ≤ words * W.BITS) × (words ≤ W.WORDS) × (k < n) × (s.target ≤ n) × (suc n * words ≤ length rows.old) }
    ensures { Put (step_flow regs s) (rows_of W.BITS words (suc n) (W.nums rows.old)) k (rows_of W.BITS words (suc n) (W.nums rows.new)) result }
{
    W::bounded(rows);
    let set = row_wide(s, regs, rows, n, words, k);
    sets::store_row(rows, k * words, words, set)
}

// Words of a row.
pub fn words_for<W: Word>(regs: usize) -> usize
    requires { regs ≤ 1024 }
    ensures { result ≡ words_for W.BITS regs }
{
    regs.div_ceil(W::BITS).max(1)
}
