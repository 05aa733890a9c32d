// The registers that each level keeps, as one flat list with offsets (block.rs: `after`, `each_call`, `live_across`).
#![tactic(auto)]

ghost use Rattle.std.specs.Prelude.{◌≡◌, ◌+◌, ◌<◌, ◌≤◌, length};
ghost use Rattle.code.specs.Ins.{count};
ghost use Rattle.flow.specs.Set.{minus};
ghost use Rattle.flow.specs.Sweep.{row};
ghost use Rattle.flow.specs.Inner.{Listing, Holds};
ghost use Rattle.flow.specs.Kept.{kept as kept_of};
ghost use Rattle.kept.specs.Level.{resume_of, result_of, level_of, kept_at};
ghost use Rattle.kept.specs.Lists.{lists_to};
ghost use Rattle.kept.specs.Inner.{rows_by, LevelsRoom, Filled};
ghost use Rattle.kept.specs.Answers.{stages_of, Outcome};

use refusals::Refusal;
use sets::Word;

// The list's length and the counts of full and of abandoned sweeps, or the refusal.
#[derive(Clone, Copy)]
pub enum KeptAnswer {
    Is(usize, u32, u32),
    No(Refusal),
}

// The kept registers of every level: rows in the scratch, the flat list, and where each position's part begins.
pub fn kept<W: Word>(
    code: &[u16],
    regs: usize,
    tries: &[u32],
    wide: bool,
    rows: &mut [W],
    offsets: &mut [u32],
    list: &mut [u16],
) -> KeptAnswer
    ensures { Outcome W.BITS code.now regs tries.now wide (W.nums rows.old) offsets.old list.old
        (W.nums rows.new) offsets.new list.new result }
{
    let v = stages::<W>(code, regs, tries, rows.len(), offsets.len());
    match v {
        Err(r) => KeptAnswer::No(r),
        Ok(_) => keep_all(code, regs, tries, wide, rows, offsets, list),
    }
}

// The resume row of the level at k, less its result register.
pub fn main_row<W: Word>(code: &[u16], regs: usize, rows: &[W], words: usize, k: usize) -> W::Set
    requires { LevelsRoom W.BITS W.WORDS regs code.now words (W.nums rows.now) × (k < count code.now) }
    ensures { Holds W.BITS (W.words_of result) (minus (row (rows_by W.BITS words code.now (W.nums rows.now)) (resume_of code.now k))
        (result_of regs code.now k)) }
{
    let a = steps::after(code, k);
    let whole = sets::join_row(W::empty(), rows, a.at * words, words);
    sets::without_reg::<W>(whole, true, regs, a.result)
}

// How many registers the level at k keeps.
fn count_level<W: Word>(
    code: &[u16],
    regs: usize,
    tries: &[u32],
    rows: &[W],
    words: usize,
    k: usize,
) -> usize
    requires { LevelsRoom W.BITS W.WORDS regs code.now words (W.nums rows.now) × (k < count code.now) }
    ensures { (result ≡ length (kept_of regs (row (rows_by W.BITS words code.now (W.nums rows.now)))
        (level_of regs code.now tries.now k))) × (result ≤ 1024) }
{
    let main = main_row(code, regs, rows, words, k);
    let all = lists::join_tries(main, rows, code.len() / 6, words, k, tries);
    lists::count_set::<W>(all, words)
}

// The registers that the level at k keeps, from m on: the place past the last.
fn keep_level<W: Word>(
    code: &[u16],
    regs: usize,
    tries: &[u32],
    rows: &[W],
    words: usize,
    k: usize,
    out: &mut [u16],
    m: usize,
) -> usize
    requires { LevelsRoom W.BITS W.WORDS regs code.now words (W.nums rows.now) × (k < count code.now)
        × (m + length (kept_of regs (row (rows_by W.BITS words code.now (W.nums rows.now))) (level_of regs code.now tries.now k)) ≤ length out.old) }
    ensures { Listing (kept_of regs (row (rows_by W.BITS words code.now (W.nums rows.now))) (level_of regs code.now tries.now
        k)) out.old m out.new result }
{
    let main = main_row(code, regs, rows, words, k);
    let at = lists::list_set::<W>(main, words, out, m);
    lists::list_tries(main, rows, code.len() / 6, words, k, tries, out, at)
}

// How many registers are kept at k.
fn count_at<W: Word>(
    code: &[u16],
    regs: usize,
    tries: &[u32],
    rows: &[W],
    words: usize,
    k: usize,
) -> usize
    requires { LevelsRoom W.BITS W.WORDS regs code.now words (W.nums rows.now) × (k < count code.now) }
    ensures { (result ≡ length (kept_at regs code.now tries.now (rows_by W.BITS words code.now (W.nums rows.now)) k))
        × (result ≤ 1024) }
{
    if steps::level_at(code::ins_at(code, k)) {
        return count_level(code, regs, tries, rows, words, k);
    }
    0
}

// The registers kept at k, from m on: the place past the last.
fn keep_at<W: Word>(
    code: &[u16],
    regs: usize,
    tries: &[u32],
    rows: &[W],
    words: usize,
    k: usize,
    out: &mut [u16],
    m: usize,
) -> usize
    requires { LevelsRoom W.BITS W.WORDS regs code.now words (W.nums rows.now) × (k < count code.now)
        × (m + length (kept_at regs code.now tries.now (rows_by W.BITS words code.now (W.nums rows.now)) k) ≤ length out.old) }
    ensures { Listing (kept_at regs code.now tries.now (rows_by W.BITS words code.now (W.nums rows.now)) k)
        out.old m out.new result }
{
    if steps::level_at(code::ins_at(code, k)) {
        return keep_level(code, regs, tries, rows, words, k, out, m);
    }
    m
}

// The sum of the list lengths. It is called: put in place, its sum had no register of its own and lay on the stack.
#[inline(never)]
pub fn count_all<W: Word>(
    code: &[u16],
    regs: usize,
    tries: &[u32],
    rows: &[W],
    words: usize,
) -> usize
    requires { LevelsRoom W.BITS W.WORDS regs code.now words (W.nums rows.now) }
    ensures { (result ≡ length (lists_to regs code.now tries.now (rows_by W.BITS words code.now (W.nums rows.now))
        (count code.now))) × (result ≤ 67107840) }
{
    let n = code.len() / 6;
    let mut m = 0;
    for k in 0..n {
        m += count_at(code, regs, tries, rows, words, k);
    }
    m
}

// `each_call`: the list of each position, and where it begins.
pub fn each_call<W: Word>(
    code: &[u16],
    regs: usize,
    tries: &[u32],
    rows: &[W],
    words: usize,
    offsets: &mut [u32],
    list: &mut [u16],
)
    requires { LevelsRoom W.BITS W.WORDS regs code.now words (W.nums rows.now) × (count code.now < length offsets.old)
        × (length (lists_to regs code.now tries.now (rows_by W.BITS words code.now (W.nums rows.now)) (count code.now)) ≤ length list.old)
        × (length (lists_to regs code.now tries.now (rows_by W.BITS words code.now (W.nums rows.now)) (count code.now)) ≤ 67107840) }
    ensures { Filled regs code.now tries.now (rows_by W.BITS words code.now (W.nums rows.now)) offsets.old
        list.old offsets.new list.new }
{
    let n = code.len() / 6;
    let mut m = 0;
    for k in 0..n {
        offsets[k] = m as u32;
        m = keep_at(code, regs, tries, rows, words, k, list, m);
    }
    offsets[n] = m as u32;
}

// The tests of the call's input: refusals 1, 2, 3, 4, then 5 for the scratch and the offsets.
pub fn stages<W: Word>(
    code: &[u16],
    regs: usize,
    tries: &[u32],
    scratch: usize,
    offsets: usize,
) -> Result<usize, Refusal>
    ensures { result ≡ stages_of W.BITS code.now regs tries.now scratch offsets }
{
    let v = refusals::registers(code::check(code), regs);
    let t = refusals::tried(v, tries);
    match t {
        Err(r) => Err(r),
        Ok(n) => {
            let need = (n + 1) * rows::words_for::<W>(regs);
            let u = refusals::room(Ok(n), 1, scratch, need);
            refusals::room(u, 2, offsets, n + 1)
        }
    }
}

// The rows are found; the lists are counted, and written where they fit.
fn keep_all<W: Word>(
    code: &[u16],
    regs: usize,
    tries: &[u32],
    wide: bool,
    rows: &mut [W],
    offsets: &mut [u32],
    list: &mut [u16],
) -> KeptAnswer
    requires { stages_of W.BITS code.now regs tries.now (length (W.nums rows.old)) (length offsets.old) ≡ Ok (count code.now) }
    ensures { Outcome W.BITS code.now regs tries.now wide (W.nums rows.old) offsets.old list.old
        (W.nums rows.new) offsets.new list.new result }
{
    let words = rows::words_for::<W>(regs);
    let need = (code.len() / 6 + 1) * words;
    let found = routes::find_rows(code, regs, wide, &mut rows[..need]);
    W::bounded(rows);
    let total = count_all(code, regs, tries, rows, words);
    if list.len() < total {
        return KeptAnswer::No(Refusal::Short {
            buffer: 3,
            needed: total,
        });
    }
    each_call(code, regs, tries, rows, words, offsets, list);
    KeptAnswer::Is(total, found.full, found.abandoned)
}
