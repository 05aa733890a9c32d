// The registers that each level keeps where calls may raise later on: rows with the handlers joined, and the lists by them.
#![tactic(auto)]

ghost use Rattle.std.specs.Prelude.{◌≡◌, suc, ◌+◌, ◌*◌, ◌<◌, ◌≤◌, length};
ghost use Rattle.code.specs.Ins.{count};
ghost use Rattle.code.specs.Inner.{Valid};
ghost use Rattle.flow.specs.Sweep.{row, Found};
ghost use Rattle.flow.specs.Inner.{Listing};
ghost use Rattle.flow.specs.Kept.{kept as kept_of};
ghost use Rattle.rows.specs.Route.{words_for, rows_in};
ghost use Rattle.kept.specs.Level.{level_of, kept_at};
ghost use Rattle.kept.specs.Lists.{lists_to};
ghost use Rattle.kept.specs.Inner.{rows_by, LevelsRoom, Filled};
ghost use Rattle.kept.specs.Answers.{stages_of};
ghost use Rattle.nested.specs.Raising.{raising, mays, begins_at};
ghost use Rattle.raises.specs.Inner.{RaisingOutcome};

use kept::KeptAnswer;
use refusals::Refusal;
use rows::Counts;

// The kept registers of every level, for frames whose levels may raise later on, and if asked any instruction.
pub fn kept_raising(
    code: &[u16],
    regs: usize,
    tries: &[u32],
    all: bool,
    rows: &mut [u64],
    offsets: &mut [u32],
    list: &mut [u16],
) -> KeptAnswer
    ensures { RaisingOutcome code.now regs tries.now all rows.old offsets.old list.old
        rows.new offsets.new list.new result }
{
    let v = kept::stages::<u64>(code, regs, tries, rows.len(), offsets.len());
    match v {
        Err(r) => KeptAnswer::No(r),
        Ok(_) => keep_all(code, regs, tries, all, rows, offsets, list),
    }
}

// The rows by the route that the register count asks for.
fn find_raising(code: &[u16], regs: usize, tries: &[u32], rows: &mut [u64], all: bool) -> Counts
    requires { Valid code.now × (regs ≤ 1024) × (length rows.old ≡ suc (count code.now) * words_for 64 regs) }
    ensures { Found (raising (mays all code.now) regs code.now tries.now) (begins_at regs code.now)
        (rows_in 64 regs code.now rows.new) result.full result.abandoned }
{
    if 64 < regs {
        let full = far::live_raising(code, regs, tries, rows, rows::words_for::<u64>(regs), all);
        return Counts { full, abandoned: 0 };
    }
    near::live_near(code, regs, tries, all, rows)
}

// The rows are found; the lists are counted, and written where they fit.
fn keep_all(
    code: &[u16],
    regs: usize,
    tries: &[u32],
    all: bool,
    rows: &mut [u64],
    offsets: &mut [u32],
    list: &mut [u16],
) -> KeptAnswer
    requires { stages_of 64 code.now regs tries.now (length rows.old) (length offsets.old) ≡ Ok (count code.now) }
    ensures { RaisingOutcome code.now regs tries.now all rows.old offsets.old list.old
        rows.new offsets.new list.new result }
{
    let words = rows::words_for::<u64>(regs);
    let need = (code.len() / 6 + 1) * words;
    let found = find_raising(code, regs, tries, &mut rows[..need], all);
    let total = kept::count_all(code, regs, tries, rows, words);
    if list.len() < total {
        return KeptAnswer::No(Refusal::Short {
            buffer: 3,
            needed: total,
        });
    }
    kept::each_call(code, regs, tries, rows, words, offsets, list);
    KeptAnswer::Is(total, found.full, found.abandoned)
}
