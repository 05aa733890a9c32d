// The exported calls: for Rust and C, each answers one `Answer` by value, 0 and its values or a refusal's number and what it also returns.
#![tactic(auto)]

ghost use Rattle.std.specs.Prelude.{◌≡◌, length};
ghost use Rattle.fields.specs.Answers.{kinds_answer, role_answer, field_answer, writes_answer, touch_answer};
ghost use Rattle.laid.specs.Answers.{pure_answer};
ghost use Rattle.shapes.specs.Answers.{flat_answer, guarded_answer};
ghost use Rattle.sections.specs.Answers.{returns_answer};
ghost use Rattle.params.specs.Answers.{written_answer};
ghost use Rattle.passed.specs.Answers.{passed_answer};
ghost use Rattle.callee.specs.Answers.{global_answer};
ghost use Rattle.pushes.specs.Answers.{push_answer};
ghost use Rattle.stack.specs.Answers.{stack_answer};
ghost use Rattle.surveys.specs.Answers.{Targets};
ghost use Rattle.loops.specs.Answers.{LoopsAround};
ghost use Rattle.unread.specs.Answers.{DeadPhi};
ghost use Rattle.generators.specs.Answers.{GenTold};
ghost use Rattle.needed.specs.Answers.{NeededTold};
ghost use Rattle.answers.specs.Answers.{kept_told as kept_answered, KeptTold, FoldTold, MadeTold, EnterTold, LeaveTold, ReplayTold};
ghost use Rattle.optimizer.specs.Fold.{buffers};
ghost use Rattle.clear.specs.Clear.{pool_buffers as clearable, ClearTold};
ghost use Rattle.levels.specs.Answers.{level_answer};
ghost use Rattle.figures.specs.Answers.{reports, add_call, join_call};
ghost use Rattle.saver.specs.Saver.{saver as words};
ghost use Rattle.leaves.specs.Leaving.{returned, thrown};
ghost use Rattle.answers.specs.Answers.{count_told, RaisingTold, ExposedTold};
ghost use Rattle.refusals.specs.Answers.{answer_of};

use kept::KeptAnswer;
use refusals::{Answer, Refusal};

// The list's length and the two sweep counts.
fn kept_told(k: KeptAnswer) -> Answer
    ensures { result ≡ kept_answered k }
{
    match k {
        KeptAnswer::Is(n, full, abandoned) => refusals::tell(
            n as u64,
            full as u64,
            abandoned as u64,
            0,
        ),
        KeptAnswer::No(r) => Answer::from(r),
    }
}

// The role of an instruction as bits: whether a is written, which fields are read, whether it jumps; 32 alone for none.
#[unsafe(no_mangle)]
pub extern "C" fn turniploom_kinds(code: &[u16], at: usize) -> Answer
    ensures { result ≡ kinds_answer code.now at }
{
    Answer::from(fields::kinds(code, at))
}

// The same told apart: whether it has a role, whether a is written, which fields are read, whether it jumps.
#[unsafe(no_mangle)]
pub extern "C" fn turniploom_role(code: &[u16], at: usize) -> Answer
    ensures { result ≡ role_answer code.now at }
{
    Answer::from(fields::role(code, at))
}

// A field of an instruction: a for 0, b for 1, c for every higher number.
#[unsafe(no_mangle)]
pub extern "C" fn turniploom_field(code: &[u16], at: usize, f: u8) -> Answer
    ensures { result ≡ field_answer code.now at f }
{
    Answer::from(fields::field(code, at, f))
}

// Whether an instruction writes a register.
#[unsafe(no_mangle)]
pub extern "C" fn turniploom_writes(code: &[u16], at: usize, r: u16) -> Answer
    ensures { result ≡ writes_answer code.now at r }
{
    Answer::from(fields::writes(code, at, r))
}

// The fields that an instruction uses, gives up and writes, and how many registers from b on besides.
#[unsafe(no_mangle)]
pub extern "C" fn turniploom_touched(code: &[u16], at: usize) -> Answer
    ensures { result ≡ touch_answer code.now at }
{
    Answer::from(fields::touched(code, at))
}

// Whether a body may be laid as a section.
#[unsafe(no_mangle)]
pub extern "C" fn turniploom_pure(code: &[u16]) -> Answer
    ensures { result ≡ pure_answer code.now }
{
    Answer::from(laid::pure(code))
}

// Whether laid code leaves nothing of its own on the stack.
#[unsafe(no_mangle)]
pub extern "C" fn turniploom_flat(code: &[u16]) -> Answer
    ensures { result ≡ flat_answer code.now }
{
    Answer::from(shapes::flat(code))
}

// Whether code has a try or a with.
#[unsafe(no_mangle)]
pub extern "C" fn turniploom_guarded(code: &[u16]) -> Answer
    ensures { result ≡ guarded_answer code.now }
{
    Answer::from(shapes::guarded(code))
}

// Whether a PushRegs pushes the value that a ReturnValue returns.
#[unsafe(no_mangle)]
pub extern "C" fn turniploom_returns(code: &[u16], at: usize) -> Answer
    ensures { result ≡ returns_answer code.now at }
{
    Answer::from(sections::returns(code, at))
}

// The parameters that some instruction writes, as bits.
#[unsafe(no_mangle)]
pub extern "C" fn turniploom_params_written(code: &[u16], arity: usize) -> Answer
    ensures { result ≡ written_answer code.now arity }
{
    Answer::from(params::params_written(code, arity))
}

// The parameters that a call passes on as they are, as bits.
#[unsafe(no_mangle)]
pub extern "C" fn turniploom_passed(code: &[u16], at: usize, arity: usize) -> Answer
    ensures { result ≡ passed_answer code.now at arity }
{
    Answer::from(passed::passed(code, at, arity))
}

// Whether a generator may be laid as a section.
#[unsafe(no_mangle)]
pub extern "C" fn turniploom_gen_pure(code: &[u16], seen: &mut [u8], todo: &mut [u32]) -> Answer
    ensures { GenTold code.now seen.old todo.old result seen.new todo.new }
{
    Answer::from(generators::gen_pure(code, seen, todo))
}

// Whether what a Phi writes to a register is read on no path.
#[unsafe(no_mangle)]
pub extern "C" fn turniploom_dead_phi(
    code: &[u16],
    at: usize,
    r: u16,
    seen: &mut [u8],
    todo: &mut [u32],
) -> Answer
    ensures { DeadPhi code.now at r seen.old todo.old result seen.new todo.new }
{
    Answer::from(unread::dead_phi(code, at, r, seen, todo))
}

// For each position and the end, how many for loops it lies inside.
#[unsafe(no_mangle)]
pub extern "C" fn turniploom_loops_around(code: &[u16], out: &mut [u32]) -> Answer
    ensures { LoopsAround code.now out.old result out.new }
{
    Answer::from(loops::loops_around(code, out))
}

// For each position and the end, whether a jump or a handler lands there.
#[unsafe(no_mangle)]
pub extern "C" fn turniploom_targets(code: &[u16], tries: &[u32], out: &mut [u8]) -> Answer
    ensures { Targets code.now tries.now out.old result out.new }
{
    Answer::from(surveys::targets(code, tries, out))
}

// The module binding that a call calls, or none.
#[unsafe(no_mangle)]
pub extern "C" fn turniploom_global_of(code: &[u16], at: usize) -> Answer
    ensures { result ≡ global_answer code.now at }
{
    callee::global_of(code, at)
}

// The PushRegs that pushed what a StoreTopR takes back into a register past a call, or none.
#[unsafe(no_mangle)]
pub extern "C" fn turniploom_pushed_back(code: &[u16], at: usize, r: u16) -> Answer
    ensures { result ≡ push_answer code.now at r }
{
    pushes::pushed_back(code, at, r)
}

// The PushRegs that pushed the function of a stack call, and the register, or none.
#[unsafe(no_mangle)]
pub extern "C" fn turniploom_stack_callee(code: &[u16], at: usize, count: u16) -> Answer
    ensures { result ≡ stack_answer code.now at count }
{
    stack::stack_callee(code, at, count)
}

// Whether a register is needed at a position.
#[unsafe(no_mangle)]
pub extern "C" fn turniploom_needed(
    code: &[u16],
    regs: usize,
    at: usize,
    r: u16,
    seen: &mut [u8],
    todo: &mut [u32],
) -> Answer
    ensures { NeededTold code.now regs at r seen.old todo.old result seen.new todo.new }
{
    Answer::from(needed::needed(code, regs, at, r, seen, todo))
}

// The registers that each level keeps, by rows of 64 bits.
#[unsafe(no_mangle)]
pub extern "C" fn turniploom_kept(
    code: &[u16],
    regs: usize,
    tries: &[u32],
    wide: bool,
    rows: &mut [u64],
    offsets: &mut [u32],
    list: &mut [u16],
) -> Answer
    ensures { KeptTold 64 code.now regs tries.now wide rows.old offsets.old list.old
        rows.new offsets.new list.new result }
{
    kept_told(kept::kept(code, regs, tries, wide, rows, offsets, list))
}

// The same by rows of 32 bits.
#[unsafe(no_mangle)]
pub extern "C" fn turniploom_kept32(
    code: &[u16],
    regs: usize,
    tries: &[u32],
    wide: bool,
    rows: &mut [u32],
    offsets: &mut [u32],
    list: &mut [u16],
) -> Answer
    ensures { KeptTold 32 code.now regs tries.now wide rows.old offsets.old list.old
        rows.new offsets.new list.new result }
{
    kept_told(kept::kept(code, regs, tries, wide, rows, offsets, list))
}

// The chunk with its constants folded, every table anew.
#[unsafe(no_mangle)]
pub extern "C" fn turniploom_fold(
    code: &mut [u16],
    kinds: &mut [u8],
    words: &mut [u64],
    constants: usize,
    phi_map: &mut [u32],
    phi_map_count: usize,
    phi_sources: &mut [u16],
    phi_sources_count: usize,
    stmt_pos: &mut [u32],
    stmt_pos_count: usize,
    call_byte_pos: &mut [u32],
    call_byte_pos_count: usize,
    dead: &mut [u8],
    remap: &mut [u32],
    tries: &mut [u32],
    landings: &mut [u64],
    strict: bool,
) -> Answer
    ensures { FoldTold strict (buffers code.old kinds.old words.old phi_map.old
        phi_sources.old stmt_pos.old call_byte_pos.old dead.old remap.old) tries.old
        landings.old (record {
          constants = constants;
          map = phi_map_count;
          sources = phi_sources_count;
          stmts = stmt_pos_count;
          calls =
              call_byte_pos_count;
        }) result (buffers code.new kinds.new words.new phi_map.new phi_sources.new
        stmt_pos.new call_byte_pos.new dead.new remap.new) tries.new landings.new }
{
    folding::fold(
        code,
        kinds,
        words,
        constants,
        phi_map,
        phi_map_count,
        phi_sources,
        phi_sources_count,
        stmt_pos,
        stmt_pos_count,
        call_byte_pos,
        call_byte_pos_count,
        dead,
        remap,
        tries,
        landings,
        strict,
    )
}

// The chunk without the constants that no instruction names.
#[unsafe(no_mangle)]
pub extern "C" fn turniploom_clear(
    code: &mut [u16],
    kinds: &mut [u8],
    words: &mut [u64],
    constants: usize,
    scratch: &mut [u32],
) -> Answer
    ensures { ClearTold (clearable code.old kinds.old words.old scratch.old) constants result
        (clearable code.new kinds.new words.new scratch.new) }
{
    clear::clear(code, kinds, words, constants, scratch)
}

// Where a level goes on, and which register has its result.
#[unsafe(no_mangle)]
pub extern "C" fn turniploom_level(code: &[u16], at: usize) -> Answer
    ensures { result ≡ level_answer code.now at }
{
    levels::level(code, at)
}

// A frame saver for so many registers, with nothing put aside.
#[unsafe(no_mangle)]
pub extern "C" fn turniploom_saver_make(head: &mut [u64; 2], regs: usize) -> Answer
    ensures { MadeTold regs head.old head.new result }
{
    saver::told(saver::make(head, regs))
}

// What a level keeps is put aside as its call is entered.
#[unsafe(no_mangle)]
pub extern "C" fn turniploom_saver_enter(
    head: &mut [u64; 2],
    area: &mut [u64; 4096],
    file: &[u64; 64],
    list: &[u16],
    res: u64,
) -> Answer
    ensures { EnterTold (words head.old area.old file.now) list.now res
        (words head.new area.new file.now) result }
{
    saver::told(saver::enter(head, area, file, list, res))
}

// It is put back as the call returns, and the result written.
#[unsafe(no_mangle)]
pub extern "C" fn turniploom_saver_return(
    head: &mut [u64; 2],
    area: &[u64; 4096],
    file: &mut [u64; 64],
    value: u64,
) -> Answer
    ensures { LeaveTold (words head.old area.now file.old) (returned value)
        (words head.new area.now file.new) result }
{
    saver::told(leaves::leave_by_return(head, area, file, value))
}

// It is put back as the call is left by an exception.
#[unsafe(no_mangle)]
pub extern "C" fn turniploom_saver_exception(
    head: &mut [u64; 2],
    area: &[u64; 4096],
    file: &mut [u64; 64],
) -> Answer
    ensures { LeaveTold (words head.old area.now file.old) thrown
        (words head.new area.now file.new) result }
{
    saver::told(leaves::leave_by_exception(head, area, file))
}

// A body with its kept lists is added to a report.
#[unsafe(no_mangle)]
pub extern "C" fn turniploom_figures_add(
    code: &[u16],
    offsets: &[u32],
    list: &[u16],
    report: &mut [u64; 7],
) -> Answer
    ensures { add_call code.now offsets.now (length list.now) report.old ≡ reports report.new result }
{
    figures::add(code, offsets, list, report)
}

// The report of a later group is joined to an earlier one.
#[unsafe(no_mangle)]
pub extern "C" fn turniploom_figures_join(later: &[u64; 7], report: &mut [u64; 7]) -> Answer
    ensures { join_call later.now report.old ≡ reports report.new result }
{
    figures::join(later, report)
}

// A recorded day is replayed: steps, levels met, reads of each register.
#[unsafe(no_mangle)]
pub extern "C" fn turniploom_replay(
    code: &[u16],
    regs: usize,
    tries: &[u32],
    trace: &[u8],
    reads: &mut [u64],
) -> Answer
    ensures { ReplayTold code.now regs tries.now trace.now reads.old reads.new result }
{
    day::told(day::day(code, regs, tries, trace, reads))
}

// A count, as it is.
fn counted(c: Result<usize, Refusal>) -> Answer
    ensures { result ≡ count_told c }
{
    match c {
        Ok(n) => refusals::tell(n as u64, 0, 0, 0),
        Err(r) => Answer::from(r),
    }
}

// The registers that each level keeps where calls may raise later on; `all`: and any instruction inside a try.
#[unsafe(no_mangle)]
pub extern "C" fn turniploom_kept_raising(
    code: &[u16],
    regs: usize,
    tries: &[u32],
    all: bool,
    rows: &mut [u64],
    offsets: &mut [u32],
    list: &mut [u16],
) -> Answer
    ensures { RaisingTold code.now regs tries.now all rows.old offsets.old list.old
        rows.new offsets.new list.new result }
{
    kept_told(raises::kept_raising(code, regs, tries, all, rows, offsets, list))
}

// The registers of a level's list that its plain list has not.
#[unsafe(no_mangle)]
pub extern "C" fn turniploom_exposed(plain: &[u16], list: &[u16], out: &mut [u16]) -> Answer
    ensures { ExposedTold plain.now list.now out.old out.new result }
{
    counted(exposes::exposed(plain, list, out))
}

// The version of the calls: major, minor and patch, as the header has them. Nothing is lent, and nothing refused.
#[unsafe(no_mangle)]
pub extern "C" fn turniploom_version() -> Answer
    ensures { result ≡ answer_of 0 2 0 0 }
{
    version::version()
}
