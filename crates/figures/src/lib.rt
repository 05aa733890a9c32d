// A month of scripts in figures: levels, kept registers and the longest list over many bodies (document 02, wish 12).
#![tactic(auto)]

ghost use Rattle.std.specs.Prelude.{◌≡◌, ◌+◌, ◌<◌, length};
ghost use Rattle.code.specs.Ins.{count};
ghost use Rattle.groups.specs.Groups.{figures_of};
ghost use Rattle.offsets.specs.Inner.{Right};
ghost use Rattle.figures.specs.Figures.{levels_to, body_figures, body_of};
ghost use Rattle.figures.specs.Answers.{figures_in, report_written, reports, reported_of, added_of, add_call, join_call};

use groups::{Figures, FiguresRefusal};
use refusals::{Answer, Refusal};

// A body joins the group that the report is of: its levels and kept registers, then sum and levels of the mean.
#[tactic(auto, unfolding(crate::specs::Answers::add_call))]
pub fn add(code: &[u16], offsets: &[u32], list: &[u16], report: &mut [u64; 7]) -> Answer
    ensures { add_call code.now offsets.now (length list.now) report.old ≡ reports report.new result }
{
    added(report, body(code, offsets, list))
}

// Two groups as one, `report` the earlier: sum and levels of the mean.
#[tactic(auto, unfolding(crate::specs::Answers::join_call))]
pub fn join(later: &[u64; 7], report: &mut [u64; 7]) -> Answer
    ensures { join_call later.now report.old ≡ reports report.new result }
{
    let f = figures_in(report);
    let g = figures_in(later);
    reported(report, 0, 0, groups::sums(f, g))
}

// The figures in a report's words.
fn figures_in(report: &[u64; 7]) -> Figures
    ensures { result ≡ figures_in report.now }
{
    let [bodies, levels, kept, longest, found, body, at] = *report;
    Figures {
        bodies,
        levels,
        kept,
        longest,
        found: found != 0,
        body,
        at,
    }
}

// Figures as a report's words.
fn write(report: &mut [u64; 7], f: Figures)
    ensures { report.new ≡ report_written f report.old }
{
    *report = [
        f.bodies,
        f.levels,
        f.kept,
        f.longest,
        u64::from(f.found),
        f.body,
        f.at,
    ];
}

// New figures are written and told; a refusal writes nothing.
#[tactic(auto, unfolding(crate::specs::Answers::reported_of))]
fn reported(
    report: &mut [u64; 7],
    levels: u64,
    kept: u64,
    a: Result<Figures, FiguresRefusal>,
) -> Answer
    ensures { reported_of levels kept report.old a ≡ reports report.new result }
{
    match a {
        Ok(f) => {
            write(report, f);
            refusals::tell(levels, kept, f.kept, f.levels)
        }
        Err(r) => Answer::from(r),
    }
}

// A body's own figures join the report's.
#[tactic(auto, unfolding(crate::specs::Answers::added_of))]
fn added(report: &mut [u64; 7], a: Result<Figures, FiguresRefusal>) -> Answer
    ensures { added_of report.old a ≡ reports report.new result }
{
    match a {
        Ok(g) => {
            let f = figures_in(report);
            reported(report, g.levels, g.kept, groups::sums(f, g))
        }
        Err(r) => Answer::from(r),
    }
}

// One body's own figures, given with its answer from the kept-register call.
#[tactic(auto, using(crate::proofs::Calls::bodies), unfolding(crate::specs::Figures::body_of))]
fn body(code: &[u16], offsets: &[u32], list: &[u16]) -> Result<Figures, FiguresRefusal>
    ensures { result ≡ body_of code.now offsets.now (length list.now) }
{
    let n = code::check(code)?;
    if offsets.len() < n + 1 {
        return Err(FiguresRefusal::Call(Refusal::Short {
            buffer: 1,
            needed: n + 1,
        }));
    }
    let k = offsets::first_wrong(code, offsets, list.len());
    if k < n + 1 {
        return Err(FiguresRefusal::Offsets(k));
    }
    Ok(body_figures(code, offsets))
}

// The figures of one body.
#[tactic(auto, using(crate::proofs::Calls::body_start, crate::proofs::Calls::body_end))]
fn body_figures(code: &[u16], offsets: &[u32]) -> Figures
    requires { Right code.now offsets.now }
    ensures { result ≡ body_figures code.now offsets.now }
{
    let mut f = Figures {
        bodies: 0,
        levels: 0,
        kept: 0,
        longest: 0,
        found: false,
        body: 0,
        at: 0,
    };
    for k in 0..code.len() / 6 {
        f = with_place(f, code, offsets, k);
    }
    Figures { bodies: 1, ..f }
}

// A position more: a level with its list, or none.
#[tactic(auto, using(crate::proofs::Calls::places, crate::proofs::Calls::place_room))]
fn with_place(f: Figures, code: &[u16], offsets: &[u32], k: usize) -> Figures
    requires { Right code.now offsets.now × (k < count code.now) × (f ≡ figures_of 0 (levels_to code.now offsets.now k)) }
    ensures { result ≡ figures_of 0 (levels_to code.now offsets.now (k + 1)) }
{
    if !steps::level_at(code::ins_at(code, k)) {
        return f;
    }
    let len = u64::from(offsets[k + 1] - offsets[k]);
    groups::joined(
        f,
        Figures {
            bodies: 0,
            levels: 1,
            kept: len,
            longest: len,
            found: true,
            body: 0,
            at: k as u64,
        },
    )
}
