// The figures of groups of bodies, and two groups as one (document 02, wish 12).
#![tactic(auto)]

ghost use Rattle.std.specs.Prelude.{◌≡◌};
ghost use Rattle.groups.specs.Groups.{join_of, better_of, sums_of};
ghost use Rattle.groups.specs.Answers.{figures_refused};
ghost use Rattle.groups.specs.Inner.{Sums};
ghost use Rattle.groups.specs.declared.FiguresRefusal.TheVariants.{Call};

use refusals::{Answer, Refusal};

// What is known of a group of bodies: how many, their levels, the registers that these keep, the longest list, and the body and position where
// it first stands. `found` says that there is a level.
#[derive(Clone, Copy)]
pub struct Figures {
    pub bodies: u64,
    pub levels: u64,
    pub kept: u64,
    pub longest: u64,
    pub found: bool,
    pub body: u64,
    pub at: u64,
}

// A total of two groups, by the number that its refusal returns.
#[derive(Clone, Copy)]
pub enum Total {
    Bodies = 1,
    Levels = 2,
    Kept = 3,
    Body = 4,
}

// Why figures are refused: the call's own tests, a place of the offsets, or a total past 64 bits.
#[derive(Clone, Copy)]
pub enum FiguresRefusal {
    Call(Refusal),
    Offsets(usize),
    Over(Total),
}

// A test of the call.
impl From<Refusal> for FiguresRefusal {
    ghost from_gives = { λ r e. e ≡ Call r };

    fn from(r: Refusal) -> FiguresRefusal {
        Self::Call(r)
    }
}

// A refusal by its number and values.
impl From<FiguresRefusal> for Answer {
    ghost from_gives = { λ r a. a ≡ figures_refused r };

    fn from(r: FiguresRefusal) -> Answer {
        match r {
            FiguresRefusal::Call(r) => Answer::from(r),
            FiguresRefusal::Offsets(k) => refusals::refuse(15, k as u64, 0),
            FiguresRefusal::Over(t) => refusals::refuse(13, t as u64, 0),
        }
    }
}

// Two groups as one: the second's body numbers move up by the first's bodies.
#[tactic(auto, using(crate::proofs::Calls::sums_fit), unfolding(crate::specs::Groups::sums_of))]
pub fn sums(f: Figures, g: Figures) -> Result<Figures, FiguresRefusal>
    ensures { result ≡ sums_of f g }
{
    f.bodies
        .checked_add(g.bodies)
        .ok_or(FiguresRefusal::Over(Total::Bodies))?;
    f.levels
        .checked_add(g.levels)
        .ok_or(FiguresRefusal::Over(Total::Levels))?;
    f.kept
        .checked_add(g.kept)
        .ok_or(FiguresRefusal::Over(Total::Kept))?;
    f.bodies
        .checked_add(g.body)
        .ok_or(FiguresRefusal::Over(Total::Body))?;
    Ok(joined(f, g))
}

// The two joined, where no total passes 64 bits.
#[tactic(auto, unfolding(crate::specs::Groups::join_of))]
pub fn joined(f: Figures, g: Figures) -> Figures
    requires { Sums f g }
    ensures { result ≡ join_of f g }
{
    let earlier = Figures {
        bodies: f.bodies + g.bodies,
        levels: f.levels + g.levels,
        kept: f.kept + g.kept,
        found: f.found | g.found,
        ..f
    };
    if better(f, g) {
        return Figures {
            longest: g.longest,
            body: f.bodies + g.body,
            at: g.at,
            ..earlier
        };
    }
    earlier
}

// Whether the second group's longest list is the one to report.
#[tactic(auto, unfolding(crate::specs::Groups::better_of))]
fn better(f: Figures, g: Figures) -> bool
    ensures { result ≡ better_of f g }
{
    g.found & (!f.found | (f.longest < g.longest))
}
