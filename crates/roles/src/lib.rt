// What an instruction does with its fields a, b and c: `kinds`, by the table of all roles (block.rs: `kinds`, `role`).
#![tactic(auto)]

ghost use Rattle.std.specs.Prelude.{◌≡◌, ◌<◌, min};
ghost use Rattle.roles.specs.Kinds.{kinds_of, has_role, is_jump, field_of};
ghost use Rattle.roles.specs.Roles.{role_table};
ghost use Rattle.roles.specs.Inner.{EntrySays};

mod page;

use crate::page::ROLES;
use code::Ins;
use ops::*;

// `role` as bits: a is written, which of a, b, c are read, a is a jump's target; or no role.
pub const DEST: u8 = 1;

// The bit that says 'a is read'.
pub const A: u8 = 2;

// The bit that says 'b is read'.
pub const B: u8 = 4;

// The bit that says 'c is read'.
pub const C: u8 = 8;

// The bit that says 'a is where a jump goes'.
pub const JUMPS: u8 = 16;

// The bit that says 'no role'.
pub const NONE: u8 = 32;

// The table of all roles, which is what it says.
#[derive(Drop)]
pub struct Roles {
    pub bytes: [u8; 1280],
    ghost is: { bytes ≡ role_table },
}

impl Roles {
    // The table, as a value that says so.
    #[tactic(auto, unfolding(crate::specs::Roles::role_table))]
    pub fn new() -> Roles
        ensures { result.bytes ≡ role_table }
    {
        Roles { bytes: ROLES }
    }
}

// The table, for a loop to make once and lend: this toolchain builds a constant anew wherever it is used.
#[tactic(auto, unfolding(crate::specs::Roles::role_table))]
pub fn table() -> [u8; 1280]
    ensures { result ≡ role_table }
{
    ROLES
}

// The column of an x: 4 and more have one.
fn column(x: u16) -> usize
    ensures { result ≡ min x 4 }
{
    if x < 4 { x as usize } else { 4 }
}

// The byte of an opcode and a column.
fn entry(roles: &[u8; 1280], o: u16, x: usize) -> u8
    requires { (roles.now ≡ role_table) × (o < 256) × (x < 5) }
    ensures { EntrySays o x result }
{
    roles[usize::from(o) * 5 + x]
}

// `kinds` of an instruction, by the table that is lent; 4 and more have one column. Beside it Raise, which has no role where its a is not 0.
#[tactic(auto, using(crate::proofs::ByTable::past, crate::proofs::ByTable::raised, crate::proofs::ByTable::other))]
pub fn kinds_in(roles: &[u8; 1280], i: Ins) -> u8
    requires { roles.now ≡ role_table }
    ensures { result ≡ kinds_of i }
{
    if 256 <= i.op {
        return NONE;
    }
    let k = entry(roles, i.op, column(i.x));
    if (i.op == Raise) & (i.a != 0) {
        return NONE;
    }
    k
}

// The same for one who asks once.
#[tactic(auto, unfolding(crate::specs::Roles::role_table))]
pub fn kinds_of(i: Ins) -> u8
    ensures { result ≡ kinds_of i }
{
    kinds_in(&ROLES, i)
}

// Whether an instruction has a role.
#[tactic(auto, unfolding(crate::specs::Kinds::has_role))]
pub fn has_role_in(roles: &[u8; 1280], i: Ins) -> bool
    requires { roles.now ≡ role_table }
    ensures { result ≡ has_role i }
{
    let none = kinds_in(roles, i) / NONE % 2 == 1;
    !none
}

// Whether it has one, and a is a jump's target.
#[tactic(auto, unfolding(crate::specs::Kinds::is_jump))]
pub fn is_jump_in(roles: &[u8; 1280], i: Ins) -> bool
    requires { roles.now ≡ role_table }
    ensures { result ≡ is_jump i }
{
    kinds_in(roles, i) / JUMPS % 4 == 1
}

// Field f of an instruction: a, b, else c.
pub fn field_of(i: Ins, f: u8) -> u16
    ensures { result ≡ field_of i f }
{
    match f {
        0 => i.a,
        1 => i.b,
        _ => i.c,
    }
}

// The opcodes whose registers `role` does not tell.
#[derive(Clone, Copy)]
pub enum Case {
    Store,
    Unpack,
    Enter,
    Exit,
    Judge,
    Step,
    Plain,
}
