// A search along paths with marks and a waiting stack, whatever is read, stops it and comes next: its laws, and what waits.
#![tactic(auto)]

ghost use Rattle.std.specs.Prelude.{◌≡◌, ◌+◌, ◌<◌, length};
ghost use mir.Val.{bool_byte};
ghost use Rattle.paths.specs.Inner.{pushed};

// The waiting stack's height with `at` on it, where `yes`.
#[tactic(auto, unfolding(crate::specs::Inner::pushed))]
fn push(todo: &mut [u32], top: usize, at: u32, yes: bool) -> usize
    requires { top < length todo.old }
    ensures { (result ≡ top + bool_byte yes) × (todo.new ≡ pushed todo.old top at yes) }
{
    if yes {
        todo[top] = at;
        return top + 1;
    }
    top
}

// The same with `next`, where `on`, and with `over`, where `to`.
pub fn follow(todo: &mut [u32], top: usize, next: u32, on: bool, over: u32, to: bool) -> usize
    requires { top + 1 < length todo.old }
    ensures { (result ≡ top + bool_byte on + bool_byte to)
        × (todo.new ≡ pushed (pushed todo.old top next on) (top + bool_byte on) over to) }
{
    let one = push(todo, top, next, on);
    push(todo, one, over, to)
}
