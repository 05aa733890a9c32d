// A frame saver: what a level keeps is put back as its call is left (document 02, wish 4).
#![tactic(auto)]

ghost use Rattle.std.specs.Prelude.{◌≡◌};
ghost use Rattle.saver.specs.Saver.{saver, ends};
ghost use Rattle.leaves.specs.Leaving.{leave_of, back_of, returned, thrown};

use saver::SaverRefusal;

// The call returned: the listed registers are put back, then the result is written.
pub fn leave_by_return(
    head: &mut [u64; 2],
    area: &[u64; 4096],
    file: &mut [u64; 64],
    value: u64,
) -> Result<usize, SaverRefusal>
    ensures { leave_of (saver head.old area.now file.old) (returned value)
        ≡ ends (saver head.new area.now file.new) result }
{
    leave(head, area, file, Some(value))
}

// The call ended by an exception: the listed registers are put back.
pub fn leave_by_exception(
    head: &mut [u64; 2],
    area: &[u64; 4096],
    file: &mut [u64; 64],
) -> Result<usize, SaverRefusal>
    ensures { leave_of (saver head.old area.now file.old) thrown
        ≡ ends (saver head.new area.now file.new) result }
{
    leave(head, area, file, None)
}

// The call ended, with a result or without: the listed registers are put back, then the result is written.
#[inline(always)]
#[tactic(auto, unfolding(crate::specs::Leaving::leave_of, crate::specs::Leaving::left_by))]
fn leave(
    head: &mut [u64; 2],
    area: &[u64; 4096],
    file: &mut [u64; 64],
    value: Option<u64>,
) -> Result<usize, SaverRefusal>
    ensures { leave_of (saver head.old area.now file.old) (back_of value)
        ≡ ends (saver head.new area.now file.new) result }
{
    let regs = head[0] as usize;
    let used = head[1] as usize;
    if 64 < regs {
        return Err(SaverRefusal::Registers(regs));
    }
    let Some(e) = area::top_of(area, used) else {
        return Err(SaverRefusal::Nothing);
    };
    area::put_back(area, e.base, e.len, file, regs);
    if let Some(v) = value {
        area::put_in(file, regs, e.res, v);
    }
    head[1] = e.base as u64;
    Ok(e.base)
}
