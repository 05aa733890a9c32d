// A frame saver: what a level keeps is put aside as a call is entered (document 02, wish 4).
#![tactic(auto)]

ghost use Rattle.std.specs.Prelude.{◌≡◌};
ghost use Rattle.saver.specs.Answers.{saver_refused, saver_told};
ghost use Rattle.saver.specs.Saver.{saver, ends, Made, enter_of};

use refusals::Answer;

// Why a call is refused, with what it also returns.
#[derive(Clone, Copy)]
pub enum SaverRefusal {
    Registers(usize),
    Listed(usize),
    Full(usize),
    Nothing,
}

// A refusal by its number and value.
impl From<SaverRefusal> for Answer {
    ghost from_gives = { λ r a. a ≡ saver_refused r };

    fn from(r: SaverRefusal) -> Answer {
        match r {
            SaverRefusal::Registers(n) => refusals::refuse(3, n as u64, 0),
            SaverRefusal::Listed(i) => refusals::refuse(14, i as u64, 0),
            SaverRefusal::Full(n) => refusals::refuse(8, n as u64, 0),
            SaverRefusal::Nothing => refusals::refuse(9, 0, 0),
        }
    }
}

// What an exported call answers: the words of the area in use after it, or why it is refused.
pub fn told(a: Result<usize, SaverRefusal>) -> Answer
    ensures { result ≡ saver_told a }
{
    match a {
        Ok(n) => refusals::tell(n as u64, 0, 0, 0),
        Err(r) => Answer::from(r),
    }
}

// The file's length is fixed; the area is empty.
pub fn make(head: &mut [u64; 2], regs: usize) -> Result<usize, SaverRefusal>
    ensures { Made regs head.old head.new result }
{
    if 64 < regs {
        return Err(SaverRefusal::Registers(regs));
    }
    head[0] = regs as u64;
    head[1] = 0;
    Ok(0)
}

// A call is entered: the listed registers are put aside.
#[tactic(auto, unfolding(crate::specs::Saver::enter_of))]
pub fn enter(
    head: &mut [u64; 2],
    area: &mut [u64; 4096],
    file: &[u64; 64],
    list: &[u16],
    res: u64,
) -> Result<usize, SaverRefusal>
    ensures { enter_of (saver head.old area.old file.now) list.now res
        ≡ ends (saver head.new area.new file.now) result }
{
    let regs = head[0] as usize;
    let used = head[1] as usize;
    if 64 < regs {
        return Err(SaverRefusal::Registers(regs));
    }
    let odd = taken::first_strange(list, regs);
    if odd < list.len() {
        return Err(SaverRefusal::Listed(odd));
    }
    let free = area::free_of(used);
    if free / 2 <= list.len() {
        return Err(SaverRefusal::Full(free));
    }
    let next = area::store(area, used, file, list, res);
    head[1] = next as u64;
    Ok(next)
}
