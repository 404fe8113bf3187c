// What the scenes at a drive have in common.

ghost use Rattle.std.specs.Prelude.{◌≡◌, IfOk, replicate};
ghost use Rattle.rules.specs.Manager.{fresh};
ghost use Rattle.managers.specs.Tables.{with_values};
ghost use Rattle.telling.specs.Lines.{Tells};
ghost use Rattle.telling.specs.Scenes.{IsIdle, refusal_lines};

use crate::teller::Teller;
use managers::interface::ResourceManager;
use managers::manager::TableManager;
use managers::tables::Tables;
use std::alloc::{AllocError, Global};
use std::fmt::Display;
use std::io;
use std::io::Write;

// The drive of a scene has so many parameters.
const PARAMETERS: usize = 8;

// Room for 32 values for each parameter.
pub const ROOM: usize = 32 * PARAMETERS;

// A drive that nobody has called yet, of the kind that its tables are, and where its calls are told. Its parameters all
// start at one value.
pub fn fresh_teller<T: Tables, V: Copy, W: Drop>(
    alloc: Global,
    out: W,
    starting: V,
) -> Result<Teller<W, TableManager<T, V>>, AllocError>
    ensures fresh { IfOk result (λ t. with_values (T.meaning t.drive.tables) t.drive.memory.items ≡ fresh (replicate 8 starting)) }
    ensures told_there { IfOk result (λ t. t.out ≡ out) }
{
    let memory = vec![in alloc; starting; ROOM]?;
    match TableManager::new(memory, &[starting; PARAMETERS]) {
        Ok(drive) => Ok(Teller { out, drive }),
        // eight parameters have room, as the contract of `new` tells
        Err(_) => unreachable!(),
    }
}

// Calls that no manager takes: there is no job 16 and no parameter 8, and job 15 is not pending.
pub fn refusals<V: Copy + Display, W: Write, M: ResourceManager<Value = V>>(
    teller: &mut Teller<W, M>,
    wanted: V,
) -> io::Result<()>
    ensures changes_nothing { IsIdle (M.meaning teller.old.drive) → M.meaning teller.new.drive ≡ M.meaning teller.old.drive }
    ensures told { IsIdle (M.meaning teller.old.drive) → Tells result (refusal_lines V.output wanted) (W.contents teller.old.out) (W.contents teller.new.out) }
{
    teller.read(16, 5)?;
    teller.write(15, 8, wanted)?;
    teller.vote(15)
}

#[cfg(test)]
mod tests {
    use super::*;
    use managers::locking::LockingManager;
    use std::test::Fail;

    #[test]
    fn a_fresh_drive_tells_its_starting_value(rt: HostRuntime) -> Result<(), Fail> {
        let out: Vec<u8> = Vec::new(rt.alloc());
        let mut teller: Teller<Vec<u8>, LockingManager<i32>> = fresh_teller(rt.alloc(), out, 3)?;
        teller.read(0, 5)?;
        let told = b"job 0 reads parameter 5: value 3\n";
        assert_eq!(rt; teller.out.as_slice(), told.as_slice());
        Ok(())
    }
}
