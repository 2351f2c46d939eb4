// Two files are synced.
ghost use Rattle.image.specs.Stops.{HasCause};
ghost use Rattle.std.specs.Prelude.{ℕ, List, OnOk};
ghost use Rattle.cow_merge.specs.Holding.{Settles, Stays};

use crate::Stopped;
use crate::copying::{ORIGIN, STORE};
use image::FileSet;

/// Makes all that was written to both files last, the store first.
pub fn settle<F: FileSet>(files: &mut F) -> Result<(), Stopped>
    ensures stays { Stays (F.moment files.old) (F.moment files.new) (F.left_since files.old) (F.left_since files.new) (F.bytes files.old) (F.may_hold files.old) }
    ensures stop { (f s : ℕ) (v : List ℕ) → F.may_hold files.new f s v → F.may_hold files.old f s v }
    ensures settles { OnOk result (F.is_known files.old → Settles (F.is_known files.new) (F.bytes files.old) (F.bytes files.new) (F.may_hold files.old) (F.may_hold files.new) (F.will_last files.old)) }
    ensures cause { HasCause (F.is_known files.old × (F.lacks_memory files.new → ⊥)) (F.fault_count files.old) (F.fault_count files.new) result }
{
    files.sync(STORE)?;
    files.sync(ORIGIN)?;
    Ok(())
}
