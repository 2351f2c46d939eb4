// What the definitions of a session imply.
ghost use Rattle.std.specs.Prelude.{◌≡◌, ℕ, List};
ghost use Rattle.nbd_options.specs.declared.export.Export.{Export as ExportOf};
ghost use Rattle.nbd_options.specs.declared.session.Session.{Session as SessionOf};
ghost use Rattle.nbd_read_session.specs.Blocks.{Array};
ghost use Rattle.nbd_read_session.specs.Talk.{Talk, Turn, HaveMemory, NoneFails};

use crate::Served;

/// What a client sends has one answer, where no read of the arrays may fail and memory is given.
pub fn one_answer<T: Served>(served: &T)
    ensures { (exports : List ExportOf) (arrays : ℕ → Array) (session : SessionOf) (heard said said' : List ℕ) (turns turns' : List Turn) →
        NoneFails (T.may_fail served.now) → Talk exports arrays (T.may_fail served.now) session heard said turns → Talk exports arrays (T.may_fail served.now) session heard said' turns' → HaveMemory turns → HaveMemory turns' → said ≡ said' }
{
    let _served = served;
}
