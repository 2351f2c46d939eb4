// Whether the images that are served are still as they were.
ghost use Rattle.std.specs.Prelude.{◌≡◌, ◌⊎◌, ℕ, ◌+◌, ◌^◌, ◌<◌, length, take, drop, Bool, false, IfOk, IfSome, IsTrue, OnOk, Err};
ghost use Rattle.nbd_read_session.specs.Blocks.{marked_for};
ghost use Rattle.nbd_read_session.specs.declared.served.Fault.{Fault as FaultOf};

use nbd_read_session::{Fault, Marked, Served};

/// What tells whether images are still as they were when their serving began.
pub trait Watch {
    /// Whether they may change.
    ghost may_change: { Self → Type 0 };

    /// Whether it has told that they changed.
    ghost has_told: { Self → Bool };

    /// Looks, and tells whether they have changed. Once they have, it tells so for good.
    fn has_changed(&mut self) -> bool
        ensures told { result ≡ has_told self.new }
        ensures for_good { IsTrue (has_told self.old) → IsTrue result }
        ensures cause { IsTrue result → IsTrue (has_told self.old) ⊎ may_change self.old }
        ensures calm { may_change self.new → may_change self.old };
}

/// Images that do not change, as those in memory.
#[derive(Clone, Copy, Drop)]
pub struct Still;

impl Watch for Still {
    ghost may_change = { λ _. ⊥ };

    ghost has_told = { λ _. false };

    fn has_changed(&mut self) -> bool {
        false
    }
}

/// Arrays that are given only while their images are as they were: each read is followed by a look, and once that tells of a
/// change no read gives bytes any more.
#[derive(Drop)]
pub struct Watched<'s, 'w, S: Served, W: Watch> {
    pub served: &'s mut S,
    pub watch: &'w mut W,
}

impl<S: Served, W: Watch> Served for Watched<'_, '_, S, W> {
    ghost shows = { λ w. S.shows w.served.now };

    ghost may_fail = { λ w k at n. S.may_fail w.served.now k at n ⊎ (IsTrue (W.has_told w.watch.now) ⊎ W.may_change w.watch.now) };

    fn read(&mut self, export: usize, at: u64, out: &mut [u8]) -> Result<(), Fault>
        requires { at + length out.old < 2 ^ 64 }
        ensures data { OnOk result (IfSome (S.shows self.old.served.now export) (λ b. out.new ≡ take (length out.old) (drop at b.bytes))) }
        ensures unchanged { OnOk result (W.has_told self.new.watch.now ≡ false) }
        ensures fails { result ≡ Err Fault.Io → S.may_fail self.old.served.now export at (length out.old) ⊎ (IsTrue (W.has_told self.old.watch.now) ⊎ W.may_change self.old.watch.now) }
        ensures shows { (k : ℕ) → S.shows self.new.served.now k ≡ S.shows self.old.served.now k }
        ensures calm { (k : ℕ) (from : ℕ) (count : ℕ) → S.may_fail self.new.served.now k from count ⊎ (IsTrue (W.has_told self.new.watch.now) ⊎ W.may_change self.new.watch.now) → S.may_fail self.old.served.now k from count ⊎ (IsTrue (W.has_told self.old.watch.now) ⊎ W.may_change self.old.watch.now) }
    {
        match self.served.read(export, at, out) {
            Ok(()) => {}
            Err(fault) => return Err(fault),
        }
        if self.watch.has_changed() {
            return Err(Fault::Io);
        }
        Ok(())
    }

    fn marks(&mut self, export: usize, at: u64, most: u32) -> Result<Marked, Fault>
        requires { at + most < 2 ^ 64 }
        ensures data { IfOk result (λ told. IfSome (S.shows self.old.served.now export) (λ b. (told.marked ≡ b.marks at) × (told.len ≡ marked_for b.marks (b.marks at) most at))) }
        ensures unchanged { OnOk result (W.has_told self.new.watch.now ≡ false) }
        ensures fails { result ≡ Err Fault.Io → S.may_fail self.old.served.now export at most ⊎ (IsTrue (W.has_told self.old.watch.now) ⊎ W.may_change self.old.watch.now) }
        ensures shows { (k : ℕ) → S.shows self.new.served.now k ≡ S.shows self.old.served.now k }
        ensures calm { (k : ℕ) (from : ℕ) (count : ℕ) → S.may_fail self.new.served.now k from count ⊎ (IsTrue (W.has_told self.new.watch.now) ⊎ W.may_change self.new.watch.now) → S.may_fail self.old.served.now k from count ⊎ (IsTrue (W.has_told self.old.watch.now) ⊎ W.may_change self.old.watch.now) }
    {
        let told = match self.served.marks(export, at, most) {
            Ok(told) => told,
            Err(fault) => return Err(fault),
        };
        if self.watch.has_changed() {
            return Err(Fault::Io);
        }
        Ok(told)
    }
}
