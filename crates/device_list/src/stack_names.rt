// The names of the stacks of a volume that was stopped, which are left to take.
ghost use Rattle.std.specs.Prelude.{◌≡◌, [], ◌∷◌, IfNone, IfSome};
ghost use Rattle.device_list.specs.Stopping.{names_with};

use device_stacks::SnapNames;
use std::marker::Model;
use words::Name;

/// Takes the names of the stores' first: that of the snapshot that was being merged stands after `before` of the others, or last.
fn take_store(
    before: &mut usize,
    merging: &mut Option<SnapNames>,
    snaps: &mut Vec<SnapNames>,
) -> Option<Vec<Name>>
    ensures some { IfSome result (λ names. names_with before.old merging.old snaps.old.items ≡ names.items ∷ names_with before.new merging.new snaps.new.items) }
    ensures none { IfNone result ((names_with before.old merging.old snaps.old.items ≡ []) × (names_with before.new merging.new snaps.new.items ≡ [])) }
{
    if *before == 0 || snaps.is_empty() {
        match merging.take() {
            Some(names) => return Some(names.store),
            None => {}
        }
    }
    if snaps.is_empty() {
        return None;
    }
    *before = before.saturating_sub(1);
    let SnapNames { store, .. } = snaps.remove(0);
    Some(store)
}

/// Those of the stack under the origin, while it is left, and then of the stores in order of attaching.
#[derive(Drop)]
pub(crate) struct StackNames {
    pub(crate) under: Option<Vec<Name>>,
    pub(crate) before: usize,
    pub(crate) merging: Option<SnapNames>,
    pub(crate) snaps: Vec<SnapNames>,
}

impl Model for StackNames {
    ghost use Rattle.std.specs.Prelude.{List, ℕ};
    ghost use Rattle.std.specs.Option.{option_map};
    ghost use Rattle.device_list.specs.Stopping.{names_left, names_with};

    ghost Value = { List (List (List ℕ)) };

    ghost view = { λ m. names_left (option_map (λ v. v.items) m.under) (names_with m.before m.merging m.snaps.items) };
}

impl StackNames {
    /// Takes the names of the first.
    pub(crate) fn take(&mut self) -> Option<Vec<Name>>
        ensures some { IfSome result (λ names. self.old ≡ names.items ∷ self.new) }
        ensures none { IfNone result ((self.old ≡ []) × (self.new ≡ [])) }
    {
        match self.under.take() {
            Some(names) => Some(names),
            None => take_store(&mut self.before, &mut self.merging, &mut self.snaps),
        }
    }
}
