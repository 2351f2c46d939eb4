// What ties the values under locks to what stands beside them.
use std::marker::Brand;

/// Names of a rig: how many volumes it has, and of each by its place the history, the boards, the entries that its journal had when
/// the rig was made, what the rig leaves as it was, and which of its snapshots a seat may merge; and the queue of tickets. Each call of
/// a program picks them.
pub trait Room {
    ghost use Rattle.std.specs.Prelude.{ℕ, Bool, List};
    ghost use Rattle.audited_volume.specs.declared.entry.Entry.{Entry};
    ghost use Rattle.atomic_table.specs.Seated.{TableId};
    ghost use Rattle.thread_channels.specs.BoardPasses.{BoardId};
    ghost use Rattle.thread_channels.specs.Passes.{Queue};
    ghost use Rattle.locked_volume.specs.Fixed.{Fixed};

    ghost volumes: { ℕ };

    ghost history: { ℕ → TableId };

    ghost boards: { ℕ → List BoardId };

    ghost start: { ℕ → List Entry };

    ghost queue: { Queue };

    ghost fixed: { ℕ → Fixed };

    ghost merges: { ℕ → ℕ → Bool };
}

impl Room for Brand {
    ghost use Rattle.std.specs.Prelude.{[], false};
    ghost use Rattle.locked_volume.specs.Names.{no_queue, no_table, nothing_fixed};

    ghost volumes = { 0 };

    ghost history = { λ k. no_table };

    ghost boards = { λ k. [] };

    ghost start = { λ k. [] };

    ghost queue = { no_queue };

    ghost fixed = { λ k. nothing_fixed };

    ghost merges = { λ k number. false };
}
