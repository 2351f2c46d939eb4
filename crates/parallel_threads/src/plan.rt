// What ties the tasks of a seat to those that it was given.
use locked_volume::Room;
use std::marker::Brand;

/// The tasks that each seat was given, by its number. Each call of a program picks them.
pub trait Plan: Room {
    ghost use Rattle.std.specs.Prelude.{ℕ, List};
    ghost use Rattle.parallel_threads.specs.declared.task.Task.{Task};

    ghost tasks: { ℕ → List Task };
}

impl Plan for Brand {
    ghost use Rattle.std.specs.Prelude.{[]};

    ghost tasks = { λ number. [] };
}
