// The names of a snapshot and of its store.
ghost use Rattle.std.specs.Prelude.{◌≡◌, ◌<◌, length, slice_get, MatchResult, Ok, Err, IfSome};
ghost use Rattle.std.specs.Option.{option_copied};
ghost use Rattle.std.specs.Str.{bytes_eq};
ghost use Rattle.device.specs.Disk.{disk_contents};
ghost use Rattle.command_semantics.specs.Places.{depth_in};
ghost use Rattle.command_semantics.specs.Lines.{line_in};
ghost use Rattle.command_semantics.specs.Raw.{raw_in};
ghost use Rattle.command_semantics.specs.Stacks.{device_of};

use crate::{depth_in, disk_in, line_in};
use device::MemDisk;
use layers::Stack;
use sector::Refusal;
use std::marker::Model;
use table::Line;
use words::Name;

/// A snapshot's name, those of its store's stack from the top, and whether its line says that the store may overflow.
#[derive(Drop)]
pub struct SnapNames {
    pub snapshot: Name,
    pub store: Vec<Name>,
    pub overflow: bool,
}

impl Model for SnapNames {
    ghost use Rattle.command_semantics.specs.State.{Names};

    ghost Value = { Names };

    ghost view = { λ n. record { snapshot = n.snapshot; store = n.store.items; overflow = n.overflow } };
}

impl SnapNames {
    /// Whether this is the snapshot's name.
    pub fn is_snapshot(&self, name: &Name) -> bool
        ensures { result ≡ bytes_eq self.now.snapshot name.now }
    {
        self.snapshot.is_same(name)
    }

    /// How deep a name stands in the store's stack.
    pub fn depth(&self, name: &Name) -> Option<usize>
        ensures depth { result ≡ depth_in name.now self.now.store }
        ensures within { IfSome result (λ depth. depth < length self.now.store) }
    {
        depth_in(&self.store, name)
    }

    /// How many devices the store's stack has.
    pub fn devices(&self) -> usize
        ensures { result ≡ length self.now.store }
    {
        self.store.len()
    }

    /// The disk so deep in the store, which is this stack. `BadTable` for another device.
    pub fn disk<'a>(&self, depth: usize, store: &'a Stack) -> Result<&'a MemDisk, Refusal>
        requires { depth < length self.now.store }
        ensures { MatchResult result (λ disk. raw_in depth self.now.store (device_of store.now) ≡ Ok (disk_contents disk.now)) (λ e. raw_in depth self.now.store (device_of store.now) ≡ Err e) }
    {
        disk_in(depth, &self.store, store)
    }

    /// The line of the device so deep in the store, which is this stack. `BadTable` for a disk.
    pub fn line(&self, depth: usize, store: &Stack) -> Result<Line, Refusal>
        requires { depth < length self.now.store }
        ensures { result ≡ line_in depth self.now.store (device_of store.now) }
    {
        line_in(depth, &self.store, store)
    }

    /// The name of the top of the store's stack.
    pub fn top(&self) -> Option<&Name>
        ensures { option_copied result ≡ slice_get self.now.store 0 }
    {
        self.store.get(0)
    }
}
