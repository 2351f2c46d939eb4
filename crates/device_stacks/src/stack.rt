// Stacks that nothing uses.
ghost use Rattle.std.specs.Prelude.{◌≡◌, ◌≤◌, ◌<◌, ◌+◌, ◌*◌, ◌/◌, ◌++◌, true, false, [], ◌∷◌, length, nat_le, is_some, Some, Ok, Err, MatchResult, IsTrue, OnOk, OnErr, IfErr, IfOk, IfSome};
ghost use Rattle.device.specs.Disk.{disk_contents};
ghost use Rattle.device.specs.Layers.{Dusty, is_loud};
ghost use Rattle.whole_commands.specs.Devices.{sectors_of};
ghost use Rattle.command_semantics.specs.Disks.{alone, failing};
ghost use Rattle.command_semantics.specs.Layers.{layered, under};
ghost use Rattle.command_semantics.specs.Messages.{stack_ticked, told_free};
ghost use Rattle.command_semantics.specs.Lines.{line_in};
ghost use Rattle.command_semantics.specs.Listing.{free_items};
ghost use Rattle.command_semantics.specs.Raw.{loaded_free, raw_in};
ghost use Rattle.command_semantics.specs.Removing.{lowered_device, lowered_to};
ghost use Rattle.layers.specs.Windows.{layers_below};
ghost use Rattle.command_semantics.specs.Stacks.{device_of};
ghost use Rattle.layers.specs.Stack.{stack_layers, stack_size};
ghost use Rattle.sector.specs.declared.refusal.Refusal.TheVariants.{NoMemory};
ghost use Rattle.command_semantics.specs.Changes.{Changes, Steps};
ghost use Rattle.layers.specs.Layer.{dust_layer, flakey_layer};
ghost use Rattle.command_semantics.specs.Places.{depth_in, is_among};

use crate::bottom::disk_in;
use crate::device_names::{depth_in, one_name};
use crate::lines::line_in;
use crate::listing::add_stack;
use crate::sizes::range_in;
use crate::told::tell_stack;
use device::{Block, MemDisk};
use layers::{Answer, Broken, Dust, Flakey, Layered, Message, Stack};
use sector::Refusal;
use std::alloc::{AllocError, Global};
use std::marker::Model;
use std::mem;
use table::Line;
use words::Name;

/// A stack that nothing uses, and the names of its devices from the top.
#[derive(Drop)]
pub struct NamedStack {
    names: Vec<Name>,
    stack: Stack,
    stale: bool,
}

impl Model for NamedStack {
    ghost use Rattle.command_semantics.specs.State.{Stacked};
    ghost use Rattle.command_semantics.specs.Stacks.{device_of};

    ghost Value = { Stacked };

    ghost view = { λ s. record { names = s.names.items; device = device_of s.stack; stale = s.stale } };
}

impl NamedStack {
    /// A disk of this name.
    pub fn of_disk(alloc: Global, name: Name, disk: MemDisk) -> Result<NamedStack, AllocError>
        ensures { IfOk result (λ s. s ≡ alone name (record { bytes = disk_contents disk; layers = [] })) }
    {
        Ok(NamedStack {
            names: one_name(alloc, name)?,
            stack: Stack::Disk(disk),
            stale: false,
        })
    }

    /// An error layer of this name, of so many sectors.
    pub fn of_error(alloc: Global, name: Name, sectors: u32) -> Result<NamedStack, AllocError>
        requires { sectors ≤ 16777216 }
        ensures { IfOk result (λ s. s ≡ alone name (failing sectors)) }
    {
        Ok(NamedStack {
            names: one_name(alloc, name)?,
            stack: Stack::Error(Broken::new(u64::from(sectors))),
            stale: false,
        })
    }

    /// A stack with these names, and with a mark or without.
    pub fn of_parts(names: Vec<Name>, stack: Stack, stale: bool) -> NamedStack
        ensures { result ≡ record { names = names.items; device = device_of stack; stale = stale } }
    {
        NamedStack {
            names,
            stack,
            stale,
        }
    }

    /// The names, the stack and whether there is a mark.
    pub fn into_parts(self) -> (Vec<Name>, Stack, bool)
        ensures { self ≡ record { names = result.0.items; device = device_of result.1; stale = result.2 } }
    {
        let NamedStack {
            names,
            stack,
            stale,
        } = self;
        (names, stack, stale)
    }

    /// The names of its devices, from the top.
    pub fn names(&self) -> &[Name]
        ensures { result.now ≡ self.now.names }
    {
        &self.names
    }

    /// Its layers, and the disk below them.
    pub fn stack(&self) -> &Stack
        ensures { device_of result.now ≡ self.now.device }
    {
        &self.stack
    }

    /// Whether no layer drops writes.
    pub fn is_loud(&self) -> bool
        ensures { result ≡ is_loud self.now.device.layers }
    {
        self.stack.is_loud()
    }

    /// How deep a name stands.
    pub fn depth(&self, name: &Name) -> Option<usize>
        ensures depth { result ≡ depth_in name.now self.now.names }
        ensures within { IfSome result (λ depth. depth < length self.now.names) }
    {
        depth_in(&self.names, name)
    }

    /// Whether one of its devices has a name.
    pub fn has(&self, name: &Name) -> bool
        ensures { result ≡ is_among name.now self.now.names }
    {
        self.depth(name).is_some()
    }

    /// How many devices it has.
    pub fn devices(&self) -> usize
        ensures { result ≡ length self.now.names }
    {
        self.names.len()
    }

    /// How many sectors its top has.
    pub fn sectors(&self) -> u64
        ensures value { result ≡ sectors_of self.now.device }
        ensures whole { length self.now.device.bytes ≡ 512 * result }
        ensures small { result ≤ 16777216 }
    {
        self.stack.sectors()
    }

    /// Puts a flakey layer on top. In this order: `BadTable` where its sectors don't lie inside what is below, `NoMemory`
    /// where the allocator refuses room.
    pub fn add_flakey(&mut self, alloc: Global, name: Name, flakey: Flakey) -> Result<(), Refusal>
        ensures { Changes result self.old self.new (layered name (flakey_layer flakey) flakey.offset flakey.sectors self.old) }
    {
        if !holds(&self.stack, flakey.offset, flakey.sectors) {
            return Err(Refusal::BadTable);
        }
        self.names.reserve(1).map_err(|_| Refusal::NoMemory)?;
        cover_flakey(alloc, &mut self.stack, flakey)?;
        self.names.insert(0, name).unwrap();
        Ok(())
    }

    /// Puts a dust layer of so many sectors on top, with blocks of so many bytes. In this order: `BadTable` where what is
    /// below is smaller, `NoMemory` where the allocator refuses room.
    pub fn add_dust(
        &mut self,
        alloc: Global,
        name: Name,
        sectors: u32,
        block: u32,
    ) -> Result<(), Refusal>
        requires { 0 < block }
        ensures { Changes result self.old self.new (layered name (Dusty sectors block false []) 0 sectors self.old) }
    {
        if !holds(&self.stack, 0, u64::from(sectors)) {
            return Err(Refusal::BadTable);
        }
        self.names.reserve(1).map_err(|_| Refusal::NoMemory)?;
        cover_dust(
            alloc,
            &mut self.stack,
            Dust::new(alloc, u64::from(sectors), block),
        )?;
        self.names.insert(0, name).unwrap();
        Ok(())
    }

    /// Tells the layer so deep from the top. In this order: `BadTable` where that is no dust layer, `OutOfRange` for a block
    /// past its end, `NoMemory` where a block is added and the allocator refuses room.
    #[tactic(auto, unfolding(command_semantics::specs::Messages::told_free))]
    pub fn tell(&mut self, depth: usize, message: &Message) -> Result<Answer, Refusal>
        ensures { Steps result self.old self.new (told_free depth message.now self.old) }
    {
        tell_stack(&mut self.stack, depth, message)
    }

    /// Lets so many seconds pass.
    pub fn tick(&mut self, seconds: u32)
        ensures { self.new ≡ stack_ticked seconds self.old }
    {
        self.stack.tick(seconds);
    }

    /// The disk at a depth. `BadTable` for another device.
    pub fn disk(&self, depth: usize) -> Result<&MemDisk, Refusal>
        requires { depth < length self.now.names }
        ensures { MatchResult result (λ disk. raw_in depth self.now.names self.now.device ≡ Ok (disk_contents disk.now)) (λ e. raw_in depth self.now.names self.now.device ≡ Err e) }
    {
        disk_in(depth, &self.names, &self.stack)
    }

    /// The table line of the device at a depth. `BadTable` for a disk.
    pub fn line(&self, depth: usize) -> Result<Line, Refusal>
        requires { depth < length self.now.names }
        ensures { result ≡ line_in depth self.now.names self.now.device }
    {
        line_in(depth, &self.names, &self.stack)
    }

    /// Adds its devices to a list of devices, from the top. The one error is `NoMemory`.
    pub fn list(&self, out: &mut Vec<u8>) -> Result<(), Refusal>
        ensures added { OnOk result (out.new.items ≡ out.old.items ++ free_items self.now) }
        ensures error { IfErr result (λ e. e ≡ NoMemory) }
    {
        add_stack(out, &self.names, &self.stack)
    }

    /// Writes raw sectors of the disk at a depth, which then count as flushed. In this order: `BadTable` for another
    /// device, `OutOfRange` where they don't lie inside it, `Busy` where a layer stands on it.
    #[tactic(auto, using(device::specs::Laws::disk_whole), unfolding(command_semantics::specs::Raw::loaded_free))]
    pub fn load(
        &mut self,
        depth: usize,
        first: u32,
        count: u32,
        bytes: &[u8],
    ) -> Result<(), Refusal>
        requires place { depth < length self.old.names }
        requires room { length bytes.now ≡ 512 * count }
        ensures { Changes result self.old self.new (loaded_free depth first count bytes.now self.old) }
    {
        let size = disk_in(depth, &self.names, &self.stack)?.sectors();
        let range = range_in(size, first, count)?;
        let Stack::Disk(disk) = &mut self.stack else {
            return Err(Refusal::Busy);
        };
        disk.load(range, bytes);
        if first == 0 {
            self.stale = false;
        }
        Ok(())
    }

    /// Whether a layer stands on another device.
    #[tactic(auto, using(crate::proofs::Below::has_below))]
    pub fn is_layered(&self) -> bool
        ensures { result ≡ is_some (layers_below self.now.device.layers) }
    {
        matches!(self.stack, Stack::Flakey(_, _) | Stack::Dust(_, _))
    }

    /// Takes the top layer away.
    pub fn uncover(&mut self)
        requires named { 0 < length self.old.names }
        requires layered { is_some (layers_below self.old.device.layers) ≡ true }
        ensures { lowered_to self.old ≡ Some self.new }
    {
        drop(self.names.remove(0));
        lower(&mut self.stack);
    }
}

/// Whether a stack has so many sectors from one on.
#[tactic(auto, using(crate::proofs::StackSizes::size_of, crate::proofs::StackSizes::small))]
fn holds(stack: &Stack, first: u64, count: u64) -> bool
    ensures value { result ≡ nat_le (first + count) (sectors_of (device_of stack.now)) }
    ensures inside { IsTrue result → first + count ≤ stack_size stack.now }
    ensures small { IsTrue result → count ≤ 16777216 }
{
    let size = stack.sectors();
    first <= size && count <= size - first
}

/// Puts a flakey layer over a stack, which stays as it is where the allocator refuses room.
fn cover_flakey(alloc: Global, stack: &mut Stack, flakey: Flakey) -> Result<(), Refusal>
    requires { flakey.offset + flakey.sectors ≤ stack_size stack.old }
    ensures ok { OnOk result (device_of stack.new ≡ under (flakey_layer flakey) flakey.offset flakey.sectors (device_of stack.old)) }
    ensures err { IfErr result (λ e. e ≡ NoMemory) }
    ensures same { OnErr result (stack.new ≡ stack.old) }
{
    let below = mem::replace(stack, Stack::Error(Broken::new(0)));
    match below.under_flakey(alloc, flakey) {
        Ok(covered) => {
            *stack = covered;
            Ok(())
        }
        Err((refusal, below)) => {
            *stack = below;
            Err(refusal)
        }
    }
}

/// Puts a dust layer over a stack, which stays as it is where the allocator refuses room.
fn cover_dust(alloc: Global, stack: &mut Stack, dust: Dust) -> Result<(), Refusal>
    requires { dust.sectors ≤ stack_size stack.old }
    ensures ok { OnOk result (device_of stack.new ≡ under (dust_layer dust) 0 dust.sectors (device_of stack.old)) }
    ensures err { IfErr result (λ e. e ≡ NoMemory) }
    ensures same { OnErr result (stack.new ≡ stack.old) }
{
    let below = mem::replace(stack, Stack::Error(Broken::new(0)));
    match below.under_dust(alloc, dust) {
        Ok(covered) => {
            *stack = covered;
            Ok(())
        }
        Err((refusal, below)) => {
            *stack = below;
            Err(refusal)
        }
    }
}

/// Takes the top layer of a stack away.
fn lower(stack: &mut Stack)
    requires { is_some (layers_below (stack_layers stack.old)) ≡ true }
    ensures { lowered_device (device_of stack.old) ≡ Some (device_of stack.new) }
{
    let whole = mem::replace(stack, Stack::Error(Broken::new(0)));
    if let Some(below) = whole.into_below() {
        *stack = below;
    }
}
