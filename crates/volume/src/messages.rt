// Messages to the layers of a volume's devices.
ghost use Rattle.std.specs.Prelude.{IfOk, IfErr, Option};
ghost use Rattle.layers.specs.Messages.{answer_of};
ghost use Rattle.plain_machine.specs.declared.request.Dev.TheVariants.{Origin, Snap};
ghost use Rattle.volume.specs.DoesMessage.{DoesMessage};
ghost use Rattle.volume.specs.Telling.{IsMergeNotTold, IsMergeTold, IsNotTold, IsTold};
ghost use Rattle.volume.specs.Adding.{AddsMerge, OpensNothing};

use crate::Volume;
use layers::{Answer, Layered, Message};
use merge::Merge;
use plain_machine::{Dev, SnapId};
use sector::Refusal;
use snapshot_list::snap_at;

/// Tells a layer of the merging store, where its snapshot has this number; `NoSuchDevice` where none has.
fn tell_merge<B: Layered>(
    merge: &mut Option<Merge<B>>,
    number: SnapId,
    depth: usize,
    message: &Message,
) -> Result<Answer, Refusal>
    ensures adds { AddsMerge B.may_hold B.contents merge.old merge.new }
    ensures ok { IfOk result (λ answer. IsMergeTold (record { contents = B.contents; durable = B.durable; size = B.size; faults = B.fault_count; done = B.done_count }) B.layers number depth message.now answer merge.old merge.new) }
    ensures err { IfErr result (λ refusal. IsMergeNotTold (record { contents = B.contents; durable = B.durable; size = B.size; faults = B.fault_count; done = B.done_count }) B.layers number depth message.now refusal merge.old merge.new) }
{
    match merge {
        None => Err(Refusal::NoSuchDevice),
        Some(merging) => {
            if merging.number() != number {
                return Err(Refusal::NoSuchDevice);
            }
            merging.message(depth, message)
        }
    }
}

impl<B: Layered> Volume<B> {
    /// Tells a layer of the device under the origin.
    fn tell_origin(&mut self, depth: usize, message: &Message) -> Result<Answer, Refusal>
        ensures ok { IfOk result (λ answer. IsTold (record { contents = B.contents; durable = B.durable; size = B.size; faults = B.fault_count; done = B.done_count }) B.layers Origin depth message.now answer self.old self.new) }
        ensures err { IfErr result (λ refusal. IsNotTold (record { contents = B.contents; durable = B.durable; size = B.size; faults = B.fault_count; done = B.done_count }) B.layers Origin depth message.now refusal self.old self.new) }
        ensures opens { OpensNothing B.may_hold B.size self.old self.new }
    {
        self.origin.message(depth, message)
    }

    /// Tells a layer of a snapshot's store, also of the one that is being merged.
    fn tell_store(
        &mut self,
        number: SnapId,
        depth: usize,
        message: &Message,
    ) -> Result<Answer, Refusal>
        ensures ok { IfOk result (λ answer. IsTold (record { contents = B.contents; durable = B.durable; size = B.size; faults = B.fault_count; done = B.done_count }) B.layers (Snap number) depth message.now answer self.old self.new) }
        ensures err { IfErr result (λ refusal. IsNotTold (record { contents = B.contents; durable = B.durable; size = B.size; faults = B.fault_count; done = B.done_count }) B.layers (Snap number) depth message.now refusal self.old self.new) }
        ensures opens { OpensNothing B.may_hold B.size self.old self.new }
    {
        let Some(k) = snap_at(self.snaps.as_slice(), number) else {
            return tell_merge(&mut self.merge, number, depth, message);
        };
        self.snaps[k].message(depth, message)
    }

    /// Tells the layer at a depth, counted from the top, from 0, of the device under the origin or of a snapshot's store, also
    /// of the one that is being merged. In this order: `NoSuchDevice` where there is no such snapshot, `BadTable` where that is no dust layer or there is none,
    /// `OutOfRange` for a block past its end, `NoMemory` where a block is added and the allocator refuses room. No request,
    /// no copy and no byte changes, and no operation is counted; what is refused changes no layer either. A stop leaves nothing
    /// then but what it might have left before.
    pub fn message(&mut self, dev: Dev, depth: usize, message: &Message) -> Result<Answer, Refusal>
        ensures does { DoesMessage B.may_hold (record { contents = B.contents; durable = B.durable; size = B.size; faults = B.fault_count; done = B.done_count }) B.layers dev depth message.now result self.old self.new }
    {
        match dev {
            Dev::Origin => self.tell_origin(depth, message),
            Dev::Snap(number) => self.tell_store(number, depth, message),
        }
    }
}
