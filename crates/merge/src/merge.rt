// A merge, its beginning and its end, and what callers ask of its store.
ghost use Rattle.std.specs.Prelude.{◌≡◌, ℕ, ◌*◌, ◌<◌, ◌≤◌, length, None, true, false};
ghost use Rattle.chunk.specs.Sizes.{is_chunk};
ghost use Rattle.cow_format.specs.Picture.{place_of as place_in};
ghost use Rattle.store.specs.declared.state.Left.TheVariants.{Nothing};
ghost use Rattle.store.specs.Held.{committed, pending as pending_of};
ghost use Rattle.merge.specs.Devices.{HasAllocated, StaysInStep};
ghost use Rattle.store.specs.Usage.{HasMetadata};

use crate::Group;
use chunk_alloc::Usage;
use device::Block;
use plain_machine::SnapId;
use sector::Chunk;
use std::marker::Model;
use store::Store;

/// A store that is being merged into its origin. Contracts see the number of its snapshot, the device of its store with the
/// store's state, its pairs, the present group, the buffer, and whether it failed.
#[derive(Drop)]
pub struct Merge<B: Block> {
    pub(crate) number: SnapId,
    pub(crate) store: Store<B>,
    pub(crate) group: Option<Group>,
    /// A chunk of room.
    pub(crate) buffer: Vec<u8>,
    /// One of its operations was answered by a fault, and it was not resumed.
    pub(crate) failed: bool,
}

impl<B: Block> Model for Merge<B> {
    ghost use Rattle.merge.specs.Merging.{Merging};

    ghost Value = { Merging B };

    ghost use Rattle.std.specs.Prelude.{length};
    ghost use Rattle.store.specs.Held.{committed, pending};
    ghost use Rattle.merge.specs.Held.{IsMerging};

    ghost view = { λ m. record { number = m.number; device = m.store.device; state = m.store.state; next = m.store.places.next; pairs = committed m.store.exceptions; group = m.group; buffer = m.buffer.items; failed = m.failed } };

    ghost invariant = { λ m. IsMerging m.store.state (length (pending m.store.exceptions)) (committed m.store.exceptions) m.group m.buffer.items m.failed };
}

impl<B: Block> Merge<B> {
    /// Begins the merge of a snapshot's store, which the load's writes have left ready, which was not marked invalid, and
    /// which has no copies under way. The buffer is a chunk of room; no memory is taken.
    pub fn begin(number: SnapId, store: Store<B>, buffer: Vec<u8>) -> Merge<B>
        requires allowed { is_chunk store.state.chunk ≡ true }
        requires ready { store.state.left ≡ Nothing }
        requires valid { store.state.valid ≡ true }
        requires idle { length (pending_of store.exceptions) ≡ 0 }
        requires room { length buffer.items ≡ 512 * store.state.chunk }
        ensures begun { result ≡ record { number = number; device = store.device; state = store.state; next = store.places.next; pairs = committed store.exceptions; group = None; buffer = buffer.items; failed = false } }
    {
        Merge {
            number,
            store,
            group: None,
            buffer,
            failed: false,
        }
    }

    /// A look at its store, which does nothing: store and merge are in step, after every call. Its pairs are such as a load
    /// accepts; where its layers drop no writes, its bytes hold those pairs and a good header with its chunk size.
    pub fn look_at_store(&self)
        ensures in_step { StaysInStep B.Block self.now }
    {
        let _ = &self.store;
    }

    /// Gives the device of the store back, as it is.
    pub fn into_device(self) -> B
        ensures { result ≡ self.device }
    {
        let Merge {
            number: _,
            store,
            group: _,
            buffer: _,
            failed: _,
        } = self;
        store.into_device()
    }

    /// The number of its snapshot.
    pub fn number(&self) -> SnapId
        ensures { result ≡ self.now.number }
    {
        self.number
    }

    /// How many pairs it has left.
    pub fn len(&self) -> usize
        ensures { result ≡ length self.now.pairs }
    {
        self.store.len()
    }

    /// The sectors of a chunk.
    pub fn chunk(&self) -> u32
        ensures is { result ≡ self.now.state.chunk }
        ensures allowed { is_chunk result ≡ true }
    {
        self.store.chunk()
    }

    /// The sectors of the origin.
    pub fn sectors(&self) -> u64
        ensures { result ≡ self.now.state.origin }
    {
        self.store.state.origin
    }

    /// The device of its store.
    pub fn device(&self) -> &B
        ensures { result.now ≡ self.now.device }
    {
        self.store.device()
    }

    /// The numbers of a status line, in sectors.
    pub fn usage(&self) -> Usage
        ensures allocated { HasAllocated result self.now }
        ensures total { result.total ≡ self.now.state.size }
        ensures metadata { HasMetadata result self.now.state }
    {
        self.store.usage()
    }

    /// The chunk of the store with the copy of a chunk of the origin.
    pub fn place_of(&self, chunk: Chunk) -> Option<Chunk>
        ensures { result ≡ place_in self.now.pairs chunk }
    {
        self.store.get(chunk)
    }
}
