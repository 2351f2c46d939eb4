// All devices.
ghost use Rattle.std.specs.Prelude.{◌≡◌, [], IfOk};
ghost use Rattle.device_list.specs.Tables.{table_of};

use crate::NamedVolume;
use device_stacks::NamedStack;
use std::alloc::{AllocError, Global};

/// The most devices that there may be.
pub const MOST_DEVICES: usize = 64;

/// All devices: the stacks that nothing uses, and the volumes with those that they use.
#[derive(Drop)]
pub struct Devices {
    pub stacks: Vec<NamedStack>,
    pub volumes: Vec<NamedVolume>,
}

impl Devices {
    /// No devices, and room for all that there may be; a volume has at least two.
    pub fn new(alloc: Global) -> Result<Devices, AllocError>
        ensures { IfOk result (λ held. table_of held ≡ record { stacks = []; volumes = [] }) }
    {
        Ok(Devices {
            stacks: Vec::with_capacity(alloc, MOST_DEVICES)?,
            volumes: Vec::with_capacity(alloc, MOST_DEVICES / 2)?,
        })
    }
}
