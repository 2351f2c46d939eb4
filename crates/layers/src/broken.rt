// The error layer.
ghost use Rattle.std.specs.Prelude.{◌≡◌, ◌≤◌};

use device::MAX_SECTORS;

/// An error layer: a device of so many sectors that fails every operation. Nothing is below it.
#[derive(Clone, Copy)]
pub struct Broken {
    /// How many sectors it has.
    pub sectors: u64,
    /// How many operations it answered with a fault, which are all, modulo 2^64.
    pub faults: u64,
    /// How many operations it was asked for, modulo 2^64.
    pub done: u64,
    pub ghost small: { sectors ≤ 16_777_216 },
}

impl Broken {
    /// A device of so many sectors.
    pub fn new(sectors: u64) -> Broken
        requires { sectors ≤ MAX_SECTORS }
        ensures sectors { result.sectors ≡ sectors }
        ensures counts { (result.faults ≡ 0) × (result.done ≡ 0) }
    {
        Broken {
            sectors,
            faults: 0,
            done: 0,
        }
    }
}
