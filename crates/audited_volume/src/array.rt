// The bytes of a whole device, which a journal writes in place.
ghost use Rattle.std.specs.Prelude.{◌≡◌, ◌+◌, ◌*◌, ◌≤◌, length};
ghost use Rattle.sector.specs.Bytes.{with_sectors};

use sector::{SECTOR_BYTES, Sector};
use std::marker::Model;

/// All bytes of the origin or of a snapshot, 512 for each sector. Contracts see the list of the bytes.
#[derive(Drop)]
pub struct Array {
    bytes: Vec<u8>,
}

impl Model for Array {
    ghost use Rattle.std.specs.Prelude.{ℕ, List};

    ghost Value = { List ℕ };

    ghost view = { λ a. a.bytes.items };
}

/// Copies whole sectors into their place.
#[tactic(auto, using(sector::proofs::Sectors::bytes_after))]
fn write_sectors(all: &mut [u8], first: usize, bytes: &[u8])
    requires { 512 * first + length bytes.now ≤ length all.old }
    ensures { all.new ≡ with_sectors all.old first bytes.now }
{
    let from = first * SECTOR_BYTES;
    all[from..from + bytes.len()].copy_from_slice(bytes);
}

impl Array {
    /// The bytes of a vector, which is not copied.
    pub(crate) fn from_vec(bytes: Vec<u8>) -> Array
        ensures { result ≡ bytes.items }
    {
        Array { bytes }
    }

    pub fn as_slice(&self) -> &[u8]
        ensures { result.now ≡ self.now }
    {
        self.bytes.as_slice()
    }

    /// Puts whole sectors in place from sector `first` on. What does not lie inside is left out.
    pub(crate) fn put(&mut self, first: Sector, bytes: &[u8])
        ensures { 512 * first + length bytes.now ≤ length self.old → self.new ≡ with_sectors self.old first bytes.now }
    {
        let all = self.bytes.as_mut_slice();
        if first > (all.len() / SECTOR_BYTES) as u64 {
            return;
        }
        let first = first as usize;
        if bytes.len() > all.len() - first * SECTOR_BYTES {
            return;
        }
        write_sectors(all, first, bytes);
    }
}
