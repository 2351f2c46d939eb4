// The exports, and the devices behind them.
ghost use Rattle.std.specs.Prelude.{◌≡◌, ◌∷◌, ◌++◌, ◌≤◌, IfErr, IfOk, OnOk, [], codes, length, map};
ghost use Rattle.std.specs.List.{All};
ghost use Rattle.plain_machine.specs.declared.request.Dev.TheVariants.{Origin, Snap};
ghost use Rattle.serve_options.specs.Exports.{last_part};
ghost use Rattle.serve_files.specs.Names.{IsAbout};
ghost use Rattle.serve_files.specs.Served.{IsServed};

use crate::trouble::{Trouble, Why, pushed};
use nbd_messages::{BlockSizes, WRITE_FLAGS};
use nbd_options::Export;
use plain_machine::{Dev, SnapId};
use serve_options::export_name;
use std::alloc::Global;

/// The lengths of requests: whole sectors, best whole pages, 32 MiB at most.
const BLOCKS: BlockSizes = BlockSizes {
    least: 512,
    best: 4096,
    most: 33_554_432,
};

/// The longest name of a file.
const LONGEST_NAME: usize = 4096;

/// The exports of a session, and at the same places the devices behind them.
#[derive(Drop)]
pub struct Exports<'a> {
    pub named: Vec<Export<'a>>,
    pub devices: Vec<Dev>,
    size: u64,
    ghost served: { All (IsServed size) named.items },
}

/// An export of so many bytes.
fn export<'a>(name: &'a [u8], size: u64) -> Export<'a>
    requires { length name.now ≤ 4096 }
    ensures name { result.name.now ≡ name.now }
    ensures served { IsServed size result }
{
    Export {
        name,
        size,
        flags: WRITE_FLAGS,
        blocks: Some(BLOCKS),
        bitmap: false,
    }
}

impl<'a> Exports<'a> {
    /// The origin's, of so many bytes: `origin`.
    pub fn new(alloc: Global, origin: &'a str, size: u64) -> Result<Exports<'a>, Trouble<'a>>
        ensures size { IfOk result (λ exports. exports.size ≡ size) }
        ensures names { IfOk result (λ exports. map (λ export. export.name.now) exports.named.items ≡ codes "origin" ∷ []) }
        ensures devices { IfOk result (λ exports. exports.devices.items ≡ Origin ∷ []) }
    {
        let mut named = Vec::new(alloc);
        let mut devices = Vec::new(alloc);
        pushed(origin, &mut named, export(b"origin", size))?;
        pushed(origin, &mut devices, Dev::Origin)?;
        Ok(Exports {
            named,
            devices,
            size,
        })
    }

    /// That of a snapshot too: the last part of the name of its store's file. Its device has as many bytes as the origin's.
    pub fn add(&mut self, cow: &'a str, number: SnapId) -> Result<(), Trouble<'a>>
        ensures size { self.new.size ≡ self.old.size }
        ensures names { OnOk result (map (λ export. export.name.now) self.new.named.items ≡ map (λ export. export.name.now) self.old.named.items ++ last_part [] cow.now ∷ []) }
        ensures devices { OnOk result (self.new.devices.items ≡ self.old.devices.items ++ Snap number ∷ []) }
        ensures told { IfErr result (IsAbout cow.now) }
    {
        let name = export_name(cow.as_bytes());
        if LONGEST_NAME < name.len() {
            let why = Why::NoFile;
            return Err(Trouble { name: cow, why });
        }
        pushed(cow, &mut self.named, export(name, self.size))?;
        pushed(cow, &mut self.devices, Dev::Snap(number))
    }
}
