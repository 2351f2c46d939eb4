// Numbers in messages.
ghost use Rattle.std.specs.Prelude.{◌≡◌, ◌+◌, ◌≤◌, ◌++◌, length, OnOk};
ghost use Rattle.byteorder.specs.Endian.{big_bytes};
ghost use Rattle.nbd_messages.specs.Layout.{number_at};

use byteorder::{BigEndian, ByteOrder};
use std::alloc::AllocError;

/// The number in the two bytes from one on.
#[tactic(auto, unfolding(crate::specs::Layout::number_at))]
pub fn u16_at(bytes: &[u8], at: usize) -> u16
    requires { at + 2 ≤ length bytes.now }
    ensures { result ≡ number_at bytes.now at 2 }
{
    BigEndian::read_u16(&bytes[at..])
}

/// The number in the four bytes from one on.
#[tactic(auto, unfolding(crate::specs::Layout::number_at))]
pub fn u32_at(bytes: &[u8], at: usize) -> u32
    requires { at + 4 ≤ length bytes.now }
    ensures { result ≡ number_at bytes.now at 4 }
{
    BigEndian::read_u32(&bytes[at..])
}

/// The number in the eight bytes from one on.
#[tactic(auto, unfolding(crate::specs::Layout::number_at))]
pub fn u64_at(bytes: &[u8], at: usize) -> u64
    requires { at + 8 ≤ length bytes.now }
    ensures { result ≡ number_at bytes.now at 8 }
{
    BigEndian::read_u64(&bytes[at..])
}

/// Adds a number of two bytes.
pub fn push_u16(out: &mut Vec<u8>, number: u16) -> Result<(), AllocError>
    ensures { OnOk result (out.new.items ≡ out.old.items ++ big_bytes 2 number) }
{
    let mut bytes = [0u8; 2];
    BigEndian::write_u16(bytes.as_mut_slice(), number);
    out.extend_from_slice(bytes.as_slice())
}

/// Adds a number of four bytes.
pub fn push_u32(out: &mut Vec<u8>, number: u32) -> Result<(), AllocError>
    ensures { OnOk result (out.new.items ≡ out.old.items ++ big_bytes 4 number) }
{
    let mut bytes = [0u8; 4];
    BigEndian::write_u32(bytes.as_mut_slice(), number);
    out.extend_from_slice(bytes.as_slice())
}

/// Adds a number of eight bytes.
pub fn push_u64(out: &mut Vec<u8>, number: u64) -> Result<(), AllocError>
    ensures { OnOk result (out.new.items ≡ out.old.items ++ big_bytes 8 number) }
{
    let mut bytes = [0u8; 8];
    BigEndian::write_u64(bytes.as_mut_slice(), number);
    out.extend_from_slice(bytes.as_slice())
}
