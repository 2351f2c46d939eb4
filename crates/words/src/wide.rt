// Where a byte stands first, looked for 16 bytes at a time.
ghost use Rattle.std.specs.Prelude.{◌≡◌, ◌+◌, ◌<◌, ◌≤◌, ◌==◌, if◌then◌else◌, IfSome, drop, length, position, take};
ghost use Rattle.std.specs.Int.{w64, trailing_zeros};
ghost use Rattle.std.specs.List.{position_or_len};

use std::simd::prelude::*;

/// So many bytes are looked at at once.
const WIDE: usize = 16;

/// The place of the lowest bit that is set, or `lanes`.
#[inline(always)]
fn first_set(mask: u64, lanes: usize) -> usize
    ensures { result ≡ (if mask == 0 then lanes else trailing_zeros w64 mask) }
{
    if mask == 0 {
        lanes
    } else {
        mask.trailing_zeros() as usize
    }
}

/// How many of 16 bytes, from a place on, stand before the first that is this one.
#[inline(always)]
fn before_among(bytes: &[u8], at: usize, byte: u8) -> usize
    requires { at + 16 ≤ length bytes.now }
    ensures { result ≡ position_or_len (λ b. b == byte) (take 16 (drop at bytes.now)) }
{
    let here = u8x16::from_slice(&bytes[at..]).simd_eq(u8x16::splat(byte));
    first_set(here.to_bitmask(), WIDE)
}

/// The same by single bytes, for those at the end.
#[inline(always)]
fn place_by_one(bytes: &[u8], byte: u8) -> Option<usize>
    ensures place { result ≡ position (λ b. b == byte) bytes.now }
    ensures within { IfSome result (λ i. i < length bytes.now) }
{
    bytes.iter().position(|b| *b == byte)
}

/// Where a byte stands first.
#[inline(always)]
#[tactic(auto, using(crate::proofs::Places::none_before, crate::proofs::Places::none_here, crate::proofs::Places::place_here, crate::proofs::Places::place_past, crate::proofs::Places::no_place))]
pub fn place_of(bytes: &[u8], byte: u8) -> Option<usize>
    ensures place { result ≡ position (λ b. b == byte) bytes.now }
    ensures within { IfSome result (λ i. i < length bytes.now) }
{
    let mut at = 0;
    while bytes.len() - at >= WIDE {
        let before = before_among(bytes, at, byte);
        if before < WIDE {
            return Some(at + before);
        }
        at += WIDE;
    }
    match place_by_one(&bytes[at..], byte) {
        Some(i) => Some(at + i),
        None => None,
    }
}
