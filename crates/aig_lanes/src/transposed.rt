//! Planes of eight literals, transposed: the bytes of eight literals for the same eight lanes stand
//! side by side.
ghost use Rattle.std.specs.Prelude.{◌≡◌, ◌+◌, ◌*◌, ◌/◌, ◌%◌, ◌<◌, ◌==◌, ℕ};
ghost use Rattle.std.specs.Prelude.{[], if◌then◌else◌, slice_index_or};
ghost use Rattle.std.specs.Int.{bit_at};
ghost use Rattle.aig_places.specs.Lanes.{bit_in};
ghost use Rattle.aig_lanes.specs.Parts.Sheets.{byte_at};

use aig_places::Plane;
use std::simd::prelude::*;

#[inline(always)]
fn plane_bytes(plane: Plane) -> u8x32
    ensures { (octet j : ℕ) → octet < 32 → j < 8
        → bit_at (slice_index_or result octet 0) j ≡ bit_in (8 * octet + j) plane }
{
    plane.to_le_bytes()
}

/// Those of every other plane, eight of them from this one on.
#[inline(always)]
fn rows_of(planes: &[Plane; 16], first: usize) -> [u8x32; 8]
    requires { first < 2 }
    ensures { (r octet j : ℕ) → r < 8 → octet < 32 → j < 8
        → bit_at (slice_index_or (slice_index_or result r []) octet 0) j
        ≡ bit_in (8 * octet + j) (slice_index_or planes.now (2 * r + first) []) }
{
    let mut rows = [u8x32::splat(0); 8];
    for r in 0..8 {
        rows[r] = plane_bytes(planes[2 * r + first]);
    }
    rows
}

/// The bytes of two rows in turn.
#[inline(always)]
fn in_turn(one: u8x32, other: u8x32) -> (u8x32, u8x32)
    ensures first { (m : ℕ) → m < 32
        → slice_index_or result.0 m 0 ≡ slice_index_or
        (if m % 2 == 0 then one else other) (m / 2) 0 }
    ensures second { (m : ℕ) → m < 32
        → slice_index_or result.1 m 0 ≡ slice_index_or (if m % 2 == 0 then one else other)
        (16 + m / 2) 0 }
{
    one.interleave(other)
}

/// The bytes of eight rows, taken in turn from the first half of the rows and from the second.
#[inline(always)]
fn weave(rows: [u8x32; 8]) -> [u8x32; 8]
    ensures { (m : ℕ) → m < 256 → byte_at m result ≡ byte_at (m / 2 + 128 * (m % 2)) rows }
{
    let mut between = [u8x32::splat(0); 8];
    for k in 0..4 {
        let (low, high) = in_turn(rows[k], rows[k + 4]);
        between[2 * k] = low;
        between[2 * k + 1] = high;
    }
    between
}

#[inline(always)]
fn flat(rows: [u8x32; 8]) -> [u8; 256]
    ensures { (m : ℕ) → m < 256 → slice_index_or result m 0 ≡ byte_at m rows }
{
    let mut bytes = [0; 256];
    for k in 0..8 {
        bytes[32 * k..32 * k + 32].copy_from_slice(&rows[k].to_array());
    }
    bytes
}

/// The bytes of every other plane from this one on: eight for the first eight lanes, one of each
/// plane, then eight for the next eight lanes, and so on. A weaving is a perfect shuffle: it moves
/// the last bit of a byte's place to the front of the place. Three perfect shuffles swap plane and
/// byte number.
#[inline(always)]
pub(crate) fn transpose(planes: &[Plane; 16], first: usize) -> [u8; 256]
    requires { first < 2 }
    ensures { (octet r j : ℕ) → octet < 32 → r < 8 → j < 8
        → bit_at (slice_index_or result (8 * octet + r) 0) j
        ≡ bit_in (8 * octet + j) (slice_index_or planes.now (2 * r + first) []) }
{
    flat(weave(weave(weave(rows_of(planes, first)))))
}
