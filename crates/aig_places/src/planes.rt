//! Planes: a bit for each of 256 lanes.
ghost use Rattle.std.specs.Prelude.{◌≡◌, ◌<◌, ℕ, if◌then◌else◌};
ghost use Rattle.aig_places.specs.Lanes.{IsPlane, bit_in};

use std::simd::Simd;

/// A bit for each lane.
pub type Plane = Simd<u64, 4>;

pub fn plane_of(bit: bool) -> Plane
    ensures plane { IsPlane result }
    ensures bits { (l : ℕ) → l < 256 → bit_in l result ≡ (if bit then 1 else 0) }
{
    if bit {
        Simd::from_array([u64::MAX, u64::MAX, u64::MAX, u64::MAX])
    } else {
        Simd::from_array([0, 0, 0, 0])
    }
}
