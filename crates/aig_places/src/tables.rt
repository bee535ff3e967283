//! Tables of x in all lanes.
ghost use Rattle.std.specs.Prelude.{◌≡◌, ◌*◌, ◌<◌, ◌≤◌, ◌^◌, ℕ, length, replicate, IfOk, IsTrue};
ghost use Rattle.aig_circuit.specs.declared.value.Val.TheVariants.{X};
ghost use Rattle.aig_places.specs.Tables.{Begun, IsWhole};
ghost use Rattle.aig_places.specs.Lanes.{IsLane};

use crate::lanes::put_in_all_lanes;
use crate::planes::{Plane, plane_of};
use aig_circuit::{OutOfMemory, Val};
use std::alloc::Global;

/// A table of x in all lanes, for so many variables.
pub fn new_table(alloc: Global, variables: usize) -> Result<Vec<Plane>, OutOfMemory>
    requires { variables < 2 ^ 62 }
    ensures size { IfOk result (λ table. length table.items ≡ 2 * variables) }
    ensures lanes { IfOk result (λ table. (l : ℕ) → l < 256
        → IsLane l table.items (replicate variables X)) }
{
    let mut table = Vec::new(alloc);
    table.resize(2 * variables, plane_of(true))?;
    Ok(table)
}

pub fn fill_table(table: &mut [Plane])
    ensures size { length table.new ≡ length table.old }
    ensures lanes { (l variables : ℕ) → l < 256 → length table.old ≡ 2 * variables
        → IsLane l table.new (replicate variables X) }
{
    table.fill(plane_of(true));
}

/// Puts x into all lanes of a table, unless variables have values in each of them.
fn make_whole(table: &mut [Plane], is_whole: bool)
    requires { IsTrue is_whole → IsWhole table.old }
    ensures size { length table.new ≡ length table.old }
    ensures whole { IsWhole table.new }
{
    if !is_whole {
        fill_table(table);
    }
}

/// Makes a table that for the first step: the constant is 0, and variable 1 is x, if there is one.
/// Where variables have values in each lane, the others keep them.
pub fn begin_table(table: &mut [Plane], is_whole: bool)
    requires whole { IsTrue is_whole → IsWhole table.old }
    requires constant { 2 ≤ length table.old }
    ensures size { length table.new ≡ length table.old }
    ensures begun { (l variables : ℕ) → l < 256 → length table.old ≡ 2 * variables
        → Begun l variables table.new }
{
    make_whole(table, is_whole);
    put_in_all_lanes(table, 0, Val::Zero);
    if table.len() > 3 {
        put_in_all_lanes(table, 1, Val::X);
    }
}
