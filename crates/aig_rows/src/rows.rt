//! Rows one after another.
ghost use Rattle.std.specs.Prelude.{◌≡◌, ◌+◌, ◌*◌, ◌^◌, ◌<◌, ◌≤◌, ◌⊎◌, [], List, IfErr, IfOk};
ghost use Rattle.aig_circuit.specs.Wellformed.{largest_index};
ghost use Rattle.aig_lines.specs.Lines.{Line, with_lines};
ghost use Rattle.aig_rows.specs.Begun.{HaveRead};
ghost use Rattle.aig_fault.specs.declared.stopped.Stopped.TheVariants.{OutOfMemory};
ghost use Rattle.aig_rows.specs.Reading.{rows_at};

use crate::row::FromRow;
use aig_circuit::Listing;
use aig_fault::Stopped;
use aig_lines::Cursor;

/// The rows that are still due.
#[derive(Clone, Copy)]
pub struct Due {
    /// How many.
    pub count: u32,
    /// What is carried to the first of them.
    pub carried: u64,
}

impl Due {
    /// So many, with nothing carried to the first.
    pub fn new(count: u32) -> Self
        ensures { result ≡ record { count = count; carried = 0 } }
    {
        Due { count, carried: 0 }
    }
}

/// Reads rows until `due` is used up or the input ends, and adds their entries, each judged beside
/// `bound` and what is carried. Returns what is due then.
#[inline(never)]
pub fn read_first_rows<T: FromRow>(
    found: &mut Listing<T>,
    bound: u32,
    due: Due,
    at: &mut Cursor,
) -> Result<Due, Stopped>
    requires bound { bound ≤ largest_index }
    requires small { due.carried + 2 * due.count ≤ 2 ^ 34 }
    ensures rows { IfOk result (λ left.
        HaveRead T.meant_by T.form bound due left found.old found.new at.old at.new) }
    ensures small { IfOk result (λ left. left.carried + 2 * left.count ≤ 2 ^ 34) }
    ensures all { IfOk result (λ left. 0 < left.count → at.new.lines ≡ []) }
    ensures err { IfErr result (λ e. (e ≡ OutOfMemory) ⊎ ((more : List Line)
        → rows_at T.form bound due.carried due.count (with_lines at.old more) ≡ Err e)) }
{
    // Out of the cursor, so that both stay in registers; where a row is read slowly, one is lent.
    let mut rest = at.rest;
    let mut number = at.number;
    let mut carried = due.carried;
    let mut count = due.count;
    while count > 0 && !rest.is_empty() {
        let row = match T::read_short(rest, bound, carried) {
            Some(found) => {
                rest = found.1;
                number += 1;
                found.0
            }
            None => {
                let mut from = Cursor { rest, number };
                let row = T::read_row(&mut from, bound, carried)?;
                rest = from.rest;
                number = from.number;
                row
            }
        };
        carried = row.carry(carried);
        found.push(row)?;
        count -= 1;
    }
    *at = Cursor { rest, number };
    Ok(Due { count, carried })
}
