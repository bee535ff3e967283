//! What is still to be asked of each gate, and a list of gates for each gate, in one table.
ghost use Rattle.std.specs.Prelude.{◌≡◌, ◌≢◌, ◌<◌, ◌≤◌, ℕ, List, [], ◌∷◌, length};
ghost use Rattle.std.specs.Prelude.{map, slice_index_or, slice_set, IfOk};
ghost use Rattle.std.specs.List.{AllByRecursion};
ghost use Rattle.std.specs.Option.{IfSome, IfNone};
ghost use Rattle.aig_circuit.specs.Wellformed.{IsAmong};
ghost use Rattle.aig_topo.specs.Index.{IsIndexOf};
ghost use Rattle.aig_topo.specs.Needs.{linked, needs_of, no_needs, how_many, under, AreThere};
ghost use Rattle.aig_topo.specs.Lists.{row_of, needs_in, links_in, first_of, list_in, AreLists};
ghost use Rattle.aig_topo.specs.Lists.{AreNeedsOf};
ghost use Rattle.aig_topo.specs.Waiting.{needs_by, rest_by};

use crate::index::{AHEAD, GateIndex};
use crate::operands::{Needs, look_up};
use aig_circuit::{Circuit, LARGEST};
use std::alloc::{AllocError, Global};

/// All that is asked of a gate where it is entered or released. One node per gate: one cache miss,
/// since gates are released in any order. What a gate needs is asked for in full once, where it is
/// looked at; from then on the node has what is left to ask, and the link of the list in which the
/// gate waits takes the other place. So a node has 12 bytes, and more of them are in the cache.
/// Each number is one more than a position, or 0 for none.
#[derive(Clone, Copy)]
struct GateNode {
    /// What the left operand needs; once the gate waits, the gate after it in its list.
    next: u32,
    /// What the right operand needs; once the gate waits, what it needs beside that.
    rest: u32,
    /// The first of the gate's own list.
    first: u32,
}

impl GateNode {
    /// The row of a gate that was not looked at.
    #[inline(always)]
    fn new(needs: Needs) -> Self
        ensures { result ≡ row_of needs }
    {
        GateNode {
            next: needs.left,
            rest: needs.right,
            first: 0,
        }
    }
}

/// What is still to be asked of each gate, and a list of gates for each gate. A gate is in one list
/// at most, so one table has them all.
#[derive(Drop)]
pub(crate) struct Lists {
    rows: Vec<GateNode>,
}

impl Lists {
    /// What the gates of a circuit need, and empty lists; and how many each of them needs, 0 to 2.
    pub(crate) fn new(
        alloc: Global,
        circuit: &Circuit,
        index: &GateIndex,
    ) -> Result<(Self, Vec<u8>), AllocError>
        requires few { length circuit.now.gates ≤ LARGEST }
        requires index { IsIndexOf circuit.now.gates index.now }
        ensures needs { IfOk result (λ made.
            needs_in made.0.rows.items ≡ map (needs_of circuit.now.gates) circuit.now.gates) }
        ensures counts { IfOk result (λ made. made.1.items
            ≡ map how_many (needs_in made.0.rows.items)) }
        ensures lists { IfOk result (λ made. AreLists (links_in made.0.rows.items)) }
        ensures empty { IfOk result (λ made. (g : ℕ) → list_in made.0.rows.items g ≡ []) }
    {
        let gates = circuit.gates.as_slice();
        let mut rows = Vec::with_capacity(alloc, gates.len())?;
        let mut counts = Vec::with_capacity(alloc, gates.len())?;
        for gate in gates {
            let needs = look_up(&index.positions, gate);
            counts.push(needs.count())?;
            rows.push(GateNode::new(needs))?;
        }
        Ok((Lists { rows }, counts))
    }

    pub(crate) fn len(&self) -> usize
        ensures { result ≡ length self.now.rows.items }
    {
        self.rows.len()
    }

    /// What a gate needs that was not looked at.
    #[inline(always)]
    pub(crate) fn needs(&self, gate: u32) -> Needs
        requires { gate < length self.now.rows.items }
        ensures { under result ≡ needs_by self.now.rows.items gate }
    {
        let row = self.rows[gate as usize];
        Needs {
            left: row.next,
            right: row.rest,
        }
    }

    pub(crate) fn rest(&self, gate: u32) -> u32
        requires { gate < length self.now.rows.items }
        ensures { linked result ≡ rest_by self.now.rows.items gate }
    {
        self.rows[gate as usize].rest
    }

    /// What the first gate of a list needs beside what it waits for; nothing in an empty list.
    #[inline(always)]
    pub(crate) fn first_rest(&self, list: u32) -> u32
        requires needs { AreThere (needs_in self.now.rows.items) }
        requires there { list < length self.now.rows.items }
        requires lists { AreLists (links_in self.now.rows.items) }
        ensures rest { (u : ℕ) → (us : List ℕ) → list_in self.now.rows.items list ≡ u ∷ us
            → linked result ≡ rest_by self.now.rows.items u }
        ensures there { AllByRecursion (λ h. h < length self.now.rows.items) (linked result) }
    {
        let first = self.rows[list as usize].first;
        if first == 0 {
            return 0;
        }
        self.rows[first as usize - 1].rest
    }

    /// Puts a gate, which needs this beside, at the front of another's list.
    #[inline(always)]
    pub(crate) fn push(&mut self, list: u32, gate: u32, rest: u32)
        requires few { length self.old.rows.items ≤ LARGEST }
        requires lists { AreLists (links_in self.old.rows.items) }
        requires list { list < length self.old.rows.items }
        requires gate { gate < length self.old.rows.items }
        requires nowhere { (g : ℕ) → ¬ IsAmong gate (list_in self.old.rows.items g) }
        ensures lists { AreLists (links_in self.new.rows.items) }
        ensures needs { needs_in self.new.rows.items ≡ slice_set (needs_in self.old.rows.items) gate
            (record { left = first_of (links_in self.old.rows.items) list; right = rest }) }
        ensures pushed { list_in self.new.rows.items list
            ≡ gate ∷ list_in self.old.rows.items list }
        ensures others { (g : ℕ) → g ≢ list
            → list_in self.new.rows.items g ≡ list_in self.old.rows.items g }
    {
        let first = self.rows[list as usize].first;
        let row = &mut self.rows[gate as usize];
        row.next = first;
        row.rest = rest;
        self.rows[list as usize].first = gate + 1;
    }

    #[inline(always)]
    pub(crate) fn pop(&mut self, list: u32) -> Option<u32>
        requires lists { AreLists (links_in self.old.rows.items) }
        requires list { list < length self.old.rows.items }
        ensures lists { AreLists (links_in self.new.rows.items) }
        ensures needs { needs_in self.new.rows.items ≡ needs_in self.old.rows.items }
        ensures none { IfNone result (list_in self.old.rows.items list ≡ []) }
        ensures same { IfNone result (self.new ≡ self.old) }
        ensures first { IfSome result (λ gate.
            list_in self.old.rows.items list ≡ gate ∷ list_in self.new.rows.items list) }
        ensures others { (g : ℕ) → g ≢ list
            → list_in self.new.rows.items g ≡ list_in self.old.rows.items g }
    {
        let first = self.rows[list as usize].first;
        if first == 0 {
            return None;
        }
        let gate = first - 1;
        self.rows[list as usize].first = self.rows[gate as usize].next;
        Some(gate)
    }
}

/// What the gates of a circuit need. Each operand is looked up once, and what comes after goes by
/// positions.
#[derive(Drop)]
pub struct GateNeeds {
    pub(crate) lists: Lists,
    /// How many gates each of them needs, 0 to 2.
    pub(crate) counts: Vec<u8>,
}

impl GateNeeds {
    /// What the gates of a circuit need.
    pub fn new(alloc: Global, circuit: &Circuit) -> Result<Self, AllocError>
        requires { length circuit.now.gates ≤ LARGEST }
        ensures { IfOk result (λ all. AreNeedsOf circuit.now.gates all) }
    {
        let index = GateIndex::new(alloc, circuit)?;
        let (lists, counts) = Lists::new(alloc, circuit, &index)?;
        Ok(GateNeeds { lists, counts })
    }

    /// What the gates of a circuit need, by their index, which a caller makes of spread variables.
    /// It takes time to come to their places, so operands are read ahead; where variables are not
    /// spread, that would cost more than it gains.
    pub fn by_index(alloc: Global, circuit: &Circuit, index: &GateIndex) -> Result<Self, AllocError>
        requires few { length circuit.now.gates ≤ LARGEST }
        requires index { IsIndexOf circuit.now.gates index.now }
        ensures { IfOk result (λ all. AreNeedsOf circuit.now.gates all) }
    {
        let gates = circuit.gates.as_slice();
        let mut rows = Vec::with_capacity(alloc, gates.len())?;
        let mut counts = Vec::with_capacity(alloc, gates.len())?;
        for gate in gates {
            if rows.len() % AHEAD == 0 && index.is_any_need_overfull(gates, rows.len()) {
                return Err(AllocError);
            }
            let needs = look_up(&index.positions, gate);
            counts.push(needs.count())?;
            rows.push(GateNode::new(needs))?;
        }
        Ok(GateNeeds {
            lists: Lists { rows },
            counts,
        })
    }

    /// What each gate needs.
    pub(crate) fn copy(&self, alloc: Global) -> Result<Vec<Needs>, AllocError>
        ensures { IfOk result (λ all. all.items ≡ needs_in self.now.lists.rows.items) }
    {
        let mut all = Vec::with_capacity(alloc, self.lists.rows.len())?;
        for row in &self.lists.rows {
            all.push(Needs {
                left: row.next,
                right: row.rest,
            })?;
        }
        Ok(all)
    }

    /// What the gate of this position needs.
    #[inline(always)]
    pub fn get(&self, gate: u32) -> Needs
        requires { gate < length self.now.lists.rows.items }
        ensures { result ≡ slice_index_or (needs_in self.now.lists.rows.items) gate no_needs }
    {
        let row = self.lists.rows[gate as usize];
        Needs {
            left: row.next,
            right: row.rest,
        }
    }
}
