//! The new numbers of variables.
ghost use Rattle.std.specs.Prelude.{◌≡◌, ◌↔◌, ◌⊎◌, ◌+◌, ◌==◌, ◌≤◌, ◌<◌};
ghost use Rattle.std.specs.Prelude.{◌++◌, ℕ, List, [], length, map, false};
ghost use Rattle.std.specs.Prelude.{IfOk, OnOk, IsTrue, None, if◌then◌else◌};
ghost use Rattle.std.specs.Option.{IfSome};
ghost use Rattle.std.specs.FinMap.{get, empty};
ghost use Rattle.aig_circuit.specs.Literal.{variable_of};
ghost use Rattle.aig_circuit.specs.Wellformed.{AreDistinct, IsAmong};
ghost use Rattle.aig_tables.specs.VarMap.{with_new};
ghost use Rattle.aig_circuit.specs.declared.circuit.Gate.{Gate as GateRecord};
ghost use Rattle.aig_image.specs.Parts.Numbers.{number_of, first_variables};
ghost use Rattle.aig_image.specs.Parts.Numbers.{variables_with, HaveNumbers};
ghost use Rattle.aig_image.specs.Relabelled.{FitIntoLiterals};
ghost use Rattle.aig_image.specs.Parts.InOrder.{StandInOrder};

use crate::labelling::Labels;
use aig_circuit::{Circuit, Gate, LARGEST, Latch, Lit, Var};
use aig_tables::VarMap;
use std::alloc::{AllocError, Global};

/// What defines a variable.
pub trait Defines {
    /// The variable.
    ghost variable: { Self → ℕ };

    /// The variable.
    fn variable(&self) -> Var
        ensures { result ≡ variable self.now };
}

impl Defines for Var {
    ghost variable = { λ v. v };

    #[inline(always)]
    fn variable(&self) -> Var {
        *self
    }
}

impl Defines for Latch {
    ghost variable = { λ l. l.var };

    #[inline(always)]
    fn variable(&self) -> Var {
        self.var
    }
}

impl Defines for Gate {
    ghost variable = { λ g. g.var };

    #[inline(always)]
    fn variable(&self) -> Var {
        self.var
    }
}

/// What gets numbers before gates do.
pub(crate) trait FirstVariables {
    /// The variables, in the order of their numbers.
    ghost variables: { Self → List ℕ };

    /// Their numbers, with room for those of gates.
    fn numbers(&self, alloc: Global) -> Result<Numbers, AllocError>
        requires few { length (variables self.now) ≤ LARGEST }
        requires once { AreDistinct (variables self.now) }
        ensures { IfOk result (λ n. HaveNumbers n (variables self.now)) };
}

/// Inputs and latches.
impl FirstVariables for Circuit {
    ghost variables = { first_variables };

    fn numbers(&self, alloc: Global) -> Result<Numbers, AllocError> {
        Numbers::of_first(alloc, self)
    }
}

/// How many variables are read ahead together.
pub(crate) const AHEAD: usize = 32;

/// The new numbers of variables, from 1 on in the order in which they are noted.
#[derive(Drop)]
pub struct Numbers {
    /// How many variables have numbers.
    noted: u32,
    numbers: VarMap<u32>,
}

impl Labels for Numbers {
    ghost label = { number_of };

    #[inline(always)]
    fn label(&self, var: Var) -> Var {
        Var(self.number(var))
    }
}

impl Numbers {
    pub(crate) fn count(&self) -> u32
        ensures { result ≡ self.now.noted }
    {
        self.noted
    }

    /// The number of a variable, 0 where it has none.
    #[inline(always)]
    pub fn number(&self, var: Var) -> u32
        ensures { result ≡ number_of self.now var }
    {
        self.numbers.get(var).unwrap_or(0)
    }

    /// Whether the place of a variable is overfull, which none is: who asks wants the read alone.
    #[inline(always)]
    fn is_overfull(&self, var: Var) -> bool
        ensures { result ≡ false }
    {
        self.numbers.is_overfull(var)
    }

    /// Reads ahead where the variables of gates from this position on have their places. None is
    /// overfull: that is asked for the sake of the reads alone.
    pub(crate) fn is_any_overfull(&self, gates: &[Gate], from: usize) -> bool
        ensures { result ≡ false }
    {
        let end = gates.len().min(from.saturating_add(AHEAD));
        let mut any = false;
        for at in from..end {
            any |= self.is_overfull(gates[at].var);
        }
        any
    }

    #[inline(always)]
    pub(crate) fn note(&mut self, var: Var) -> Result<(), AllocError>
        requires { self.old.noted < LARGEST }
        ensures count { OnOk result (self.new.noted ≡ self.old.noted + 1) }
        ensures numbers { OnOk result (self.new.numbers
            ≡ with_new self.old.numbers var (self.old.noted + 1)) }
    {
        self.noted += 1;
        self.numbers.insert(var, self.noted)?;
        Ok(())
    }

    /// As `note`, of a variable that has no number: nothing is read for it.
    #[inline(always)]
    pub(crate) fn note_new(&mut self, var: Var) -> Result<(), AllocError>
        requires few { self.old.noted < LARGEST }
        requires none { get self.old.numbers var ≡ None }
        ensures count { OnOk result (self.new.noted ≡ self.old.noted + 1) }
        ensures numbers { OnOk result (self.new.numbers
            ≡ with_new self.old.numbers var (self.old.noted + 1)) }
    {
        self.noted += 1;
        self.numbers.put(var, self.noted)
    }

    /// None of the items' variables has a number, and no two items have the same variable.
    fn note_all<T: Defines>(&mut self, items: &[T]) -> Result<(), AllocError>
        requires few { self.old.noted + length items.now ≤ LARGEST }
        requires once { AreDistinct (map T.variable items.now) }
        requires none { (v : ℕ) → IsAmong v (map T.variable items.now)
            → get self.old.numbers v ≡ None }
        ensures count { OnOk result (self.new.noted ≡ self.old.noted + length items.now) }
        ensures numbers { OnOk result ((variables : List ℕ)
            → HaveNumbers self.old variables
            → HaveNumbers self.new (variables ++ map T.variable items.now)) }
    {
        for item in items {
            self.note_new(item.variable())?;
        }
        Ok(())
    }

    /// Whether a literal is a constant, or its variable has a number.
    fn knows(&self, literal: Lit) -> bool
        ensures { IsTrue result ↔ ((variable_of literal ≡ 0)
            ⊎ (0 < number_of self.now (variable_of literal))) }
    {
        let var = literal.var();
        var.0 == 0 || self.number(var) > 0
    }

    /// Goes up to the first gate with an operand that is not known. Answers whether there is none.
    fn note_in_order(&mut self, gates: &[Gate]) -> Result<bool, AllocError>
        requires { self.old.noted + length gates.now ≤ LARGEST }
        ensures { IfOk result (λ all. IsTrue all → (variables : List ℕ)
            → HaveNumbers self.old variables
            → HaveNumbers self.new (variables ++ map (λ (g : GateRecord). g.var) gates.now)
            × StandInOrder variables gates.now) }
    {
        for gate in gates {
            if !self.knows(gate.left) {
                return Ok(false);
            }
            if !self.knows(gate.right) {
                return Ok(false);
            }
            self.note(gate.var)?;
        }
        Ok(true)
    }

    /// The numbers of inputs and latches, in a map that has none yet.
    fn first_into(numbers: VarMap<u32>, circuit: &Circuit) -> Result<Self, AllocError>
        requires few { length circuit.now.inputs + length circuit.now.latches ≤ LARGEST }
        requires once { AreDistinct (first_variables circuit.now) }
        requires none { numbers ≡ empty }
        ensures count { IfOk result (λ n. n.noted
            ≡ length circuit.now.inputs + length circuit.now.latches) }
        ensures numbers { IfOk result (λ n. HaveNumbers n (first_variables circuit.now)) }
    {
        let mut numbers = Numbers { noted: 0, numbers };
        numbers.note_all(circuit.inputs.as_slice())?;
        numbers.note_all(circuit.latches.as_slice())?;
        Ok(numbers)
    }

    /// The numbers of these variables, with room for all up to the largest.
    pub(crate) fn of_variables(
        alloc: Global,
        variables: &[Var],
        largest: u32,
    ) -> Result<Self, AllocError>
        requires few { length variables.now ≤ LARGEST }
        requires once { AreDistinct variables.now }
        ensures { IfOk result (λ n. HaveNumbers n variables.now) }
    {
        let numbers = VarMap::new(alloc, largest as usize, largest)?;
        let mut numbers = Numbers { noted: 0, numbers };
        numbers.note_all(variables)?;
        Ok(numbers)
    }

    /// With room for no more.
    pub(crate) fn of_first_alone(alloc: Global, circuit: &Circuit) -> Result<Self, AllocError>
        requires few { length circuit.now.inputs + length circuit.now.latches ≤ LARGEST }
        requires once { AreDistinct (first_variables circuit.now) }
        ensures count { IfOk result (λ n. n.noted
            ≡ length circuit.now.inputs + length circuit.now.latches) }
        ensures numbers { IfOk result (λ n. HaveNumbers n (first_variables circuit.now)) }
    {
        let expected = circuit.inputs.len() + circuit.latches.len();
        Numbers::first_into(VarMap::new(alloc, expected, circuit.max_var)?, circuit)
    }

    /// With room for the numbers of gates too.
    pub(crate) fn of_first(alloc: Global, circuit: &Circuit) -> Result<Self, AllocError>
        requires few { length circuit.now.inputs + length circuit.now.latches ≤ LARGEST }
        requires once { AreDistinct (first_variables circuit.now) }
        ensures count { IfOk result (λ n. n.noted
            ≡ length circuit.now.inputs + length circuit.now.latches) }
        ensures numbers { IfOk result (λ n. HaveNumbers n (first_variables circuit.now)) }
    {
        Numbers::first_into(VarMap::for_circuit(alloc, circuit)?, circuit)
    }

    pub(crate) fn new(alloc: Global, circuit: &Circuit, taken: &[Gate]) -> Result<Self, AllocError>
        requires few { length circuit.now.inputs + length circuit.now.latches
            + length taken.now ≤ LARGEST }
        requires once { AreDistinct (variables_with circuit.now taken.now) }
        ensures numbers { IfOk result (λ n. HaveNumbers n (variables_with circuit.now taken.now)) }
        ensures small { IfOk result (λ n. FitIntoLiterals (number_of n)) }
    {
        let mut numbers = Numbers::of_first(alloc, circuit)?;
        numbers.note_all(taken)?;
        Ok(numbers)
    }

    /// None if the gates do not stand in order, each after those that it uses.
    #[tactic(auto, using(crate::proofs::Numbering::Kept::few))]
    pub(crate) fn of_ordered(alloc: Global, circuit: &Circuit) -> Result<Option<Self>, AllocError>
        requires few { length circuit.now.inputs + length circuit.now.latches
            + length circuit.now.gates ≤ LARGEST }
        requires once { AreDistinct (first_variables circuit.now) }
        ensures numbers { IfOk result (λ some. IfSome some (λ n. HaveNumbers n
            (first_variables circuit.now ++ map (λ (g : GateRecord). g.var) circuit.now.gates))) }
        ensures small { IfOk result (λ some. IfSome some (λ n. FitIntoLiterals (number_of n))) }
        ensures in_order { IfOk result (λ some. IfSome some (λ _.
            StandInOrder (first_variables circuit.now) circuit.now.gates)) }
    {
        let mut numbers = Numbers::of_first(alloc, circuit)?;
        if numbers.note_in_order(circuit.gates.as_slice())? {
            Ok(Some(numbers))
        } else {
            Ok(None)
        }
    }
}
