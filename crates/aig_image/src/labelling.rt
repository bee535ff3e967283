//! Circuits by other variables.
ghost use Rattle.std.specs.Prelude.{◌≡◌, ℕ, map};
ghost use Rattle.aig_image.specs.Relabelled.{FitIntoLiterals, relabelled};
ghost use Rattle.aig_image.specs.Relabelled.{relabelled_literal, relabelled_latch};
ghost use Rattle.aig_image.specs.Relabelled.{relabelled_gate, relabelled_justice};

use aig_circuit::{Circuit, Gate, Justice, Latch, Listing, Lit, Var};

/// What has a label for each variable: another variable.
pub trait Labels {
    /// The label of a variable.
    ghost label: { Self → ℕ → ℕ };

    /// The label of a variable.
    fn label(&self, var: Var) -> Var
        ensures { result ≡ label self.now var };
}

/// What names variables.
pub trait NamesVariables: Copy {
    /// The same by labels of its variables.
    ghost relabelled: { (ℕ → ℕ) → Self → Self };

    /// The same by the labels of its variables.
    fn relabel<L: Labels>(self, labels: &L) -> Self
        requires { FitIntoLiterals (L.label labels.now) }
        ensures { result ≡ relabelled (L.label labels.now) self };
}

impl NamesVariables for Var {
    ghost relabelled = { λ label v. label v };

    #[inline(always)]
    fn relabel<L: Labels>(self, labels: &L) -> Self {
        labels.label(self)
    }
}

/// A literal keeps its sign.
impl NamesVariables for Lit {
    ghost relabelled = { relabelled_literal };

    #[inline(always)]
    fn relabel<L: Labels>(self, labels: &L) -> Self {
        Lit(2 * labels.label(self.var()).0 + self.0 % 2)
    }
}

impl NamesVariables for Latch {
    ghost relabelled = { relabelled_latch };

    #[inline(always)]
    fn relabel<L: Labels>(self, labels: &L) -> Self {
        Latch {
            var: self.var.relabel(labels),
            next: self.next.relabel(labels),
            reset: self.reset,
        }
    }
}

impl NamesVariables for Gate {
    ghost relabelled = { relabelled_gate };

    #[inline(always)]
    fn relabel<L: Labels>(self, labels: &L) -> Self {
        Gate {
            var: self.var.relabel(labels),
            left: self.left.relabel(labels),
            right: self.right.relabel(labels),
        }
    }
}

fn relabel_all<L: Labels, T: NamesVariables>(labels: &L, items: Listing<T>) -> Listing<T>
    requires { FitIntoLiterals (L.label labels.now) }
    ensures { result ≡ map (T.relabelled (L.label labels.now)) items }
{
    let mut found = items.into_vec();
    for at in 0..found.len() {
        found[at] = found[at].relabel(labels);
    }
    Listing::from_vec(found)
}

fn relabel_justice<L: Labels>(labels: &L, justice: Justice) -> Justice
    requires { FitIntoLiterals (L.label labels.now) }
    ensures { result ≡ relabelled_justice (L.label labels.now) justice }
{
    Justice {
        sizes: justice.sizes,
        literals: relabel_all(labels, justice.literals),
    }
}

/// The circuit by the labels of its variables, in the same memory.
pub fn relabel<L: Labels>(labels: &L, circuit: Circuit) -> Circuit
    requires { FitIntoLiterals (L.label labels.now) }
    ensures { result ≡ relabelled (L.label labels.now) circuit }
{
    Circuit {
        max_var: circuit.max_var,
        inputs: relabel_all(labels, circuit.inputs),
        latches: relabel_all(labels, circuit.latches),
        outputs: relabel_all(labels, circuit.outputs),
        bad: relabel_all(labels, circuit.bad),
        constraints: relabel_all(labels, circuit.constraints),
        justice: relabel_justice(labels, circuit.justice),
        fairness: relabel_all(labels, circuit.fairness),
        gates: relabel_all(labels, circuit.gates),
        symbols: circuit.symbols,
        comment: circuit.comment,
    }
}
