//! The literals whose cone a picture shows.
ghost use Rattle.std.specs.Prelude.{◌≡◌, ◌≤◌, ◌++◌, [], map, slice_index_or, IfOk, OnOk};
ghost use Rattle.std.specs.List.{AllByRecursion, concat, flat_map};
ghost use Rattle.std.specs.Option.{option_to_list};
ghost use Rattle.aig_circuit.specs.Justice.{properties_of};
ghost use Rattle.aig_circuit.specs.Literal.{literal_of};
ghost use Rattle.aig_circuit.specs.Wellformed.{IsWellFormed, defined_variables, literal_lists};
ghost use Rattle.aig_circuit.specs.declared.circuit.TheConstants.{LARGEST};
ghost use Rattle.aig_dot.specs.Subject.{literal_at, literals_at, roots_of};

use crate::subject::Subject;
use aig_circuit::{Circuit, Entry, Justice, Kind, Lit, Var};
use std::alloc::{AllocError, Global};

/// The literal at a position alone.
fn literal_at(literals: &[Lit], position: usize) -> &[Lit]
    ensures { result.now ≡ literal_at literals.now position }
{
    if position < literals.len() {
        &literals[position..position + 1]
    } else {
        &literals[..0]
    }
}

/// The literals of the justice property at a position.
fn property_at(justice: &Justice, position: usize) -> &[Lit]
    ensures { result.now ≡ slice_index_or (properties_of justice.now) position [] }
{
    let sizes = justice.sizes.as_slice();
    let mut rest = justice.literals.as_slice();
    for at in 0..sizes.len() {
        let size = (sizes[at] as usize).min(rest.len());
        let (own, others) = rest.split_at(size);
        if at == position {
            return own;
        }
        rest = others;
    }
    &rest[..0]
}

/// The literals of what a circuit shows at a position among its kind.
pub(crate) fn literals_at(circuit: &Circuit, kind: Kind, position: usize) -> &[Lit]
    ensures { result.now ≡ literals_at circuit.now kind position }
{
    match kind {
        Kind::Input => &[],
        Kind::Latch => &[],
        Kind::Output => literal_at(circuit.outputs.as_slice(), position),
        Kind::Bad => literal_at(circuit.bad.as_slice(), position),
        Kind::Constraint => literal_at(circuit.constraints.as_slice(), position),
        Kind::Justice => property_at(&circuit.justice, position),
        Kind::Fairness => literal_at(circuit.fairness.as_slice(), position),
    }
}

/// Adds the literal of a variable, if there is one.
fn push_definition(literals: &mut Vec<Lit>, definition: Option<Var>) -> Result<(), AllocError>
    requires { AllByRecursion (λ v. v ≤ LARGEST) (option_to_list definition) }
    ensures { OnOk result (literals.new.items
        ≡ literals.old.items ++ map literal_of (option_to_list definition)) }
{
    match definition {
        Some(var) => literals.push(Lit(2 * var.0)),
        None => Ok(()),
    }?;
    Ok(())
}

/// Adds the literal of each variable that these define.
fn push_definitions<T: Entry>(literals: &mut Vec<Lit>, entries: &[T]) -> Result<(), AllocError>
    requires { AllByRecursion (λ v. v ≤ LARGEST) (flat_map T.defined entries.now) }
    ensures { OnOk result (literals.new.items
        ≡ literals.old.items ++ map literal_of (flat_map T.defined entries.now)) }
{
    for entry in entries {
        push_definition(literals, entry.definition())?;
    }
    Ok(())
}

/// The literals of all variables that a circuit defines.
fn defined_literals(alloc: Global, circuit: &Circuit) -> Result<Vec<Lit>, AllocError>
    requires { IsWellFormed circuit.now }
    ensures { IfOk result (λ literals. literals.items
        ≡ map literal_of (defined_variables circuit.now)) }
{
    let mut literals = Vec::new(alloc);
    push_definitions(&mut literals, circuit.inputs.as_slice())?;
    push_definitions(&mut literals, circuit.latches.as_slice())?;
    push_definitions(&mut literals, circuit.gates.as_slice())?;
    Ok(literals)
}

/// Adds the literals of all that a circuit shows.
fn push_shown(literals: &mut Vec<Lit>, circuit: &Circuit) -> Result<(), AllocError>
    ensures { OnOk result (literals.new.items
        ≡ literals.old.items ++ concat (literal_lists circuit.now)) }
{
    literals.extend_from_slice(circuit.outputs.as_slice())?;
    literals.extend_from_slice(circuit.bad.as_slice())?;
    literals.extend_from_slice(circuit.constraints.as_slice())?;
    literals.extend_from_slice(circuit.justice.literals.as_slice())?;
    literals.extend_from_slice(circuit.fairness.as_slice())?;
    Ok(())
}

/// The literals whose cone a picture of this shows.
pub(crate) fn roots_of(
    alloc: Global,
    circuit: &Circuit,
    subject: &Subject,
) -> Result<Vec<Lit>, AllocError>
    requires { IsWellFormed circuit.now }
    ensures { IfOk result (λ roots. roots.items ≡ roots_of subject.now circuit.now) }
{
    match subject {
        Subject::Whole => {
            let mut literals = defined_literals(alloc, circuit)?;
            push_shown(&mut literals, circuit)?;
            Ok(literals)
        }
        Subject::Cone(part) => Vec::from_slice(
            alloc,
            literals_at(circuit, part.kind, part.position as usize),
        ),
    }
}
