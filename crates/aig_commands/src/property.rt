//! The circuit whose bad states stand for a property.
ghost use Rattle.std.specs.Prelude.{◌≡◌, IfErr, IfOk, OnOk};
ghost use Rattle.aig_commands.specs.Property.{HasProperty, NotModelled, property_model};

use aig_command::Property;
use aig_core::Checked;
use aig_fault::Stopped;
use aig_live::live;
use aig_replay::with_selected_bad;
use std::alloc::Global;

/// The circuit that stands for this property of a circuit.
pub(crate) fn property_model(
    alloc: Global,
    property: Property,
    found: Checked,
) -> Result<Checked, Stopped>
    ensures ok { IfOk result (λ made. made ≡ property_model property found) }
    ensures there { OnOk result (HasProperty property found) }
    ensures err { IfErr result (NotModelled property found) }
{
    match property {
        Property::AnyBad => Ok(found),
        Property::Bad(number) => with_selected_bad(alloc, found, Some(number)),
        Property::Justice(number) => live(alloc, found, number),
    }
}
