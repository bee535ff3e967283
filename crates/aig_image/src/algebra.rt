//! Laws: facts about the definitions alone, each the contract of a function with an empty body.
ghost use Rattle.aig_image.specs.Algebra.{RelabellingsCompose, NamesKeptKeepAll};
ghost use Rattle.aig_image.specs.Algebra.{OrderCommutes, ConvertedIsRestored};
ghost use Rattle.aig_image.specs.Algebra.{RestoredIsConverted, FormIsKept};
ghost use Rattle.aig_image.specs.Algebra.{OrderKeepsForm, ExchangeKeepsForm};
ghost use Rattle.aig_image.specs.Algebra.{PlacesHavePositions};

/// Two relabellings, one after the other, are one.
pub fn relabellings_compose()
    ensures { RelabellingsCompose }
{}

/// Where each variable that is named keeps its name, the circuit stays as it is.
pub fn names_kept_keep_all()
    ensures { NamesKeptKeepAll }
{}

/// Gates are relabelled and taken in an order in either turn.
pub fn order_commutes()
    ensures { OrderCommutes }
{}

/// What was converted is restored.
pub fn converted_is_restored()
    ensures { ConvertedIsRestored }
{}

/// What was restored is converted to what it was restored from.
pub fn restored_is_converted()
    ensures { RestoredIsConverted }
{}

/// A well-formed circuit stays well formed by other variables from which there is a way back.
pub fn form_is_kept()
    ensures { FormIsKept }
{}

/// A well-formed circuit stays well formed with its gates in another order.
pub fn order_keeps_form()
    ensures { OrderKeepsForm }
{}

/// A well-formed circuit stays well formed with operands exchanged.
pub fn exchange_keeps_form()
    ensures { ExchangeKeepsForm }
{}

/// Distinct places below their count are each that of one position.
pub fn places_have_positions()
    ensures { PlacesHavePositions }
{}
