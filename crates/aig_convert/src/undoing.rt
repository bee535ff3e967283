//! Conversions undone by the map block of their image.
ghost use Rattle.std.specs.Prelude.{◌≡◌, ◌↔◌, ◌⊎◌, IfOk, IfErr, IsTrue, MatchResult, Ok, OnOk};
ghost use Rattle.aig_circuit.specs.declared.circuit.Circuit.{Circuit as CircuitRecord};
ghost use Rattle.aig_circuit.specs.Wellformed.{AreDistinct, IsWellFormed, defined_variables};
ghost use Rattle.aig_fault.specs.Stopping.{StopsFor};
ghost use Rattle.aig_fault.specs.declared.stopped.Stopped.TheVariants.{OutOfMemory as IsOutOfMemory};
ghost use Rattle.aig_checked.specs.BinaryOrder.{IsInBinaryOrder};
ghost use Rattle.aig_map.specs.MapBlock.{IsMappedImage};
ghost use Rattle.aig_map.specs.Parts.Confirmed.{ExchangesDiffer};
ghost use Rattle.aig_map.specs.Parts.Tables.{block_read, source_read, IsBlockOf, IsLeftOf};
ghost use Rattle.aig_map.specs.Undone.{IsMapFault, IsUndoneFrom, comment_behind};
ghost use Rattle.aig_map.specs.Undone.{forged, source_variables, undone};

use aig_core::{Checked, Circuit, OutOfMemory, is_defined_once, is_in_binary_order};
use aig_fault::{Kind, Stopped, refused_whole};
use aig_map::{
    MapBlock, Recorded, SourceVariables, TakenBlock, into_recorded, make_undone,
    positions_by_place, source_variables, take_block, tells_comment, tells_order,
};
use std::alloc::Global;

/// Nothing else can be wrong with the source than that a variable is defined twice.
fn check_source(alloc: Global, source: Circuit) -> Result<Checked, Stopped>
    requires { AreDistinct (defined_variables source) → IsWellFormed source }
    ensures ok { IfOk result (λ c. c ≡ source) }
    ensures formed { OnOk result (IsWellFormed source) }
    ensures err { IfErr result (λ e. (e ≡ IsOutOfMemory)
        ⊎ ((e ≡ forged) × (¬ IsWellFormed source))) }
{
    match is_defined_once(alloc, &source) {
        Ok(true) => Ok(Checked::from_well_formed(source)),
        Ok(false) => {
            drop(source); // for the proof
            Err(refused_whole(Kind::MapForged))
        }
        Err(_) => {
            drop(source); // for the proof
            Err(Stopped::OutOfMemory)
        }
    }
}

/// The image is not made again to compare: the block is checked by itself.
fn has_image(
    alloc: Global,
    image: &Circuit,
    recorded: &Recorded,
    places: &[u32],
    comment: &[u8],
) -> Result<bool, OutOfMemory>
    ghost mapped: { CircuitRecord }
    requires left { IsLeftOf mapped (block_read mapped) comment.now image.now }
    requires block { IsBlockOf (block_read mapped) mapped recorded.now places.now }
    requires differ { ExchangesDiffer (block_read mapped) mapped }
    ensures { IsWellFormed (source_read mapped comment.now)
        → IfOk result (λ is. IsTrue is
        ↔ IsMappedImage (source_read mapped comment.now) mapped) }
{
    if !tells_comment(recorded, comment) {
        return Ok(false);
    }
    tells_order(alloc, places, image)
}

fn confirm_source(
    alloc: Global,
    source: Circuit,
    image: &Circuit,
    recorded: &Recorded,
    places: &[u32],
    comment: &[u8],
) -> Result<Circuit, Stopped>
    ghost mapped: { CircuitRecord }
    requires left { IsLeftOf mapped (block_read mapped) comment.now image.now }
    requires block { IsBlockOf (block_read mapped) mapped recorded.now places.now }
    requires is { source ≡ source_read mapped comment.now }
    requires differ { ExchangesDiffer (block_read mapped) mapped }
    ensures ok { IfOk result (λ c. c ≡ source) }
    ensures image { IfOk result (λ c. IsWellFormed c → IsMappedImage c mapped) }
    ensures err { IfErr result (λ e. (e ≡ IsOutOfMemory)
        ⊎ ((e ≡ forged) × (¬ (IsWellFormed source × IsMappedImage source mapped)))) }
{
    match has_image(alloc, image, recorded, places, comment) {
        Ok(true) => Ok(source),
        Ok(false) => {
            drop(source); // for the proof
            Err(refused_whole(Kind::MapForged))
        }
        Err(_) => {
            drop(source); // for the proof
            Err(Stopped::OutOfMemory)
        }
    }
}

/// The variables are let go once the source is made, since the check of the order takes a table of
/// its own.
fn source_by_places(
    alloc: Global,
    image: &Circuit,
    recorded: &Recorded,
    variables: SourceVariables,
    places: &[u32],
    comment: &[u8],
) -> Result<Circuit, Stopped>
    ghost mapped: { CircuitRecord }
    requires left { IsLeftOf mapped (block_read mapped) comment.now image.now }
    requires block { IsBlockOf (block_read mapped) mapped recorded.now places.now }
    requires variables { variables.variables.items ≡ source_variables (block_read mapped) }
    ensures ok { IfOk result (λ c. c ≡ source_read mapped comment.now) }
    ensures formed { IfOk result (λ c. AreDistinct (defined_variables c) → IsWellFormed c) }
    ensures image { IfOk result (λ c. IsWellFormed c → IsMappedImage c mapped) }
    ensures fault { IfErr result (StopsFor (IsMapFault mapped)) }
{
    let source = match make_undone(alloc, &variables, places, recorded, comment, image) {
        Ok(source) => source,
        Err(stopped) => return Err(stopped),
    };
    drop(variables);
    confirm_source(alloc, source, image, recorded, places, comment)
}

/// The block is let go before there are gates of the source, and the tables that are made of it at
/// the end: to find out whether the source defines a variable twice takes memory of its own.
fn source_by_block(
    alloc: Global,
    image: &Circuit,
    block: MapBlock,
    comment: &[u8],
) -> Result<Circuit, Stopped>
    ghost mapped: { CircuitRecord }
    requires ordered { IsInBinaryOrder mapped }
    requires left { IsLeftOf mapped block comment.now image.now }
    ensures ok { IfOk result (λ c. c ≡ undone block (comment_behind block comment.now) mapped) }
    ensures formed { IfOk result (λ c. AreDistinct (defined_variables c) → IsWellFormed c) }
    ensures image { IfOk result (λ c. IsWellFormed c → IsMappedImage c mapped) }
    ensures fault { IfErr result (StopsFor (IsMapFault mapped)) }
{
    let variables = match source_variables(alloc, &block) {
        Ok(variables) => variables,
        Err(stopped) => return Err(stopped),
    };
    let places = match positions_by_place(alloc, block.gates.as_slice()) {
        Ok(places) => places,
        Err(_) => return Err(Stopped::OutOfMemory),
    };
    match into_recorded(alloc, block) {
        Ok(recorded) => source_by_places(
            alloc,
            image,
            &recorded,
            variables,
            places.as_slice(),
            comment,
        ),
        Err(_) => Err(Stopped::OutOfMemory),
    }
}

fn undo_by_block(
    alloc: Global,
    image: &Circuit,
    block: MapBlock,
    comment: &[u8],
) -> Result<Checked, Stopped>
    ghost mapped: { CircuitRecord }
    requires ordered { IsInBinaryOrder mapped }
    requires left { IsLeftOf mapped block comment.now image.now }
    ensures ok { IfOk result (λ c. IsUndoneFrom mapped c) }
    ensures fault { IfErr result (StopsFor (IsMapFault mapped)) }
{
    match source_by_block(alloc, image, block, comment) {
        Ok(source) => check_source(alloc, source),
        Err(stopped) => Err(stopped),
    }
}

#[tactic(auto, using(aig_map::proofs::Sources::Refused::unread))]
fn recover(alloc: Global, image: Checked) -> Result<Checked, Stopped>
    ghost mapped: { CircuitRecord }
    requires { image ≡ mapped }
    ensures ok { IfOk result (λ c. IsUndoneFrom mapped c) }
    ensures fault { IfErr result (StopsFor (IsMapFault mapped)) }
{
    if !is_in_binary_order(&image) {
        drop(image); // for the proof
        return Err(refused_whole(Kind::NotOrdered));
    }
    match take_block(alloc, image.into_circuit()) {
        Ok(taken) => {
            let TakenBlock {
                block,
                comment,
                image,
            } = taken;
            undo_by_block(alloc, &image, block, comment.as_slice())
        }
        Err(stopped) => Err(stopped),
    }
}

/// The circuit whose mapped image this is, which is no longer needed. The errors are, in this
/// order: the argument is not in binary order, has no map block, has one that is not of its form,
/// or is the mapped image of no circuit. Of a mapped image it fails only if an allocation fails.
pub fn undo(alloc: Global, image: Checked) -> Result<Checked, Stopped>
    ensures ok { IfOk result (λ c. IsUndoneFrom image c) }
    ensures only { (c : CircuitRecord) → IsUndoneFrom image c
        → MatchResult result (λ d. d ≡ c) (λ e. e ≡ IsOutOfMemory) }
    ensures fault { IfErr result (StopsFor (IsMapFault image)) }
{
    recover(alloc, image)
}
