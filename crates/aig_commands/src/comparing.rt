//! `aigmiter`: one circuit of two, which shows whether they are equal.
ghost use Rattle.std.specs.Prelude.{◌≡◌, ◌<◌, Err, IfErr, IfOk, length, OnOk, true};
ghost use Rattle.aig_fault.specs.Stopping.{StopsFor};
ghost use Rattle.aig_io.specs.Runs.{Read};
ghost use Rattle.aig_pairing.specs.ByNames.{by_names};
ghost use Rattle.aig_commands.specs.Comparing.{IsAccepted, IsFirst, IsMadeOf, IsMiterText, IsPaired};
ghost use Rattle.aig_commands.specs.Comparing.{NotAccepted, NotFirst, NotMadeOf, NotMiter};
ghost use Rattle.aig_commands.specs.Jobs.{text_of};
ghost use Rattle.aig_commands.specs.Reading.{AtItsEnd, ReadSays};

use crate::answer::Answer;
use crate::conversion::{convert_as, simplify_if_asked};
use aig_binary::read_source;
use aig_command::Miter;
use aig_core::{Checked, Keep, Source, Steps};
use aig_fault::Stopped;
use aig_miter::{check_comparable, miter};
use aig_pairing::{check_names, order_by_names};
use std::alloc::Global;

/// Whether a circuit can be the first of two.
fn check_first(alloc: Global, request: &Miter, first: &Checked) -> Result<(), Stopped>
    ensures ok { OnOk result (IsAccepted request.now first.now) }
    ensures err { IfErr result (StopsFor (NotAccepted request.now first.now)) }
{
    check_comparable(first)?;
    if request.by_name {
        check_names(alloc, first)
    } else {
        Ok(())
    }
}

/// Reads the first circuit to its end, as a file of either kind.
pub(crate) fn read_first<R: Source>(
    alloc: Global,
    request: &Miter,
    source: &mut R,
) -> Result<Checked, Stopped>
    ensures read { Read (ReadSays (λ first bytes. IsFirst request.now bytes first)
        (AtItsEnd (NotFirst request.now)) result) (R.history source.old)
        (R.history source.new) }
    ensures accepted { IfOk result (IsAccepted request.now) }
{
    let first = read_source(alloc, source, request.max_var, Keep::Circuit)?;
    match check_first(alloc, request, &first) {
        Ok(()) => Ok(first),
        Err(stopped) => {
            drop(first); // for the proof
            Err(stopped)
        }
    }
}

/// The second circuit, paired with the first as the request asks.
fn pair(
    alloc: Global,
    request: &Miter,
    first: &Checked,
    second: Checked,
) -> Result<Checked, Stopped>
    requires { IsAccepted request.now first.now }
    ensures ok { IfOk result (IsPaired request.now.by_name first.now second) }
    ensures err { IfErr result (StopsFor (λ fault. (request.now.by_name ≡ true)
        × (by_names first.now second ≡ Err fault))) }
{
    if request.by_name {
        order_by_names(alloc, first, second)
    } else {
        Ok(second)
    }
}

/// The miter of both.
fn compare(
    alloc: Global,
    request: &Miter,
    first: Checked,
    second: Checked,
) -> Result<Checked, Stopped>
    requires { IsAccepted request.now first }
    ensures ok { IfOk result (IsMadeOf request.now first second) }
    ensures err { IfErr result (StopsFor (NotMadeOf request.now first second)) }
{
    match pair(alloc, request, &first, second) {
        Ok(paired) => miter(alloc, first, paired, &mut Steps::new()),
        Err(stopped) => {
            drop(first); // for the proof
            Err(stopped)
        }
    }
}

/// Reads the second circuit to its end, as a file of either kind, and makes the miter of both,
/// simplified where that is asked for.
pub(crate) fn read_second<R: Source>(
    alloc: Global,
    request: &Miter,
    first: Checked,
    source: &mut R,
) -> Result<Answer, Stopped>
    requires { IsAccepted request.now first }
    ensures read { Read (ReadSays (λ answer bytes.
        IsMiterText request.now first bytes (text_of answer))
        (AtItsEnd (NotMiter request.now first)) result) (R.history source.old)
        (R.history source.new) }
    ensures some { IfOk result (λ answer. 0 < length (text_of answer)) }
{
    let second = read_source(alloc, source, request.max_var, Keep::Circuit)?;
    let made = compare(alloc, request, first, second)?;
    let written = simplify_if_asked(alloc, request.simplify, made)?;
    Ok(convert_as(alloc, request.ascii, false, written)?)
}
