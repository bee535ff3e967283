//! What the arguments of `aigsim` ask for.
ghost use Rattle.std.specs.Prelude.{◌≡◌, IfErr, IfOk, None, OnOk, Some};
ghost use Rattle.clap.specs.Words.{found_of, rows_of};
ghost use Rattle.aig_command.specs.Answer.{CanDo, files_of, HasOneStandardInput};
ghost use Rattle.aig_command.specs.Answer.{IsAnswer, IsDumpAlone, IsReason, IsWitnessAlone};
ghost use Rattle.aig_command.specs.Asked.{aigsim, simulation, simulation_files};
ghost use Rattle.aig_command.specs.Asked.{simulation_refusal};

use crate::options::{has_one_stream_for_two, is_set, limit, named_file};
use crate::request::{Command, Names, Sim};
use crate::usage::Usage;
use clap::ArgMatches;
use std::alloc::{AllocError, Global};

fn simulation_names(alloc: Global, matches: &ArgMatches<'_>) -> Result<Names, AllocError>
    ensures { IfOk result (λ names. files_of names
        ≡ simulation_files (rows_of (found_of matches.now))) }
{
    let model = named_file(alloc, matches, "model")?;
    let file = named_file(alloc, matches, "stimulus")?;
    Ok(Names {
        model,
        file,
        refutation: None,
        destination: None,
    })
}

fn simulation(matches: &ArgMatches<'_>) -> Sim
    ensures { result ≡ simulation (rows_of (found_of matches.now)) }
{
    Sim {
        batch: is_set(matches, "batch"),
        properties: is_set(matches, "properties"),
        witness: is_set(matches, "witness"),
        vcd: is_set(matches, "vcd"),
        max_var: limit(matches),
    }
}

fn check_request(names: &Names, request: Sim) -> Result<(), Usage>
    ensures ok { OnOk result (simulation_refusal (files_of names.now) request ≡ None) }
    ensures err { IfErr result (λ reason. IsReason reason
        × (simulation_refusal (files_of names.now) request ≡ Some reason)) }
    ensures one { OnOk result (HasOneStandardInput names.now) }
    ensures alone { OnOk result (IsWitnessAlone request) }
    ensures dump { OnOk result (IsDumpAlone request) }
{
    if has_one_stream_for_two(names) {
        return Err(Usage::BothStandardInput);
    }
    if request.witness && (request.batch || request.properties) {
        return Err(Usage::WitnessAlone);
    }
    if request.vcd && request.properties {
        return Err(Usage::VcdExcludesProperties);
    }
    Ok(())
}

pub(crate) fn aigsim(alloc: Global, matches: &ArgMatches<'_>) -> Result<(Names, Command), Usage>
    ensures answer { IsAnswer (aigsim (rows_of (found_of matches.now))) result }
    ensures can_do { IfOk result (λ answer. CanDo answer.0 answer.1) }
{
    let names = simulation_names(alloc, matches)?;
    let request = simulation(matches);
    check_request(&names, request)?;
    Ok((names, Command::Sim(request)))
}
