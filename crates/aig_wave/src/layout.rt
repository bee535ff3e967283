//! What a dump shows of a circuit.
ghost use Rattle.std.specs.Prelude.{◌≡◌, ◌+◌, ◌≤◌, ◌++◌, IfOk, OnOk, length, map};
ghost use Rattle.std.specs.List.{AllByRecursion, flat_map};
ghost use Rattle.aig_circuit.specs.Wellformed.{IsWithinLimits, count_of};
ghost use Rattle.aig_circuit.specs.declared.circuit.TheConstants.{LARGEST};
ghost use Rattle.aig_meaning.specs.Trace.{reset_state, reset_value};
ghost use Rattle.aig_step.specs.TraceText.{character_of, values_text};
ghost use Rattle.aig_wave.specs.Head.{head, scope_text};
ghost use Rattle.aig_wave.specs.Layout.{layout_of};
ghost use Rattle.aig_wave.specs.Parts.Groups.{AreSignalGroups};
ghost use Rattle.aig_wave.specs.Parts.SignalCodes.{IsSignalCode, signal_in};
ghost use Rattle.aig_wave.specs.Places.{kinds};
ghost use Rattle.aig_wave.specs.Signals.{signals_of};

use crate::group::{Group, groups_of};
use crate::head::{put_closing, put_opening, put_scope};
use crate::place::{next_place, width};
use crate::signal::{Signal, add_signals, names_of};
use crate::signal_code::{SignalCode, signal_codes_of};
use aig_circuit::{Circuit, Kind, Latch, OutOfMemory, Reset};
use std::alloc::Global;
use std::marker::Model;

/// The head and the signals, and where the states stand.
#[derive(Drop)]
pub(crate) struct Layout {
    head: Vec<u8>,
    /// The signals.
    signal_codes: Vec<SignalCode>,
    /// The signals in groups.
    groups: Vec<Group>,
    resets: Vec<u8>,
    next: usize,
    width: usize,
}

impl Model for Layout {
    ghost use Rattle.std.specs.Prelude.{◌+◌, ◌≤◌, length, map};
    ghost use Rattle.std.specs.List.{AllByRecursion};
    ghost use Rattle.aig_wave.specs.Layout.{Layout as LayoutRecord};
    ghost use Rattle.aig_wave.specs.Parts.Groups.{AreSignalGroups};
    ghost use Rattle.aig_wave.specs.Parts.SignalCodes.{IsSignalCode, signal_in};

    ghost Value = { LayoutRecord };

    ghost view = { λ w. record {
      head = w.head.items;
      signals = map signal_in w.signal_codes.items;
      resets = w.resets.items;
      next = w.next;
      width = w.width;
    } };

    ghost invariant = { λ w. (w.next + length w.resets.items ≤ w.width)
        × AllByRecursion IsSignalCode w.signal_codes.items
        × AreSignalGroups w.groups.items w.signal_codes.items };
}

/// Adds the scope and the signals of a kind.
fn add_kind(
    alloc: Global,
    head: &mut Vec<u8>,
    signals: &mut Vec<Signal>,
    circuit: &Circuit,
    kind: Kind,
) -> Result<(), OutOfMemory>
    requires limits { IsWithinLimits circuit.now }
    requires count { count_of circuit.now kind ≤ LARGEST }
    ensures head { OnOk result (head.new.items ≡ head.old.items ++ scope_text circuit.now kind) }
    ensures signals { OnOk result (signals.new.items
        ≡ signals.old.items ++ signals_of circuit.now kind) }
{
    let names = names_of(alloc, circuit, kind)?;
    if names.is_empty() {
        return Ok(());
    }
    let before = signals.len();
    add_signals(signals, circuit, kind, names.as_slice())?;
    put_scope(head, kind, names.as_slice(), &signals.as_slice()[before..])
}

/// The head of the dump of a circuit, and its signals.
fn head_and_signals(alloc: Global, circuit: &Circuit) -> Result<(Vec<u8>, Vec<Signal>), OutOfMemory>
    requires { IsWithinLimits circuit.now }
    ensures head { IfOk result (λ x. x.0.items ≡ head circuit.now) }
    ensures signals { IfOk result (λ x. x.1.items ≡ flat_map (signals_of circuit.now) kinds) }
{
    let mut head = Vec::new(alloc);
    let mut signals = Vec::new(alloc);
    put_opening(&mut head)?;
    add_kind(alloc, &mut head, &mut signals, circuit, Kind::Input)?;
    add_kind(alloc, &mut head, &mut signals, circuit, Kind::Latch)?;
    add_kind(alloc, &mut head, &mut signals, circuit, Kind::Output)?;
    add_kind(alloc, &mut head, &mut signals, circuit, Kind::Bad)?;
    add_kind(alloc, &mut head, &mut signals, circuit, Kind::Constraint)?;
    put_closing(&mut head)?;
    Ok((head, signals))
}

/// The character of a latch before the first step.
fn reset_character(latch: &Latch) -> u8
    ensures { result ≡ character_of (reset_value latch.now.reset) }
{
    match latch.reset {
        Reset::Zero => b'0',
        Reset::One => b'1',
        Reset::Uninit => b'x',
    }
}

/// The characters of the reset state.
fn resets_of(alloc: Global, circuit: &Circuit) -> Result<Vec<u8>, OutOfMemory>
    ensures { IfOk result (λ resets. resets.items ≡ values_text (reset_state circuit.now)) }
{
    let mut resets = Vec::with_capacity(alloc, circuit.latches.len())?;
    for latch in circuit.latches.as_slice() {
        resets.push(reset_character(latch))?;
    }
    Ok(resets)
}

impl Layout {
    /// What is shown of this circuit.
    pub(crate) fn new(alloc: Global, circuit: &Circuit) -> Result<Self, OutOfMemory>
        requires { IsWithinLimits circuit.now }
        ensures { IfOk result (λ w. w ≡ layout_of circuit.now) }
    {
        let (head, signals) = head_and_signals(alloc, circuit)?;
        let signal_codes = signal_codes_of(alloc, signals.as_slice())?;
        drop(signals);
        let groups = groups_of(alloc, signal_codes.as_slice())?;
        let resets = resets_of(alloc, circuit)?;
        Ok(Layout {
            head,
            signal_codes,
            groups,
            resets,
            next: next_place(circuit),
            width: width(circuit),
        })
    }

    pub(crate) fn head(&self) -> &[u8]
        ensures { result.now ≡ self.now.head }
    {
        self.head.as_slice()
    }

    /// The signals, and their groups.
    pub(crate) fn signal_codes(&self) -> (&[SignalCode], &[Group])
        ensures signals { map signal_in result.0.now ≡ self.now.signals }
        ensures signal_codes { AllByRecursion IsSignalCode result.0.now }
        ensures groups { AreSignalGroups result.1.now result.0.now }
    {
        (self.signal_codes.as_slice(), self.groups.as_slice())
    }

    pub(crate) fn resets(&self) -> &[u8]
        ensures value { result.now ≡ self.now.resets }
        ensures within { self.now.next + length self.now.resets ≤ self.now.width }
    {
        self.resets.as_slice()
    }

    pub(crate) fn next(&self) -> usize
        ensures { result ≡ self.now.next }
    {
        self.next
    }

    pub(crate) fn width(&self) -> usize
        ensures { result ≡ self.now.width }
    {
        self.width
    }
}
