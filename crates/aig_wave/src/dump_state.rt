//! Frames, put one after the other.
ghost use Rattle.std.specs.Prelude.{◌≡◌, ◌+◌, ◌-◌, ◌^◌, ◌<◌, ◌≤◌, ◌++◌, [], IfOk, length};
ghost use Rattle.std.specs.Prelude.{replicate, false, if◌then◌else◌, bytes_eq, not, ◌==◌, ◌||◌};
ghost use Rattle.std.specs.Fmt.{digits};
ghost use Rattle.std.specs.List.{AllByRecursion};
ghost use Rattle.aig_io.specs.Output.{Appended};
ghost use Rattle.aig_wave.specs.Frames.{closing_line, frame, next_state};
ghost use Rattle.aig_wave.specs.Wave.{bits, change_text, frame_text, run_number_text};
ghost use Rattle.aig_wave.specs.Wave.{time_text, value_text};
ghost use Rattle.aig_wave.specs.Parts.Groups.{AreSignalGroups, IsGroup};
ghost use Rattle.aig_wave.specs.Parts.Points.{begin_of, behind_line, head_at, line_piece};
ghost use Rattle.aig_wave.specs.Parts.SignalCodes.{IsSignalCode, changes_text, signal_in};

use crate::bits::put_bits;
use crate::digit::write_digits;
use crate::group::Group;
use crate::layout::Layout;
use crate::reversed::put_reversed;
use crate::signal::Signal;
use crate::signal_code::SignalCode;
use aig_circuit::OutOfMemory;
use aig_io::{Output, Sink};
use aig_step::is_stop;
use std::alloc::Global;
use std::marker::Model;

/// To put so few signals costs no more than to compare their group first.
const FEW: usize = 4;

/// The characters of a signal in a line.
#[inline(always)]
fn bits<'a>(signal: &Signal, line: &'a [u8]) -> &'a [u8]
    ensures { result.now ≡ bits signal.now line.now }
{
    let start = signal.start.min(line.len());
    let (_, rest) = line.split_at(start);
    let size = (signal.size as usize).min(rest.len());
    let (front, _) = rest.split_at(size);
    front
}

/// Puts the value of a signal.
fn put_value<W: Sink>(output: &mut Output<W>, signal: &Signal, characters: &[u8])
    ensures { Appended output.old output.new (value_text signal.now characters.now) }
{
    if signal.size == 1 {
        output.put(characters);
        return;
    }
    output.put(b"b");
    put_reversed(output, characters);
    output.put(b" ");
}

/// Whether characters are shown at this time: at the first, and where they are others than before.
#[inline(always)]
fn is_new(time: u64, before: &[u8], characters: &[u8]) -> bool
    ensures { result ≡ ((time == 0) || not (bytes_eq before.now characters.now)) }
{
    time == 0 || before != characters
}

/// Whether a run is shown at this time.
fn is_new_run(time: u64, before: u64, run: u64) -> bool
    ensures { result ≡ ((time == 0) || not (before == run)) }
{
    time == 0 || before != run
}

/// Puts the value of a signal, where it is another one than before.
fn put_change<W: Sink>(
    output: &mut Output<W>,
    time: u64,
    before: &[u8],
    line: &[u8],
    signal_code: &SignalCode,
)
    requires { IsSignalCode signal_code.now }
    ensures { Appended output.old output.new
        (change_text time (frame 0 before.now) (frame 0 line.now) (signal_in signal_code.now)) }
{
    let characters = bits(&signal_code.signal, line);
    if is_new(time, bits(&signal_code.signal, before), characters) {
        put_value(output, &signal_code.signal, characters);
        output.put(signal_code.tail());
    }
}

/// Puts the values of signals, where they are others than before.
fn put_signal_codes<W: Sink>(
    output: &mut Output<W>,
    time: u64,
    before: &[u8],
    line: &[u8],
    signal_codes: &[SignalCode],
)
    requires { AllByRecursion IsSignalCode signal_codes.now }
    ensures { Appended output.old output.new (changes_text time before.now line.now
        signal_codes.now) }
{
    for signal_code in signal_codes {
        put_change(output, time, before, line, signal_code);
    }
}

/// Puts the values of the signals of a group, where they are others than before.
#[inline(always)]
fn put_group<W: Sink>(
    output: &mut Output<W>,
    time: u64,
    before: &[u8],
    line: &[u8],
    group: &Group,
    signal_codes: &[SignalCode],
)
    requires group { IsGroup group.now signal_codes.now }
    requires signal_codes { AllByRecursion IsSignalCode signal_codes.now }
    ensures { Appended output.old output.new (changes_text time before.now line.now
        signal_codes.now) }
{
    if time > 0 && group.has_bits_in(before) && group.has_bits_in(line) {
        put_bits(output, before, line, signal_codes);
    } else {
        put_signal_codes(output, time, before, line, signal_codes);
    }
}

/// Puts the values of the signals of a group, where the characters of the group are others than
/// before, or are few.
#[inline(always)]
fn put_new_group<W: Sink>(
    output: &mut Output<W>,
    time: u64,
    before: &[u8],
    line: &[u8],
    group: &Group,
    signal_codes: &[SignalCode],
)
    requires group { IsGroup group.now signal_codes.now }
    requires signal_codes { AllByRecursion IsSignalCode signal_codes.now }
    ensures { Appended output.old output.new (changes_text time before.now line.now
        signal_codes.now) }
{
    if signal_codes.len() <= FEW || is_new(time, group.stretch(before), group.stretch(line)) {
        put_group(output, time, before, line, group, signal_codes);
    }
}

/// Puts the values of signals, where they are others than before.
#[inline(always)]
fn put_changes<W: Sink>(
    output: &mut Output<W>,
    time: u64,
    before: &[u8],
    line: &[u8],
    groups: &[Group],
    signal_codes: &[SignalCode],
)
    requires groups { AreSignalGroups groups.now signal_codes.now }
    requires signal_codes { AllByRecursion IsSignalCode signal_codes.now }
    ensures { Appended output.old output.new (changes_text time before.now line.now
        signal_codes.now) }
{
    let mut rest = signal_codes;
    for group in groups {
        let (front, others) = group.split(rest);
        put_new_group(output, time, before, line, group, front);
        rest = others;
    }
}

/// Puts a time.
#[inline(always)]
fn put_time<W: Sink>(output: &mut Output<W>, time: u64)
    ensures { Appended output.old output.new (time_text time) }
{
    output.put(b"#");
    output.put_row(time, &[]);
}

/// Puts a number in binary.
fn put_binary_number<W: Sink>(output: &mut Output<W>, number: u64)
    ensures { Appended output.old output.new (digits 2 false number) }
{
    let mut room = [0u8; 64];
    let at = write_digits(number, 2, &mut room);
    output.put(&room[at..]);
}

/// Puts the run of a frame, where it is another one than before.
#[inline(always)]
fn put_run_number<W: Sink>(output: &mut Output<W>, time: u64, before: u64, run: u64)
    ensures { Appended output.old output.new (run_number_text time (frame before [])
        (frame run [])) }
{
    if is_new_run(time, before, run) {
        output.put(b"b");
        put_binary_number(output, run);
        output.put(b" r\n");
    }
}

/// Puts the head, where nothing was put before.
fn put_head<W: Sink>(output: &mut Output<W>, layout: &Layout, time: u64)
    ensures { Appended output.old output.new (head_at layout.now time) }
{
    if time == 0 {
        output.put(layout.head());
    }
}

/// What is shown from one time to the next: the run, and a line of a trace.
#[derive(Clone, Copy)]
struct Frame<'a> {
    run: u64,
    line: &'a [u8],
}

/// Puts a frame after another, and the head before the first.
#[inline(always)]
fn put_frame<W: Sink>(
    output: &mut Output<W>,
    layout: &Layout,
    time: u64,
    before: Frame,
    shown: Frame,
)
    ensures { Appended output.old output.new (head_at layout.now time ++ frame_text layout.now time
        (frame before.entry.run before.entry.line.now)
        (frame shown.entry.run shown.entry.line.now)) }
{
    put_head(output, layout, time);
    put_time(output, time);
    put_run_number(output, time, before.run, shown.run);
    let (signal_codes, groups) = layout.signal_codes();
    put_changes(output, time, before.line, shown.line, groups, signal_codes);
}

/// The state in which the next line stands, where this is the line before, and the run has a step
/// or not.
fn next_line_state<'a>(layout: &'a Layout, before: &'a [u8], ran: bool) -> &'a [u8]
    requires { length before.now ≡ layout.now.width }
    ensures value { result.now
        ≡ (if ran then next_state layout.now before.now else layout.now.resets) }
    ensures within { length result.now ≤ layout.now.width }
{
    let resets = layout.resets();
    if ran {
        let next = layout.next();
        return &before[next..next + resets.len()];
    }
    resets
}

/// Writes the line at the end of a run: the state, and z for all else.
fn write_closing(line: &mut [u8], state: &[u8])
    requires { length state.now ≤ length line.old }
    ensures { line.new ≡ state.now ++ replicate (length line.old - length state.now) 122 }
{
    let (front, rest) = line.split_at_mut(state.len());
    front.copy_from_slice(state);
    rest.fill(b'z');
}

/// Where a dump stands.
#[derive(Drop)]
pub(crate) struct DumpState {
    layout: Layout,
    time: u64,
    run: u64,
    /// Whether the run has a step.
    ran: bool,
    /// The frame before.
    before: Vec<u8>,
    before_run: u64,
    /// A place for the line at the end of a run.
    closing: Vec<u8>,
}

impl Model for DumpState {
    ghost use Rattle.std.specs.Prelude.{◌≡◌, ◌≤◌, length, if◌then◌else◌};
    ghost use Rattle.aig_wave.specs.Frames.{frame, next_state};
    ghost use Rattle.aig_wave.specs.Parts.Points.{Taping};

    ghost Value = { Taping };

    ghost view = { λ t. record {
      layout = t.layout;
      point = record {
        time = t.time;
        run = t.run;
        state = if t.ran then next_state t.layout t.before.items else t.layout.resets;
        before = frame t.before_run t.before.items;
      };
    } };

    ghost invariant = { λ t. (t.run ≤ t.time) × (length t.before.items ≡ t.layout.width)
        × (length t.closing.items ≡ t.layout.width) };
}

impl DumpState {
    /// It stands before the first frame.
    pub(crate) fn new(alloc: Global, layout: Layout) -> Result<Self, OutOfMemory>
        ensures { IfOk result (λ t. t ≡ record { layout = layout; point = begin_of layout }) }
    {
        let before = vec![in alloc; b'z'; layout.width()]?;
        let closing = vec![in alloc; b'z'; layout.width()]?;
        Ok(DumpState {
            layout,
            time: 0,
            run: 0,
            ran: false,
            before,
            before_run: 0,
            closing,
        })
    }

    /// Puts the frame of a step.
    #[inline(always)]
    fn take_step<W: Sink>(&mut self, output: &mut Output<W>, text: &[u8])
        requires time { self.old.point.time < 2 ^ 64 - 1 }
        requires whole { length text.now ≡ self.old.layout.width }
        ensures point { self.new ≡ record self.old {
          point = record {
            time = self.old.point.time + 1;
            run = self.old.point.run;
            state = next_state self.old.layout text.now;
            before = frame self.old.point.run text.now;
          };
        } }
        ensures put { Appended output.old output.new (head_at self.old.layout self.old.point.time
            ++ frame_text self.old.layout self.old.point.time self.old.point.before
            (frame self.old.point.run text.now)) }
    {
        let before = Frame {
            run: self.before_run,
            line: self.before.as_slice(),
        };
        let shown = Frame {
            run: self.run,
            line: text,
        };
        put_frame(output, &self.layout, self.time, before, shown);
        self.before.copy_from_slice(text);
        self.before_run = self.run;
        self.ran = true;
        self.time += 1;
    }

    /// Puts the frame at the end of a run.
    fn take_stop<W: Sink>(&mut self, output: &mut Output<W>)
        requires { self.old.point.time < 2 ^ 64 - 1 }
        ensures point { self.new ≡ record self.old {
          point = record {
            time = self.old.point.time + 1;
            run = self.old.point.run + 1;
            state = self.old.layout.resets;
            before = frame self.old.point.run (closing_line self.old.layout self.old.point.state);
          };
        } }
        ensures put { Appended output.old output.new (head_at self.old.layout self.old.point.time
            ++ frame_text self.old.layout self.old.point.time self.old.point.before
            (frame self.old.point.run (closing_line self.old.layout self.old.point.state))) }
    {
        let state = next_line_state(&self.layout, self.before.as_slice(), self.ran);
        write_closing(self.closing.as_mut_slice(), state);
        let before = Frame {
            run: self.before_run,
            line: self.before.as_slice(),
        };
        let shown = Frame {
            run: self.run,
            line: self.closing.as_slice(),
        };
        put_frame(output, &self.layout, self.time, before, shown);
        self.before.copy_from_slice(self.closing.as_slice());
        self.before_run = self.run;
        self.ran = false;
        self.run += 1;
        self.time += 1;
    }

    /// Takes a line, and puts its frame. One that is no line of a trace, or has no time of 64 bits,
    /// is passed over.
    #[inline(always)]
    pub(crate) fn take_line<W: Sink>(&mut self, output: &mut Output<W>, text: &[u8])
        ensures point { self.new
            ≡ record self.old { point = behind_line self.old.layout self.old.point text.now } }
        ensures put { Appended output.old output.new
            (line_piece self.old.layout self.old.point text.now) }
    {
        if self.time == u64::MAX {
            return;
        }
        if is_stop(text) {
            self.take_stop(output);
        } else if text.len() == self.layout.width() {
            self.take_step(output, text);
        }
    }

    /// Puts the time at which the last frame ends, where the trace is done.
    pub(crate) fn put_end<W: Sink>(&self, output: &mut Output<W>, done: bool)
        ensures { Appended output.old output.new (if done
            then head_at self.now.layout self.now.point.time ++ time_text self.now.point.time
            else []) }
    {
        if done {
            put_head(output, &self.layout, self.time);
            put_time(output, self.time);
        }
    }
}
