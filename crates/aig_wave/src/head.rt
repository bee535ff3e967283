//! The head of a dump.
ghost use Rattle.std.specs.Prelude.{◌≡◌, ◌+◌, ◌<◌, ◌^◌, ◌++◌, [], OnOk, decimal, codes};
ghost use Rattle.std.specs.Prelude.{slice_index_or};
ghost use Rattle.std.specs.List.{flat_map};
ghost use Rattle.aig_wave.specs.Names.{shown};
ghost use Rattle.aig_wave.specs.Head.{closing, code, opening, range_text, scope, sort};
ghost use Rattle.aig_wave.specs.Head.{var_text, words};

use crate::digit::write_digits;
use crate::name::{shown_byte, split_index};
use crate::place::letter;
use crate::signal::{Name, Signal};
use aig_circuit::{Kind, OutOfMemory};

const OPENING: &[u8] = b"\
$version aiger $end\n$timescale 1 ns $end\n$scope module aiger $end\n\
$var integer 64 r run $end\n";

/// Adds bytes.
fn put(text: &mut Vec<u8>, bytes: &[u8]) -> Result<(), OutOfMemory>
    ensures { OnOk result (text.new.items ≡ text.old.items ++ bytes.now) }
{
    text.extend_from_slice(bytes)?;
    Ok(())
}

/// Adds a number in decimal.
fn put_number(text: &mut Vec<u8>, number: u64) -> Result<(), OutOfMemory>
    ensures { OnOk result (text.new.items ≡ text.old.items ++ decimal number) }
{
    let mut digits = [0u8; 64];
    let at = write_digits(number, 10, &mut digits);
    put(text, &digits[at..])
}

/// Adds a name as it is shown.
fn put_shown(text: &mut Vec<u8>, name: &[u8]) -> Result<(), OutOfMemory>
    ensures { OnOk result (text.new.items ≡ text.old.items ++ shown name.now) }
{
    for byte in name {
        text.push(shown_byte(*byte))?;
    }
    Ok(())
}

/// Adds the identifier code of a signal.
fn put_code(text: &mut Vec<u8>, signal: &Signal) -> Result<(), OutOfMemory>
    ensures { OnOk result (text.new.items ≡ text.old.items ++ code signal.now) }
{
    text.push(letter(signal.kind))?;
    put_number(text, u64::from(signal.first))
}

/// Adds the indices of a signal.
fn put_range(text: &mut Vec<u8>, index: u64, size: u32) -> Result<(), OutOfMemory>
    requires { index < 10 ^ 9 }
    ensures { OnOk result (text.new.items ≡ text.old.items ++ range_text index size) }
{
    if size != 1 {
        put_number(text, (index + u64::from(size)).saturating_sub(1))?;
        put(text, b":")?;
    }
    put_number(text, index)
}

/// Adds the words of a name with an index.
fn put_indexed(text: &mut Vec<u8>, front: &[u8], index: u64, size: u32) -> Result<(), OutOfMemory>
    requires { index < 10 ^ 9 }
    ensures { OnOk result (text.new.items
        ≡ text.old.items
        ++ (shown front.now ++ (codes " [" ++ (range_text index size ++ codes "]")))) }
{
    put_shown(text, front)?;
    put(text, b" [")?;
    put_range(text, index, size)?;
    put(text, b"]")
}

/// Adds the words that name a signal.
fn put_signal_words(text: &mut Vec<u8>, signal: &Signal, name: &[u8]) -> Result<(), OutOfMemory>
    ensures { OnOk result (text.new.items ≡ text.old.items ++ words signal.now name.now) }
{
    match split_index(name) {
        Some((front, index)) => put_indexed(text, front, index, signal.size),
        None if name.is_empty() => put_code(text, signal),
        None => put_shown(text, name),
    }
}

/// How the declaration of a signal of a kind begins.
fn sort(kind: Kind) -> &'static [u8]
    ensures { result.now ≡ sort kind }
{
    match kind {
        Kind::Latch => b"$var reg ",
        _ => b"$var wire ",
    }
}

/// The name of a position, which is empty where there is none.
fn name_at<'a>(names: &[Name<'a>], at: usize) -> &'a [u8]
    ensures { result.now ≡ slice_index_or names.now at [] }
{
    if at < names.len() {
        names[at].as_slice()
    } else {
        b""
    }
}

/// Adds the declaration of a signal.
fn put_var(text: &mut Vec<u8>, names: &[Name], signal: &Signal) -> Result<(), OutOfMemory>
    ensures { OnOk result (text.new.items ≡ text.old.items ++ var_text names.now signal.now) }
{
    let name = name_at(names, signal.first as usize);
    put(text, sort(signal.kind))?;
    put_number(text, u64::from(signal.size))?;
    put(text, b" ")?;
    put_code(text, signal)?;
    put(text, b" ")?;
    put_signal_words(text, signal, name)?;
    put(text, b" $end\n")
}

/// Adds the declarations of signals.
fn put_vars(text: &mut Vec<u8>, names: &[Name], signals: &[Signal]) -> Result<(), OutOfMemory>
    ensures { OnOk result (text.new.items
        ≡ text.old.items ++ flat_map (var_text names.now) signals.now) }
{
    for signal in signals {
        put_var(text, names, signal)?;
    }
    Ok(())
}

/// How the scope of a kind begins.
fn scope(kind: Kind) -> &'static [u8]
    ensures { result.now ≡ scope kind }
{
    match kind {
        Kind::Input => b"$scope module inputs $end\n",
        Kind::Latch => b"$scope module latches $end\n",
        Kind::Output => b"$scope module outputs $end\n",
        Kind::Bad => b"$scope module bad $end\n",
        _ => b"$scope module constraints $end\n",
    }
}

/// Adds the scope of a kind with these signals.
pub(crate) fn put_scope(
    text: &mut Vec<u8>,
    kind: Kind,
    names: &[Name],
    signals: &[Signal],
) -> Result<(), OutOfMemory>
    ensures { OnOk result (text.new.items
        ≡ text.old.items
        ++ (scope kind ++ (flat_map (var_text names.now) signals.now ++ codes "$upscope $end\n"))) }
{
    put(text, scope(kind))?;
    put_vars(text, names, signals)?;
    put(text, b"$upscope $end\n")
}

/// Adds what stands before all scopes.
pub(crate) fn put_opening(text: &mut Vec<u8>) -> Result<(), OutOfMemory>
    ensures { OnOk result (text.new.items ≡ text.old.items ++ opening) }
{
    put(text, OPENING)
}

/// Adds what stands after all scopes.
pub(crate) fn put_closing(text: &mut Vec<u8>) -> Result<(), OutOfMemory>
    ensures { OnOk result (text.new.items ≡ text.old.items ++ closing) }
{
    put(text, b"$upscope $end\n$enddefinitions $end\n")
}
