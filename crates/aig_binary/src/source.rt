//! A source that is read to its end as a file of either kind.
ghost use Rattle.std.specs.Prelude.{◌≡◌, ◌+◌, ◌^◌, ◌≤◌, IfErr, IfOk, length, not};
ghost use Rattle.aig_io.specs.Devices.{GaveSome, History, gave};
ghost use Rattle.aig_io.specs.Runs.{Read};
ghost use Rattle.aig_binary.specs.File.{AnswersFile, IsFileOf};
ghost use Rattle.aig_binary.specs.Reading.{AtItsEnd, IsUnreadable, ReadSays};
ghost use Rattle.aig_text.specs.Sources.{ReadsAs};

use crate::file::read_file;
use crate::pieces::BinaryReader;
use crate::reader::BINARY_WORD;
use aig_core::{Checked, Keep, Ordered, ReadError, Source, Window};
use aig_fault::Stopped;
use aig_lines::ended_lines;
use aig_text::{AsciiReader, Limits, check_read, fetch_all, fetch_piece, first_word_is, read_rest};
use std::alloc::Global;

/// Lets go of the room that bytes do not fill, and answers whether no memory was refused. Room
/// grows by doubling, so it may be twice what is filled. Where a block of up to 32 MB is let go,
/// the C library of Linux keeps blocks of that size from then on, and what is made of the circuit
/// takes them again: without this the system would give and clear new pages for it.
fn fit(bytes: &mut Vec<u8>) -> bool
    ensures { bytes.new.items ≡ bytes.old.items }
{
    bytes.shrink_to_fit();
    bytes.capacity() == bytes.len()
}

/// The first bytes of a source, with a line at least, and whether it goes on.
fn fetch_first<R: Source>(alloc: Global, source: &mut R) -> Result<(Window, bool), ReadError>
    ensures ok { IfOk result (λ x. R.history source.new
        ≡ gave x.0 (not x.1) (R.history source.old)) }
    ensures bound { IfOk result (λ x. R.bound source.new + length x.0 ≤ 2 ^ 62) }
    ensures err { IfErr result (λ error. GaveSome error (R.history source.old)
        (R.history source.new)) }
{
    let mut window = Window::new(alloc)?;
    if !window.fill(source)? {
        return Ok((window, false));
    }
    let (lines, _) = ended_lines(window.as_slice());
    if !lines.is_empty() {
        return Ok((window, true));
    }
    let more = fetch_piece(source, &mut window, true)?;
    Ok((window, more))
}

/// Reads a file of which the window has the first bytes, when all of them are there.
fn read_whole<R: Source>(
    alloc: Global,
    source: &mut R,
    window: Window,
    more: bool,
    limits: Limits,
    keep: Keep,
) -> Result<Checked, Stopped>
    ensures { (before : History) → R.history source.old ≡ gave window (not more) before
        → ReadsAs (AnswersFile limits.max_var) result before (R.history source.new) }
{
    let mut bytes = fetch_all(source, window, more)?;
    if !fit(&mut bytes) {
        return Err(Stopped::OutOfMemory);
    }
    // The text ends here: it is not needed from here on, and may be larger than the circuit.
    read_file(alloc, bytes.as_slice(), limits, keep)
}

/// Reads the source to its end, as a file of either kind within this limit, and keeps what is
/// wanted of the check later. Only a part of it is held at a time.
pub fn read_source<R: Source>(
    alloc: Global,
    source: &mut R,
    max_var: u32,
    keep: Keep,
) -> Result<Checked, Stopped>
    ensures { Read
        (ReadSays (λ found bytes. IsFileOf bytes max_var found) (AtItsEnd (IsUnreadable max_var))
        result)
        (R.history source.old) (R.history source.new) }
{
    let limits = Limits { max_var };
    let (first, more) = fetch_first(alloc, source)?;
    let (lines, _) = ended_lines(first.as_slice());
    if !more || lines.is_empty() {
        return read_whole(alloc, source, first, more, limits, keep);
    }
    if first_word_is(lines, BINARY_WORD) {
        let (binary, header_len) = BinaryReader::begin(alloc, lines, limits);
        let mut others = first;
        others.pass(header_len);
        let found = read_rest(alloc, source, others, binary)?;
        return Ok(Ordered::from_well_ordered(found).into_checked());
    }
    let (reader, used) = AsciiReader::begin(alloc, lines, limits);
    let mut window = first;
    window.pass(used);
    let circuit = read_rest(alloc, source, window, reader)?;
    check_read(alloc, circuit, keep)
}
