//! Circuits as arrays: read from the bytes of a file, and written as them.
ghost use Rattle.std.specs.Prelude.{◌≡◌, ◌≤◌, ◌++◌, ◌↔◌, length, IfErr, IfOk, IsTrue, false};
ghost use Rattle.aig_circuit.specs.Wellformed.{defined_variables};
ghost use Rattle.aig_text.specs.AsciiText.{ascii_text};
ghost use Rattle.aig_arrays.specs.Ordered.{IsNumberedImage};
ghost use Rattle.aig_arrays.specs.Words.{HasWords, bytes_length, circuit_bytes};
ghost use Rattle.aig_arrays.specs.Words.{circuit_words, counts_of};
ghost use Rattle.aig_commands.specs.Conversion.{IsTextAs};
ghost use Rattle.aig_commands.specs.File.{IsFileOf};
ghost use Rattle.aig_commands.specs.Reading.{IsUnreadable};
ghost use Rattle.aig_library.specs.Arrays.{ArePlaced, HasRoom, IsReadAs, IsReadRefused};
ghost use Rattle.aig_library.specs.Arrays.{IsShownAs, ReadAnswers, WriteAnswers, arrays};
ghost use Rattle.aig_library.specs.Arrays.{arrays_of, in_front};
ghost use Rattle.aig_library.specs.Asked.{CanRead, has};
ghost use Rattle.aig_library.specs.Outcome.{StopsInMemory};

use crate::asked::{ASCII, ORDERED, has, only_has};
use crate::outcome::{BAD_OPTIONS, DONE, Outcome, TOO_SHORT, answer, ending, outcome_of};
use aig_arrays::{Counts, counts_of, numbered_image, put_bytes, put_words, read_arrays};
use aig_binary::{read_file, write_binary};
use aig_commands::{Stopped, refused_whole};
use aig_convert::into_binary;
use aig_core::{Checked, Keep, LARGEST, OutOfMemory, Steps, VecSink};
use aig_fault::Kind;
use aig_text::{Limits, write_ascii};
use std::alloc::Global;

/// What is kept of the check of a circuit: the order of its gates, where its image is made.
fn what_to_keep(is_imaged: bool) -> Keep {
    if is_imaged {
        Keep::Order
    } else {
        Keep::Circuit
    }
}

/// The circuit of a file.
fn circuit_read(alloc: Global, options: u32, max_var: u32, input: &[u8]) -> Result<Checked, Stopped>
    ensures ok { IfOk result (λ found. IsFileOf input.now max_var found) }
    ensures err { IfErr result (StopsInMemory (λ fault. IsUnreadable max_var fault input.now)) }
{
    let keep = what_to_keep(has(options, ORDERED));
    read_file(alloc, input, Limits { max_var }, keep)
}

/// Room for a number for each variable that a circuit defines.
fn room_for_numbers(alloc: Global, found: &Checked) -> Result<Vec<u32>, OutOfMemory>
    ensures { IfOk result (λ numbers.
        length numbers.items ≡ length (defined_variables found.now)) }
{
    let circuit = found.circuit();
    let defined = circuit.inputs.len() + circuit.latches.len() + circuit.gates.len();
    Ok(vec![in alloc; 0; defined]?)
}

/// The binary image of a circuit, and the new number of each variable that the circuit defines.
fn image_and_numbers(alloc: Global, found: Checked) -> Result<(Checked, Vec<u32>), OutOfMemory>
    ensures { IfOk result (λ made. IsNumberedImage found made.0 made.1.items) }
{
    let mut numbers = room_for_numbers(alloc, &found)?;
    let image = numbered_image(alloc, found, numbers.as_mut_slice())?;
    Ok((image.into_checked(), numbers))
}

/// The circuit that is shown for one that was read, and the numbers that follow its words.
fn circuit_shown(
    alloc: Global,
    options: u32,
    found: Checked,
) -> Result<(Checked, Vec<u32>), OutOfMemory>
    ensures { IfOk result (λ made.
        IsShownAs (has options ORDERED) found made.0 made.1.items) }
{
    if has(options, ORDERED) {
        image_and_numbers(alloc, found)
    } else {
        Ok((found, Vec::new(alloc)))
    }
}

/// What is put into arrays: a circuit, the numbers that follow its words, and its counts.
#[derive(Drop)]
struct Shown {
    circuit: Checked,
    numbers: Vec<u32>,
    counts: Counts,
}

/// What is shown of the circuit of a file, unless its symbols or the bytes of their names are too
/// many.
fn shown_of_file(alloc: Global, options: u32, max_var: u32, input: &[u8]) -> Result<Shown, Stopped>
    ensures ok { IfOk result (λ s.
        IsReadAs options max_var input.now (arrays_of s.circuit s.numbers.items)) }
    ensures counts { IfOk result (λ s. (s.counts ≡ counts_of s.circuit) × HasWords s.circuit) }
    ensures err { IfErr result (StopsInMemory (IsReadRefused max_var input.now)) }
{
    let found = circuit_read(alloc, options, max_var, input)?;
    let (circuit, numbers) = circuit_shown(alloc, options, found)?;
    let Some(counts) = counts_of(&circuit) else {
        return Err(refused_whole(Kind::TooLarge));
    };
    Ok(Shown {
        circuit,
        numbers,
        counts,
    })
}

/// Whether there is room for the bytes of a circuit.
fn has_room(counts: &Counts, bytes: &[u8]) -> bool
    ensures { IsTrue result ↔ (bytes_length counts.now ≤ length bytes.now) }
{
    let room = bytes.len() as u64;
    counts.name_bytes <= room && counts.comment_bytes <= room - counts.name_bytes
}

/// How many words there are, with the numbers.
fn length_of_words(shown: &Shown) -> usize
    requires { shown.now.counts ≡ counts_of shown.now.circuit }
    ensures { result ≡ length (circuit_words shown.now.circuit ++ shown.now.numbers.items) }
{
    shown.counts.words() as usize + shown.numbers.len()
}

/// Whether both arrays have room.
#[tactic(auto, using(aig_arrays::proofs::Written::bytes_counted))]
fn have_room(shown: &Shown, words: &[u32], bytes: &[u8]) -> bool
    requires { shown.now.counts ≡ counts_of shown.now.circuit }
    ensures { IsTrue result
        ↔ HasRoom (arrays_of shown.now.circuit shown.now.numbers.items)
        (arrays words.now bytes.now shown.now.counts) }
{
    length_of_words(shown) <= words.len() && has_room(&shown.counts, bytes)
}

/// Puts the words of a circuit, the numbers that follow them, and its bytes.
fn put_arrays(shown: &Shown, words: &mut [u32], bytes: &mut [u8])
    requires counts { shown.now.counts ≡ counts_of shown.now.circuit }
    requires words { HasWords shown.now.circuit }
    requires room { HasRoom (arrays_of shown.now.circuit shown.now.numbers.items)
        (arrays words.old bytes.old shown.now.counts) }
    ensures words { words.new
        ≡ in_front (circuit_words shown.now.circuit ++ shown.now.numbers.items) words.old }
    ensures bytes { bytes.new ≡ in_front (circuit_bytes shown.now.circuit) bytes.old }
{
    let at = shown.counts.words() as usize;
    let end = at + shown.numbers.len();
    put_words(&shown.circuit, words);
    words[at..end].copy_from_slice(shown.numbers.as_slice());
    put_bytes(&shown.circuit, bytes);
}

/// Puts words and bytes at the front of arrays, where both have room, and the counts.
fn place_arrays(shown: &Shown, words: &mut [u32], bytes: &mut [u8], counts: &mut Counts) -> Outcome
    requires counts { shown.now.counts ≡ counts_of shown.now.circuit }
    requires words { HasWords shown.now.circuit }
    ensures { ArePlaced (arrays_of shown.now.circuit shown.now.numbers.items)
        (arrays words.old bytes.old counts.old) (arrays words.new bytes.new counts.new) result }
{
    *counts = shown.counts;
    let length = length_of_words(shown) as u64;
    if !have_room(shown, words, bytes) {
        return ending(TOO_SHORT, 0, length);
    }
    put_arrays(shown, words, bytes);
    ending(DONE, 0, length)
}

/// Whether the numbers can be met that ask for arrays.
fn can_read(options: u32, max_var: u32) -> bool
    ensures { IsTrue result ↔ CanRead options max_var }
{
    only_has(options, ORDERED) && max_var <= LARGEST
}

/// Reads the bytes of an AIGER file into arrays, at their front, and tells the counts. With
/// `ORDERED` the circuit in them is the binary image, and after its symbols stands the new number
/// of each variable that the file defines. The outcome's length is how many words there are. Where
/// an array has no room, both are as they were, and the counts are told. The largest index and the
/// counts of the input are at most `max_var`.
pub fn read(
    alloc: Global,
    options: u32,
    max_var: u32,
    input: &[u8],
    words: &mut [u32],
    bytes: &mut [u8],
    counts: &mut Counts,
) -> Outcome
    ensures { ReadAnswers options max_var input.now (arrays words.old bytes.old counts.old)
        (arrays words.new bytes.new counts.new) result }
{
    if !can_read(options, max_var) {
        return ending(BAD_OPTIONS, 0, 0);
    }
    match shown_of_file(alloc, options, max_var, input) {
        Ok(shown) => place_arrays(&shown, words, bytes, counts),
        Err(stopped) => outcome_of(&stopped),
    }
}

/// The ASCII text of a circuit.
fn ascii_text(alloc: Global, circuit: &Checked) -> Result<Vec<u8>, Stopped>
    ensures ok { IfOk result (λ text. text.items ≡ ascii_text circuit.now) }
    ensures err { IfErr result (StopsInMemory (λ _. ⊥)) }
{
    let mut sink = VecSink::new(alloc);
    write_ascii(circuit, &mut sink)?;
    Ok(sink.into_vec())
}

/// The binary text of the image of a circuit.
fn binary_text(alloc: Global, circuit: Checked) -> Result<Vec<u8>, Stopped>
    ensures ok { IfOk result (λ text. IsTextAs false false circuit text.items) }
    ensures err { IfErr result (StopsInMemory (λ _. ⊥)) }
{
    let image = into_binary(alloc, circuit, &mut Steps::new())?;
    let mut sink = VecSink::new(alloc);
    let written = write_binary(&image, &mut sink);
    drop(image); // for the proof
    written?;
    Ok(sink.into_vec())
}

/// The text of a circuit, in ASCII or in binary.
fn text_of(alloc: Global, is_ascii: bool, circuit: Checked) -> Result<Vec<u8>, Stopped>
    ensures ok { IfOk result (λ text. IsTextAs is_ascii false circuit text.items) }
    ensures err { IfErr result (StopsInMemory (λ _. ⊥)) }
{
    if !is_ascii {
        return binary_text(alloc, circuit);
    }
    let text = ascii_text(alloc, &circuit);
    drop(circuit); // for the proof
    text
}

/// Writes the circuit that arrays tell as an AIGER file: its binary image, or with `ASCII` the
/// circuit itself. The arrays are whole: there are as many words and bytes as the counts say.
pub fn write(
    alloc: Global,
    options: u32,
    counts: &Counts,
    words: &[u32],
    bytes: &[u8],
    output: &mut [u8],
) -> Outcome
    ensures { WriteAnswers options (arrays words.now bytes.now counts.now)
        output.old output.new result }
{
    if !only_has(options, ASCII) {
        return ending(BAD_OPTIONS, 0, 0);
    }
    let is_ascii = has(options, ASCII);
    match read_arrays(alloc, counts, words, bytes, what_to_keep(!is_ascii)) {
        Ok(circuit) => answer(text_of(alloc, is_ascii, circuit), output),
        Err(stopped) => outcome_of(&stopped),
    }
}
