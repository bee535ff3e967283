//! What stands here for options of other programs: of Biere's tools and of ABC.
use std::alloc::{AllocError, Global};

const IN_ASCII: &str = "to write ASCII, use --ascii";

const STRIPPED: &str = "to leave out symbols and comment, use --strip";

const BY_CHANCE: &str = "random steps are a stimulus, which examples/python/stimulus.py writes";

const WITNESS: &str = "to judge a witness, use --witness";

const WAVEFORM: &str = "to write a waveform, use --vcd";

const FRAMES: &str = "the number of time frames is given by --frames";

/// What stands here for this option of the command.
fn hint<'a>(command: &str, option: &str) -> Option<&'a str> {
    let hint = match (command, option) {
        ("aigtoaig" | "aigunroll", "-a") => IN_ASCII,
        ("aigtoaig", "-s") => STRIPPED,
        ("aigsim", "-r" | "-s") => BY_CHANCE,
        ("aigsim", "-c" | "-w") => WITNESS,
        ("aigsim", "-v") => WAVEFORM,
        ("aigunroll", "-k" | "-F") => FRAMES,
        _ => return None,
    };
    Some(hint)
}

/// The text of `clap` on a command line that is refused. Where it says how an option that is not
/// known can be passed as a value, and there is a hint on this option, it says that instead.
pub(crate) fn with_hint(alloc: Global, words: &[String], text: &str) -> Result<String, AllocError> {
    if let [_, command, ..] = words
        && let Some((before, named)) = text.split_once("  tip: to pass '")
        && let Some((option, tip)) = named.split_once('\'')
        && let Some(hint) = hint(command.as_str(), option)
        && let Some((_, after)) = tip.split_once('\n')
    {
        return format!(in alloc; "{before}  tip: {hint}\n{after}");
    }
    String::from_str(alloc, text)
}
