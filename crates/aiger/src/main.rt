//! The program: the arguments and the streams of the process, and the status that `serve` answers.
//!
//! `main` lends `serve` of `aig_tools` the arguments and a `World`, of the files of the system and
//! the three standard streams, tells it whether the standard output is a terminal, and ends with the
//! status that it answers. Nothing else is done here. The
//! program's own name is not looked at, since it may be no text. Arguments that are no text are
//! refused, and so is a start without memory for them.
//!
//! The files `args` and `stdin` beside `src` are the run that `rt ci` makes, and `stdout` is what
//! it must write. This crate has no modules and no definitions of its own.
#![tactic(auto)]

use aig_core::{ReadSource, WriteSink};
use aig_tools::{HostFiles, World, output_is_terminal, refuse_for_memory, refuse_words, serve};
use std::alloc::Global;
use std::env::FillError;
use std::process::ExitCode;
use std::rt::Env;
use std::{env, io};

/// The environment of a program without a name. The name that the program is called by is a path,
/// which may be no text, and nothing looks at it.
#[derive(Drop)]
struct Nameless<'a, R> {
    rt: &'a R,
}

impl<R: Env> Env for Nameless<'_, R> {
    fn arg(&self, index: usize, buffer: &mut [u8]) -> Result<usize, FillError> {
        if index == 0 {
            return Ok(0);
        }
        self.rt.arg(index, buffer)
    }

    fn var(&self, name: &str, buffer: &mut [u8]) -> Result<usize, FillError> {
        self.rt.var(name, buffer)
    }

    fn var_at(&self, index: usize, buffer: &mut [u8]) -> Result<usize, FillError> {
        self.rt.var_at(index, buffer)
    }
}

/// The words are pushed one by one, so that it ends when an allocation fails.
fn words_of<R: Env>(rt: &R, alloc: Global) -> io::Result<Vec<String>> {
    let mut words = Vec::new(alloc);
    for word in env::args(&(Nameless { rt }, alloc))? {
        words.push(word)?;
    }
    Ok(words)
}

fn main(rt: HostRuntime) -> ExitCode {
    let alloc = rt.alloc();
    let mut errors = WriteSink::new(rt.stderr());
    let words = match words_of(&rt, alloc) {
        Ok(words) => words,
        Err(error) if error.kind() == io::ErrorKind::OutOfMemory => {
            return ExitCode::from(refuse_for_memory(&mut errors));
        }
        // An argument that is no text is not supported.
        Err(_) => return ExitCode::from(refuse_words(&mut errors)),
    };
    let mut world = World {
        files: HostFiles::new(&rt),
        input: ReadSource::new(rt.stdin()),
        output: WriteSink::new(rt.stdout()),
        errors,
    };
    let to_terminal = output_is_terminal(&rt);
    ExitCode::from(serve(alloc, words.as_slice(), to_terminal, &mut world))
}
