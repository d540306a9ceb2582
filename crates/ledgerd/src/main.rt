//! A ledger for accounts: reads a script of requests, and writes a reply for each and all events.
#![tactic(auto)]

mod adapters;
mod codes;
mod errors;
mod limits;
mod program;
#[cfg(test)]
mod rows;
#[cfg(test)]
mod tests;
mod words;

use adapters::{ReadSource, WriteSink};
use codes::code;
use lg_base::Status;
use program::{refuse, top};
use std::alloc::AllocError;
use std::env;
use std::io::ErrorKind;
use std::process::ExitCode;

/// The words of the command line without the program's name; none where they can't be had for another reason than want of
/// memory.
fn words_of(rt: &HostRuntime) -> Result<Vec<String>, AllocError> {
    let mut words = Vec::new(rt.alloc());
    match env::args(rt) {
        Ok(args) => {
            for word in args.skip(1) {
                words.push(word)?;
            }
        }
        Err(fault) => {
            if fault.kind() == ErrorKind::OutOfMemory {
                return Err(AllocError);
            }
        }
    }
    Ok(words)
}

fn main(rt: HostRuntime) -> ExitCode {
    let status = match words_of(&rt) {
        Ok(words) => top(
            rt.alloc(),
            words.as_slice(),
            &mut ReadSource::new(rt.stdin()),
            &mut WriteSink::new(rt.stdout()),
            &mut WriteSink::new(rt.stderr()),
        ),
        Err(AllocError) => refuse(Status::Memory, &mut WriteSink::new(rt.stderr())),
    };
    ExitCode::from(code(status))
}
