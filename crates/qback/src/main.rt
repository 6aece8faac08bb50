//! The program: one command, on the files of the host and its standard output.
#![tactic(auto)]

ghost use Rattle.std.specs.Prelude.{◌≡◌, ◌⊎◌, ◌≤◌, IfOk};

mod files;
mod locks;
mod opening;
mod real;
mod table;
#[cfg(test)]
mod tests;

use real::RealDepot;
use std::alloc::AllocError;
use std::env;
use std::io::ErrorKind;
use std::process::ExitCode;

/// The status where there was no memory.
const NO_MEMORY: u8 = 4;

/// The words after the program's name. Where one is not text, there are none.
fn words_of(rt: &HostRuntime) -> Result<Vec<String>, AllocError> {
    match env::args(rt) {
        Ok(words) => words.skip(1).collect(rt.alloc()),
        Err(error) => match error.kind() {
            ErrorKind::OutOfMemory => Err(AllocError),
            _ => Ok(Vec::new(rt.alloc())),
        },
    }
}

/// Runs the words' command on the files of the host, and says its status.
fn run(rt: &HostRuntime) -> Result<u8, AllocError>
    ensures { IfOk result (λ status. (status ≤ 5) ⊎ (status ≡ 8)) }
{
    let words = words_of(rt)?;
    let alloc = rt.alloc();
    let mut depot = RealDepot::new(rt, alloc)?;
    Ok(qback_top::run_files(alloc, &words, &mut depot))
}

/// The status that the program ends with.
fn status(rt: &HostRuntime) -> u8
    ensures { (result ≤ 5) ⊎ (result ≡ 8) }
{
    match run(rt) {
        Ok(status) => status,
        Err(AllocError) => {
            let _ = println!(rt; "memory");
            NO_MEMORY
        }
    }
}

fn main(rt: HostRuntime) -> ExitCode {
    ExitCode::from(status(&rt))
}
