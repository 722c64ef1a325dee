//! The program `ddc`: passes its arguments, the host's files, output and input to the top call, and ends with its status. The meaning of
//! sources that it names is that of hex0, hex1, hex2 and M1; the program does the same under every other.
#![tactic(auto)]

ghost use Rattle.std.specs.Prelude.{◌≡◌, IfOk, drop, map, string_bytes};
ghost use Rattle.std.specs.Process as process;
ghost use Rattle.command_plan.specs.Answered.{exit_status};
ghost use Rattle.ddc.specs.Ends.{word_bytes};

use ddc_app::{Status, run};
use ddc_base::{DirShelf, OutOfMemory, WriterSink};
use prompt::ReaderPrompt;
use std::alloc::Global;
use std::env;
use std::io::{self, ErrorKind, Input};
use std::process::ExitCode;
use wheeler::{Deterministic, MacroAssembly};

/// The process's arguments, the program's own name first; no arguments at all where one is not UTF-8. Error: out of memory.
fn command_line(rt: &HostRuntime) -> Result<Vec<String>, OutOfMemory> {
    let mut words = Vec::new(rt.alloc());
    match env::args(rt) {
        Ok(all) => {
            for word in all {
                words.push(word)?;
            }
            Ok(words)
        }
        Err(error) if error.kind() == ErrorKind::OutOfMemory => Err(OutOfMemory),
        Err(_) => Ok(words),
    }
}

/// The arguments after the program's own name.
fn after_name(arguments: &[String]) -> &[String]
    ensures { result.now ≡ drop 1 arguments.now }
{
    match arguments {
        [_name, own @ ..] => own,
        [] => arguments,
    }
}

/// The arguments as the top call takes them.
fn borrowed<'a>(alloc: Global, owned: &'a [String]) -> Result<Vec<&'a str>, OutOfMemory>
    ensures { IfOk result (λ words. word_bytes words.items ≡ map string_bytes owned.now) }
{
    let mut words = Vec::with_capacity(alloc, owned.len())?;
    for word in owned {
        words.push(word.as_str())?;
    }
    Ok(words)
}

/// Runs the arguments on the host's files, standard output and standard input.
fn run_on_host(rt: &HostRuntime) -> Result<Status, OutOfMemory> {
    let alloc = rt.alloc();
    let owned = command_line(rt)?;
    let words = borrowed(alloc, after_name(&owned))?;
    let mut shelf = DirShelf::new(rt);
    let mut out = WriterSink::new(io::writer(rt));
    let mut prompt = ReaderPrompt::new(rt.reader());
    Ok(run::<Deterministic<MacroAssembly>, _, _, _>(
        alloc,
        words.as_slice(),
        &mut shelf,
        &mut out,
        &mut prompt,
    ))
}

/// The process's exit code for a status.
fn exit_code(status: Status) -> ExitCode
    ensures { process.exit_status result ≡ exit_status status }
{
    ExitCode::from(status.number())
}

fn main(rt: HostRuntime) -> ExitCode {
    exit_code(run_on_host(&rt).unwrap_or(Status::OutOfMemory))
}
