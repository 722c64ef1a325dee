//! One part of ddc alone, to be timed by the scripts in bench/.
//!
//! `step TURNS PAGES` runs a loop TURNS times over PAGES data pages, a power of two; each turn touches the next page. It prints how many
//! steps were executed, and the sum that the loop left in x10. `recipe FILE` reads the recipe in a file, and prints how many tables it has,
//! or the number of its refusal.
#![tactic(auto)]

mod stepping;

use recipe::read;
use std::io::ErrorKind;
use std::{env, fs, io};
use stepping::{hart_at_loop, steps_of};

fn number(word: Option<String>) -> io::Result<u64> {
    match word {
        Some(word) => word
            .parse()
            .map_err(|_| io::Error::from(ErrorKind::InvalidInput)),
        None => Err(io::Error::from(ErrorKind::InvalidInput)),
    }
}

fn time_steps(rt: &HostRuntime, turns: u64, pages: u64) -> io::Result<()> {
    let Some(mut hart) = hart_at_loop(rt, turns, pages) else {
        return Err(io::Error::from(ErrorKind::OutOfMemory));
    };
    let steps = steps_of(&mut hart, u64::MAX);
    let sum = hart.reg(10);
    println!(rt; "steps {steps} sum {sum}")
}

fn time_reading(rt: &HostRuntime, path: &str) -> io::Result<()> {
    let bytes = fs::read(rt, path)?;
    match read(rt.alloc(), bytes.as_slice()) {
        Ok(recipe) => {
            let inputs = recipe.inputs().len();
            let sources = recipe.sources().len();
            let stages = recipe.stages().len();
            println!(rt; "inputs {inputs} sources {sources} stages {stages}")
        }
        Err(refusal) => println!(rt; "refused {}", refusal.number()),
    }
}

fn main(rt: HostRuntime) -> io::Result<()> {
    let mut words = env::args(&rt)?.skip(1);
    let Some(part) = words.next() else {
        return Err(io::Error::from(ErrorKind::InvalidInput));
    };
    if part.as_str() == "step" {
        let turns = number(words.next())?;
        let pages = number(words.next())?;
        return time_steps(&rt, turns, pages);
    }
    match words.next() {
        Some(path) if part.as_str() == "recipe" => time_reading(&rt, path.as_str()),
        _ => Err(io::Error::from(ErrorKind::InvalidInput)),
    }
}
