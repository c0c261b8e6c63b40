// Places signatures by the text of a convention, and shows their code and their calls; with no word it demonstrates both, on
// piles that are built in and on a convention of its own.
#![tactic(auto)]

mod asking;
mod calling;
mod coding;
mod commands;
mod crossing;
mod faults;
mod piles;
mod placements;
mod placing;
mod reporting;
mod shown;

use crate::commands::run;
use std::env;

fn main(rt: HostRuntime) -> anyhow::Result<()> {
    let words: Vec<String> = env::args(&rt)?.collect(rt.alloc())?;
    run(&rt, words.as_slice())
}
