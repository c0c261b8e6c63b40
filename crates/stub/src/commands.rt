// The words on the command line.
use crate::calling::show_line_called;
use crate::coding::{show_all_coded, show_line_coded};
use crate::crossing::show_crossing;
use crate::placements::show_placements;
use crate::placing::show_all_placed;
use crate::reporting::show_report;
use anyhow::anyhow;
use std::fs;

// A file's bytes.
fn read(rt: &HostRuntime, path: &str) -> anyhow::Result<Vec<u8>> {
    Ok(fs::read(rt, path)?)
}

// A line's number.
fn number(word: &str) -> anyhow::Result<u32> {
    word.parse::<u32>().map_err(|_| anyhow!("no line number"))
}

fn usage() -> anyhow::Result<()> {
    Err(anyhow!(
        "usage: stub [report CONVENTION | places CONVENTION SIGNATURES | code CONVENTION SIGNATURES [LINE] | call CONVENTION SIGNATURES LINE [BYTES..]]"
    ))
}

// Conventions with their signatures: registers and then the stack as on Arm and on RISC-V, and floats apart.
const EXAMPLES: [(&str, &str); 3] = [
    ("arm.txt", "arm.list"),
    ("riscv.txt", "riscv.list"),
    ("radio.txt", "radio.list"),
];

// Built-in piles, one call from side to side, and where the arguments of the examples go.
fn demonstrate(rt: &HostRuntime) -> anyhow::Result<()> {
    show_placements(rt)?;
    show_crossing(rt)?;
    for (convention, signatures) in EXAMPLES {
        let description = read(rt, convention)?;
        let list = read(rt, signatures)?;
        println!(rt; "{convention}")?;
        show_report(rt, &description)?;
        show_all_placed(rt, &description, &list)?;
    }
    Ok(())
}

// What one of the commands shows of a convention.
fn show(rt: &HostRuntime, command: &str, path: &str, rest: &[String]) -> anyhow::Result<()> {
    let description = read(rt, path)?;
    let Some((list, rest)) = rest.split_first() else {
        return if command == "report" {
            show_report(rt, &description)
        } else {
            usage()
        };
    };
    let list = read(rt, list.as_str())?;
    match (command, rest) {
        ("places", []) => show_all_placed(rt, &description, &list),
        ("code", []) => show_all_coded(rt, &description, &list),
        ("code", [line]) => show_line_coded(rt, &description, &list, number(line.as_str())?),
        ("call", [line, bytes @ ..]) => {
            show_line_called(rt, &description, &list, number(line.as_str())?, bytes)
        }
        _ => usage(),
    }
}

pub(crate) fn run(rt: &HostRuntime, words: &[String]) -> anyhow::Result<()> {
    match words {
        [] | [_] => demonstrate(rt),
        [_, command, path, rest @ ..] => show(rt, command.as_str(), path.as_str(), rest),
        _ => usage(),
    }
}
