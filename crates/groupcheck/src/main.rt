// Lists the entries of a group's catalogue file with their types, one to a line, and then files formulas from standard
// input over it, as paydesk does over the built-in catalogue; or says why the file is refused. The path of the file is
// the argument.
#![tactic(auto)]

use anyhow::Context;
use catalogue::interface::Catalogue;
use catalogue_file::file::FileCatalogue;
use catalogue_file::opening::open_file;
use desk::serve::{read_input, serve};
use entry_types::{type_of, write_entry};
use refusal::Refusal;
use std::io::Read;
use std::{env, fs, io};

// One byte more than an accepted file has, so that a longer one is told from it.
const MOST_BYTES: u64 = 65536;

// The bytes of the file that the argument names.
fn load(rt: &HostRuntime) -> anyhow::Result<Vec<u8>> {
    let mut words = env::args(rt)?;
    let _program = words.next();
    let path = words.next().context("no path of a catalogue file")?;
    let mut bytes = Vec::new(rt.alloc());
    let _ = fs::open(rt, path.as_str())?
        .take(MOST_BYTES)
        .read_to_end(&mut bytes)?;
    Ok(bytes)
}

// Entry k: its name and its type.
fn say(rt: &HostRuntime, catalogue: FileCatalogue<'_>, k: u16) -> io::Result<()> {
    let mut out = [0; printing::MOST_BYTES];
    let text = match type_of(&catalogue, k, &mut out) {
        Some(length) => &out[..length],
        None => b"too long",
    };
    write_entry(&mut rt.stdout(), catalogue.name(k), text)
}

fn list(rt: &HostRuntime, catalogue: FileCatalogue<'_>) -> io::Result<()> {
    for k in 0..catalogue.count() {
        say(rt, catalogue, k)?;
    }
    Ok(())
}

fn run(rt: &HostRuntime) -> anyhow::Result<()> {
    let bytes = load(rt)?;
    let opened = open_file(&bytes);
    if let Some(fault) = opened.fault {
        println!(rt; "{}", Refusal::from(fault))?;
        return Ok(());
    }
    list(rt, opened.catalogue)?;
    let input = read_input(rt)?;
    serve(rt, opened.catalogue, &input)?;
    Ok(())
}

fn main(rt: HostRuntime) -> anyhow::Result<()> {
    run(&rt)
}
