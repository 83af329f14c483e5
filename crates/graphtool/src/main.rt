//! `graphtool`: lists the layers of Git's commit-graphs, checks commit-graphs, and finds commits
//! and walks to their ancestors in them.
//!
//! The exit status is 0 where the command did what was asked, 1 where it was refused or nothing was
//! found, and 2 for other words than a command, for a text that is no id and for a failed write.
//! Wrong words and a failed write are reported on standard error.
#![tactic(auto)]

use graph_commands::command::Command;
use graph_commands::program::{Complaints, respond};
use graph_commands::status::Status;
use graph_folder::folder::Disk;
use std::process::ExitCode;
use std::{env, io};

const USAGE: &str = "usage: graphtool list | verify PATH | find PATH HEX | ancestor PATH HEX HEX \
    | distinct PATH";

const WRITE_FAILED: &str = "graphtool: the answer could not be written";

const COMPLAINTS: Complaints<'static> = Complaints {
    usage: USAGE,
    write_failed: WRITE_FAILED,
};

fn main(rt: HostRuntime) -> ExitCode {
    let words = words(&rt).unwrap_or_else(|| Vec::new(rt.alloc()));
    let command = Command::from_words(&words);
    let (mut input, mut disk, mut output) = (rt.stdin(), Disk::new(&rt), io::writer(&rt));
    let status = respond(
        rt.alloc(),
        command,
        COMPLAINTS,
        &mut input,
        &mut disk,
        &mut output,
        &mut rt.stderr(),
    );
    ExitCode::from(status.unwrap_or(Status::Failed as u8))
}

/// The words of the command line, unless they are no text or memory runs out.
fn words(rt: &HostRuntime) -> Option<Vec<String>> {
    env::args(rt).ok()?.collect(rt.alloc()).ok()
}
