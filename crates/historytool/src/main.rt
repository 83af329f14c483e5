//! `historytool`: answers questions about the histories of Git's commit-graphs, by the ids of two
//! commits or more, checks what such graphs say of dates and of changed paths, compares them with
//! their commits, and writes layers of commits, given ones or those of a graph.
//!
//! The exit status is 0 where the answer is yes, a walk, merge bases, ids, a right graph or a
//! layer, 1 where it is no or none, where an id is not there or where something was refused, and 2
//! for other words than a command, for a text that is no id and for a failed write. Wrong words and
//! a failed write are reported on standard error.
#![tactic(auto)]

mod command;

use crate::command::{Command, Texts};
use graph_commands::program::{Complaints, respond};
use graph_commands::status::Status;
use graph_folder::folder::Disk;
use std::process::ExitCode;
use std::{env, fs, io};

const USAGE: &str = "usage: historytool is-ancestor [--unchecked] [--newer] PATH HEX HEX \
    | walk [--unchecked] [--newer] PATH HEX HEX \
    | merge-base [--unchecked] [--newer] PATH HEX HEX.. \
    | merge-base-ids [--unchecked] [--newer] PATH HEX HEX.. | check PATH | show PATH \
    | ask [--unchecked] PATH | ids PATH [FROM TO] | objects PATH [FROM TO] | write [PATH] \
    | paths [--exact] [--trees N] PATH | merge PATH | --help | --version";

const HELP: &str = "usage: historytool is-ancestor [--unchecked] [--newer] PATH HEX HEX \
    | walk [--unchecked] [--newer] PATH HEX HEX \
    | merge-base [--unchecked] [--newer] PATH HEX HEX.. \
    | merge-base-ids [--unchecked] [--newer] PATH HEX HEX.. | check PATH | show PATH \
    | ask [--unchecked] PATH | ids PATH [FROM TO] | objects PATH [FROM TO] | write [PATH] \
    | paths [--exact] [--trees N] PATH | merge PATH | --help | --version\n\
    \n\
    PATH is a commit-graph file, a folder with a chain of them, or an info folder.\n\
    HEX is the id of a commit in hexadecimal.\n\
    With --unchecked the graph is trusted: it is read by parts, and not checked. If it\n\
    is wrong, a yes, a walk or a merge base is still one by the parents that are there;\n\
    a no, none or a number may be wrong, and a shorter walk or a better merge base may\n\
    be there.\n\
    With --newer the commits that the graph lacks are read too: their ids are written,\n\
    a line each, and standard input has to give what git cat-file --batch answers. An\n\
    empty line ends the ids, and the answer follows. PATH may be left out then, and no\n\
    id is taken for a path. --unchecked may stand before it: a graph that changes while\n\
    commits are read may be refused then, and one can ask again.\n\
    \n\
    is-ancestor     whether the first commit is an ancestor of the second: yes or no\n\
    walk            the ids on a shortest walk along parents from the first commit\n\
    \x20               to the second, a line for each; or none\n\
    merge-base      the position and the id of each merge base of the first commit\n\
    \x20               and the others, a line for each, or none; then how many commits\n\
    \x20               are ahead and behind: how many the first leads to and no other\n\
    \x20               does, and the other way round; then how many were visited\n\
    merge-base-ids  the ids of these merge bases alone, a line for each; or none\n\
    check           what graphtool verify says of the graph; then how many commits\n\
    \x20               have a corrected commit date, and how many a changed-path\n\
    \x20               filter, once both were found right; or the first thing that is\n\
    \x20               wrong\n\
    show            what each layer says of itself, and whether the whole is right\n\
    ask             ok commits and their number, once the graph was found right; then\n\
    \x20               an answer for each line of standard input: find HEX,\n\
    \x20               is-ancestor HEX HEX, walk HEX HEX, merge-base HEX HEX..,\n\
    \x20               parents HEX, or reload, which opens PATH anew. An empty line\n\
    \x20               ends each\n\
    ids             the ids of the commits, a line for each, or of those at the\n\
    \x20               positions from FROM up to and without TO, which count from 0\n\
    objects         how many of these commits are those on standard input, which\n\
    \x20               git cat-file --batch writes for their ids; or the first\n\
    \x20               thing that is wrong\n\
    paths           the ids of trees, a line each, of which standard input has to give\n\
    \x20               what git cat-file --batch answers, and an empty line; then how\n\
    \x20               many commits have a changed-path filter, once each was found to\n\
    \x20               have all paths that its commit touches, or with --exact to be the\n\
    \x20               one that Git writes; or the first thing that is wrong. For each\n\
    \x20               commit N trees are read at most, or 4194304\n\
    write           the file of a layer with the commits on standard input, which\n\
    \x20               git cat-file --batch writes, for the top of the graph at PATH,\n\
    \x20               or else of none\n\
    merge           the file of one layer with the commits of the graph, once that\n\
    \x20               was found right, and their filters where all layers have them\n\
    \n\
    The exit status is 0 for yes, a walk, merge bases, ids, a graph that is right,\n\
    questions that were answered or a layer, 1 for any other answer, and 2 for wrong\n\
    words, a text that is no id or a failed write.";

const VERSION: &str = "historytool 0.1.0, proved with rattle-kit-13f logic dac8208d650f15bf";

const WRITE_FAILED: &str = "historytool: the answer could not be written";

const COMPLAINTS: Complaints<'static> = Complaints {
    usage: USAGE,
    write_failed: WRITE_FAILED,
};

const TEXTS: Texts<'static> = Texts {
    help: HELP,
    version: VERSION,
};

fn main(rt: HostRuntime) -> ExitCode {
    let words = words(&rt).unwrap_or_else(|| Vec::new(rt.alloc()));
    let command = Command::from_words(&words, TEXTS);
    // If standard input is closed, the next file that is opened takes its number, and would be read
    // in its place. So a folder takes it, of which no read succeeds.
    let _folder = fs::open(&rt, "/");
    let (mut input, mut disk) = (rt.stdin(), Disk::new(&rt));
    let (mut output, mut errors) = (io::writer(&rt), rt.stderr());
    let status = respond(
        rt.alloc(),
        command,
        COMPLAINTS,
        &mut input,
        &mut disk,
        &mut output,
        &mut errors,
    );
    ExitCode::from(status.unwrap_or(Status::Failed as u8))
}

/// The words of the command line, unless they are no text or memory runs out.
fn words(rt: &HostRuntime) -> Option<Vec<String>> {
    env::args(rt).ok()?.collect(rt.alloc()).ok()
}
