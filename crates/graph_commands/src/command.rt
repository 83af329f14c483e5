//! The commands of `graphtool`, by the words of a command line.

ghost use Rattle.std.specs.Prelude.{◌≡◌, ℕ, List, IfSome, IsNone, map, string_bytes};
ghost use Rattle.graph_commands.specs.GraphtoolCommands.{AskGraphtool};
ghost use Rattle.graph_commands.specs.declared.command.Command.{Command};

use crate::line::WriteFailed;
use crate::program::Run;
use crate::run::{run_ancestor, run_distinct, run_find, run_list, run_verify};
use graph_folder::folder::Folder;
use std::alloc::Global;
use std::io::{Read, Write};

/// What `graphtool` is asked to do.
#[derive(Clone, Copy, Debug)]
pub enum Command<'a> {
    /// The layer that the input holds is to be listed.
    List,
    /// The graph at a path is to be checked.
    Verify {
        /// The path.
        path: &'a str,
    },
    /// The commit with an id is to be found in the graph at a path.
    Find {
        /// The path.
        path: &'a str,
        /// The id, in hexadecimal digits.
        hex: &'a str,
    },
    /// A walk along parents, from the commit with the first id to the one with the second, is to be
    /// found in the graph at a path.
    Ancestor {
        /// The path.
        path: &'a str,
        /// The first id, in hexadecimal digits.
        first: &'a str,
        /// The second id.
        second: &'a str,
    },
    /// The graph at a path is to be checked, and that its ids are distinct.
    Distinct {
        /// The path.
        path: &'a str,
    },
}

impl<'a> Command<'a> {
    /// The command that the words of a command line ask for, and none where they ask for none. The
    /// first word is the program's own name.
    pub fn from_words(words: &'a [String]) -> Option<Command<'a>>
        ensures asked { IfSome result (AskGraphtool (map string_bytes words.now)) }
        ensures other { IsNone result
            → (command : Command) → ¬ AskGraphtool (map string_bytes words.now) command }
    {
        match words {
            [_, name] => match name.as_str() {
                "list" => Some(Command::List),
                _ => None,
            },
            [_, name, path] => match name.as_str() {
                "verify" => Some(Command::Verify { path }),
                "distinct" => Some(Command::Distinct { path }),
                _ => None,
            },
            [_, name, path, hex] => match name.as_str() {
                "find" => Some(Command::Find { path, hex }),
                _ => None,
            },
            [_, name, path, first, second] => match name.as_str() {
                "ancestor" => Some(Command::Ancestor {
                    path,
                    first,
                    second,
                }),
                _ => None,
            },
            _ => None,
        }
    }
}

impl Run for Command<'_> {
    ghost use Rattle.graph_commands.specs.GraphtoolCommands.{GraphtoolMayWrite};

    ghost MayWrite = { GraphtoolMayWrite };

    fn run<R: Read, T: Folder, W: Write>(
        self,
        alloc: Global,
        input: &mut R,
        folder: &mut T,
        output: &mut W,
    ) -> Result<u8, WriteFailed> {
        match self {
            Command::List => run_list(alloc, input, output),
            Command::Verify { path } => run_verify(alloc, folder, path, output),
            Command::Find { path, hex } => run_find(alloc, folder, path, hex, output),
            Command::Ancestor {
                path,
                first,
                second,
            } => run_ancestor(alloc, folder, path, first, second, output),
            Command::Distinct { path } => run_distinct(alloc, folder, path, output),
        }
    }
}
