//! The commands of `historytool`, by the words of a command line.

ghost use Rattle.std.specs.Prelude.{◌≡◌, ◌≢◌, ◌↔◌, ◌∷◌, [], ℕ, List, IfOk, IfSome};
ghost use Rattle.std.specs.Prelude.{IsNone, IsTrue, Option, codes, map, string_bytes};
ghost use Rattle.historytool.specs.HistorytoolCommands.{ArePathsWords, AreQuestionWords};
ghost use Rattle.historytool.specs.HistorytoolCommands.{AskAfterName};
ghost use Rattle.historytool.specs.HistorytoolCommands.{AskHistorytool, IsId, IsOption};
ghost use Rattle.historytool.specs.HistorytoolCommands.{IsPathsOption, TellsOf, TellsOfItself};
ghost use Rattle.history_commands.specs.SpelledQuestions.{spelled_name, spelled_texts};
ghost use Rattle.graph_commands.specs.OpenerAnswer.{MayOpen};
ghost use Rattle.graph_commands.specs.WrittenAnswer.{WritesAnswer};
ghost use Rattle.object_commands.specs.AskedRange.{SpellsRange};
ghost use Rattle.object_commands.specs.declared.range.PositionRange as declared;
ghost use Rattle.question_commands.specs.Asking.{MayAsk, ask_status, ask_text};
ghost use Rattle.historytool.specs.declared.command.AskedGraph.{AskedGraph};
ghost use Rattle.historytool.specs.declared.command.Command.{Command};
ghost use Rattle.path_commands.specs.declared.standard.Standard.{Standard};

use answer_lines::reply::Form::{self, IdsAlone, Whole};
use gix_hash_core::ObjectId;
use graph_commands::line::{WriteFailed, write_line};
use graph_commands::program::Run;
use graph_commands::status::Status;
use graph_folder::folder::Folder;
use history_commands::SpelledQuestion;
use history_commands::run::{run_check, run_spelled};
use newer_commands::run::run_spelled_newer;
use newer_unchecked::run::run_spelled_newer_unchecked;
use object_commands::{PositionRange, number_in, run_ids, run_objects};
use path_commands::{Standard, run_paths};
use question_commands::asking::run_ask;
use question_commands::others::Nobody;
use show_commands::run::run_show;
use std::alloc::Global;
use std::io::{Read, Write};
use unchecked_commands::run::run_spelled_unchecked;
use unchecked_questions::trusting::run_ask_unchecked;
use write_commands::{run_merge, run_write};

/// What `historytool` is asked to do.
#[derive(Clone, Copy, Debug)]
pub enum Command<'a> {
    /// The help is to be written.
    Help {
        /// Its text, without the end of the last line.
        text: &'a str,
    },
    /// The version is to be written.
    Version {
        /// Its text, without the end of the line.
        text: &'a str,
    },
    /// It is to be told whether the first commit is an ancestor of the second.
    IsAncestor {
        /// The graph and the commits.
        pair: Pair<'a>,
    },
    /// A walk along parents from the first commit to the second is to be found.
    Walk {
        /// The graph and the commits.
        pair: Pair<'a>,
    },
    /// What the first commit and the others have in common is to be told.
    MergeBase {
        /// The graph and the commits.
        group: Group<'a>,
    },
    /// The ids of the merge bases of the first commit and the others are to be told.
    MergeBaseIds {
        /// The graph and the commits.
        group: Group<'a>,
    },
    /// The graph is to be checked, with its dates and its filters.
    Check {
        /// The path of the graph.
        path: &'a str,
    },
    /// The layers of the graph are to be shown, and whether the whole is right.
    Show {
        /// The path of the graph.
        path: &'a str,
    },
    /// The questions that the input has are to be answered from the graph.
    Ask {
        /// The path of the graph.
        path: &'a str,
    },
    /// The same as by `Ask` is to be answered from a graph that is trusted.
    AskUnchecked {
        /// The path of the graph.
        path: &'a str,
    },
    /// The ids of the graph are to be listed.
    Ids {
        /// The path of the graph.
        path: &'a str,
        /// The positions whose ids are meant; all of them, where it is none.
        range: Option<PositionRange>,
    },
    /// The graph is to be compared with its commits, which the input has.
    Objects {
        /// The path of the graph.
        path: &'a str,
        /// The positions of the commits that are meant; all of them, where it is none.
        range: Option<PositionRange>,
    },
    /// The changed-path filters of the graph are to be held against the trees of its commits, which
    /// are asked for.
    Paths {
        /// The path of the graph.
        path: &'a str,
        /// What each filter has to be.
        standard: Standard,
        /// How many trees may be read for a commit; 2^22, where it is none.
        trees: Option<u32>,
    },
    /// The commits that the input has are to be written as a layer.
    Write {
        /// The path of the graph on which it is to lie; none, where it is to lie on none.
        path: Option<&'a str>,
    },
    /// The commits of the graph are to be written as one layer.
    Merge {
        /// The path of the graph.
        path: &'a str,
    },
}

/// A graph, and how it is asked.
#[derive(Clone, Copy, Debug)]
pub enum AskedGraph<'a> {
    /// The graph at this path, once it was checked.
    Checked(&'a str),
    /// The graph at this path, which is trusted, and not checked.
    Unchecked(&'a str),
    /// The graph at this path, once it was checked, with newer commits on top, which are asked for;
    /// these alone, where there is no path.
    Newer(Option<&'a str>),
    /// The same over a graph that is trusted, and not checked.
    NewerUnchecked(Option<&'a str>),
}

/// A graph, and two commits that it is asked about.
#[derive(Clone, Copy, Debug)]
pub struct Pair<'a> {
    /// The graph.
    pub graph: AskedGraph<'a>,
    /// The first id, in hexadecimal digits.
    pub first: &'a str,
    /// The second id.
    pub second: &'a str,
}

/// A graph, and two commits or more that it is asked about.
#[derive(Clone, Copy, Debug)]
pub struct Group<'a> {
    /// The graph.
    pub graph: AskedGraph<'a>,
    /// The first id, in hexadecimal digits.
    pub first: &'a str,
    /// The other ids, of which there is one at least.
    pub others: &'a [String],
}

/// What `historytool` tells of itself.
#[derive(Clone, Copy, Debug)]
pub struct Texts<'a> {
    /// What it can be asked.
    pub help: &'a str,
    /// Which version it is.
    pub version: &'a str,
}

impl<'a> Command<'a> {
    /// The command that the words of a command line ask for, and none where they ask for none. The
    /// first word is the program's own name.
    pub fn from_words(words: &'a [String], texts: Texts<'a>) -> Option<Command<'a>>
        ensures asked { IfSome result (AskHistorytool texts.entry.help.now texts.entry.version.now
            (map string_bytes words.now)) }
        ensures other { IsNone result → (command : Command)
            → ¬ AskHistorytool texts.entry.help.now texts.entry.version.now
            (map string_bytes words.now) command }
    {
        match words {
            [_, name] => Command::of_name(name, texts),
            [_, name, path] => Command::of_path(name, path),
            [_, name, path, first, others @ ..] => Command::of_ids(name, path, first, others),
            _ => None,
        }
    }

    /// The command with this name that needs no other word, if it is one.
    #[tactic(auto, using(crate::proofs::WordsLemmas::named_alone))]
    fn of_name(name: &str, texts: Texts<'a>) -> Option<Command<'a>>
        ensures asked { IfSome result (AskAfterName texts.entry.help.now texts.entry.version.now
            (name.now ∷ [])) }
        ensures other { IsNone result → (command : Command)
            → ¬ AskAfterName texts.entry.help.now texts.entry.version.now (name.now ∷ []) command }
    {
        match name {
            "--help" | "-h" => Some(Command::Help { text: texts.help }),
            "--version" => Some(Command::Version {
                text: texts.version,
            }),
            "write" => Some(Command::Write { path: None }),
            _ => None,
        }
    }

    /// The command with this name that takes a path alone, if it is one.
    #[tactic(auto, using(crate::proofs::WordsLemmas::named_with_path))]
    fn of_path(name: &str, path: &'a str) -> Option<Command<'a>>
        ensures asked { (help version : List ℕ)
            → IfSome result (AskAfterName help version (name.now ∷ path.now ∷ [])) }
        ensures other { IsNone result → (help version : List ℕ) (command : Command)
            → ¬ AskAfterName help version (name.now ∷ path.now ∷ []) command }
    {
        match name {
            "check" => Some(Command::Check { path }),
            "show" => Some(Command::Show { path }),
            "ask" => Command::ask(path),
            "ids" => Some(Command::Ids { path, range: None }),
            "objects" => Some(Command::Objects { path, range: None }),
            "write" => Some(Command::Write { path: Some(path) }),
            "merge" => Some(Command::Merge { path }),
            "paths" => Command::paths(path),
            _ => None,
        }
    }

    /// The command with this name about the ids of two commits or more, or about the positions in
    /// a range, if it is one.
    #[tactic(auto, using(crate::proofs::WordsLemmas::named_with_ids))]
    fn of_ids(
        name: &str,
        path: &'a str,
        first: &'a str,
        others: &'a [String],
    ) -> Option<Command<'a>>
        ensures asked { (help version : List ℕ) → IfSome result (AskAfterName help version
            (name.now ∷ path.now ∷ first.now ∷ map string_bytes others.now)) }
        ensures other { IsNone result → (help version : List ℕ) (command : Command)
            → ¬ AskAfterName help version
            (name.now ∷ path.now ∷ first.now ∷ map string_bytes others.now) command }
    {
        match name {
            "ask" => Command::ask_unchecked(path, first, others),
            "is-ancestor" => Some(Command::IsAncestor {
                pair: Pair::of(path, first, others)?,
            }),
            "walk" => Some(Command::Walk {
                pair: Pair::of(path, first, others)?,
            }),
            "merge-base" => Some(Command::MergeBase {
                group: Group::of(path, first, others)?,
            }),
            "merge-base-ids" => Some(Command::MergeBaseIds {
                group: Group::of(path, first, others)?,
            }),
            "ids" => {
                let range = Some(range_of(first, others)?);
                Some(Command::Ids { path, range })
            }
            "objects" => {
                let range = Some(range_of(first, others)?);
                Some(Command::Objects { path, range })
            }
            "paths" => Command::paths_with(path, first, others),
            _ => None,
        }
    }

    /// `ask`, if the word after it is no option.
    fn ask(path: &'a str) -> Option<Command<'a>>
        ensures asked { (help version : List ℕ)
            → IfSome result (AskAfterName help version (codes "ask" ∷ path.now ∷ [])) }
        ensures other { IsNone result → IsOption path.now }
    {
        match path {
            "--unchecked" | "--newer" => None,
            _ => Some(Command::Ask { path }),
        }
    }

    /// `ask --unchecked`, if the word after that is the last.
    fn ask_unchecked(option: &str, path: &'a str, others: &'a [String]) -> Option<Command<'a>>
        ensures asked { (help version : List ℕ) → IfSome result (AskAfterName help version
            (codes "ask" ∷ option.now ∷ path.now ∷ map string_bytes others.now)) }
        ensures other { IsNone result → ¬ ((option.now ≡ codes "--unchecked")
            × (path.now ≢ codes "--newer") × (others.now ≡ [])) }
    {
        match option {
            "--unchecked" => match path {
                "--newer" => None,
                _ => match others {
                    [] => Some(Command::AskUnchecked { path }),
                    _ => None,
                },
            },
            _ => None,
        }
    }

    /// `paths`, if the word after it is no option.
    fn paths(path: &'a str) -> Option<Command<'a>>
        ensures asked { (help version : List ℕ)
            → IfSome result (AskAfterName help version (codes "paths" ∷ path.now ∷ [])) }
        ensures other { IsNone result → IsPathsOption path.now }
    {
        match path {
            "--exact" | "--trees" => None,
            _ => Some(Command::Paths {
                path,
                standard: Standard::Right,
                trees: None,
            }),
        }
    }

    /// `paths` with an option behind it, if the words after that are those that it takes.
    fn paths_with(option: &str, first: &'a str, others: &'a [String]) -> Option<Command<'a>>
        ensures asked { (help version : List ℕ) → IfSome result (AskAfterName help version
            (codes "paths" ∷ option.now ∷ first.now ∷ map string_bytes others.now)) }
        ensures other { IsNone result → (standard : Standard) (trees : Option ℕ) (at : List ℕ)
            → ¬ ArePathsWords standard trees at
            (codes "paths" ∷ option.now ∷ first.now ∷ map string_bytes others.now) }
    {
        match option {
            "--exact" => Command::exact_paths(first, others),
            "--trees" => Command::limited_paths(first, others),
            _ => None,
        }
    }

    /// `paths --trees`, if the next word is a number, and the one after that the last.
    fn limited_paths(number: &str, others: &'a [String]) -> Option<Command<'a>>
        ensures asked { (help version : List ℕ) → IfSome result (AskAfterName help version
            (codes "paths" ∷ codes "--trees" ∷ number.now ∷ map string_bytes others.now)) }
        ensures other { IsNone result → (standard : Standard) (trees : Option ℕ) (at : List ℕ)
            → ¬ ArePathsWords standard trees at
            (codes "paths" ∷ codes "--trees" ∷ number.now ∷ map string_bytes others.now) }
    {
        match others {
            [] => None,
            [path] => {
                let trees = Some(number_in(number)?);
                Some(Command::Paths {
                    path,
                    standard: Standard::Right,
                    trees,
                })
            }
            _ => None,
        }
    }

    /// `paths --exact`, if the next word is the last, and no option, or if it is `--trees`, and a
    /// number and the last word follow.
    fn exact_paths(first: &'a str, others: &'a [String]) -> Option<Command<'a>>
        ensures asked { (help version : List ℕ) → IfSome result (AskAfterName help version
            (codes "paths" ∷ codes "--exact" ∷ first.now ∷ map string_bytes others.now)) }
        ensures other { IsNone result → (standard : Standard) (trees : Option ℕ) (at : List ℕ)
            → ¬ ArePathsWords standard trees at
            (codes "paths" ∷ codes "--exact" ∷ first.now ∷ map string_bytes others.now) }
    {
        match first {
            "--trees" => match others {
                [] => None,
                [_] => None,
                [number, path] => Some(Command::Paths {
                    path,
                    standard: Standard::Exact,
                    trees: Some(number_in(number)?),
                }),
                _ => None,
            },
            _ => match others {
                [] => Some(Command::Paths {
                    path: first,
                    standard: Standard::Exact,
                    trees: None,
                }),
                _ => None,
            },
        }
    }
}

impl<'a> Pair<'a> {
    /// What the words after the name of a question about two commits say, if there are as many as
    /// it takes.
    fn of(path: &'a str, first: &'a str, others: &'a [String]) -> Option<Pair<'a>>
        ensures some { IfSome result (λ pair. (name : List ℕ)
            → AreQuestionWords name pair.graph (pair.first.now ∷ pair.second.now ∷ [])
            (name ∷ path.now ∷ first.now ∷ map string_bytes others.now)) }
        ensures none { IsNone result → (name : List ℕ) (graph : AskedGraph)
            (one other : List ℕ) → ¬ AreQuestionWords name graph (one ∷ other ∷ [])
            (name ∷ path.now ∷ first.now ∷ map string_bytes others.now) }
    {
        let Group {
            graph,
            first,
            others,
        } = Group::of(path, first, others)?;
        match others {
            [] => None,
            [second] => Some(Pair {
                graph,
                first,
                second,
            }),
            _ => None,
        }
    }
}

impl<'a> Group<'a> {
    /// What the words after the name of a question about two commits or more say, if there are as
    /// many as it takes: the path, or else a word that says how the graph is asked, and what
    /// follows it.
    fn of(path: &'a str, first: &'a str, others: &'a [String]) -> Option<Group<'a>>
        ensures some { IfSome result (λ group. (name : List ℕ)
            → AreQuestionWords name group.graph
            (group.first.now ∷ map string_bytes group.others.now)
            (name ∷ path.now ∷ first.now ∷ map string_bytes others.now)) }
        ensures others { IfSome result (λ group. group.others.now ≢ []) }
        ensures none { IsNone result → (name : List ℕ) (graph : AskedGraph)
            (one other : List ℕ) (more : List (List ℕ))
            → ¬ AreQuestionWords name graph (one ∷ other ∷ more)
            (name ∷ path.now ∷ first.now ∷ map string_bytes others.now) }
    {
        match path {
            "--unchecked" => Group::unchecked(first, others),
            "--newer" if is_id(first) => Group::with(AskedGraph::Newer(None), first, others),
            "--newer" => Group::on(AskedGraph::Newer(Some(first)), others),
            _ => Group::with(AskedGraph::Checked(path), first, others),
        }
    }

    /// What the words behind `--unchecked` say, if there are as many as it takes.
    fn unchecked(first: &'a str, others: &'a [String]) -> Option<Group<'a>>
        ensures some { IfSome result (λ group. (name : List ℕ)
            → AreQuestionWords name group.graph
            (group.first.now ∷ map string_bytes group.others.now)
            (name ∷ codes "--unchecked" ∷ first.now ∷ map string_bytes others.now)) }
        ensures others { IfSome result (λ group. group.others.now ≢ []) }
        ensures none { IsNone result → (name : List ℕ) (graph : AskedGraph)
            (one other : List ℕ) (more : List (List ℕ))
            → ¬ AreQuestionWords name graph (one ∷ other ∷ more)
            (name ∷ codes "--unchecked" ∷ first.now ∷ map string_bytes others.now) }
    {
        match first {
            "--newer" => Group::newer_unchecked(others),
            _ => Group::on(AskedGraph::Unchecked(first), others),
        }
    }

    /// What the words behind `--unchecked --newer` say, if there are as many as it takes.
    fn newer_unchecked(words: &'a [String]) -> Option<Group<'a>>
        ensures some { IfSome result (λ group. (name : List ℕ)
            → AreQuestionWords name group.graph
            (group.first.now ∷ map string_bytes group.others.now)
            (name ∷ codes "--unchecked" ∷ codes "--newer" ∷ map string_bytes words.now)) }
        ensures others { IfSome result (λ group. group.others.now ≢ []) }
        ensures none { IsNone result → (name : List ℕ) (graph : AskedGraph)
            (one other : List ℕ) (more : List (List ℕ))
            → ¬ AreQuestionWords name graph (one ∷ other ∷ more)
            (name ∷ codes "--unchecked" ∷ codes "--newer" ∷ map string_bytes words.now) }
    {
        let [path, ids @ ..] = words else {
            return None;
        };
        if is_id(path) {
            Group::with(AskedGraph::NewerUnchecked(None), path, ids)
        } else {
            Group::on(AskedGraph::NewerUnchecked(Some(path)), ids)
        }
    }

    /// A question to a graph about the commits with these ids, if there are two at least.
    fn on(graph: AskedGraph<'a>, ids: &'a [String]) -> Option<Group<'a>>
        ensures some { IfSome result (λ group. (group.graph ≡ graph.entry) × (group.others.now ≢ [])
            × (map string_bytes ids.now ≡ group.first.now ∷ map string_bytes group.others.now)) }
        ensures none { IsNone result → (one other : List ℕ) (more : List (List ℕ))
            → map string_bytes ids.now ≢ one ∷ other ∷ more }
    {
        match ids {
            [] => None,
            [first, others @ ..] => Group::with(graph, first, others),
        }
    }

    /// A question to a graph about the commits with a first id and some others, if there are any.
    fn with(graph: AskedGraph<'a>, first: &'a str, others: &'a [String]) -> Option<Group<'a>>
        ensures some { IfSome result (λ group. (group.graph ≡ graph.entry) × (group.others.now ≢ [])
            × (group.first.now ≡ first.now) × (group.others.now ≡ others.now)) }
        ensures none { IsNone result → others.now ≡ [] }
    {
        if others.is_empty() {
            None
        } else {
            Some(Group {
                graph,
                first,
                others,
            })
        }
    }
}

/// Whether a text spells an id.
fn is_id(text: &str) -> bool
    ensures { IsTrue result ↔ IsId text.now }
{
    ObjectId::from_hex(text.as_bytes()).is_ok()
}

/// The range of positions that two texts spell, of which the second is the only other one, if they
/// spell a range.
fn range_of(from: &str, others: &[String]) -> Option<PositionRange>
    ensures some { IfSome result (λ range. (to : List ℕ)
        × (map string_bytes others.now ≡ to ∷ []) × SpellsRange from.now to range) }
    ensures none { IsNone result → (to : List ℕ) (range : declared.PositionRange)
        → map string_bytes others.now ≡ to ∷ [] → ¬ SpellsRange from.now to range }
{
    match others {
        [] => None,
        [to] => PositionRange::from_texts(from, to),
        _ => None,
    }
}

impl Run for Command<'_> {
    ghost use Rattle.historytool.specs.HistorytoolCommands.{HistorytoolMayWrite};

    ghost MayWrite = { HistorytoolMayWrite };

    fn run<R: Read, T: Folder, W: Write>(
        self,
        alloc: Global,
        input: &mut R,
        folder: &mut T,
        output: &mut W,
    ) -> Result<u8, WriteFailed> {
        match self {
            Command::Help { text } | Command::Version { text } => tell(output, text),
            Command::IsAncestor { pair } => {
                let asked = SpelledQuestion::IsAncestor(pair.first, pair.second);
                ask_graph(pair.graph, alloc, input, folder, asked, Whole, output)
            }
            Command::Walk { pair } => {
                let asked = SpelledQuestion::Walk(pair.first, pair.second);
                ask_graph(pair.graph, alloc, input, folder, asked, Whole, output)
            }
            Command::MergeBase { group } => {
                let asked = SpelledQuestion::MergeBase(group.first, group.others);
                ask_graph(group.graph, alloc, input, folder, asked, Whole, output)
            }
            Command::MergeBaseIds { group } => {
                let asked = SpelledQuestion::MergeBase(group.first, group.others);
                ask_graph(group.graph, alloc, input, folder, asked, IdsAlone, output)
            }
            Command::Check { path } => run_check(alloc, folder, path, output),
            Command::Show { path } => run_show(alloc, folder, path, output),
            Command::Ask { path } => answer_questions(alloc, input, folder, path, output),
            Command::AskUnchecked { path } => run_ask_unchecked(alloc, input, folder, path, output),
            Command::Ids { path, range } => run_ids(alloc, folder, path, range, output),
            Command::Objects { path, range } => {
                run_objects(alloc, input, folder, path, range, output)
            }
            Command::Paths {
                path,
                standard,
                trees,
            } => run_paths(alloc, input, folder, path, standard, trees, output),
            Command::Write { path } => run_write(alloc, input, folder, path, output),
            Command::Merge { path } => run_merge(alloc, folder, path, output),
        }
    }
}

/// Runs `ask`, and answers the exit status. `WriteFailed` comes where the output fails.
fn answer_questions<R: Read, T: Folder, W: Write>(
    alloc: Global,
    input: &mut R,
    folder: &mut T,
    path: &str,
    output: &mut W,
) -> Result<u8, WriteFailed>
    ensures written { IfOk result (WritesAnswer ask_text ask_status
        (MayAsk (λ _. MayOpen (T.tree folder.old) path.now)
        (T.failure_count folder.old) (T.failure_count folder.new)
        (R.remaining input.old) (R.remaining input.new))
        (W.contents output.old) (W.contents output.new)) }
    ensures tree { T.tree folder.new ≡ T.tree folder.old }
{
    let asked = run_ask(alloc, input, folder, &mut Nobody, path, output)?;
    Ok(asked.status)
}

/// Asks a graph a question, and answers the exit status. `WriteFailed` comes where the output
/// fails.
fn ask_graph<R: Read, T: Folder, W: Write>(
    graph: AskedGraph<'_>,
    alloc: Global,
    input: &mut R,
    folder: &mut T,
    question: SpelledQuestion<'_>,
    form: Form,
    output: &mut W,
) -> Result<u8, WriteFailed>
    ensures written { IfOk result (TellsOf graph.entry form
        (spelled_name question.entry) (spelled_texts question.entry)
        (R.remaining input.old) (R.remaining input.new)
        (folder.new ≡ folder.old) (λ path. MayOpen (T.tree folder.old) path)
        (T.failure_count folder.old) (T.failure_count folder.new)
        (W.contents output.old) (W.contents output.new)) }
    ensures tree { T.tree folder.new ≡ T.tree folder.old }
{
    match graph {
        AskedGraph::Checked(path) => run_spelled(alloc, folder, path, question, form, output),
        AskedGraph::Unchecked(path) => {
            run_spelled_unchecked(alloc, folder, path, question, form, output)
        }
        AskedGraph::Newer(path) => {
            run_spelled_newer(alloc, folder, path, question, form, input, output)
        }
        AskedGraph::NewerUnchecked(path) => {
            run_spelled_newer_unchecked(alloc, folder, path, question, form, input, output)
        }
    }
}

/// Writes a text that was asked for, and answers the exit status. `WriteFailed` comes where the
/// writer fails.
fn tell<W: Write>(output: &mut W, text: &str) -> Result<u8, WriteFailed>
    ensures { IfOk result (TellsOfItself text.now (W.contents output.old) (W.contents output.new)) }
{
    write_line(output, text)?;
    Ok(Status::Yes as u8)
}
