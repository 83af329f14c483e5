//! What the tests share: chains of layers, and checks whose processor notes its calls. Where an
//! allocation fails or a layer is refused, the process aborts.
//!
//! The contracts of checks and of questions are long, and here they end: these functions have none,
//! so the proof of a test does not go over them once more.

use gix_commitgraph::file::{self, Commit};
use gix_commitgraph::verify::{Outcome, VerifyError, VerifyOptions};
use gix_commitgraph::{File, Graph};
use gix_hash_core::{ObjectId, oid};
use graph_history::{Checked, NoFault};
use graph_vectors::{LayerPlan, Row, file_of_plan, plan_of_rows};
use std::alloc::Global;
use std::process::Abort;

/// The commits of each layer of a graph, from the lowest on.
pub type Layers = &'static [&'static [Row<'static>]];

/// The id that repeats a byte.
pub fn id_of(byte: u8) -> ObjectId {
    ObjectId::from([byte; 20])
}

/// The layer of these bytes, whose file has this path.
pub fn opened(rt: &impl Abort, alloc: Global, bytes: Vec<u8>, path: &str) -> File {
    let path = String::from_str(alloc, path).expect(rt, "memory");
    File::new(alloc, bytes, path).ok().expect(rt, "a layer")
}

/// The graph of these layers.
pub fn graph_of(rt: &impl Abort, alloc: Global, files: Vec<File>) -> Graph {
    Graph::new(alloc, files).ok().expect(rt, "a graph")
}

/// The graph of one layer.
pub fn graph_of_one(rt: &impl Abort, alloc: Global, layer: File) -> Graph {
    let files = vec![in alloc; layer];
    graph_of(rt, alloc, files.expect(rt, "memory"))
}

/// The file of a plan. Where no file can hold it, the process aborts.
pub fn built(rt: &impl Abort, alloc: Global, plan: &LayerPlan) -> Vec<u8> {
    file_of_plan(alloc, plan).expect(rt, "a file")
}

/// The name of the SHA-1 file of these bytes in a chain.
fn name_of(rt: &impl Abort, alloc: Global, bytes: &[u8]) -> String {
    let front = bytes.len().saturating_sub(20);
    let checksum = oid::try_from_bytes(bytes.get(front..).unwrap_or(&[]));
    let checksum = checksum.expect(rt, "a checksum");
    format!(in alloc; "graph-{checksum}.graph").expect(rt, "memory")
}

/// SHA-1 layers, from the lowest on. Each names those below it as its bases, and its file has the
/// name that a chain gives it.
#[derive(Drop)]
pub struct Chain {
    pub files: Vec<File>,
    checksums: Vec<ObjectId>,
}

impl Chain {
    /// No layers.
    pub fn new(alloc: Global) -> Chain {
        Chain {
            files: Vec::new(alloc),
            checksums: Vec::new(alloc),
        }
    }

    /// The plan of a layer of these commits on top.
    pub fn plan(&self, rt: &impl Abort, alloc: Global, rows: &[Row<'_>]) -> LayerPlan {
        plan_of_rows(alloc, &self.checksums, rows).expect(rt, "memory")
    }

    /// Puts the layer of a plan on top.
    pub fn push(&mut self, rt: &impl Abort, alloc: Global, plan: &LayerPlan) {
        let bytes = built(rt, alloc, plan);
        let name = name_of(rt, alloc, &bytes);
        let file = opened(rt, alloc, bytes, name.as_str());
        let checksum = file.checksum().to_owned();
        self.checksums.push(checksum).expect(rt, "memory");
        self.files.push(file).expect(rt, "memory");
    }
}

/// The chain of these layers.
pub fn chain_of(rt: &impl Abort, alloc: Global, layers: &[&[Row<'_>]]) -> Chain {
    let mut chain = Chain::new(alloc);
    for rows in layers {
        let plan = chain.plan(rt, alloc, rows);
        chain.push(rt, alloc, &plan);
    }
    chain
}

/// The graph of these layers.
pub fn graph(rt: &impl Abort, alloc: Global, layers: &[&[Row<'_>]]) -> Graph {
    graph_of(rt, alloc, chain_of(rt, alloc, layers).files)
}

/// A graph that is right, checked.
pub fn right<'g>(rt: &impl Abort, alloc: Global, graph: &'g Graph) -> Checked<'g> {
    Checked::new(alloc, graph).ok().expect(rt, "a right graph")
}

/// How a graph is checked: with no options, or with these.
pub type Options = Option<VerifyOptions>;

/// Ids may stand in two layers.
pub const ANY_IDS: Options = Some(VerifyOptions {
    distinct_ids: false,
});

/// No id may stand in two layers.
pub const DISTINCT_IDS: Options = Some(VerifyOptions { distinct_ids: true });

/// Each way to check a graph.
pub const EACH: &[Options] = &[None, ANY_IDS, DISTINCT_IDS];

/// A processor.
#[derive(Clone, Copy, PartialEq, Eq)]
pub enum Processor {
    /// It accepts each commit.
    Accepts,
    /// It refuses its call of this number, which counts from 0.
    RefusesCall(usize),
    /// It refuses each commit.
    RefusesAll,
}

/// The error of a processor.
#[derive(Debug, Drop, PartialEq, Eq)]
pub enum Refused {
    Commit,
    OutOfMemory,
}

/// Why a check refuses a graph.
pub type Fault = VerifyError<Refused>;

/// A call of a processor: the position of the commit in its layer, and its id.
pub type Call = (file::Position, ObjectId);

impl Processor {
    /// What is answered to the call of this number.
    fn answer(self, call: usize) -> Result<(), Refused> {
        if self == Processor::RefusesAll || self == Processor::RefusesCall(call) {
            Err(Refused::Commit)
        } else {
            Ok(())
        }
    }
}

/// What a check of a graph answers, and the calls of its processor, in order.
pub fn checked(
    alloc: Global,
    graph: &Graph,
    options: Options,
    processor: Processor,
) -> (Result<Outcome, Fault>, Vec<Call>) {
    let mut calls: Vec<Call> = Vec::new(alloc);
    let called = &mut |commit: &Commit<'_>| -> Result<(), Refused> {
        let number = calls.len();
        let call = (commit.position(), commit.id().to_owned());
        calls.push(call).map_err(|_| Refused::OutOfMemory)?;
        processor.answer(number)
    };
    let answer = match options {
        None => graph.verify_integrity(alloc, called),
        Some(options) => graph.verify_integrity_with(alloc, options, called),
    };
    (answer, calls)
}

/// Why a check whose processor accepts each commit refuses a graph, if it does.
fn fault_of(alloc: Global, graph: &Graph) -> Option<VerifyError<NoFault>> {
    let answer = graph.verify_integrity(alloc, &mut |_: &Commit<'_>| Ok(()));
    answer.err()
}

/// Why there is no checked graph, if there is none.
fn refusal_of(alloc: Global, graph: &Graph) -> Option<VerifyError<NoFault>> {
    Checked::new(alloc, graph).err()
}

/// Asserts that these calls are on the first commits of the layers, once and in order.
pub fn compare_calls(rt: &impl Abort, calls: &[Call], layers: &[&[Row<'_>]]) {
    let mut calls = calls.iter();
    for rows in layers {
        for (place, row) in (0u32..).zip(*rows) {
            if let Some((pos, id)) = calls.next() {
                assert!(rt; *pos == file::Position(place) && *id == id_of(row.0));
            }
        }
    }
    assert!(rt; calls.next().is_none());
}

/// Compares the refusal of the graph of these layers, whose commits the processor accepts, and on
/// how many of them it is called.
pub fn compare_refusal(
    rt: &impl Abort,
    alloc: Global,
    (graph, layers): (&Graph, &[&[Row<'_>]]),
    options: Options,
    (want, count): (&Fault, usize),
) {
    let (answer, calls) = checked(alloc, graph, options, Processor::Accepts);
    assert!(rt; answer.as_ref().err() == Some(want) && calls.len() == count);
    compare_calls(rt, &calls, layers);
}

/// Asserts that a graph that is refused cannot be had as a checked one, for the same reason.
pub fn compare_unchecked(rt: &impl Abort, alloc: Global, graph: &Graph) {
    let refusal = refusal_of(alloc, graph);
    assert!(rt; refusal.is_some() && refusal == fault_of(alloc, graph));
    assert!(rt; !matches!(refusal, Some(VerifyError::Processor { .. })));
}

/// What a check says of a right graph: the longest path, and numbers of parents, each with the
/// number of commits that have it.
pub type Summary = (Option<u32>, &'static [(u32, u32)]);

/// Compares an outcome and its copy with what is wanted.
pub fn compare_outcome(rt: &impl Abort, outcome: &Outcome, commits: usize, want: Summary) {
    let (longest, counts) = want;
    assert!(rt; outcome.longest_path_length == longest);
    assert!(rt; outcome.num_commits as usize == commits);
    assert!(rt; outcome.parent_counts.len() == counts.len());
    for (parents, count) in counts {
        assert!(rt; outcome.parent_counts.get(parents) == Some(count));
    }
    assert!(rt; outcome.try_clone().expect(rt, "memory") == *outcome);
}

/// Compares the outcome of the right graph of these layers. The processor accepts each commit, and
/// is called on each, once and in order.
pub fn compare_right(
    rt: &impl Abort,
    alloc: Global,
    (graph, layers): (&Graph, &[&[Row<'_>]]),
    options: Options,
    (commits, want): (usize, Summary),
) {
    let (answer, calls) = checked(alloc, graph, options, Processor::Accepts);
    assert!(rt; calls.len() == commits);
    compare_calls(rt, &calls, layers);
    let outcome = answer.ok().expect(rt, "a right graph");
    compare_outcome(rt, &outcome, commits, want);
}
