//! Whether corrected dates are right.

ghost use Rattle.std.specs.Prelude.{◌≡◌, ◌==◌, ◌+◌, ◌<◌, ◌^◌, ℕ, None, Some, IfOk, IfErr, length};
ghost use Rattle.std.specs.Prelude.{max, not};
ghost use Rattle.gix_chunk_core.specs.FirstFault.{◌when◌, first_below};
ghost use Rattle.graph_format.specs.Reports.{Reports};
ghost use Rattle.graph_format.specs.StoredHistory.{history_of};
ghost use Rattle.graph_walks.specs.Dates.{number_at, AreRight};
ghost use Rattle.graph_layer.specs.Commit.{commit_layer, commit_record, commit_parents};
ghost use Rattle.gix_commitgraph.specs.Graph.{IsGraph, start, stop, total};
ghost use Rattle.graph_chunks.specs.GraphStoredDates.{times_of};
ghost use Rattle.graph_chunks.specs.GraphDates.{wrong_date};
ghost use Rattle.graph_chunks.specs.Latest.{latest_of, AreLatest, HasRoomForLists};

use crate::dates::DatesError;
use crate::dates::latest::{latest_of_parents, put_latest, words_of};
use gix_commitgraph::file::Commit;
use gix_commitgraph::{Graph, Position, file};

/// The date that a commit's time and the dates of its parents give.
#[tactic(auto, using(crate::proofs::LatestLemmas::small_laws))]
fn expected_date(dates: &[u64], latest: &[u64], commit: &Commit<'_>) -> u64
    requires latest { AreLatest dates.now (commit_layer commit.now).edges latest.now }
    requires small { (p : ℕ) → number_at dates.now p < 2 ^ 63 }
    ensures { result ≡ max (commit_record commit.now).time
        (1 + latest_of dates.now (commit_parents commit.now)) }
{
    let after_parents = 1 + latest_of_parents(dates, latest, commit);
    commit.committer_timestamp().max(after_parents)
}

/// Whether the date of the commit at a position is the expected one.
fn check_date(
    dates: &[u64],
    latest: &[u64],
    commit: &Commit<'_>,
    pos: Position,
) -> Result<(), DatesError>
    requires latest { AreLatest dates.now (commit_layer commit.now).edges latest.now }
    requires small { (p : ℕ) → number_at dates.now p < 2 ^ 63 }
    requires within { pos.0 < length dates.now }
    ensures { let expected = max (commit_record commit.now).time
        (1 + latest_of dates.now (commit_parents commit.now)) in
        Reports result (DatesError.Date pos expected
        when not (number_at dates.now pos.0 == expected)) }
{
    let expected = expected_date(dates, latest, commit);
    if dates[pos.0 as usize] != expected {
        return Err(DatesError::Date { pos, expected });
    }
    Ok(())
}

/// Whether the dates of the commits of a layer are the expected ones, before which so many commits
/// stand.
fn check_layer(
    graph: &Graph,
    dates: &[u64],
    room: &mut [u64],
    layer: usize,
    before: u32,
) -> Result<(), DatesError>
    requires graph { IsGraph graph.now }
    requires layer { layer < length graph.now }
    requires before { before ≡ start graph.now layer }
    requires dates { length dates.now ≡ total graph.now }
    requires small { (p : ℕ) → number_at dates.now p < 2 ^ 63 }
    requires room { HasRoomForLists graph.now room.old }
    requires right { first_below (wrong_date (history_of graph.now) (times_of graph.now) dates.now)
        (start graph.now layer) ≡ None }
    ensures right { IfOk result (λ _.
        first_below (wrong_date (history_of graph.now) (times_of graph.now) dates.now)
        (stop graph.now layer) ≡ None) }
    ensures fault { IfErr result (λ fault.
        first_below (wrong_date (history_of graph.now) (times_of graph.now) dates.now)
        (total graph.now) ≡ Some fault) }
{
    let file = &graph.layers()[layer];
    let words = words_of(file).len();
    put_latest(&mut room[..words], dates, file);
    let latest = &room[..words];
    for place in 0..file.num_commits() {
        let commit = file.commit_at(file::Position(place));
        let pos = Position(before + place);
        check_date(dates, latest, &commit, pos)?;
    }
    Ok(())
}

/// Whether each date is the expected one.
pub(super) fn check_dates(graph: &Graph, dates: &[u64], room: &mut [u64]) -> Result<(), DatesError>
    requires dates { length dates.now ≡ total graph.now }
    requires small { (p : ℕ) → number_at dates.now p < 2 ^ 63 }
    requires room { HasRoomForLists graph.now room.old }
    ensures right { IfOk result (λ _.
        AreRight (history_of graph.now) (times_of graph.now) dates.now) }
    ensures none { IfOk result (λ _.
        first_below (wrong_date (history_of graph.now) (times_of graph.now) dates.now)
        (total graph.now) ≡ None) }
    ensures fault { IfErr result (λ fault.
        first_below (wrong_date (history_of graph.now) (times_of graph.now) dates.now)
        (total graph.now) ≡ Some fault) }
{
    let _commits = graph.num_commits();
    let mut before = 0;
    for layer in 0..graph.layers().len() {
        check_layer(graph, dates, room, layer, before)?;
        before += graph.layers()[layer].num_commits();
    }
    Ok(())
}
