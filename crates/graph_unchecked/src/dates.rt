//! The corrected dates that files store of which parts are read, as ranks.

ghost use Rattle.graph_unchecked.specs.PartSource.{told_dates};

use crate::reads::read_date;
use crate::source::TrustedCommits;
use crate::unread::Unread;
use commit_search::Ranks;
use gix_commitgraph::Position;
use graph_folder::folder::Folder;

/// The corrected dates that are stored of the commits of files, up to the greatest number of 64
/// bits.
#[derive(Clone, Copy)]
pub(crate) struct PartDates;

impl<'a, T: Folder> Ranks<TrustedCommits<'a, T>> for PartDates {
    ghost ranking = { λ _ t. told_dates t };

    fn cap(&self) -> u64 {
        u64::MAX
    }

    fn rank(&self, commits: &mut TrustedCommits<'a, T>, pos: Position) -> Result<u64, Unread> {
        if commits.failed {
            return Err(Unread::NotByParts);
        }
        match read_date(commits.alloc, commits.folder, commits.parts, pos) {
            Err(Unread::Device) => {
                commits.failed = true;
                Err(Unread::NotByParts)
            }
            answer => answer,
        }
    }
}
