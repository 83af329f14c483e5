//! The records of commits.

ghost use Rattle.std.specs.Prelude.{◌≡◌, ◌+◌, ◌<◌, ◌≤◌, ◌++◌, OnOk};
ghost use Rattle.graph_encoder.specs.ExtraEdges.{top_bit};
ghost use Rattle.graph_encoder.specs.Plan.{IsPlan};
ghost use Rattle.graph_encoder.specs.Rows.{IsRowOf};
ghost use Rattle.graph_encoder.specs.Written.{record_bytes, records_from};
ghost use Rattle.graph_encoder.specs.declared.plan.PlanCommit.{PlanCommit};

use crate::edges::{extra_words_len, parent_fields};
use crate::push::{push_id, push_long, push_word};
use crate::row::PlanRow;
use crate::view::PlanView;
use graph_format::records::TIME_BITS;
use std::alloc::AllocError;

/// Adds the record of a commit whose extra words begin at this index.
#[tactic(auto, unfolding(crate::specs::Written::record_bytes))]
fn push_record(file: &mut Vec<u8>, row: PlanRow<'_>, index: u32) -> Result<(), AllocError>
    requires index { index < top_bit }
    requires generation { row.generation ≤ 1073741823 }
    requires time { row.time ≤ 17179869183 }
    ensures { OnOk result ((commit : PlanCommit) → IsRowOf commit row.entry
        → file.new.items ≡ file.old.items ++ record_bytes index commit) }
{
    let (first, second) = parent_fields(row.parents, index);
    push_id(file, row.tree)?;
    push_word(file, first)?;
    push_word(file, second)?;
    push_long(file, (u64::from(row.generation) << TIME_BITS) + row.time)?;
    Ok(())
}

/// Adds the records of these commits, whose extra words follow one another.
pub(crate) fn push_records<P: PlanView>(file: &mut Vec<u8>, plan: &P) -> Result<(), AllocError>
    requires { IsPlan (P.as_plan plan.now) }
    ensures { OnOk result (file.new.items
        ≡ file.old.items ++ records_from 0 (P.as_plan plan.now).commits.items) }
{
    let mut index = 0;
    for place in 0..plan.commit_count() {
        let row = plan.row(place);
        push_record(file, row, index)?;
        index += extra_words_len(row.parents) as u32;
    }
    Ok(())
}
