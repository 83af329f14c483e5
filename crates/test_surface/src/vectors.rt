//! Plans of files for tests.

use crate::bounds;
use gix_hash_core::{Kind, ObjectId};
use graph_vectors::{LayerPlan, PlanCommit};
use std::alloc::{AllocError, Global};

fn layer_plan(kind: Kind, bases: Vec<ObjectId>, commits: Vec<PlanCommit>) -> LayerPlan {
    bounds::shown::<LayerPlan>();
    LayerPlan {
        kind,
        bases,
        commits,
    }
}

fn plan_commit(ids: [ObjectId; 2], parents: Vec<u32>, generation: u32, time: u64) -> PlanCommit {
    bounds::shown::<PlanCommit>();
    let [id, tree] = ids;
    PlanCommit {
        id,
        tree,
        parents,
        generation,
        time,
    }
}

fn is_buildable(plan: &LayerPlan) -> bool {
    LayerPlan::is_buildable(plan)
}

fn build(alloc: Global, plan: &LayerPlan) -> Option<Result<Vec<u8>, AllocError>> {
    if plan.is_buildable() {
        Some(graph_vectors::build(alloc, plan))
    } else {
        None
    }
}

fn reseal(kind: Kind, bytes: &mut Vec<u8>) {
    if kind.len_in_bytes() <= bytes.len() {
        graph_vectors::reseal(kind, bytes)
    }
}
