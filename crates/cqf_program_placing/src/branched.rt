//! Branches with their tree.
ghost use Rattle.std.specs.Prelude.{◌≡◌, IfOk};
ghost use Rattle.cqf_program_placing.specs.Known.{IsBranched};

use arrayvec::ArrayVec;
use cqf_admission::{count_indices, find_tree};
use cqf_model::Hop;
use cqf_topology::Domain;
use cqf_units::Memory;
use std::alloc::AllocError;

/// Branches, and their tree if they make one.
#[derive(Debug, Drop)]
pub(crate) struct Branched {
    pub(crate) paths: Vec<Vec<String>>,
    pub(crate) tree: Option<ArrayVec<Hop, 200>>,
}

/// Returns branches with their tree.
///
/// # Errors
/// If an allocation fails.
pub(crate) fn branched_by(domain: &Domain, paths: Vec<Vec<String>>) -> Result<Branched, Memory>
    ensures tree { IfOk result (IsBranched domain.now) }
    ensures paths { IfOk result (λ branched. branched.paths ≡ paths) }
{
    // decides as admission does
    if count_indices(paths.as_slice()).is_none() {
        return Err(AllocError);
    }
    let tree = match find_tree(domain, paths.as_slice()) {
        Ok(tree) => Some(tree),
        Err(_) => None,
    };
    Ok(Branched { paths, tree })
}
