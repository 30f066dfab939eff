//! The branches of a request as one list of octets, so that those of two requests are compared at once.
ghost use Rattle.std.specs.Prelude.{◌≡◌, ◌++◌, IfOk, OnOk};
ghost use Rattle.cqf_admission.specs.Branches.{branch_of, branches_of};
ghost use Rattle.cqf_admission.specs.Spelled.{spelled, spelled_branch, spelled_name};

use cqf_units::Memory;
use std::alloc::Global;

/// Appends the spelling of a name to a text.
fn spell_name(text: &mut Vec<u8>, name: &[u8]) -> Result<(), Memory>
    ensures { OnOk result (text.new.items ≡ text.old.items ++ spelled_name name.now) }
{
    for octet in name {
        text.push(2)?;
        text.push(*octet)?;
    }
    text.push(0)?;
    Ok(())
}

/// Appends the spelling of a branch to a text.
fn spell_branch(text: &mut Vec<u8>, branch: &[String]) -> Result<(), Memory>
    ensures { OnOk result (text.new.items ≡ text.old.items ++ spelled_branch (branch_of branch.now)) }
{
    for name in branch {
        spell_name(text, name.as_bytes())?;
    }
    text.push(1)?;
    Ok(())
}

/// Returns the spelling of the branches as one list of octets, or `Memory` if an allocation fails.
pub(crate) fn spell(alloc: Global, paths: &[Vec<String>]) -> Result<Vec<u8>, Memory>
    ensures { IfOk result (λ text. text.items ≡ spelled (branches_of paths.now)) }
{
    let mut text = Vec::new(alloc);
    for branch in paths {
        spell_branch(&mut text, branch.as_slice())?;
    }
    Ok(text)
}
