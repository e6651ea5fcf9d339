//! The dependencies of a row, from what it lists.
ghost use Rattle.std.specs.Prelude.{◌≡◌, ◌++◌, IfOk, OnOk, map};
ghost use Rattle.rv_event.specs.declared.event.DepKind.TheVariants.{Addr, DataOf};
ghost use Rattle.rv_commits.specs.Rows.{parts_of};

use rv_event::{Dep, DepKind, Deps};
use rv_flow::Lists;
use std::alloc::{AllocError, Global};

/// Adds the rows as dependencies of this kind.
fn add_parts(deps: &mut Vec<Dep>, kind: DepKind, parts: &[u32]) -> Result<(), AllocError>
    ensures { OnOk result (deps.new.items ≡ deps.old.items ++ parts_of kind parts.now) }
{
    'parts: for part in parts {
        deps.push(Dep { kind, seq: *part })?;
    }
    Ok(())
}

/// The dependencies of an access: by its address, and by the value that it stores.
pub(crate) fn access_deps(alloc: Global, lists: &Lists) -> Result<Deps, AllocError>
    ensures { IfOk result (λ deps. deps ≡ parts_of Addr lists.now.address.items
        ++ parts_of DataOf lists.now.value.items) }
{
    let mut deps = Vec::new(alloc);
    add_parts(&mut deps, DepKind::Addr, &lists.address)?;
    add_parts(&mut deps, DepKind::DataOf, &lists.value)?;
    Ok(Deps::from_vec(deps))
}

/// The dependencies of a row of this kind alone.
pub(crate) fn deps_by(alloc: Global, kind: DepKind, parts: &[u32]) -> Result<Deps, AllocError>
    ensures { IfOk result (λ deps. deps ≡ parts_of kind parts.now) }
{
    let mut deps = Vec::new(alloc);
    add_parts(&mut deps, kind, parts)?;
    Ok(Deps::from_vec(deps))
}
