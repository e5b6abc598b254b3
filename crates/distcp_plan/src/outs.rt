//! What is moved out.
ghost use Rattle.std.specs.Prelude.{◌≡◌, ◌++◌, [], IfOk, OnOk};
ghost use Rattle.std.specs.List.{cons_option};
ghost use Rattle.distcp_plan.specs.Planned.{is_out, out_path, outs_by};

use hs_types::{Duplicate, Line, LineKind, List, NoMemory, RelPath};
use std::alloc::Global;

/// Whether a line's item is moved out: it is gone or moved.
pub(crate) fn is_out(line: &Line) -> bool
    ensures { result ≡ is_out line.now.kind }
{
    match line.kind {
        LineKind::Deleted | LineKind::Renamed => true,
        LineKind::Modified | LineKind::Created => false,
    }
}

/// The paths of what is moved out, the last line first.
pub(crate) fn outs_of(alloc: Global, lines: &[Line]) -> Result<List<RelPath>, NoMemory>
    ensures { IfOk result (λ outs. outs ≡ outs_by lines.now) }
{
    let mut outs = Vec::new(alloc);
    for line in lines {
        push_out(&mut outs, line)?;
    }
    outs.reverse();
    Ok(List::of(outs))
}

fn push_out(outs: &mut Vec<RelPath>, line: &Line) -> Result<(), NoMemory>
    ensures { OnOk result (outs.new.items ≡ outs.old.items ++ cons_option (out_path line.now) []) }
{
    if is_out(line) {
        outs.push(line.path.copy()?)?;
    }
    Ok(())
}
