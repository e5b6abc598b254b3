//! Lines in the order of a report.
ghost use Rattle.std.specs.Prelude.{◌≡◌};
ghost use Rattle.std.specs.Ordering.{is_lt};
ghost use Rattle.hs_plain.specs.Report.{rank_of, line_before};
ghost use Rattle.change_report.specs.Sorting.{AreSorted};

use hs_plain::tree::compare_paths;
use hs_types::{Line, LineKind};
use std::cmp::Ordering;

/// The order of lines of one path.
fn kind_rank(kind: LineKind) -> u8
    ensures { result ≡ rank_of kind }
{
    match kind {
        LineKind::Deleted => 0,
        LineKind::Renamed => 1,
        LineKind::Modified => 2,
        LineKind::Created => 3,
    }
}

/// By the paths, and then by the kinds.
fn compare(a: &Line, b: &Line) -> Ordering
    ensures { is_lt result ≡ line_before a.now b.now }
{
    match compare_paths(a.path.items(), b.path.items()) {
        Ordering::Equal => kind_rank(a.kind).cmp(&kind_rank(b.kind)),
        other => other,
    }
}

fn comes_before(a: &Line, b: &Line) -> bool
    ensures { result ≡ line_before a.now b.now }
{
    compare(a, b) == Ordering::Less
}

/// The same lines in order, each once. It takes no memory.
pub fn sorted(mut lines: Vec<Line>) -> Vec<Line>
    ensures { AreSorted lines.items result.items }
{
    lines.sort_unstable_by(|a, b| compare(a, b));
    lines.dedup_by(|later, earlier| !comes_before(earlier, later));
    lines
}
