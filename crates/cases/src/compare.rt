//! What a run printed beside what it must print.
use hs_types::NoMemory;

/// Whether a line is the wanted one. A wanted line that ends with `...` is a beginning.
fn is_line(line: &str, wanted: &str) -> bool {
    match wanted.strip_suffix("...") {
        Some(beginning) => line.starts_with(beginning),
        None => line == wanted,
    }
}

/// The first wanted line that doesn't stand among those printed, behind the ones before it.
fn first_missing<'t>(printed: &str, wanted: &'t str) -> Option<&'t str> {
    let mut lines = printed.lines();
    for line in wanted.lines() {
        if !lines.any(|printed| is_line(printed, line)) {
            return Some(line);
        }
    }
    None
}

/// Whether each printed line is the wanted one, and there is no other.
fn is_same(printed: &str, wanted: &str) -> bool {
    let mut lines = printed.lines();
    for line in wanted.lines() {
        if !lines.next().is_some_and(|printed| is_line(printed, line)) {
            return false;
        }
    }
    lines.next().is_none()
}

/// Writes `ok`, or the first line that is missing, and what was printed. Where the lines are the whole, no other is printed.
pub fn write_difference(
    name: &str,
    lines: &str,
    is_whole: bool,
    printed: &str,
    out: &mut String,
) -> Result<(), NoMemory> {
    if let Some(line) = first_missing(printed, lines) {
        return Ok(write!(
            out,
            "FAILED {name}: no line `{line}` in its place of\n{printed}"
        )?);
    }
    if is_whole && !is_same(printed, lines) {
        return Ok(write!(out, "FAILED {name}: there are further lines in\n{printed}")?);
    }
    Ok(writeln!(out, "ok {name}")?)
}
