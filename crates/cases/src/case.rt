//! A case: a script, how it is run, and what its run must print.
use hs_types::NoMemory;
use std::alloc::Global;

/// A case as its file has it.
#[derive(Clone, Copy)]
pub struct Case<'t> {
    /// What it shows, in plain words, and how it is run: a setting a line.
    pub head: &'t str,
    pub script: &'t str,
    /// Whether the run prints these lines and no other. Else they stand among its lines, in this order.
    pub is_whole: bool,
    pub lines: &'t str,
}

impl<'t> Case<'t> {
    /// A script that prints just these lines.
    pub fn of(script: &'t str, lines: &'t str) -> Case<'t> {
        Case {
            head: "",
            script,
            is_whole: true,
            lines,
        }
    }

    /// The head, a line `script`, the script, a line `prints` or `prints all`, and the lines.
    pub fn read(text: &'t str) -> Option<Case<'t>> {
        let (head, rest) = text.split_once("\nscript\n")?;
        let (script, wanted) = split_script(rest)?;
        let (all, lines) = wanted.split_once('\n')?;
        Some(Case {
            head,
            script,
            is_whole: all == " all",
            lines,
        })
    }

    /// The words of a setting, where the head has it.
    pub fn setting(&self, name: &str) -> Option<&'t str> {
        self.head
            .lines()
            .filter_map(|line| line.strip_prefix(name))
            .next()
    }

    /// Whether the wanted lines are of counts too.
    pub fn asks_for_counts(&self) -> bool {
        self.lines.contains("counts ")
    }
}

/// The script, and what stands behind the word `prints`. A script may be empty.
fn split_script(rest: &str) -> Option<(&str, &str)> {
    match rest.strip_prefix("prints") {
        Some(wanted) => Some(("", wanted)),
        None => rest.split_once("\nprints"),
    }
}

/// Writes what is repeated, with its number behind a star.
fn write_repeated(out: &mut String, repeated: &str) -> Result<(), NoMemory> {
    let (part, times) = repeated.split_once('*').unwrap_or((repeated, ""));
    for _ in 0..times.parse::<u32>().unwrap_or(1) {
        out.push_str(part)?;
    }
    Ok(())
}

/// Writes a piece of a text, which begins with what is repeated.
fn write_piece(out: &mut String, piece: &str) -> Result<(), NoMemory> {
    let (repeated, rest) = piece.split_once('}').unwrap_or(("", piece));
    write_repeated(out, repeated)?;
    out.push_str(rest)?;
    Ok(())
}

/// A text of a case, in which `{/a*3}` stands for `/a/a/a`.
pub fn expanded(alloc: Global, text: &str) -> Result<String, NoMemory> {
    let mut out = String::new(alloc);
    for piece in text.split('{') {
        write_piece(&mut out, piece)?;
    }
    Ok(out)
}
