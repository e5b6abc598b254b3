//! Paths, and texts that may become one.
ghost use Rattle.std.specs.Prelude.{◌≡◌, true, Ok, ◌+◌, ◌<◌, ◌≤◌, ◌||◌, string_bytes, length, map, drop, count_by, sum_by, nat_lt, ◌-◌, IfOk, IfErr, OnOk, IsTrue, not, ◌++◌};
ghost use Rattle.std.specs.Option.{SomeIff};
ghost use Rattle.std.specs.List.{list_any, list_all, before_first, after_first, position_or_len, slice_split, flat_map};
ghost use Rattle.hs_types.specs.Names.{is_snapshot_word, is_nul, is_name, is_slash};
ghost use Rattle.hs_types.specs.Paths.{components, is_bad_component, is_bad_path, is_long_component, is_too_long, is_too_deep, counted_parts, text_length, path_of, path_from, tail_at, component_text, path_text, IsPathFault};
ghost use Rattle.hs_types.specs.declared.path.PathFault.TheVariants.{NoMemory as fault_no_memory};

use crate::list::List;
use crate::memory::{Duplicate, NoMemory};
use crate::name::{Name, contains_byte, is_dots_name, is_snapshot_word};
use crate::text::Text;
use std::alloc::{AllocError, Global};
use std::marker::Model;

/// A text that was said as a path. It may be no path at all.
#[derive(Debug, Drop, PartialEq, Eq)]
pub struct PathText {
    text: Text,
}

impl Model for PathText {
    ghost use Rattle.std.specs.Prelude.{List, ℕ};

    ghost Value = { List ℕ };

    ghost view = { λ p. p.text };

    ghost inverse = { λ bytes. record { text = bytes } };
}

impl PathText {
    /// Holds that text, and takes no memory.
    pub fn new(text: String) -> PathText
        ensures { result ≡ string_bytes text }
    {
        PathText {
            text: Text::of(text),
        }
    }

    /// The text as it was said.
    pub fn text(&self) -> &str
        ensures { result.now ≡ self.now }
    {
        self.text.as_str()
    }

    /// The text of the live path of these names.
    pub fn of_names(alloc: Global, names: &[Name]) -> Result<PathText, NoMemory>
        ensures { IfOk result (λ text. text ≡ path_text names.now) }
    {
        match names {
            [] => Ok(PathText::new(String::from_str(alloc, "/")?)),
            _ => Ok(PathText::new(components_text(alloc, names)?)),
        }
    }
}

/// These names, each with its slash before it.
fn components_text(alloc: Global, names: &[Name]) -> Result<String, NoMemory>
    ensures { IfOk result (λ text. string_bytes text ≡ flat_map component_text names.now) }
{
    let mut text = String::new(alloc);
    for name in names {
        push_component(&mut text, name)?;
    }
    Ok(text)
}

/// Adds a name, with its slash before it.
fn push_component(text: &mut String, name: &Name) -> Result<(), NoMemory>
    ensures { OnOk result (string_bytes text.new ≡ string_bytes text.old ++ component_text name.now) }
{
    text.push('/')?;
    text.push_str(name.text())?;
    Ok(())
}

impl Duplicate for PathText {
    fn copy(&self) -> Result<PathText, NoMemory> {
        Ok(PathText {
            text: self.text.copy()?,
        })
    }
}

/// The names that lead from a directory to a node below it; none lead to the directory itself.
pub type RelPath = List<Name>;

/// A path that the path rules allow.
#[derive(Debug, Drop, PartialEq, Eq)]
pub struct Path {
    /// The components before `.snapshot`, or all of them.
    pub base: List<Name>,
    pub tail: PathTail,
}

/// What follows the base of a path.
#[derive(Debug, Drop, PartialEq, Eq)]
pub enum PathTail {
    /// No `.snapshot`: a path of the live tree.
    Plain,
    /// `.snapshot` is last: the list of the base directory's snapshots.
    SnapshotList,
    /// A path into a snapshot of the base directory.
    Frozen { snapshot: Name, rest: List<Name> },
}

/// Why a text is not read as a path.
#[derive(Clone, Copy, Debug, PartialEq, Eq)]
pub enum PathFault {
    /// No `/` at the front, an empty component, `.` or `..`, a U+0000, or `.snapshot` twice.
    BadPath,
    /// A component of more than 255 bytes, or more than 8,000 bytes without `.snapshot` and the component after it.
    TooLong,
    /// More than 1,000 components without `.snapshot` and the one after it.
    TooDeep,
    /// Memory ran out while a text without a fault was read, or before its faults were known.
    NoMemory,
}

impl From<NoMemory> for PathFault {
    ghost from_gives = { λ _ e. e ≡ fault_no_memory };

    fn from(_error: NoMemory) -> PathFault {
        PathFault::NoMemory
    }
}

impl From<AllocError> for PathFault {
    ghost from_gives = { λ _ e. e ≡ fault_no_memory };

    fn from(_error: AllocError) -> PathFault {
        PathFault::NoMemory
    }
}

/// The parts of a text between its slashes.
fn parts_of(alloc: Global, text: &str) -> Result<Vec<&str>, AllocError>
    ensures { IfOk result (λ parts. map (λ part. part.now) parts.items ≡ slice_split is_slash text.now) }
{
    text.split('/').collect(alloc)
}

/// The parts that are components: none of `/`, and else all but what stands before the first slash.
fn components_of<'p, 't>(text: &str, parts: &'p [&'t str]) -> &'p [&'t str]
    requires { map (λ part. part.now) parts.now ≡ slice_split is_slash text.now }
    ensures { map (λ part. part.now) result.now ≡ components text.now }
{
    let all = parts.len();
    let first = if text == "/" { all } else { all.min(1) };
    &parts[first..]
}

fn is_bad_part(part: &str) -> bool
    ensures { result ≡ is_bad_component part.now }
{
    part.is_empty() || is_dots_name(part) || contains_byte(part.as_bytes(), 0)
}

fn any_bad(parts: &[&str]) -> bool
    ensures { result ≡ list_any is_bad_component (map (λ part. part.now) parts.now) }
{
    parts.iter().any(|part| is_bad_part(part))
}

fn any_long(parts: &[&str]) -> bool
    ensures { result ≡ list_any is_long_component (map (λ part. part.now) parts.now) }
{
    parts.iter().any(|part| part.len() > 255)
}

fn snapshot_words(parts: &[&str]) -> usize
    ensures { result ≡ count_by is_snapshot_word (map (λ part. part.now) parts.now) }
{
    parts.iter().filter(|part| is_snapshot_word(part)).count()
}

/// Where `.snapshot` first stands, or the number of parts.
fn snapshot_at(parts: &[&str]) -> usize
    ensures at { result ≡ position_or_len is_snapshot_word (map (λ part. part.now) parts.now) }
    ensures within { result ≤ length parts.now }
{
    parts
        .iter()
        .position(|part| is_snapshot_word(part))
        .unwrap_or(parts.len())
}

/// What is left of a number of bytes after these parts, each with its slash; `None` where they are more.
fn left_after(parts: &[&str], bytes: usize) -> Option<usize>
    ensures { SomeIff result (text_length (map (λ part. part.now) parts.now) ≤ bytes) (bytes - text_length (map (λ part. part.now) parts.now)) }
{
    let mut left = bytes;
    for part in parts {
        let part_bytes = part.len();
        match left.checked_sub(part_bytes + 1) {
            Some(less) => left = less,
            None => return None,
        }
    }
    Some(left)
}

fn is_bad(text: &str, parts: &[&str]) -> bool
    requires { map (λ part. part.now) parts.now ≡ components text.now }
    ensures { result ≡ is_bad_path text.now }
{
    let rooted = text.as_bytes().starts_with(b"/");
    let any_bad = any_bad(parts);
    let words = snapshot_words(parts);
    !rooted || any_bad || words > 1
}

fn is_long(parts: &[&str]) -> bool
    ensures { result ≡ is_too_long (map (λ part. part.now) parts.now) }
{
    let at = snapshot_at(parts);
    let any_long = any_long(parts);
    let over = is_over(&parts[..at], counted_below(parts, at));
    any_long || over
}

/// Whether two runs of parts together are more than 8,000 bytes of text.
fn is_over(base: &[&str], rest: &[&str]) -> bool
    ensures { result ≡ nat_lt 8000 (text_length (map (λ part. part.now) base.now ++ map (λ part. part.now) rest.now)) }
{
    match left_after(base, 8000) {
        Some(left) => left_after(rest, left).is_none(),
        None => true,
    }
}

/// The parts behind the one that follows `.snapshot`, which stands at `at`.
fn counted_below<'p, 't>(parts: &'p [&'t str], at: usize) -> &'p [&'t str]
    requires { at ≤ length parts.now }
    ensures { map (λ part. part.now) result.now ≡ drop 1 (drop (at + 1) (map (λ part. part.now) parts.now)) }
{
    if parts.len() - at < 2 {
        &parts[..0]
    } else {
        &parts[at + 2..]
    }
}

fn is_deep(parts: &[&str]) -> bool
    ensures { result ≡ is_too_deep (map (λ part. part.now) parts.now) }
{
    let at = snapshot_at(parts);
    at + counted_below(parts, at).len() > 1000
}

fn name_of(alloc: Global, part: &str) -> Result<Name, NoMemory>
    requires { IsTrue (is_name part.now) }
    ensures { IfOk result (λ name. name ≡ part.now) }
{
    Ok(Name::of_legal(Text::of(String::from_str(alloc, part)?)))
}

/// The names that these parts are.
#[tactic(auto, using(crate::proofs::Legal::list_all_at))]
fn names_of(alloc: Global, parts: &[&str]) -> Result<List<Name>, NoMemory>
    requires { list_all is_name (map (λ part. part.now) parts.now) ≡ true }
    ensures { IfOk result (λ names. names ≡ map (λ part. part.now) parts.now) }
{
    let mut names = Vec::with_capacity(alloc, parts.len())?;
    for part in parts {
        names.push(name_of(alloc, part)?)?;
    }
    Ok(List::of(names))
}

/// What follows the base: the parts from `.snapshot` on, if it is there.
fn tail_from(alloc: Global, parts: &[&str]) -> Result<PathTail, NoMemory>
    requires { list_all is_name (drop 1 (map (λ part. part.now) parts.now)) ≡ true }
    ensures { IfOk result (λ tail. tail ≡ tail_at (map (λ part. part.now) parts.now)) }
{
    match parts {
        [] => Ok(PathTail::Plain),
        [_] => Ok(PathTail::SnapshotList),
        [_, snapshot, rest @ ..] => Ok(PathTail::Frozen {
            snapshot: name_of(alloc, snapshot)?,
            rest: names_of(alloc, rest)?,
        }),
    }
}

/// The path of these components.
fn path_of_parts(alloc: Global, parts: &[&str]) -> Result<Path, NoMemory>
    requires base { list_all is_name (before_first is_snapshot_word (map (λ part. part.now) parts.now)) ≡ true }
    requires rest { list_all is_name (after_first is_snapshot_word (map (λ part. part.now) parts.now)) ≡ true }
    ensures { IfOk result (λ path. path ≡ path_from (map (λ part. part.now) parts.now)) }
{
    let at = snapshot_at(parts);
    let base = names_of(alloc, &parts[..at])?;
    let tail = tail_from(alloc, &parts[at..])?;
    Ok(Path { base, tail })
}

impl Path {
    /// Reads a text by the path rules. The faults are tested in the order `BadPath`, `TooLong`, `TooDeep`.
    pub fn read(alloc: Global, text: &PathText) -> Result<Path, PathFault>
        ensures path { IfOk result (λ path. path_of text.now ≡ Ok path) }
        ensures fault { IfErr result (IsPathFault (path_of text.now)) }
    {
        let text = text.text();
        let all = parts_of(alloc, text)?;
        let parts = components_of(text, all.as_slice());
        if is_bad(text, parts) {
            return Err(PathFault::BadPath);
        }
        if is_long(parts) {
            return Err(PathFault::TooLong);
        }
        if is_deep(parts) {
            return Err(PathFault::TooDeep);
        }
        Ok(path_of_parts(alloc, parts)?)
    }
}
