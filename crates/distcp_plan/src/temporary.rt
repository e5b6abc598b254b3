//! The name of the temporary directory.
ghost use Rattle.std.specs.Prelude.{◌≡◌, ◌||◌, ◌++◌, ℕ, nat_eq, bytes_eq, string_bytes, IfOk, OnOk, IsTrue};
ghost use Rattle.std.specs.Ordering.{nat_cmp};
ghost use Rattle.std.specs.Cmp.Lexicographic.{slice_cmp};
ghost use Rattle.std.specs.List.{starts_with};
ghost use Rattle.std.specs.BTreeSet.{contains};
ghost use Rattle.hs_types.specs.Names.{is_name};
ghost use Rattle.hs_plain.specs.Plan.{tmp_word, tmp_name, has_name, tmp_for};

use hs_plain::RootNames;
use hs_types::{Duplicate, Name, NoMemory, Text};
use std::alloc::Global;
use std::collections::BTreeSet;

/// The first of the names that is a child of neither root.
pub(crate) fn free_name(alloc: Global, roots: &RootNames) -> Result<Name, NoMemory>
    ensures { IfOk result (λ name. name ≡ tmp_for roots.now) }
{
    let taken = taken_names(alloc, roots)?;
    let most = roots.target.items().len() + roots.source.items().len();
    for number in 0..most {
        let name = name_at(alloc, number)?;
        if !taken.contains(&name) {
            return Ok(name);
        }
    }
    name_at(alloc, most)
}

/// The names in both roots, of those that begin as the names to choose from do.
fn taken_names(alloc: Global, roots: &RootNames) -> Result<BTreeSet<Name>, NoMemory>
    ensures { IfOk result (λ taken. (number : ℕ) → contains (slice_cmp nat_cmp) taken (tmp_name number) ≡ has_name (roots.now.target ++ roots.now.source) (tmp_name number)) }
{
    let mut taken = BTreeSet::new(alloc);
    note_names(&mut taken, roots.target.items())?;
    note_names(&mut taken, roots.source.items())?;
    Ok(taken)
}

fn note_names(taken: &mut BTreeSet<Name>, names: &[Name]) -> Result<(), NoMemory>
    ensures { OnOk result ((number : ℕ) → contains (slice_cmp nat_cmp) taken.new (tmp_name number) ≡ (contains (slice_cmp nat_cmp) taken.old (tmp_name number) || has_name names.now (tmp_name number))) }
{
    for name in names {
        note_name(taken, name)?;
    }
    Ok(())
}

fn note_name(taken: &mut BTreeSet<Name>, name: &Name) -> Result<(), NoMemory>
    ensures { OnOk result ((number : ℕ) → contains (slice_cmp nat_cmp) taken.new (tmp_name number) ≡ (contains (slice_cmp nat_cmp) taken.old (tmp_name number) || bytes_eq name.now (tmp_name number))) }
{
    if begins_so(name) {
        taken.insert(name.copy()?)?;
    }
    Ok(())
}

fn begins_so(name: &Name) -> bool
    ensures { result ≡ starts_with nat_eq name.now tmp_word }
{
    name.text().as_bytes().starts_with(b".distcp.diff.tmp")
}

/// The word alone, and then with 1, 2 and so on.
fn name_at(alloc: Global, number: usize) -> Result<Name, NoMemory>
    ensures { IfOk result (λ name. name ≡ tmp_name number) }
{
    Ok(Name::of_legal(Text::of(text_at(alloc, number)?)))
}

fn text_at(alloc: Global, number: usize) -> Result<String, NoMemory>
    ensures text { IfOk result (λ text. string_bytes text ≡ tmp_name number) }
    ensures name { IfOk result (λ text. IsTrue (is_name (string_bytes text))) }
{
    if number == 0 {
        Ok(String::from_str(alloc, ".distcp.diff.tmp")?)
    } else {
        Ok(format!(in alloc; ".distcp.diff.tmp{number}")?)
    }
}
