//! Texts of paths below the root of a sync's target.
ghost use Rattle.std.specs.Prelude.{◌≡◌, ◌∷◌, ◌++◌, [], IfOk, OnOk, string_bytes};
ghost use Rattle.std.specs.List.{flat_map};
ghost use Rattle.std.specs.Fmt.{decimal};
ghost use Rattle.hs_types.specs.Paths.{component_text};
ghost use Rattle.hs_plain.specs.Plan.{text_below};
ghost use Rattle.distcp_plan.specs.inside.Texts.{front_of};

use hs_types::{Duplicate, Name, NoMemory, PathText};
use std::alloc::Global;

/// The text of the path of these names below the root.
pub fn text_below(alloc: Global, root: &PathText, names: &[Name]) -> Result<PathText, NoMemory>
    ensures { IfOk result (λ text. text ≡ text_below root.now names.now) }
{
    match names {
        [] => root.copy(),
        _ => Ok(PathText::new(names_text(alloc, root, names)?)),
    }
}

/// The text of the temporary directory's path.
pub fn tmp_text(alloc: Global, root: &PathText, tmp: &Name) -> Result<PathText, NoMemory>
    ensures { IfOk result (λ text. text ≡ text_below root.now (tmp.now ∷ [])) }
{
    Ok(PathText::new(tmp_string(alloc, root, tmp)?))
}

/// The text of the path of what is moved out with this number, in the temporary directory.
pub fn out_text(
    alloc: Global,
    root: &PathText,
    tmp: &Name,
    index: u64,
) -> Result<PathText, NoMemory>
    ensures { IfOk result (λ text. text ≡ text_below root.now (tmp.now ∷ decimal index ∷ [])) }
{
    let number = format!(in alloc; "{index}")?;
    let mut text = tmp_string(alloc, root, tmp)?;
    push_part(&mut text, number.as_str())?;
    Ok(PathText::new(text))
}

fn names_text(alloc: Global, root: &PathText, names: &[Name]) -> Result<String, NoMemory>
    ensures { IfOk result (λ text. string_bytes text ≡ front_of root.now ++ flat_map component_text names.now) }
{
    let mut text = front_text(alloc, root)?;
    for name in names {
        push_part(&mut text, name.text())?;
    }
    Ok(text)
}

fn tmp_string(alloc: Global, root: &PathText, tmp: &Name) -> Result<String, NoMemory>
    ensures { IfOk result (λ text. string_bytes text ≡ text_below root.now (tmp.now ∷ [])) }
{
    let mut text = front_text(alloc, root)?;
    push_part(&mut text, tmp.text())?;
    Ok(text)
}

/// What stands before the first component below the root.
fn front_text(alloc: Global, root: &PathText) -> Result<String, NoMemory>
    ensures { IfOk result (λ text. string_bytes text ≡ front_of root.now) }
{
    let mut text = String::new(alloc);
    if root.text() != "/" {
        text.push_str(root.text())?;
    }
    Ok(text)
}

/// Adds a component, with its slash before it.
fn push_part(text: &mut String, part: &str) -> Result<(), NoMemory>
    ensures { OnOk result (string_bytes text.new ≡ string_bytes text.old ++ component_text part.now) }
{
    text.push('/')?;
    text.push_str(part)?;
    Ok(())
}
