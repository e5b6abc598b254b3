//! The words that may follow a side.
ghost use Rattle.std.specs.Prelude.{◌≡◌};
ghost use Rattle.script_text.specs.Commands.{word_of as plain_word_of};

/// What may follow a side; each is spelled as its name in lower-case letters.
#[derive(Clone, Copy, Debug, PartialEq, Eq)]
pub(crate) enum CommandWord {
    Mkdir,
    Create,
    CreateOver,
    Append,
    Fill,
    Rm,
    Rmr,
    Mv,
    Chmod,
    Allow,
    Disallow,
    Snap,
    SnapDel,
    SnapRen,
    Stat,
    Cat,
    Ls,
    Snaps,
    Dirs,
    Diff,
    First,
    More,
    DFirst,
    DMore,
}

/// The command that a text spells.
fn word_of_text(text: &str) -> Option<CommandWord>
    ensures { result ≡ plain_word_of text.now }
{
    match text {
        "mkdir" => Some(CommandWord::Mkdir),
        "create" => Some(CommandWord::Create),
        "createover" => Some(CommandWord::CreateOver),
        "append" => Some(CommandWord::Append),
        "fill" => Some(CommandWord::Fill),
        "rm" => Some(CommandWord::Rm),
        "rmr" => Some(CommandWord::Rmr),
        "mv" => Some(CommandWord::Mv),
        "chmod" => Some(CommandWord::Chmod),
        "allow" => Some(CommandWord::Allow),
        "disallow" => Some(CommandWord::Disallow),
        "snap" => Some(CommandWord::Snap),
        "snapdel" => Some(CommandWord::SnapDel),
        "snapren" => Some(CommandWord::SnapRen),
        "stat" => Some(CommandWord::Stat),
        "cat" => Some(CommandWord::Cat),
        "ls" => Some(CommandWord::Ls),
        "snaps" => Some(CommandWord::Snaps),
        "dirs" => Some(CommandWord::Dirs),
        "diff" => Some(CommandWord::Diff),
        "first" => Some(CommandWord::First),
        "more" => Some(CommandWord::More),
        "dfirst" => Some(CommandWord::DFirst),
        "dmore" => Some(CommandWord::DMore),
        _ => None,
    }
}

/// The command that a word spells.
pub(crate) fn word_of(word: &[u8]) -> Option<CommandWord>
    ensures { result ≡ plain_word_of word.now }
{
    match str::from_utf8(word) {
        Ok(text) => word_of_text(text),
        Err(_) => None,
    }
}
