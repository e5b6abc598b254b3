//! Scripts and what is read from them.
use hs_types::{Call, PathText, Side};
use script_text::{Command, Pages, Script, ScriptLine, Section, generate, read};
use std::alloc::Global;
use std::fmt::Write;
use std::test::Fail;

/// The section of a line: `-` is setup, a number a client, `.` finish.
fn print_section(section: Section, out: &mut String) -> Result<(), Fail> {
    match section {
        Section::Setup => Ok(out.push_str("-")?),
        Section::Client(number) => Ok(write!(out, "{number}")?),
        Section::Finish => Ok(out.push_str(".")?),
    }
}

fn print_paths(name: &str, paths: [&PathText; 2], out: &mut String) -> Result<(), Fail> {
    let [first, second] = paths;
    Ok(write!(out, "{name} {:?} {:?}", first.text(), second.text())?)
}

/// A call on the snapshots of a directory.
fn print_snapshot_call(call: &Call, out: &mut String) -> Result<(), Fail> {
    match call {
        Call::Allow { path } => Ok(write!(out, "allow {:?}", path.text())?),
        Call::Disallow { path } => Ok(write!(out, "disallow {:?}", path.text())?),
        Call::Snap { path, name } => Ok(write!(out, "snap {:?} {:?}", path.text(), name.text())?),
        Call::SnapDel { path, name } => Ok(write!(
            out,
            "snapdel {:?} {:?}",
            path.text(),
            name.text()
        )?),
        Call::SnapRen { path, old, new } => Ok(write!(
            out,
            "snapren {:?} {:?} {:?}",
            path.text(),
            old.text(),
            new.text()
        )?),
        Call::Snaps { path } => Ok(write!(out, "snaps {:?}", path.text())?),
        Call::Dirs => Ok(out.push_str("dirs")?),
        _ => Ok(out.push_str("another call")?),
    }
}

fn print_call(call: &Call, out: &mut String) -> Result<(), Fail> {
    match call {
        Call::Mkdir { path } => Ok(write!(out, "mkdir {:?}", path.text())?),
        Call::Create { path, over } => Ok(write!(out, "create {:?} {over}", path.text())?),
        Call::Append { path, bytes } => {
            let bytes = bytes.bytes();
            let shown = &bytes[..bytes.len().min(4)];
            Ok(write!(out, "append {:?} {} {shown:?}", path.text(), bytes.len())?)
        }
        Call::Delete { path, recursive } => Ok(write!(
            out,
            "delete {:?} {recursive}",
            path.text()
        )?),
        Call::Rename { old, new } => print_paths("rename", [old, new], out),
        Call::SetMode { path, mode } => Ok(write!(
            out,
            "mode {:?} {:o}",
            path.text(),
            mode.bits()
        )?),
        Call::Stat { path } => Ok(write!(out, "stat {:?}", path.text())?),
        _ => print_snapshot_call(call, out),
    }
}

fn print_pages(pages: &Pages, out: &mut String) -> Result<(), Fail> {
    match pages {
        Pages::File { path } => Ok(write!(out, "file {:?}", path.text())?),
        Pages::Listing { path } => Ok(write!(out, "listing {:?}", path.text())?),
        Pages::Report {
            path,
            from: _,
            to: _,
        } => Ok(write!(out, "report {:?}", path.text())?),
    }
}

fn print_side(side: Side, out: &mut String) -> Result<(), Fail> {
    match side {
        Side::Source => Ok(out.push_str(" s ")?),
        Side::Target => Ok(out.push_str(" t ")?),
    }
}

fn print_command(command: &Command, out: &mut String) -> Result<(), Fail> {
    match command {
        Command::Call { side, call } => {
            print_side(*side, out)?;
            print_call(call, out)
        }
        Command::All { side, pages } => {
            print_side(*side, out)?;
            print_pages(pages, out)
        }
        Command::Sync {
            source,
            target,
            from,
            to,
        } => {
            print_paths(" sync", [source, target], out)?;
            Ok(write!(out, " {:?} {:?}", from.text(), to.text())?)
        }
        _ => Ok(out.push_str("another command")?),
    }
}

fn print_line(line: &ScriptLine, out: &mut String) -> Result<(), Fail> {
    write!(out, "{}", line.line)?;
    print_section(line.section, out)?;
    print_command(&line.command, out)?;
    Ok(out.push_str("; ")?)
}

fn print_script(script: &Script, out: &mut String) -> Result<(), Fail> {
    for line in script.lines() {
        print_line(line, out)?;
    }
    Ok(write!(out, "clients {}", script.clients)?)
}

/// The commands that a text is read as, or its first bad line.
fn print_read(alloc: Global, text: &[u8], out: &mut String) -> Result<(), Fail> {
    if text.len() > 16_777_216 {
        return Ok(out.push_str("too long")?);
    }
    match read(alloc, text) {
        Ok(script) => print_script(&script, out),
        Err(fault) => Ok(write!(out, "{fault}")?),
    }
}

/// Whether a text is read so.
fn is_read_as(alloc: Global, text: &[u8], want: &str) -> Result<bool, Fail> {
    let mut out = String::new(alloc);
    print_read(alloc, text, &mut out)?;
    Ok(out.as_str() == want)
}

#[test]
fn reads_commands(rt: HostRuntime) -> Result<(), Fail> {
    let cases = [
        ("", "clients 0"),
        ("\n \t\n\r\n# s mkdir /a\n #\t\n#", "clients 0"),
        ("s mkdir /a", "1- s mkdir \"/a\"; clients 0"),
        ("\n\ns mkdir /a\n", "3- s mkdir \"/a\"; clients 0"),
        (
            " \tt\tcreate  /a \t\r\n",
            "1- t create \"/a\" false; clients 0",
        ),
        (
            "s createover /a\n#\ns rm /a",
            "1- s create \"/a\" true; 3- s delete \"/a\" false; clients 0",
        ),
        ("t rmr /a", "1- t delete \"/a\" true; clients 0"),
        (
            "s append /a b%20c",
            "1- s append \"/a\" 3 [98, 32, 99]; clients 0",
        ),
        (
            "s append /a %FF%",
            "1- s append \"/a\" 2 [255, 37]; clients 0",
        ),
        (
            "s fill /a 3 fF",
            "1- s append \"/a\" 3 [255, 255, 255]; clients 0",
        ),
        ("s fill /a 0 00", "1- s append \"/a\" 0 []; clients 0"),
        (
            "s fill /a 0000065536 61",
            "1- s append \"/a\" 65536 [97, 97, 97, 97]; clients 0",
        ),
        (
            "s mv /a%2541 /%zz%4",
            "1- s rename \"/a%41\" \"/%zz%4\"; clients 0",
        ),
        ("s chmod /a 0", "1- s mode \"/a\" 0; clients 0"),
        ("s chmod /a 1777", "1- s mode \"/a\" 1777; clients 0"),
        ("s stat a//b", "1- s stat \"a//b\"; clients 0"),
        ("s cat /%c3%A9", "1- s file \"/é\"; clients 0"),
        ("t ls /é", "1- t listing \"/é\"; clients 0"),
        ("s ls /a\rb\r\r", "1- s listing \"/a\\rb\\r\"; clients 0"),
        (
            "s allow /a\nt disallow /a%20b",
            "1- s allow \"/a\"; 2- t disallow \"/a b\"; clients 0",
        ),
        ("s snap /a s%30", "1- s snap \"/a\" \"s0\"; clients 0"),
        (
            "t snapdel /a .\ns snapren /a s%2f /b",
            "1- t snapdel \"/a\" \".\"; 2- s snapren \"/a\" \"s/\" \"/b\"; clients 0",
        ),
        (
            "s snaps /a/.snapshot\nt dirs",
            "1- s snaps \"/a/.snapshot\"; 2- t dirs; clients 0",
        ),
        (
            "s ls /a/.snapshot\ns cat /a/.snapshot/s/x",
            "1- s listing \"/a/.snapshot\"; 2- s file \"/a/.snapshot/s/x\"; clients 0",
        ),
        (
            "sync /a /b%20b c %64",
            "1- sync \"/a\" \"/b b\" \"c\" \"d\"; clients 0",
        ),
        (
            "setup\ns ls /\nclient 1\nclient 02\nt ls /\nfinish\ns ls /a",
            "2- s listing \"/\"; 52 t listing \"/\"; 7. s listing \"/a\"; clients 2",
        ),
    ];
    for (text, want) in cases {
        assert!(rt; is_read_as(rt.alloc(), text.as_bytes(), want)?, "at {text}");
    }
    Ok(())
}

#[test]
fn names_the_first_bad_line(rt: HostRuntime) -> Result<(), Fail> {
    let cases = [
        ("s mkdirs /a", "script line 1: Command"),
        ("client 2", "script line 1: Section"),
        ("s mkdir", "script line 1: Words"),
        ("s chmod /a 9", "script line 1: Number"),
        ("s mkdir /%FF", "script line 1: Utf8"),
        ("s ls /\n\n#\nx\ns", "script line 4: Command"),
        ("u ls /", "script line 1: Command"),
        ("S ls /", "script line 1: Command"),
        ("s Snap /a b", "script line 1: Command"),
        ("s s ls /", "script line 1: Command"),
        ("s sync /a /b c d", "script line 1: Command"),
        ("sync", "script line 1: Words"),
        ("sync /a /b c", "script line 1: Words"),
        ("sync /%ff /b c d e", "script line 1: Words"),
        ("sync /a /b c %ff", "script line 1: Utf8"),
        ("Sync /a /b c d", "script line 1: Command"),
        ("s more", "1-another command; clients 0"),
        ("s diff /a b c", "1- s report \"/a\"; clients 0"),
        ("s first /a", "1-another command; clients 0"),
        ("s # /a", "script line 1: Command"),
        ("setup x", "script line 1: Section"),
        ("setup\nsetup", "script line 2: Section"),
        ("s ls /\nsetup", "script line 2: Section"),
        ("finish\nsetup", "script line 2: Section"),
        ("finish\nfinish", "script line 2: Section"),
        ("finish\nclient 1", "script line 2: Section"),
        ("finish x", "script line 1: Section"),
        ("client", "script line 1: Section"),
        ("client 1 2", "script line 1: Section"),
        ("client 0", "script line 1: Section"),
        ("client +1", "script line 1: Section"),
        ("client 00000000001", "script line 1: Section"),
        ("client 0000000001\nclient 1", "script line 2: Section"),
        ("s snap /a b c d", "script line 1: Words"),
        ("s snap /a", "script line 1: Words"),
        ("s snapdel /a", "script line 1: Words"),
        ("s snapren /a b", "script line 1: Words"),
        ("s allow", "script line 1: Words"),
        ("s disallow /a b", "script line 1: Words"),
        ("s snaps", "script line 1: Words"),
        ("s dirs /a", "script line 1: Words"),
        ("s ls / /", "script line 1: Words"),
        ("s mv /%ff", "script line 1: Words"),
        ("s chmod /a", "script line 1: Words"),
        ("s fill /a x 00 0", "script line 1: Words"),
        ("s fill /%ff x 00", "script line 1: Number"),
        ("s fill /a 65537 00", "script line 1: Number"),
        ("s fill /a 00000000001 00", "script line 1: Number"),
        ("s fill /a 1 0", "script line 1: Number"),
        ("s fill /a 1 0g", "script line 1: Number"),
        ("s fill /a %31 00", "script line 1: Number"),
        ("s chmod /a 2000", "script line 1: Number"),
        ("s chmod /a 00777", "script line 1: Number"),
        ("s chmod /a +7", "script line 1: Number"),
        ("s fill /%ff 1 00", "script line 1: Utf8"),
        ("s mv /a /%c3", "script line 1: Utf8"),
        ("s append /%c3 x", "script line 1: Utf8"),
        ("s allow /%c3", "script line 1: Utf8"),
        ("s snap /a %ff", "script line 1: Utf8"),
        ("s snapren /a %ff b", "script line 1: Utf8"),
    ];
    for (text, want) in cases {
        assert!(rt; is_read_as(rt.alloc(), text.as_bytes(), want)?, "at {text}");
    }
    Ok(())
}

/// A text, so often a second, and a third.
fn repeated(alloc: Global, front: &str, middle: (&str, usize), back: &str) -> Result<String, Fail> {
    let mut text = String::from_str(alloc, front)?;
    for _ in 0..middle.1 {
        text.push_str(middle.0)?;
    }
    text.push_str(back)?;
    Ok(text)
}

/// Whether such a text begins so where it is read.
fn begins_as(
    alloc: Global,
    front: &str,
    middle: (&str, usize),
    back: &str,
    want: &str,
) -> Result<bool, Fail> {
    let text = repeated(alloc, front, middle, back)?;
    let mut out = String::new(alloc);
    print_read(alloc, text.as_bytes(), &mut out)?;
    Ok(out.as_str().starts_with(want))
}

#[test]
fn reads_long_scripts(rt: HostRuntime) -> Result<(), Fail> {
    let cases = [
        (
            "s append /a ",
            ("b", 65_536),
            "",
            "1- s append \"/a\" 65536 [98, 98, 98, 98]",
        ),
        (
            "s append /a ",
            ("%62", 65_536),
            "",
            "1- s append \"/a\" 65536 [98, 98, 98, 98]",
        ),
        ("s append /a ", ("b", 65_537), "", "script line 1: Data"),
        ("s append /a ", ("%62", 65_537), "", "script line 1: Data"),
        ("s append /%ff ", ("b", 65_537), "", "script line 1: Data"),
        (
            "",
            ("s ls /\n", 1000),
            "\n#\nfinish\n",
            "1- s listing \"/\"; 2- s",
        ),
        (
            "\nclient 1\n",
            ("s ls /\n", 1000),
            "s mkdir",
            "script line 1003: Words",
        ),
        ("", ("\n", 100_000), "s", "script line 100001: Command"),
        ("s ls ", ("x ", 100_000), "", "script line 1: Words"),
    ];
    for (front, middle, back, want) in cases {
        assert!(rt;
            begins_as(rt.alloc(), front, middle, back, want)?,
            "at {front}"
        );
    }
    Ok(())
}

/// The headings of so many clients.
fn headings(alloc: Global, clients: u32) -> Result<String, Fail> {
    let mut text = String::new(alloc);
    for number in 0..clients {
        write!(&mut text, "client {}\n", number as u64 + 1)?;
    }
    Ok(text)
}

fn has_clients(alloc: Global, clients: u32, want: &str) -> Result<bool, Fail> {
    let text = headings(alloc, clients)?;
    is_read_as(alloc, text.as_bytes(), want)
}

#[test]
fn counts_clients(rt: HostRuntime) -> Result<(), Fail> {
    assert!(rt; has_clients(rt.alloc(), 16, "clients 16")?);
    assert!(rt; has_clients(rt.alloc(), 17, "script line 17: Section")?);
    // bytes that aren't UTF-8 as they stand
    assert!(rt;
        is_read_as(
            rt.alloc(),
            b"s append /a \xFF",
            "1- s append \"/a\" 1 [255]; clients 0"
        )?
    );
    assert!(rt; is_read_as(rt.alloc(), b"s ls /\xFF", "script line 1: Utf8")?);
    assert!(rt; is_read_as(rt.alloc(), b"\xFF ls /", "script line 1: Command")?);
    Ok(())
}

/// The lines of a generated script that stand behind line 229, with the number of all.
fn print_rounds(alloc: Global, out: &mut String) -> Result<(), Fail> {
    let script = generate(alloc, 7, 20, 10, 5)?;
    for line in script.lines() {
        if line.line > 229 {
            print_line(line, out)?;
        }
    }
    Ok(write!(out, "lines {}", script.lines().len())?)
}

fn are_rounds(alloc: Global, want: &str) -> Result<bool, Fail> {
    let mut out = String::new(alloc);
    print_rounds(alloc, &mut out)?;
    Ok(out.as_str() == want)
}

#[test]
fn generates_rounds(rt: HostRuntime) -> Result<(), Fail> {
    assert!(rt;
        are_rounds(
            rt.alloc(),
            "230- s append \"/r/d19/f9\" 1 [50]; 231- s create \"/r/d12/k2\" false; 232- s rename \"/r/d12/k2\" \"/r/d5/m2\"; \
         233- s snap \"/r\" \"n2\"; 234- s append \"/r/d1/f2\" 1 [51]; 235- s create \"/r/d18/k3\" false; \
         236- s rename \"/r/d18/k3\" \"/r/d2/m3\"; 237- s delete \"/r/d5/m2\" false; 238- s snap \"/r\" \"n3\"; \
         239- s append \"/r/d14/f7\" 1 [52]; 240- s create \"/r/d14/k4\" false; 241- s rename \"/r/d14/k4\" \"/r/d16/m4\"; \
         242- s snap \"/r\" \"n4\"; 243- sync \"/r\" \"/r\" \"n1\" \"n4\"; 244- t snap \"/r\" \"n4\"; lines 244"
        )?
    );
    Ok(())
}
