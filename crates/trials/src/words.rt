//! Names, paths and copies.
use hs_types::{
    Call, Chunk, Duplicate, InodeId, Line, LineKind, List, Name, NameText, NoMemory, PageSize,
    Path, PathTail, PathText, Point, RelPath, SnapId, SnapItem, Spot,
};
use std::alloc::Global;
use std::fmt::Write;
use std::test::Fail;

fn text_of(alloc: Global, text: &str) -> Result<PathText, NoMemory> {
    Ok(PathText::new(String::from_str(alloc, text)?))
}

fn name_text(alloc: Global, text: &str) -> Result<NameText, NoMemory> {
    Ok(NameText::new(String::from_str(alloc, text)?))
}

/// What a text is read as: a path, or the rule that it breaks.
fn print_path(text: &PathText, alloc: Global, out: &mut String) -> Result<(), Fail> {
    match Path::read(alloc, text) {
        Ok(path) => print_read(&path, out),
        Err(fault) => Ok(write!(out, "{fault:?}")?),
    }
}

/// The base as a text again, and what follows it.
fn print_read(path: &Path, out: &mut String) -> Result<(), Fail> {
    print_text(PathText::of_names(*out.allocator(), path.base.items()), out)?;
    match &path.tail {
        PathTail::Plain => Ok(()),
        PathTail::SnapshotList => Ok(out.push_str(" snapshots")?),
        PathTail::Frozen { snapshot, rest } => {
            out.push_str(" frozen ")?;
            out.push_str(snapshot.text())?;
            print_text(PathText::of_names(*out.allocator(), rest.items()), out)
        }
    }
}

fn print_text(text: Result<PathText, NoMemory>, out: &mut String) -> Result<(), Fail> {
    match text {
        Ok(text) => Ok(out.push_str(text.text())?),
        Err(NoMemory) => Ok(out.push_str("no memory")?),
    }
}

/// Whether a text is read so.
fn is_read_as(alloc: Global, text: &str, want: &str) -> Result<bool, Fail> {
    let mut out = String::new(alloc);
    print_path(&text_of(alloc, text)?, alloc, &mut out)?;
    Ok(out.as_str() == want)
}

#[test]
fn reads_paths(rt: HostRuntime) -> Result<(), Fail> {
    let cases = [
        ("/", "/"),
        ("/a", "/a"),
        ("/a/b.snapshot", "/a/b.snapshot"),
        ("a", "BadPath"),
        ("", "BadPath"),
        ("//", "BadPath"),
        ("/a//b", "BadPath"),
        ("/a/", "BadPath"),
        ("/a/./b", "BadPath"),
        ("/a/../b", "BadPath"),
        ("/a\0", "BadPath"),
        ("/.snapshot", "/ snapshots"),
        ("/a/.snapshot", "/a snapshots"),
        ("/a/.snapshot/s", "/a frozen s/"),
        ("/a/b/.snapshot/s/x/y", "/a/b frozen s/x/y"),
        ("/.snapshot/a/.snapshot", "BadPath"),
        ("/.snapshot/.snapshot", "BadPath"),
    ];
    for (text, want) in cases {
        assert!(rt; is_read_as(rt.alloc(), text, want)?, "at {text}");
    }
    Ok(())
}

/// Whether a value equals its copy.
fn equals_its_copy<T: Duplicate + PartialEq + Drop>(value: T) -> bool {
    match value.copy() {
        Ok(copy) => copy == value,
        Err(NoMemory) => false,
    }
}

fn report_call(alloc: Global, path: PathText) -> Result<Call, NoMemory> {
    Ok(Call::Report {
        path,
        from: Point::Snapshot(name_text(alloc, "s0")?),
        to: Point::Now,
        size: PageSize::greatest(),
    })
}

fn renamed_line(path: RelPath) -> Result<Line, NoMemory> {
    Ok(Line {
        kind: LineKind::Renamed,
        to: Some(path.copy()?),
        path,
        id: InodeId(7),
        is_dir: false,
    })
}

fn spot(name: Name) -> Spot {
    Spot {
        parent: InodeId::ROOT,
        name,
    }
}

fn read_name(alloc: Global, text: &str) -> Result<Name, Fail> {
    Ok(Name::read(alloc, &name_text(alloc, text)?)?)
}

fn one_name(alloc: Global) -> Result<RelPath, Fail> {
    let mut names = List::new(alloc);
    names.push(read_name(alloc, "a")?)?;
    Ok(names)
}

fn snap_item(name: Name) -> SnapItem {
    SnapItem {
        id: SnapId(1),
        tick: 2,
        name,
    }
}

fn bytes(alloc: Global) -> Result<List<u8>, Fail> {
    Ok(List::of(vec![in alloc; 0, 255]?))
}

#[test]
fn copies_equal_their_source(rt: HostRuntime) -> Result<(), Fail> {
    let alloc = rt.alloc();
    assert!(rt; equals_its_copy(report_call(alloc, text_of(alloc, "/a")?)?));
    assert!(rt; equals_its_copy(renamed_line(one_name(alloc)?)?));
    assert!(rt; equals_its_copy(spot(read_name(alloc, "a")?)));
    assert!(rt; equals_its_copy(snap_item(read_name(alloc, "s")?)));
    assert!(rt; Chunk::new(bytes(alloc)?.into_vec()).is_ok_and(|chunk| equals_its_copy(chunk)));
    Ok(())
}
