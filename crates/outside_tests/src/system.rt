use spm_outside::{Desk, DeskFault, FolderDesk, Sink, StdSink, put_all};
use std::rt::{Env, Files};
use std::test::Fail;
use std::{env, fs, io, process};

// A new folder below the system's for temporary files, named after this process, in place of one that a failed
// test left under that name.
fn own_folder(rt: &(impl Env + Files + AllocGlobal), process: u32) -> io::Result<String> {
    let parent = env::temp_dir(rt)?;
    let parent = parent.as_str();
    let folder = format!(in rt.alloc(); "{parent}/outside_tests_{process}")?;
    let _ = fs::remove_dir_all(rt, folder.as_str());
    fs::create_dir(rt, folder.as_str())?;
    Ok(folder)
}

// Whether a get after a put of the text gives it back.
fn comes_back(desk: &mut impl Desk, file: &str, text: &str) -> Result<bool, DeskFault> {
    desk.put(file, text.as_bytes())?;
    let found = desk.get(file)?;
    Ok(found.is_some_and(|bytes| bytes.as_slice() == text.as_bytes()))
}

// A folder can be removed only if it is empty, so the last line fails where a partial file is left.
#[test]
fn a_folder_desk_replaces_whole_files(rt: HostRuntime) -> Result<(), Fail> {
    let alloc = rt.alloc();
    let folder = own_folder(&rt, process::id(rt.process()))?;
    let folder = folder.as_str();
    let file = format!(in alloc; "{folder}/file")?;
    let mut desk = FolderDesk::new(alloc, rt);
    assert_eq!(rt; desk.get(file.as_str()), Ok(None));
    for text in ["", "old", "more than the old", "new"] {
        assert_eq!(rt;
            comes_back(&mut desk, file.as_str(), text),
            Ok(true),
            "{text:?}"
        );
    }
    fs::remove_file(&rt, file.as_str())?;
    fs::remove_dir(&rt, folder)?;
    Ok(())
}

// Again no partial file is left, though the put to a folder writes one.
#[test]
fn a_folder_desk_fails_where_the_system_does(rt: HostRuntime) -> Result<(), Fail> {
    let alloc = rt.alloc();
    let folder = own_folder(&rt, process::id(rt.process()))?;
    let folder = folder.as_str();
    let inner = format!(in alloc; "{folder}/inner")?;
    let missing = format!(in alloc; "{folder}/missing/file")?;
    fs::create_dir_all(&rt, inner.as_str())?;
    let mut desk = FolderDesk::new(alloc, rt);
    assert_eq!(rt; desk.get(inner.as_str()), Err(DeskFault::Failed));
    assert_eq!(rt; desk.put(inner.as_str(), b"lost"), Err(DeskFault::Failed));
    assert_eq!(rt; desk.get(missing.as_str()), Ok(None));
    assert_eq!(rt; desk.put(missing.as_str(), b"lost"), Err(DeskFault::Failed));
    fs::remove_dir(&rt, inner.as_str())?;
    fs::remove_dir(&rt, folder)?;
    Ok(())
}

#[test]
fn the_standard_output_takes_what_is_put(rt: HostRuntime) -> Result<(), Fail> {
    let mut sink = StdSink::new(rt);
    let piece = b"a piece\n".as_slice();
    let count = sink.put(piece)?;
    assert!(rt; 1 <= count && count <= piece.len());
    assert_eq!(rt; put_all(&mut sink, b"a line\n"), Ok(()));
    Ok(())
}
