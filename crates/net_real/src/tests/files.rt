use crate::{DiskTree, FileSpills};
use outside::{Failed, Spill, Spills, Tree, TreeEntry};
use std::os::fd::AsRawFd;
use std::os::unix::fs::symlink;
use std::os::unix::net::UnixListener;
use std::test::Fail;
use std::{fs, io};

#[test]
fn a_spill_keeps_its_bytes_and_leaves_no_name(rt: HostRuntime) -> Result<(), Fail> {
    let alloc = rt.alloc();
    fs::create_dir(&rt, "folder")?;
    // Somebody's file of the first name that is tried isn't touched.
    fs::write(&rt, "folder/waitress-spill-0-0", "mine")?;
    let mut spills = FileSpills::new(alloc, rt, "folder");
    let mut spill = spills.make();
    assert!(rt; spill.len() == 0);
    assert!(rt; spill.write(0, b"hello there").is_ok());
    assert!(rt; spill.write(6, b"you").is_ok());
    assert!(rt; spill.len() == 9);
    let mut got = [0u8; 16];
    assert!(rt; spill.read(3, &mut got) == Ok(6));
    assert!(rt; &got[..6] == b"lo you".as_slice());
    assert!(rt; spill.read(9, &mut got) == Ok(0));
    assert!(rt; fs::read_dir(&rt, "folder")?.count() == 1);
    assert!(rt;
        fs::read(&(rt, alloc), "folder/waitress-spill-0-0")?.as_slice() == b"mine".as_slice()
    );
    spills.settle(spill);
    let mut nowhere = FileSpills::new(alloc, rt, "nowhere");
    let mut spill = nowhere.make();
    assert!(rt; spill.write(0, b"a") == Err(Failed));
    Ok(())
}

#[test]
fn files_are_found_by_name(rt: HostRuntime) -> Result<(), Fail> {
    let alloc = rt.alloc();
    fs::create_dir(&rt, "site")?;
    fs::write(&rt, "site/a.txt", "hello")?;
    symlink(&rt, "a.txt", "site/b.txt")?;
    let tree = DiskTree::new(rt);
    for name in ["site/a.txt", "site/b.txt"] {
        let mut entry = tree.entry(alloc, name)?;
        assert!(rt; entry.size() == Ok(Some(5)));
        let mut got = [0u8; 4];
        assert!(rt; entry.read(1, &mut got).is_ok());
        assert!(rt; got == *b"ello");
    }
    // A file that became shorter is a fault, and stays one.
    let mut entry = tree.entry(alloc, "site/a.txt")?;
    assert!(rt; entry.size() == Ok(Some(5)));
    fs::write(&rt, "site/a.txt", "he")?;
    let mut got = [0u8; 5];
    assert!(rt; entry.read(0, &mut got) == Err(Failed));
    assert!(rt; entry.size() == Err(Failed));
    Ok(())
}

#[test]
fn what_is_no_file_is_not_found(rt: HostRuntime) -> Result<(), Fail> {
    let alloc = rt.alloc();
    fs::create_dir(&rt, "odd")?;
    fs::write(&rt, "odd/a.txt", "hello")?;
    symlink(&rt, "missing", "odd/dangling")?;
    symlink(&rt, "loop", "odd/loop")?;
    let socket = UnixListener::bind(&rt, "odd/socket")?;
    let (reader, _writer) = io::pipe(&rt)?;
    let fifo = format!(in alloc; "/proc/self/fd/{}", reader.as_raw_fd())?;
    let tree = DiskTree::new(rt);
    let names = [
        "odd",
        "odd/x.txt",
        "odd/a.txt/x",
        "odd/dangling",
        "odd/loop",
        "odd/socket",
        "/dev/null",
        fifo.as_str(),
        "odd/a\0b",
        "",
    ];
    for name in names {
        let mut entry = tree.entry(alloc, name)?;
        assert!(rt; entry.size() == Ok(None), "{name}");
    }
    drop(socket);
    Ok(())
}
