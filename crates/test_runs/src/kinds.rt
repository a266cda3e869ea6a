//! With ample memory each call that takes memory succeeds.
use outside::{Bytes, MemSink, MemSpills, MemTree, Sink, Spill, Spills, Tree, TreeEntry};
use std::test::Fail;

#[test]
fn bytes_are_written(rt: HostRuntime) -> Result<(), Fail> {
    let alloc = rt.alloc();
    let mut sink = MemSink::new(alloc, Vec::new(alloc));
    assert!(rt; sink.write(b"ab").is_ok());
    assert_eq!(rt; sink.written(), b"ab".as_slice());
    let mut spill = MemSpills::new(alloc, Vec::new(alloc)).make();
    assert!(rt; spill.write(0, b"abc").is_ok());
    assert_eq!(rt; spill.content(), b"abc".as_slice());
    Ok(())
}

#[test]
fn a_file_is_found(rt: HostRuntime) -> Result<(), Fail> {
    let alloc = rt.alloc();
    let name = Bytes::from_slice(alloc, b"a")?;
    let content = Bytes::from_slice(alloc, b"abc")?;
    let tree = MemTree::new(alloc, vec![in alloc; (name, content)]?, Vec::new(alloc));
    match tree.entry(alloc, "a") {
        Ok(mut entry) => assert!(rt; entry.size() == Ok(Some(3))),
        Err(_) => return Err(Fail::from("no memory")),
    }
    Ok(())
}
