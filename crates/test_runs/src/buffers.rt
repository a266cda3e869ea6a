//! With ample memory each call succeeds.
use outside::{MemSpill, MemSpills, Spills};
use spill_buffer::{BufferFault, OverflowBuffer};
use std::alloc::Global;
use std::test::Fail;

// Appends, looks at the front and skips; answers how many bytes stand in memory.
fn passed(
    buffer: &mut OverflowBuffer<MemSpill>,
    appended: &[u8],
    into: &mut [u8],
    skipped: u64,
) -> Result<u64, BufferFault> {
    buffer.append(appended)?;
    buffer.front(into)?;
    let whole = buffer.len();
    buffer.skip(whole.min(skipped));
    Ok(buffer.memory_len())
}

#[test]
fn bytes_come_out_in_order(rt: HostRuntime) -> Result<(), Fail> {
    let alloc = rt.alloc();
    let mut spills = MemSpills::new(alloc, Vec::new(alloc));
    let mut buffer = OverflowBuffer::new(alloc, spills.make(), 64);
    let rows = [
        (b"hello".as_slice(), b"hel".as_slice(), 2, 3),
        (b" world", b"llo", 5, 4),
        (b"!", b"orl", 5, 0),
    ];
    for (appended, front, skipped, left) in rows {
        let mut into = [0; 3];
        let Ok(memory) = passed(&mut buffer, appended, &mut into, skipped) else {
            return Err(Fail::from("a fault"));
        };
        assert_eq!(rt; into.as_slice(), front);
        assert_eq!(rt; memory, left);
    }
    assert!(rt; buffer.is_empty());
    spills.settle(buffer.into_spill());
    Ok(())
}
