//! Where bytes stand, and what a fault leaves. With ample memory no call is refused any.
use crate::{BufferFault, OverflowBuffer};
use outside::{MemSpills, Spills};
use std::test::Fail;

#[test]
fn bytes_stand_in_memory_below_the_overflow(rt: HostRuntime) -> Result<(), Fail> {
    let alloc = rt.alloc();
    let mut spills = MemSpills::new(alloc, Vec::new(alloc));
    let mut buffer = OverflowBuffer::new(alloc, spills.make(), 4);
    let rows = [
        (0, b"abc".as_slice(), 3, b"abc".as_slice()),
        (0, b"d", 0, b"abcd"),
        (4, b"e", 1, b"e"),
        (0, b"fgh", 0, b"efgh"),
        (1, b"ij", 0, b"fghij"),
        (4, b"", 0, b"j"),
        (1, b"klm", 3, b"klm"),
        (2, b"no", 3, b"mno"),
        (1, b"p", 3, b"nop"),
        (0, b"qrstuvw", 0, b"nopqrstuvw"),
    ];
    for (skipped, appended, in_memory, whole) in rows {
        let length = buffer.len();
        buffer.skip(length.min(skipped));
        assert_eq!(rt; buffer.append(appended), Ok(()));
        assert_eq!(rt; buffer.memory_len(), in_memory);
        let mut into = [0; 16];
        assert_eq!(rt; buffer.front(&mut into), Ok(whole.len()));
        assert!(rt; into.starts_with(whole));
        assert!(rt; in_memory == 0 || buffer.lent() == whole);
    }
    Ok(())
}

#[test]
fn a_fault_leaves_the_bytes(rt: HostRuntime) -> Result<(), Fail> {
    let alloc = rt.alloc();
    let refused = Err(BufferFault::Spill);
    // The call of the spill that fails, what the second append answers, and what is read then.
    let rows = [
        (0, refused, Ok(3), b"abc".as_slice()),
        (1, refused, Ok(3), b"abc"),
        (2, Ok(()), refused_read(), b""),
        (3, Ok(()), Ok(4), b"abcd"),
    ];
    for (fails, answer, read, whole) in rows {
        let mut plan = Vec::new(alloc);
        plan.push(fails)?;
        let mut plans = Vec::new(alloc);
        plans.push(plan)?;
        let mut spills = MemSpills::new(alloc, plans);
        let mut buffer = OverflowBuffer::new(alloc, spills.make(), 4);
        assert_eq!(rt; buffer.append(b"abc"), Ok(()));
        assert_eq!(rt; buffer.append(b"d"), answer);
        let mut into = [0; 8];
        assert_eq!(rt; buffer.front(&mut into), read);
        assert!(rt; read.is_err() || into.starts_with(whole));
        spills.settle(buffer.into_spill());
        assert_eq!(rt; spills.faults(), u64::from(fails < 3));
    }
    Ok(())
}

fn refused_read() -> Result<usize, BufferFault> {
    Err(BufferFault::Spill)
}
