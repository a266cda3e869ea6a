// The files that a run finds.
use outside::{Bytes, MemTree};
use std::alloc::{AllocError, Global};

#[derive(Clone, Copy)]
pub(crate) struct File<'a> {
    pub(crate) name: &'a [u8],
    pub(crate) content: &'a [u8],
    // the number of the call that fails on each of its entries, from 0
    pub(crate) fails: Option<u64>,
}

pub(crate) fn tree_of(alloc: Global, files: &[File<'_>]) -> Result<MemTree, AllocError> {
    let mut copies = Vec::new(alloc);
    let mut fails = Vec::new(alloc);
    for file in files {
        let content = Bytes::from_slice(alloc, file.content)?;
        copies.push((Bytes::from_slice(alloc, file.name)?, content))?;
        if let Some(number) = file.fails {
            fails.push((Bytes::from_slice(alloc, file.name)?, number))?;
        }
    }
    Ok(MemTree::new(alloc, copies, fails))
}
