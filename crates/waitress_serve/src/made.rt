//! The application of a table, from its file.
ghost use Rattle.std.specs.Prelude.{◌≡◌, IfOk, IsTrue, IsUtf8, OnErr};
ghost use Rattle.apps.specs.Table.{table_of};
ghost use Rattle.waitress_serve.specs.TableFile.{GivesBytes, ReadsTable, made_of};

use apps::{TableApp, TableFault};
use outside::{Bytes, Failed, NoMemory, Tree, TreeEntry};
use std::alloc::Global;

/// A longer file is not read.
const MOST_BYTES: u64 = 1_048_576;

/// Why an application could not be made.
#[derive(Debug, Drop)]
pub enum Unmade {
    NoFile,
    Unreadable,
    /// What is wrong with the file. It isn't `NoMemory`.
    Faulty(TableFault),
}

// The bytes of a file, or why it gives none.
fn content<E: TreeEntry>(alloc: Global, entry: &mut E) -> Result<Result<Bytes, Unmade>, NoMemory>
    ensures content { IfOk result (GivesBytes E.tells (E.faults entry.old) (E.faults entry.new)
        (E.file entry.old)) }
    ensures kept { OnErr result (E.faults entry.new ≡ E.faults entry.old) }
{
    let size = match entry.size() {
        Ok(Some(size)) => size,
        Ok(None) => return Ok(Err(Unmade::NoFile)),
        Err(Failed) => return Ok(Err(Unmade::Unreadable)),
    };
    if size > MOST_BYTES {
        return Ok(Err(Unmade::Faulty(TableFault::TooLarge)));
    }
    let Ok(mut bytes) = vec![in alloc; 0; size as usize] else {
        return Err(NoMemory);
    };
    match entry.read(0, &mut bytes) {
        Ok(()) => Ok(Ok(Bytes::from_vec(bytes))),
        Err(Failed) => Ok(Err(Unmade::Unreadable)),
    }
}

// The table that the bytes of a file write.
fn table(alloc: Global, bytes: &[u8]) -> Result<Result<TableApp, Unmade>, NoMemory>
    ensures { IfOk result (λ made. made ≡ made_of (table_of bytes.now)) }
{
    match TableApp::read(alloc, bytes) {
        Ok(table) => Ok(Ok(table)),
        Err(TableFault::NoMemory) => Err(NoMemory),
        Err(fault) => Ok(Err(Unmade::Faulty(fault))),
    }
}

/// The table of the file of this name, of which the entry is settled.
pub(crate) fn read_table<T: Tree>(
    alloc: Global,
    tree: &mut T,
    name: Bytes,
) -> Result<Result<TableApp, Unmade>, NoMemory>
    requires name { IsUtf8 name }
    ensures made { IfOk result (ReadsTable T.tells (T.faults tree.old) (T.faults tree.new)
        (T.files tree.old) name) }
    ensures kept { OnErr result (T.faults tree.new ≡ T.faults tree.old) }
    ensures files { IsTrue T.tells → T.files tree.new ≡ T.files tree.old }
{
    let name = String::from_utf8(name.into_vec()).unwrap();
    let mut entry = tree.entry(alloc, name.as_str())?;
    let content = content(alloc, &mut entry);
    tree.settle(entry);
    match content? {
        Ok(bytes) => table(alloc, bytes.as_slice()),
        Err(why) => Ok(Err(why)),
    }
}
