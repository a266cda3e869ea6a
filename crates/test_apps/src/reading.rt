// Files, and what they are read as.
use apps::{TableApp, TableFault};
use std::alloc::{AllocError, Global};

// The bytes of a file in which `|` stands for the end of a line.
pub(crate) fn file_of(alloc: Global, text: &str) -> Result<Vec<u8>, AllocError> {
    let mut bytes = Vec::new(alloc);
    for byte in text.bytes() {
        bytes.push(if byte == b'|' { b'\n' } else { byte })?;
    }
    Ok(bytes)
}

fn fault_text(alloc: Global, fault: &TableFault) -> Result<String, AllocError> {
    match fault {
        TableFault::TooLarge => String::from_str(alloc, "too large"),
        TableFault::NotToml => String::from_str(alloc, "no TOML"),
        TableFault::NotTable => String::from_str(alloc, "no table"),
        TableFault::TooManyRows => String::from_str(alloc, "too many rows"),
        TableFault::BadRow(place) => format!(in alloc; "bad row {place}"),
        TableFault::NoMemory => Err(AllocError),
    }
}

// What is wrong with a file, or that it is a table.
pub(crate) fn verdict(alloc: Global, bytes: &[u8]) -> Result<String, AllocError> {
    match TableApp::read(alloc, bytes) {
        Ok(_) => String::from_str(alloc, "a table"),
        Err(fault) => fault_text(alloc, &fault),
    }
}
