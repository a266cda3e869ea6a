//! What a measuring program prints.
use itoa::Buffer;
use std::alloc::AllocError;
use std::io::Write;
use std::process::ExitCode;
use std::rt::HostRuntime;

/// Adds a number, with what stands before it.
pub fn put(text: &mut Vec<u8>, label: &str, number: u64) -> Result<(), AllocError> {
    text.extend_from_slice(label.as_bytes())?;
    text.extend_from_slice(Buffer::new().format(number).as_bytes())
}

/// Prints a text, where there is one.
pub fn print(rt: &HostRuntime, text: Result<Vec<u8>, AllocError>) -> ExitCode {
    match text {
        Ok(text) if rt.stdout().write_all(&text).is_ok() => ExitCode::from(0),
        _ => ExitCode::from(5),
    }
}
