// How large a table may be.
use crate::reading::verdict;
use std::alloc::{AllocError, Global};
use std::test::Fail;

// A text so many times over, between two others.
fn repeated(
    alloc: Global,
    front: &str,
    text: &str,
    count: usize,
    back: &str,
) -> Result<Vec<u8>, AllocError> {
    let mut bytes = Vec::from_slice(alloc, front.as_bytes())?;
    for _ in 0..count {
        bytes.extend_from_slice(text.as_bytes())?;
    }
    bytes.extend_from_slice(back.as_bytes())?;
    Ok(bytes)
}

#[test]
fn bytes_are_counted(rt: HostRuntime) -> Result<(), Fail> {
    let rows = [
        (b'\n', 1_048_576, "a table"),
        (b'\n', 1_048_577, "too large"),
        (b'#', 1_048_576, "a table"),
        (b'=', 1_048_576, "no TOML"),
        (b'=', 1_048_577, "too large"),
    ];
    for (byte, count, want) in rows {
        let file = vec![in rt.alloc(); byte; count]?;
        let found = verdict(rt.alloc(), &file)?;
        assert_eq!(rt; found.as_str(), want, "{count} times {byte}");
    }
    Ok(())
}

// They are counted ahead of bad ones.
#[test]
fn rows_are_counted(rt: HostRuntime) -> Result<(), Fail> {
    let rows = [
        ("", "[[row]]\npath = \"/\"\n", 1000, "", "a table"),
        ("", "[[row]]\npath = \"/\"\n", 1001, "", "too many rows"),
        (
            "",
            "[[row]]\npath = \"/\"\n",
            999,
            "[[row]]\n",
            "bad row 999",
        ),
        (
            "",
            "[[row]]\npath = \"/\"\n",
            1000,
            "[[row]]\n",
            "too many rows",
        ),
        ("a = 1\n", "[[row]]\npath = \"/\"\n", 1001, "", "no table"),
        ("row = [", "{path = \"/\"}, ", 1000, "]", "a table"),
        ("row = [", "{path = \"/\"}, ", 1001, "]", "too many rows"),
        ("row = [", "{path = \"/\"}, ", 1001, "1]", "no table"),
    ];
    for (front, text, count, back, want) in rows {
        let file = repeated(rt.alloc(), front, text, count, back)?;
        let found = verdict(rt.alloc(), &file)?;
        assert_eq!(rt; found.as_str(), want, "{count} times {text}");
    }
    Ok(())
}

// Lists in one another.
fn nested(alloc: Global, count: usize) -> Result<Vec<u8>, AllocError> {
    let mut bytes = repeated(alloc, "a = ", "[", count, "")?;
    for _ in 0..count {
        bytes.push(b']')?;
    }
    Ok(bytes)
}

// A document has at most 80 parts of a key, and at most 80 lists in one another.
#[test]
fn depths_are_counted(rt: HostRuntime) -> Result<(), Fail> {
    let rows = [
        ("a", 79, " = 1", "no table"),
        ("a", 80, " = 1", "no TOML"),
        ("[a", 79, "]", "no table"),
        ("[a", 80, "]", "no TOML"),
    ];
    for (front, count, back, want) in rows {
        let file = repeated(rt.alloc(), front, ".a", count, back)?;
        let found = verdict(rt.alloc(), &file)?;
        assert_eq!(rt; found.as_str(), want, "{front} and {count}");
    }
    for (count, want) in [(80, "no table"), (81, "no TOML"), (100_000, "no TOML")] {
        let found = verdict(rt.alloc(), &nested(rt.alloc(), count)?)?;
        assert_eq!(rt; found.as_str(), want, "{count}");
    }
    Ok(())
}
