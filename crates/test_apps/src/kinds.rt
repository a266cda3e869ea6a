// Values of each type, at each key of a row.
use crate::reading::verdict;
use std::alloc::{AllocError, Global};
use std::test::Fail;

// The types that each key takes. A row that answers by one piece has it.
static KEYS: &str = "\
    path text\n\
    method text\n\
    status text\n\
    fields empty pairs\n\
    pieces empty texts\n\
    whole truth\n\
    length number\n\
    fail truth\n\
    ";

static VALUES: &str = "\
    text \"/a\"\n\
    number 1\n\
    float 1.0\n\
    truth true\n\
    moment 1979-05-27T07:32:00Z\n\
    date 1979-05-27\n\
    time 07:32:00\n\
    empty []\n\
    texts [\"/a\", \"/b\"]\n\
    pairs [[\"/a\", \"/b\"]]\n\
    numbers [1]\n\
    table {}\n\
    full {a = \"/a\"}\n\
    ";

// A file whose second row has this value.
fn file(alloc: Global, key: &str, value: &str) -> Result<String, AllocError> {
    let mut text = String::from_str(alloc, "[[row]]\npath = \"/\"\n[[row]]\n")?;
    if key != "path" {
        text.push_str("path = \"/\"\n")?;
    }
    if key != "pieces" {
        text.push_str("pieces = [\"a\"]\n")?;
    }
    text.push_str(format!(in alloc; "{key} = {value}\n")?.as_str())?;
    Ok(text)
}

fn is_taken(alloc: Global, key: &str, value: &str) -> Result<String, AllocError> {
    verdict(alloc, file(alloc, key, value)?.as_bytes())
}

fn fits(kinds: &str, kind: &str) -> bool {
    kinds.split(' ').any(|taken| taken == kind)
}

#[test]
fn each_key_has_its_type(rt: HostRuntime) -> Result<(), Fail> {
    for key in KEYS.lines() {
        let (key, kinds) = key.split_once(' ').unwrap_or((key, ""));
        for value in VALUES.lines() {
            let (kind, value) = value.split_once(' ').unwrap_or((value, ""));
            let want = if fits(kinds, kind) {
                "a table"
            } else {
                "bad row 1"
            };
            let found = is_taken(rt.alloc(), key, value)?;
            assert_eq!(rt; found.as_str(), want, "{key} = {value}");
        }
    }
    Ok(())
}
