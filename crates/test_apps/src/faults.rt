// Which files are tables.
use crate::reading::{file_of, verdict};
use std::alloc::{AllocError, Global};
use std::test::Fail;

// A file, and what is wrong with it.
static ROWS: &str = "\
    # nothing > a table\n\
    || \t|# a|\r| > a table\n\
    \u{FEFF} > a table\n\
    row = [] > a table\n\
    [[row]]|path = \"/\" > a table\n\
    [[row]]|path = \"/\"|[[row]]|path = \"/\" > a table\n\
    row = [{path = \"/\"}] > a table\n\
    row > no TOML\n\
    row = > no TOML\n\
    = [] > no TOML\n\
    [[row] > no TOML\n\
    [[row]|] > no TOML\n\
    [[row]]|path = \"/ > no TOML\n\
    [[row]]|path = / > no TOML\n\
    [[row]]|path = \"/\" method = \"GET\" > no TOML\n\
    [[row]]|path = \"/\"|length = 9223372036854775808 > no TOML\n\
    [[row]]|path = \"/\"|length = 007 > no TOML\n\
    [[row]]|path = \"/\"|whole = True > no TOML\n\
    [[row]]|path = \"/\\q\" > no TOML\n\
    a = -9223372036854775809 > no TOML\n\
    a = 1979-13-01 > no TOML\n\
    a = \"\0\" > no TOML\n\
    # \0 > no TOML\n\
    [[row]]\rpath = \"/\" > no TOML\n\
    # a\r# b > no TOML\n\
    \u{FEFF}\u{FEFF} > no TOML\n\
    row = []|row = [] > no TOML\n\
    row = []|[[row]]|path = \"/\" > no TOML\n\
    row = [{path = \"/\"}]|[[row]]|path = \"/\" > no TOML\n\
    [[row]]|path = \"/\"|[row] > no TOML\n\
    [[row]]|path = \"/\"|path = \"/\" > no TOML\n\
    [[row]]|path = \"/\"|\"path\" = \"/\" > no TOML\n\
    [[row]]|path = \"/\"|path.a = \"/\" > no TOML\n\
    row = [{path = \"/\", path = \"/\"}] > no TOML\n\
    a = 1|b > no TOML\n\
    a = 1 > no table\n\
    [a] > no table\n\
    rows = [] > no table\n\
    Row = [] > no table\n\
    row = []|a = 1 > no table\n\
    a = 1|[[row]]|path = \"/\" > no table\n\
    [[row]]|path = \"/\"|[a] > no table\n\
    [[row]]|path = \"/\"|[[rows]] > no table\n\
    \"\" = 1 > no table\n\
    row = 1 > no table\n\
    row = 1.5 > no table\n\
    row = true > no table\n\
    row = \"/\" > no table\n\
    row = 1979-05-27 > no table\n\
    row = {path = \"/\"} > no table\n\
    row.path = \"/\" > no table\n\
    row.a.path = \"/\" > no table\n\
    [row]|path = \"/\" > no table\n\
    [[row.a]]|path = \"/\" > no table\n\
    row = [1] > no table\n\
    row = [[]] > no table\n\
    row = [{path = \"/\"}, 1] > no table\n\
    row = [{pth = \"/\"}, []] > no table\n\
    a = 1|[[row]]|pth = \"/\" > no table\n\
    [[row]] > bad row 0\n\
    row = [{}] > bad row 0\n\
    [[row]]|pth = \"/\" > bad row 0\n\
    [[row]]|path = \"/\"|[[row]]|path = \"/a\"|[[row]]|[[row]]|[[row]]|path = \"\" > bad row 2\n\
    row = [{path = \"/\"}, {path = \"\"}] > bad row 1\n\
    [[row]]|path = \"/\"|a = 1 > bad row 0\n\
    [[row]]|path = \"/\"|PATH = \"/\" > bad row 0\n\
    [[row]]|path = \"/\"|\"path \" = \"/\" > bad row 0\n\
    [[row]]|path = \"/\"|\"\" = \"/\" > bad row 0\n\
    [[row]]|path = \"/\"|row = [] > bad row 0\n\
    [[row]]|path = \"/\"|a.b = 1 > bad row 0\n\
    [[row]]|path = \"/\"|[row.x] > bad row 0\n\
    [[row]]|path = \"/\"|[[row.x]] > bad row 0\n\
    [[row]]|path.a = \"/\" > bad row 0\n\
    [[row]]|path = \"/\"|fields.a = \"b\" > bad row 0\n\
    [[row]]|path = \"/\"|[row.fields]|a = \"b\" > bad row 0\n\
    [[row]]|path = \"/\"|[[row.pieces]] > bad row 0\n\
    [[row]]|method = \"GET\" > bad row 0\n\
    [[row]]|path = \"\" > bad row 0\n\
    [[row]]|path = \"a\" > bad row 0\n\
    [[row]]|path = \" /\" > bad row 0\n\
    [[row]]|path = \"/\"|method = \"\" > bad row 0\n\
    [[row]]|path = \"/\"|method = \" \" > a table\n\
    [[row]]|path = \"/\"|status = \"\" > a table\n\
    [[row]]|path = \"/\"|fields = [[]] > bad row 0\n\
    [[row]]|path = \"/\"|fields = [[\"a\"]] > bad row 0\n\
    [[row]]|path = \"/\"|fields = [[\"a\", \"b\", \"c\"]] > bad row 0\n\
    [[row]]|path = \"/\"|fields = [[\"a\", 1]] > bad row 0\n\
    [[row]]|path = \"/\"|fields = [[1, \"a\"]] > bad row 0\n\
    [[row]]|path = \"/\"|fields = [[\"a\", \"b\"], \"c\"] > bad row 0\n\
    [[row]]|path = \"/\"|fields = [{a = \"b\"}] > bad row 0\n\
    [[row]]|path = \"/\"|fields = [[\"\", \"\"]] > a table\n\
    [[row]]|path = \"/\"|pieces = [1] > bad row 0\n\
    [[row]]|path = \"/\"|pieces = [\"a\", 1] > bad row 0\n\
    [[row]]|path = \"/\"|pieces = [\"a\", [\"b\"]] > bad row 0\n\
    [[row]]|path = \"/\"|pieces = [\"\"] > a table\n\
    [[row]]|path = \"/\"|whole = true > bad row 0\n\
    [[row]]|path = \"/\"|whole = true|pieces = [] > bad row 0\n\
    [[row]]|path = \"/\"|whole = true|pieces = [\"a\", \"b\"] > bad row 0\n\
    [[row]]|path = \"/\"|whole = true|pieces = [\"a\"] > a table\n\
    [[row]]|path = \"/\"|whole = false > a table\n\
    [[row]]|path = \"/\"|length = -1 > bad row 0\n\
    [[row]]|path = \"/\"|length = -9223372036854775808 > bad row 0\n\
    [[row]]|path = \"/\"|length = 1e3 > bad row 0\n\
    [[row]]|path = \"/\"|length = inf > bad row 0\n\
    [[row]]|path = \"/\"|length = \"1\" > bad row 0\n\
    ";

// What is wrong with a file, by a row.
fn is_so(alloc: Global, row: &str) -> Result<bool, AllocError> {
    let (file, want) = row.split_once(" > ").ok_or(AllocError)?;
    let found = verdict(alloc, &file_of(alloc, file)?)?;
    Ok(found.as_str() == want)
}

#[test]
fn files_are_tables_or_not(rt: HostRuntime) -> Result<(), Fail> {
    for row in ROWS.lines() {
        assert!(rt; is_so(rt.alloc(), row)?, "{row}");
    }
    Ok(())
}

#[test]
fn bytes_are_tables_or_not(rt: HostRuntime) -> Result<(), Fail> {
    let rows: [(&[u8], &str); 5] = [
        (b"", "a table"),
        (b"# caf\xC3\xA9", "a table"),
        (b"# \xFF", "no TOML"),
        (b"# \xC3", "no TOML"),
        (b"[[row]]\npath = \"/\xED\xA0\x80\"", "no TOML"),
    ];
    for (file, want) in rows {
        assert_eq!(rt; verdict(rt.alloc(), file)?.as_str(), want);
    }
    Ok(())
}
