// Which files targets name. A name that is refused isn't looked up, though a file has it.
use crate::asking::{answer, asked, path_alone, tree_of};
use std::test::Fail;

static FILES: &str = "\
    site/index.html=home\n\
    site/a=plain\n\
    site/b/index.html=page\n\
    site/...=dots\n\
    site/..a=two\n\
    site/.a=one\n\
    site/%2e%2e/x=percent\n\
    site/caf\u{E9}=text\n\
    site/a b=blank\n\
    site/..=secret\n\
    site/.=secret\n\
    site/../=secret\n\
    site/../x=secret\n\
    site/./a=secret\n\
    site/a/..=secret\n\
    site/a/.=secret\n\
    site/a/../b=secret\n\
    site/a//b=secret\n\
    site//a=secret\n\
    site//=secret\n\
    site//index.html=secret\n\
    site/b//index.html=secret\n\
    site/../index.html=secret\n\
    site/a\0=secret\n\
    site/a\0.txt=secret\n\
    site/\0=secret\n\
    site/a\\b=secret\n\
    site/..\\x=secret\n\
    site=secret\n\
    sitea=secret\n\
    x=secret\n\
    b=secret\n\
    a=secret\n\
    ";

// A target's first slashes are one.
static FOUND: &str = "\
    / > 200 OK|Content-Type: text/html; charset=utf-8|Content-Length: 4|piece home|faults 0\n\
    // > 200 OK|Content-Type: text/html; charset=utf-8|Content-Length: 4|piece home|faults 0\n\
    /index.html > 200 OK|Content-Type: text/html; charset=utf-8|Content-Length: 4|piece home|faults 0\n\
    /b/ > 200 OK|Content-Type: text/html; charset=utf-8|Content-Length: 4|piece page|faults 0\n\
    /b%2findex.html > 200 OK|Content-Type: text/html; charset=utf-8|Content-Length: 4|piece page|faults 0\n\
    /a > 200 OK|Content-Type: application/octet-stream|Content-Length: 5|piece plain|faults 0\n\
    //a > 200 OK|Content-Type: application/octet-stream|Content-Length: 5|piece plain|faults 0\n\
    /%2fa > 200 OK|Content-Type: application/octet-stream|Content-Length: 5|piece plain|faults 0\n\
    /%61?q=/../x > 200 OK|Content-Type: application/octet-stream|Content-Length: 5|piece plain|faults 0\n\
    /a#/../x > 200 OK|Content-Type: application/octet-stream|Content-Length: 5|piece plain|faults 0\n\
    /... > 200 OK|Content-Type: application/octet-stream|Content-Length: 4|piece dots|faults 0\n\
    /..a > 200 OK|Content-Type: application/octet-stream|Content-Length: 3|piece two|faults 0\n\
    /.a > 200 OK|Content-Type: application/octet-stream|Content-Length: 3|piece one|faults 0\n\
    /%252e%252e/x > 200 OK|Content-Type: application/octet-stream|Content-Length: 7|piece percent|faults 0\n\
    /caf%C3%A9 > 200 OK|Content-Type: application/octet-stream|Content-Length: 4|piece text|faults 0\n\
    /a%20b > 200 OK|Content-Type: application/octet-stream|Content-Length: 5|piece blank|faults 0\n\
    ";

static REFUSED: &str = "\
    /..\n\
    /.\n\
    /../\n\
    /../x\n\
    /%2e%2e/x\n\
    /%2E%2E/x\n\
    /.%2e/x\n\
    /%2e%2e%2fx\n\
    /./a\n\
    /a/..\n\
    /a/.\n\
    /a/../b\n\
    /a/%2e%2e/b\n\
    /a//b\n\
    /a/%2fb\n\
    /b//\n\
    /a%00\n\
    /a%00.txt\n\
    /%00\n\
    /a\\b\n\
    /a%5cb\n\
    /..%5cx\n\
    /%ff\n\
    /a%c3%28\n\
    /caf%c3\n\
    ";

// What a path may not be, where it doesn't come from a target.
static BAD_PATHS: &str = "\
    a\n\
    //a\n\
    //\n\
    ..\n\
    /..\\x\n\
    ";

static MISSING: &str = "\
    /b\n\
    /c\n\
    /c/\n\
    /a/\n\
    /A\n\
    /index.html/\n\
    *\n\
    ";

static HOME: &[u8] =
    b"200 OK|Content-Type: text/html; charset=utf-8|Content-Length: 4|piece home|faults 0";

static REFUSAL: &[u8] =
    b"404 Not Found|Content-Type: text/plain; charset=utf-8|Content-Length: 9|whole Not Found|no entry";

static NO_FILE: &[u8] =
    b"404 Not Found|Content-Type: text/plain; charset=utf-8|Content-Length: 9|whole Not Found|faults 0";

#[test]
fn names_of_files(rt: HostRuntime) -> Result<(), Fail> {
    let alloc = rt.alloc();
    let tree = tree_of(alloc, FILES, None)?;
    for row in FOUND.lines() {
        let Some((target, want)) = row.split_once(" > ") else {
            return Err(Fail::from("no row"));
        };
        let text = asked(alloc, &tree, "GET", target)?;
        assert_eq!(rt; text.as_slice(), want.as_bytes());
    }
    for target in REFUSED.lines() {
        let text = asked(alloc, &tree, "GET", target)?;
        assert_eq!(rt; text.as_slice(), REFUSAL);
    }
    for target in MISSING.lines() {
        let text = asked(alloc, &tree, "GET", target)?;
        assert_eq!(rt; text.as_slice(), NO_FILE);
    }
    Ok(())
}

#[test]
fn paths_of_files(rt: HostRuntime) -> Result<(), Fail> {
    let alloc = rt.alloc();
    let tree = tree_of(alloc, FILES, None)?;
    let text = answer(alloc, &tree, path_alone(alloc, b"")?)?;
    assert_eq!(rt; text.as_slice(), HOME);
    for path in BAD_PATHS.lines() {
        let text = answer(alloc, &tree, path_alone(alloc, path.as_bytes())?)?;
        assert_eq!(rt; text.as_slice(), REFUSAL);
    }
    let text = answer(alloc, &tree, path_alone(alloc, b"/a\xFF")?)?;
    assert_eq!(rt; text.as_slice(), REFUSAL);
    Ok(())
}

// A name of 5,000 bytes is one like another.
#[test]
fn long_names(rt: HostRuntime) -> Result<(), Fail> {
    let alloc = rt.alloc();
    let target = format!(in alloc; "/{:a<4999}", "")?;
    let files = format!(in alloc; "site{target}=x")?;
    let tree = tree_of(alloc, files.as_str(), None)?;
    let text = asked(alloc, &tree, "GET", target.as_str())?;
    assert_eq!(rt;
        text.as_slice(),
        b"200 OK|Content-Type: application/octet-stream|Content-Length: 1|piece x|faults 0".as_slice()
    );
    let tree = tree_of(alloc, "site/a=x", None)?;
    let text = asked(alloc, &tree, "GET", target.as_str())?;
    assert_eq!(rt; text.as_slice(), NO_FILE);
    Ok(())
}
