// The media types of files by their names.
use crate::asking::{asked, tree_of};
use std::test::Fail;

static ROWS: &str = "\
    a.html text/html; charset=utf-8\n\
    a.htm text/html; charset=utf-8\n\
    a.css text/css; charset=utf-8\n\
    a.js text/javascript; charset=utf-8\n\
    a.mjs text/javascript; charset=utf-8\n\
    a.txt text/plain; charset=utf-8\n\
    a.csv text/csv; charset=utf-8\n\
    a.json application/json\n\
    a.xml application/xml\n\
    a.pdf application/pdf\n\
    a.wasm application/wasm\n\
    a.svg image/svg+xml\n\
    a.png image/png\n\
    a.jpg image/jpeg\n\
    a.jpeg image/jpeg\n\
    a.gif image/gif\n\
    a.webp image/webp\n\
    a.woff2 font/woff2\n\
    a.HTML text/html; charset=utf-8\n\
    a.JpEg image/jpeg\n\
    a.b.css text/css; charset=utf-8\n\
    a..css text/css; charset=utf-8\n\
    .css text/css; charset=utf-8\n\
    a.css. application/octet-stream\n\
    a.css.gz application/octet-stream\n\
    a. application/octet-stream\n\
    a application/octet-stream\n\
    html application/octet-stream\n\
    a.htmlx application/octet-stream\n\
    a.woff application/octet-stream\n\
    a.txt/b application/octet-stream\n\
    a.txt/b.png image/png\n\
    ";

#[test]
fn media_types(rt: HostRuntime) -> Result<(), Fail> {
    let alloc = rt.alloc();
    for row in ROWS.lines() {
        let Some((name, media)) = row.split_once(' ') else {
            return Err(Fail::from("no row"));
        };
        let files = format!(in alloc; "site/{name}=")?;
        let target = format!(in alloc; "/{name}")?;
        let tree = tree_of(alloc, files.as_str(), None)?;
        let text = asked(alloc, &tree, "GET", target.as_str())?;
        let want = format!(in alloc; "200 OK|Content-Type: {media}|Content-Length: 0|faults 0")?;
        assert_eq!(rt; text.as_slice(), want.as_bytes());
    }
    Ok(())
}
