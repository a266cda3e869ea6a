// What tables answer.
use crate::reading::file_of;
use crate::shown::answer;
use std::alloc::{AllocError, Global};
use std::test::Fail;

// A file, the method and the path of a request, and the answer.
static ROWS: &str = "\
    [[row]]|path = \"/\" > GET / > 200 OK|Content-Type: text/plain; charset=utf-8\n\
    [[row]]|path = \"/\" > HEAD / > 200 OK|Content-Type: text/plain; charset=utf-8\n\
    [[row]]|path = \"/\" > POST / > 404 Not Found|Content-Type: text/plain; charset=utf-8|Content-Length: 9|whole Not Found\n\
    [[row]]|path = \"/\" > GET /a > 404 Not Found|Content-Type: text/plain; charset=utf-8|Content-Length: 9|whole Not Found\n\
    [[row]]|path = \"/a\" > GET / > 404 Not Found|Content-Type: text/plain; charset=utf-8|Content-Length: 9|whole Not Found\n\
    [[row]]|path = \"/a\" > GET /a/ > 404 Not Found|Content-Type: text/plain; charset=utf-8|Content-Length: 9|whole Not Found\n\
    [[row]]|path = \"/a\" > GET /A > 404 Not Found|Content-Type: text/plain; charset=utf-8|Content-Length: 9|whole Not Found\n\
    [[row]]|path = \"/\" > HEAD /a > 404 Not Found|Content-Type: text/plain; charset=utf-8|Content-Length: 9|whole Not Found\n\
    # no row > GET / > 404 Not Found|Content-Type: text/plain; charset=utf-8|Content-Length: 9|whole Not Found\n\
    row = [] > GET / > 404 Not Found|Content-Type: text/plain; charset=utf-8|Content-Length: 9|whole Not Found\n\
    [[row]]|path = \"/\u{E9} \"|fields = [] > GET /\u{E9}  > 200 OK\n\
    [[row]]|path = \"/\"|method = \"POST\"|fields = [] > POST / > 200 OK\n\
    [[row]]|path = \"/\"|method = \"POST\" > GET / > 404 Not Found|Content-Type: text/plain; charset=utf-8|Content-Length: 9|whole Not Found\n\
    [[row]]|path = \"/\"|method = \"POST\" > HEAD / > 404 Not Found|Content-Type: text/plain; charset=utf-8|Content-Length: 9|whole Not Found\n\
    [[row]]|path = \"/\"|method = \"get\" > GET / > 404 Not Found|Content-Type: text/plain; charset=utf-8|Content-Length: 9|whole Not Found\n\
    [[row]]|path = \"/\"|method = \"HEAD\"|fields = [] > HEAD / > 200 OK\n\
    [[row]]|path = \"/\"|method = \"HEAD\" > GET / > 404 Not Found|Content-Type: text/plain; charset=utf-8|Content-Length: 9|whole Not Found\n\
    [[row]]|path = \"/\"|status = \"201 a\"|fields = []|[[row]]|path = \"/\"|status = \"202 b\"|fields = [] > GET / > 201 a\n\
    [[row]]|path = \"/a\"|[[row]]|path = \"/\"|status = \"201 a\"|fields = []|[[row]]|path = \"/\" > GET / > 201 a\n\
    [[row]]|path = \"/\"|method = \"POST\"|[[row]]|path = \"/\"|status = \"202 b\"|fields = [] > GET / > 202 b\n\
    [[row]]|path = \"/\"|status = \"201 a\"|fields = []|[[row]]|path = \"/\"|method = \"HEAD\" > HEAD / > 201 a\n\
    [[row]]|path = \"/\"|method = \"HEAD\"|status = \"201 a\"|fields = []|[[row]]|path = \"/\" > HEAD / > 201 a\n\
    [[row]]|path = \"/\"|method = \"HEAD\"|[[row]]|path = \"/\"|status = \"202 b\"|fields = [] > GET / > 202 b\n\
    [[row]]|path = \"/\"|status = \"404 Gone\"|fields = [[\"X-B\", \"b\"], [\"x-a\", \"\"], [\"\", \"c: d\"]] > GET / > 404 Gone|X-B: b|x-a: |: c: d\n\
    [[row]]|path = \"/\"|status = \"\"|fields = [] > GET / > \n\
    [[row]]|path = \"/\"|status = \"999\"|fields = [[\"Connection\", \"close\"]] > GET / > 999|Connection: close\n\
    [[row]]|path = \"/\"|length = 3 > GET / > 200 OK|Content-Type: text/plain; charset=utf-8|Content-Length: 3\n\
    [[row]]|path = \"/\"|length = 0 > GET / > 200 OK|Content-Type: text/plain; charset=utf-8|Content-Length: 0\n\
    [[row]]|path = \"/\"|fields = []|length = 9223372036854775807 > GET / > 200 OK|Content-Length: 9223372036854775807\n\
    [[row]]|path = \"/\"|fields = []|length = +5 > GET / > 200 OK|Content-Length: 5\n\
    [[row]]|path = \"/\"|fields = []|length = -0 > GET / > 200 OK|Content-Length: 0\n\
    [[row]]|path = \"/\"|fields = []|length = 0x1F > GET / > 200 OK|Content-Length: 31\n\
    [[row]]|path = \"/\"|fields = []|length = 0o17 > GET / > 200 OK|Content-Length: 15\n\
    [[row]]|path = \"/\"|fields = []|length = 0b101 > GET / > 200 OK|Content-Length: 5\n\
    [[row]]|path = \"/\"|fields = []|length = 1_000 > GET / > 200 OK|Content-Length: 1000\n\
    [[row]]|path = \"/\"|fields = [[\"Content-Length\", \"2\"]]|length = 3 > GET / > 200 OK|Content-Length: 2|Content-Length: 3\n\
    [[row]]|path = \"/\"|fields = []|pieces = [\"ab\", \"\", \"c\"] > GET / > 200 OK|piece ab|piece |piece c\n\
    [[row]]|path = \"/\"|fields = []|pieces = [\"ab\", \"c\"] > HEAD / > 200 OK|piece ab|piece c\n\
    [[row]]|path = \"/\"|fields = []|pieces = [\"ab\"]|whole = true > GET / > 200 OK|whole ab\n\
    [[row]]|path = \"/\"|fields = []|pieces = [\"\"]|whole = true > GET / > 200 OK|whole \n\
    [[row]]|path = \"/\"|fields = []|pieces = [\"a\", \"b\"]|whole = false > GET / > 200 OK|piece a|piece b\n\
    [[row]]|path = \"/\"|fields = []|fail = true > GET / > 200 OK|fail\n\
    [[row]]|path = \"/\"|fields = []|fail = false > GET / > 200 OK\n\
    [[row]]|path = \"/\"|fields = []|pieces = [\"a\", \"b\"]|fail = true > GET / > 200 OK|piece a|piece b|fail\n\
    [[row]]|path = \"/\"|pieces = [\"a\"]|whole = true|fail = true|length = 5 > GET / > 200 OK|Content-Type: text/plain; charset=utf-8|Content-Length: 5|whole a|fail\n\
    row = [{path = \"/\", fields = []}, {path = \"/b\", pieces = [\"b\"], fields = []}] > GET /b > 200 OK|piece b\n\
    [[row]]\r|path = \"/\"\r|\r|fields = []\r|pieces = [\"a\"]\r| > GET / > 200 OK|piece a\n\
    \u{FEFF}[[row]]|path = \"/\"|fields = []|pieces = [\"a\"] > GET / > 200 OK|piece a\n\
    [['row']]|\"pa\\u0074h\" = '/'|'fields' = []|\"pieces\" = [\"\\u0041\", '\\u0041'] > GET / > 200 OK|piece A|piece \\u0041\n\
    # a|[[row]] # b|\tpath=\"/\" # c||fields = [ # d|]|pieces = [|\"a\", # e|\"b#\",|] > GET / > 200 OK|piece a|piece b#\n\
    [[row]]|path = \"/\"|fields = []|pieces = [\"\"\"|a\\|   b\"\"\", '''|c'''] > GET / > 200 OK|piece ab|piece c\n\
    ";

// A file, a request and an answer, by a row.
fn is_answered(alloc: Global, row: &str) -> Result<bool, AllocError> {
    let (file, rest) = row.split_once(" > ").ok_or(AllocError)?;
    let (request, want) = rest.split_once(" > ").ok_or(AllocError)?;
    let (method, path) = request.split_once(' ').ok_or(AllocError)?;
    let text = answer(alloc, &file_of(alloc, file)?, method, path)?;
    Ok(text.as_slice() == want.as_bytes())
}

#[test]
fn requests_are_answered_by_rows(rt: HostRuntime) -> Result<(), Fail> {
    for row in ROWS.lines() {
        assert!(rt; is_answered(rt.alloc(), row)?, "{row}");
    }
    Ok(())
}
