//! What proxies tell, row by row.
use crate::shown::{EVERY, KEEPING, KEEPING_ALL, LOCAL, NOBODY, counting, holds};
use std::rt::HostRuntime;

#[test]
fn proxies_that_are_believed_tell_of_requests(rt: HostRuntime) {
    for (fields, want) in [
        (
            "~for=[2001:db8::1]",
            "2001:db8::1 - - - - |~for=[2001:db8::1]",
        ),
        ("~for=[::1]:4711", "::1 4711 - - - |~for=[::1]:4711"),
        ("~for=2001:db8::1", "2001:db8::1 - - - - |~for=2001:db8::1"),
        ("~for=a_b-C.9:1", "a_b-C.9 1 - - - |~for=a_b-C.9:1"),
        ("~for=::", ":: - - - - |~for=::"),
        ("~for=::1:80", "::1:80 - - - - |~for=::1:80"),
        ("~for=a:00080", "a 00080 - - - |~for=a:00080"),
        ("~for=a:0, b", "b - - - - |~for=b"),
        ("~for=a,b,c", "c - - - - |~for=c"),
        ("~for=?!, a", "a - - - - |~for=a"),
        ("~port=1", "- - - 1 - |~port=1"),
        ("~port=65535", "- - - 65535 - |~port=65535"),
        ("~port=00080", "- - - 00080 - |~port=00080"),
        ("~proto=Https", "- - - 443 https |~proto=Https"),
        ("~proto=HTTP", "- - - 80 http |~proto=HTTP"),
        ("~by=x y, z=1", "- - - - - |~by=z=1"),
        (
            "host=b|a=1|~host=x.y",
            "- - x.y - - |host=x.y|a=1|~host=x.y",
        ),
        ("~host=y, x:81|a=1", "- - x 81 - |~host=x:81|a=1|host=x:81"),
        ("~host=[::1]:8", "- - ::1 8 - |~host=[::1]:8|host=[::1]:8"),
        ("~host=[::1]", "- - ::1 - - |~host=[::1]|host=[::1]"),
        (
            "~host=2001:db8::1",
            "- - 2001:db8::1 - - |~host=2001:db8::1|host=2001:db8::1",
        ),
        (
            "~host=a|~by=x|~host=b|~by=y",
            "- - a - - |~host=a|~by=x|host=a",
        ),
        ("host=b|~host=a|host=c", "- - a - - |host=a|~host=a|host=c"),
        (
            "~host=a:1|~port=2|~proto=http",
            "- - a 2 http |~host=a:1|~port=2|~proto=http|host=a:1",
        ),
        (
            "~proto=https|~host=a:1",
            "- - a 1 https |~proto=https|~host=a:1|host=a:1",
        ),
        (
            "~proto=https|~host=a",
            "- - a 443 https |~proto=https|~host=a|host=a",
        ),
        ("~by=|~port=0|~proto=ftp|~host=|~for=", "~for"),
        ("~by=|~port=0|~proto=ftp|~host=|~for=a", "~host"),
        ("~by=|~port=0|~proto=ftp|~host=a", "~proto"),
        ("~by=|~port=0|~proto=http", "~port"),
        ("~by=|~port=1", "~by"),
        ("", "- - - - - "),
    ] {
        assert!(rt;
            holds(rt.alloc(), EVERY, "1.1.1.1", fields, want),
            "{fields}"
        );
    }
    for (fields, want) in [
        (
            "~for=1.1.1.1, 2.2.2.2:70, 3.3.3.3",
            "2.2.2.2 70 - - - |~for=2.2.2.2:70, 3.3.3.3",
        ),
        ("~for=1.1.1.1,,3.3.3.3", "~for"),
        (
            "~for=1.1.1.1 ,\t2.2.2.2\t",
            "1.1.1.1 - - - - |~for=1.1.1.1, 2.2.2.2",
        ),
        ("~for=\t a ", "a - - - - |~for=a"),
        ("~for=a, ?!", "a - - - - |~for=a, ?!"),
        ("~for=a, b:0", "a - - - - |~for=a, b:0"),
        (
            "~host=a, b:81, c|~by=x, y, z",
            "- - b 81 - |~host=b:81, c|~by=y, z|host=b:81",
        ),
    ] {
        assert!(rt;
            holds(rt.alloc(), counting(2), "1.1.1.1", fields, want),
            "{fields}"
        );
    }
}

#[test]
fn malformed_headers_are_named(rt: HostRuntime) {
    for fields in [
        "~for=[::1]:",
        "~for=[::1]80",
        "~for=[]",
        "~for=[]:80",
        "~for=[::1",
        "~for=::1]",
        "~for=[[::1]]",
        "~for=a:",
        "~for=:80",
        "~for=:",
        "~for=a b",
        "~for=a%1",
        "~for=a:b",
        "~for=a:65536",
        "~for=",
        "~for=,",
        "~for=a,",
        "~for=,a",
        "~for=a, \t,b",
        "~for= ",
        "~for=a, ?!",
        "~for=a, b:0",
        "~for=[::1]:0",
        "~for=[::1]:65536",
        "~port=0",
        "~port=00000",
        "~port=65536",
        "~port=99999",
        "~port=000080",
        "~port=",
        "~port=+80",
        "~port=80 ",
        "~port=8a",
        "~port=80, 81",
        "~proto=ftp",
        "~proto=http, https",
        "~proto= http",
        "~proto=",
        "~by=a,,b",
        "~host=a/b",
    ] {
        let Some((kind, _)) = fields.split_once('=') else {
            continue;
        };
        assert!(rt;
            holds(rt.alloc(), EVERY, "1.1.1.1", fields, kind),
            "{fields}"
        );
    }
}

#[test]
fn what_is_not_believed_is_cleared(rt: HostRuntime) {
    for (rules, addr, fields, want) in [
        (
            LOCAL,
            "127.0.0.1",
            "~for=1.1.1.1, 2.2.2.2",
            "2.2.2.2 - - - - |~for=2.2.2.2",
        ),
        (LOCAL, "10.0.0.9", "~for=1.1.1.1, 2.2.2.2", "- - - - - "),
        (LOCAL, "127.0.0.1", "~proto=ftp", "~proto"),
        (
            LOCAL,
            "10.0.0.9",
            "a=1|forwarded=for=a|~for=1|~host=,|~proto=ftp|~port=0|~by=,|b=2",
            "- - - - - |a=1|b=2",
        ),
        (
            KEEPING,
            "10.0.0.9",
            "a=1|forwarded=for=a|~for=1|~host=,|~proto=ftp|~port=0|~by=,|b=2",
            "- - - - - |a=1|forwarded=for=a|~for=1|~host=,|~proto=ftp|~port=0|~by=,|b=2",
        ),
        (NOBODY, "127.0.0.1", "~for=1", "- - - - - "),
        (
            LOCAL,
            "127.0.0.1",
            "forwarded=for=a|~host=,|~by=,|~for=1",
            "1 - - - - |~for=1",
        ),
        (
            KEEPING,
            "127.0.0.1",
            "forwarded=for=a|~host=,|~by=,|~for=1",
            "1 - - - - |forwarded=for=a|~host=,|~by=,|~for=1",
        ),
        (
            LOCAL,
            "127.0.0.1",
            "~for=1, 2|~server=3|~for=4, 5",
            "2 - - - - |~for=2|~server=3",
        ),
        (
            KEEPING,
            "127.0.0.1",
            "~for=1, 2|~server=3|~for=4, 5",
            "2 - - - - |~for=2|~server=3|~for=4, 5",
        ),
        (
            LOCAL,
            "127.0.0.1",
            "~proto=http|~proto=ftp",
            "- - - 80 http |~proto=http",
        ),
        (
            counting(4294967295),
            "127.0.0.1",
            "~for=a ,b",
            "a - - - - |~for=a, b",
        ),
        (
            counting(9),
            "127.0.0.1",
            "~host=a:1, b|~by=x ,y",
            "- - a 1 - |~host=a:1, b|~by=x, y|host=a:1",
        ),
        (
            KEEPING_ALL,
            "127.0.0.1",
            "~host=a|~by=x|~host=b|~by=y",
            "- - a - - |~host=a|~by=x|~host=b|~by=y|host=a",
        ),
    ] {
        assert!(rt; holds(rt.alloc(), rules, addr, fields, want), "{fields}");
    }
}
