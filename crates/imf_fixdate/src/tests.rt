//! Dates that were computed elsewhere.
use super::date_text;

#[test]
fn writes_dates(rt: HostRuntime) {
    for (moment, date) in [
        (0, Some(*b"Thu, 01 Jan 1970 00:00:00 GMT")),
        // the example of RFC 9110
        (784_111_777, Some(*b"Sun, 06 Nov 1994 08:49:37 GMT")),
        (951_782_400, Some(*b"Tue, 29 Feb 2000 00:00:00 GMT")),
        (253_402_300_799, Some(*b"Fri, 31 Dec 9999 23:59:59 GMT")),
        (253_402_300_800, None),
    ] {
        assert!(rt; date_text(moment) == date, "at {moment}");
    }
}
