use crate::StdSink;
use outside::{Failed, Sink};

#[test]
fn the_console_is_written(rt: HostRuntime) {
    let mut out = StdSink::out(rt);
    assert!(rt; out.write(b"printed\n").is_ok());
    let mut err = StdSink::err(rt);
    assert!(rt; err.write(b"reported\n").is_ok());
    assert!(rt; err.write(b"\xff") == Err(Failed));
}
