use super::loopback::{Loopback, POLLS, Visit};
use outside::{End, Recv, Sent, Trigger};
use std::fs::File;
use std::io;
use std::io::{Read, Write};
use std::net::{TcpListener, TcpStream};
use std::test::Fail;
use std::time::{Duration, Instant};

// Whether what the client sends may be read until it is read.
fn is_read_once(
    server: &mut Loopback,
    client: &mut TcpStream,
    visit: &mut Visit,
) -> Result<bool, Fail> {
    if visit.recv() != Recv::NotYet || server.may_read(visit)? {
        return Ok(false);
    }
    client.write_all(b"hello")?;
    Ok(server.will_read(visit)? && visit.recv() == Recv::Got(5) && !server.may_read(visit)?)
}

// Whether the client reads the answer, and behind it the end.
fn reads_the_answer(client: &mut TcpStream) -> io::Result<bool> {
    let mut got = [0u8; 5];
    client.read_exact(&mut got)?;
    Ok(got == *b"there" && client.read(&mut got)? == 0)
}

#[test]
fn a_connection_is_served(rt: HostRuntime) -> Result<(), Fail> {
    let mut server = Loopback::new(rt)?;
    let mut client = server.client("127.0.0.1")?;
    let mut visit = server.welcome()?;
    assert!(rt; is_read_once(&mut server, &mut client, &mut visit)?);
    assert_eq!(rt; visit.send(), Sent::Took(5));
    server.retire(visit, End::Done);
    assert!(rt; reads_the_answer(&mut client)?);
    Ok(())
}

// The client goes on sending, whatever the server does.
fn send_on(server: &mut Loopback, client: &mut TcpStream) -> Result<(), Fail> {
    for _ in 0..POLLS {
        client.write_all(&[b'x'; 20000])?;
        server.poll()?;
    }
    Ok(())
}

#[test]
fn a_refused_client_reads_its_answer_and_no_reset(rt: HostRuntime) -> Result<(), Fail> {
    let mut server = Loopback::new(rt)?;
    let mut client = server.client("127.0.0.1")?;
    client.write_all(&[b'x'; 20000])?;
    let mut visit = server.welcome()?;
    assert!(rt; visit.recv() == Recv::Got(8) && visit.send() == Sent::Took(5));
    server.retire(visit, End::Done);
    send_on(&mut server, &mut client)?;
    assert!(rt; reads_the_answer(&mut client)?);
    drop(client);
    assert!(rt; server.comes_to_rest()?);
    Ok(())
}

#[test]
fn a_write_to_a_closed_socket_is_a_fault_of_its_link(rt: HostRuntime) -> Result<(), Fail> {
    let mut server = Loopback::new(rt)?;
    drop(server.client("127.0.0.1")?);
    let mut visit = server.welcome()?;
    for _ in 0..POLLS {
        if visit.send() == Sent::Failed {
            return Ok(());
        }
        server.poll()?;
    }
    Err(Fail::new("no write failed"))
}

#[test]
fn polls_wait_where_there_is_nothing_to_do(rt: HostRuntime) -> Result<(), Fail> {
    let mut server = Loopback::new(rt)?;
    let trigger = server.trigger()?;
    assert!(rt; server.waits()?);
    for _ in 0..POLLS {
        trigger.pull();
        assert!(rt; !server.waits()?);
        assert!(rt; !server.waits_beside_work()?);
    }
    Ok(())
}

// Whether somebody who comes to this address is named by it.
fn meets(server: &mut Loopback, host: &str) -> Result<bool, Fail> {
    let client = server.client(host)?;
    let visit = server.welcome()?;
    let named = visit.is_from(host, client.local_addr()?.port());
    server.retire(visit, End::ShutDown);
    Ok(named)
}

#[test]
fn both_versions_listen_at_one_port(rt: HostRuntime) -> Result<(), Fail> {
    if TcpListener::bind(&rt, ("::1", 0)).is_err() {
        // This machine has no addresses of version 6.
        return Ok(());
    }
    let mut server = Loopback::new(rt)?;
    // An address of version 4 that is written as one of version 6 is for sockets of both alone.
    assert!(rt; !server.binds(&["::ffff:127.0.0.1"])?);
    assert!(rt; server.binds(&["::1", "127.0.0.1"])?);
    assert!(rt; meets(&mut server, "127.0.0.1")? && meets(&mut server, "::1")?);
    Ok(())
}

#[test]
fn a_taken_port_is_a_fault(rt: HostRuntime) -> Result<(), Fail> {
    let server = Loopback::new(rt)?;
    assert!(rt; !server.rival()?.binds(&["127.0.0.1"])?);
    Ok(())
}

// Takes all the descriptors that this process may have, where they are few enough.
fn all_descriptors(rt: &HostRuntime) -> Result<Option<Vec<File>>, Fail> {
    let mut all = Vec::new(rt.alloc());
    for _ in 0..50000 {
        match File::open(rt, "/dev/null") {
            Ok(file) => all.push(file)?,
            Err(_) => return Ok(Some(all)),
        }
    }
    Ok(None)
}

// Whether two of three polls wait, though somebody is there who can't be taken.
fn waits_for_room(rt: &HostRuntime, server: &mut Loopback) -> Result<bool, Fail> {
    let start = Instant::now(rt)?;
    for _ in 0..3 {
        if server.accept()?.is_some() {
            return Ok(false);
        }
    }
    Ok(start.elapsed(rt)? >= Duration::from_millis(1500))
}

#[test]
fn a_full_table_of_descriptors_is_waited_for(rt: HostRuntime) -> Result<(), Fail> {
    let mut server = Loopback::new(rt)?;
    let _client = server.client("127.0.0.1")?;
    if let Some(held) = all_descriptors(&rt)? {
        assert!(rt; waits_for_room(&rt, &mut server)?);
        drop(held);
    }
    let visit = server.welcome()?;
    server.retire(visit, End::ShutDown);
    Ok(())
}
