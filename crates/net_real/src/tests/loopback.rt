// A server at the loopback, and who comes to it. These calls have no clauses, so that no test has
// to carry those of a net.
use crate::{MioLink, MioNet, WakeTrigger};
use outside::{Bytes, End, Link, Listen, Net, Peer, Recv, Sent, Want};
use std::io;
use std::net::{Ipv4Addr, SocketAddr, TcpListener, TcpStream};
use std::test::Fail;
use std::time::{Duration, Instant};

// How many polls a test makes at most until something comes.
pub(crate) const POLLS: u32 = 20;

#[derive(Drop)]
pub(crate) struct Loopback {
    rt: HostRuntime,
    net: MioNet<HostRuntime>,
    port: u16,
}

// One that was accepted.
#[derive(Drop)]
pub(crate) struct Visit {
    link: MioLink,
    peer: Peer,
}

// A port that was free a moment ago.
fn free_port(rt: &HostRuntime) -> io::Result<u16> {
    let listener = TcpListener::bind(rt, SocketAddr::from((Ipv4Addr::LOCALHOST, 0)))?;
    Ok(listener.local_addr()?.port())
}

impl Loopback {
    pub(crate) fn new(rt: HostRuntime) -> Result<Loopback, Fail> {
        let port = free_port(&rt)?;
        let mut server = Loopback::at(rt, port)?;
        if server.binds(&["127.0.0.1"])? {
            Ok(server)
        } else {
            Err(Fail::new("the port was taken"))
        }
    }

    // It listens nowhere yet.
    fn at(rt: HostRuntime, port: u16) -> Result<Loopback, Fail> {
        let net = MioNet::new(rt.alloc(), rt)?;
        Ok(Loopback { rt, net, port })
    }

    // Another one for the same port.
    pub(crate) fn rival(&self) -> Result<Loopback, Fail> {
        Loopback::at(self.rt, self.port)
    }

    pub(crate) fn binds(&mut self, hosts: &[&str]) -> Result<bool, Fail> {
        let alloc = self.rt.alloc();
        let mut listen = Vec::new(alloc);
        for host in hosts {
            listen.push(Listen {
                host: Bytes::from_slice(alloc, host.as_bytes())?,
                port: self.port,
            })?;
        }
        Ok(self.net.bind(listen.as_slice()).is_ok())
    }

    pub(crate) fn client(&self, host: &str) -> Result<TcpStream, Fail> {
        let stream = TcpStream::connect(&self.rt, (host, self.port))?;
        stream.set_read_timeout(Some(Duration::from_secs(10)))?;
        Ok(stream)
    }

    pub(crate) fn trigger(&self) -> Result<WakeTrigger, Fail> {
        Ok(self.net.trigger()?)
    }

    // One poll that asks nothing of any link.
    pub(crate) fn poll(&mut self) -> Result<(), Fail> {
        self.net.poll(&mut Vec::new(self.rt.alloc()), false)?;
        Ok(())
    }

    fn poll_for(&mut self, want: Want) -> Result<bool, Fail> {
        let mut wants = vec![in self.rt.alloc(); want]?;
        self.net.poll(&mut wants, false)?;
        Ok(wants.iter().any(|want| want.may_read))
    }

    // Since it may be written too, the poll doesn't wait.
    pub(crate) fn may_read(&mut self, visit: &Visit) -> Result<bool, Fail> {
        self.poll_for(want(visit.link.key(), true, true))
    }

    // Whether one of the next polls says that it may be read.
    pub(crate) fn will_read(&mut self, visit: &Visit) -> Result<bool, Fail> {
        for _ in 0..POLLS {
            if self.may_read(visit)? {
                return Ok(true);
            }
        }
        Ok(false)
    }

    // Whether a poll waited its second.
    pub(crate) fn waits(&mut self) -> Result<bool, Fail> {
        let start = Instant::now(&self.rt)?;
        self.poll()?;
        Ok(start.elapsed(&self.rt)? >= Duration::from_millis(900))
    }

    // Whether one of the next polls waits.
    pub(crate) fn comes_to_rest(&mut self) -> Result<bool, Fail> {
        for _ in 0..POLLS {
            if self.waits()? {
                return Ok(true);
            }
        }
        Ok(false)
    }

    // Whether it waited though a want asks for nothing.
    pub(crate) fn waits_beside_work(&mut self) -> Result<bool, Fail> {
        let start = Instant::now(&self.rt)?;
        self.poll_for(want(0, false, false))?;
        Ok(start.elapsed(&self.rt)? >= Duration::from_millis(900))
    }

    // One poll, and an accept where it says that somebody came.
    pub(crate) fn accept(&mut self) -> Result<Option<Visit>, Fail> {
        let alloc = self.rt.alloc();
        let turn = self.net.poll(&mut Vec::new(alloc), true)?;
        if !turn.come {
            return Ok(None);
        }
        match self.net.accept(alloc, turn.now)? {
            Some((link, peer)) => Ok(Some(Visit { link, peer })),
            None => Ok(None),
        }
    }

    // The next one who comes.
    pub(crate) fn welcome(&mut self) -> Result<Visit, Fail> {
        for _ in 0..POLLS {
            if let Some(visit) = self.accept()? {
                return Ok(visit);
            }
        }
        Err(Fail::new("nobody came"))
    }

    pub(crate) fn retire(&mut self, visit: Visit, end: End) {
        let Visit { link, peer } = visit;
        self.net.retire(link, peer, end);
    }
}

fn want(key: u32, read: bool, write: bool) -> Want {
    Want {
        key,
        read,
        write,
        may_read: false,
        may_write: false,
    }
}

impl Visit {
    pub(crate) fn is_from(&self, host: &str, port: u16) -> bool {
        self.peer.addr.as_slice() == host.as_bytes() && self.peer.port == port
    }

    pub(crate) fn recv(&mut self) -> Recv {
        self.link.recv(0, &mut [0u8; 8])
    }

    pub(crate) fn send(&mut self) -> Sent {
        self.link.send(0, b"there")
    }
}
