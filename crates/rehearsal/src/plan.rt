//! The net of a rehearsal.
ghost use Rattle.std.specs.Prelude.{◌≡◌, ◌≤◌, IfOk};
ghost use Rattle.outside.specs.MemNet.{fresh};
ghost use Rattle.rehearsal.specs.Plans as spec;

use crate::requests::{input_of, request_count};
use outside::{Bytes, Comer, Items, LinkPlan, MemNet, NetPlan, NoMemory, Peer};
use std::alloc::{AllocError, Global};

const MOMENT: u64 = 784_111_777;

// How a link gives and takes.
fn link_plan(alloc: Global, connection: u32) -> Result<LinkPlan, AllocError>
    requires { connection ≤ 20000 }
    ensures { IfOk result (λ plan. plan ≡ spec.link_plan connection) }
{
    let input = input_of(alloc, connection)?;
    let most_given = 1 + connection % 64;
    let send_count = input.len() + 80 * request_count(connection) as usize;
    Ok(LinkPlan {
        gives: Items::from_vec(vec![in alloc; most_given; input.len()]?),
        input: Bytes::from_vec(input),
        ends: false,
        takes: Items::from_vec(vec![in alloc; 50; send_count]?),
        recv_fails: Items::from_vec(Vec::new(alloc)),
        send_fails: Items::from_vec(Vec::new(alloc)),
    })
}

fn peer_of(alloc: Global, connection: u32) -> Result<Peer, AllocError>
    requires { connection ≤ 20000 }
    ensures { IfOk result (λ peer. peer ≡ spec.peer_of connection) }
{
    Ok(Peer {
        addr: Bytes::from_slice(alloc, b"10.0.0.1")?,
        port: 1024 + connection as u16,
        local_port: 8080,
    })
}

fn comer_of(alloc: Global, connection: u32) -> Result<Comer, AllocError>
    requires { connection ≤ 20000 }
    ensures { IfOk result (λ comer. comer ≡ spec.comer_of connection) }
{
    Ok(Comer {
        turn: 0,
        peer: peer_of(alloc, connection)?,
        plan: link_plan(alloc, connection)?,
    })
}

fn net_plan(alloc: Global, connections: u32) -> Result<NetPlan, AllocError>
    requires { connections ≤ 20000 }
    ensures { IfOk result (λ plan. plan ≡ spec.net_plan connections) }
{
    let mut comers = Vec::new(alloc);
    for connection in 0..connections {
        comers.push(comer_of(alloc, connection)?)?;
    }
    Ok(NetPlan {
        comers: Items::from_vec(comers),
        moments: Items::from_vec(vec![in alloc; MOMENT]?),
        stop_at: None,
        bind_fails: false,
        poll_fails: Items::from_vec(Vec::new(alloc)),
        accept_fails: Items::from_vec(Vec::new(alloc)),
    })
}

/// A net on which so many connections come at once, and of which nothing was asked yet.
pub fn rehearsal(alloc: Global, connections: u32) -> Result<MemNet, NoMemory>
    requires { connections ≤ 20000 }
    ensures { IfOk result (λ net. net ≡ fresh (spec.net_plan connections)) }
{
    let Ok(plan) = net_plan(alloc, connections) else {
        return Err(NoMemory);
    };
    MemNet::new(alloc, plan)
}
