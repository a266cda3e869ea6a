//! The server.
ghost use Rattle.std.specs.Prelude.{◌≡◌, ◌<◌, [], All, IfOk, None, length, option_map};
ghost use Rattle.std.specs.List.{slice_get};
ghost use Rattle.poll_loop.specs.Seat.{eyes_of};
ghost use Rattle.poll_loop.specs.Server.{Stands, serving};
ghost use Rattle.poll_loop.specs.Settings.{AreUsable};

use crate::attending::Rooms;
use crate::connections::Connections;
use crate::settings::Settings;
use channel::{Lane, ROOM};
use outside::{Net, Spills, Want};
use std::alloc::{AllocError, Global};
use wsgi::{App, AppRun};

/// A server. It borrows its application and its settings; each call is lent the net and the spills.
#[derive(Drop)]
pub struct Server<'a, N: Net, A: App<P::Spill>, P: Spills> {
    pub(crate) alloc: Global,
    pub(crate) app: &'a A,
    pub(crate) settings: &'a Settings,
    pub(crate) connections: Connections<'a, N::Link, A, P::Spill>,
    pub(crate) wants: Vec<Want>,
    pub(crate) rooms: Rooms,
    /// The moment of the last idle check, or else of the first turn.
    pub(crate) checked: Option<u64>,
}

impl<'a, N: Net, A: App<P::Spill>, P: Spills> Server<'a, N, A, P> {
    /// A server without connections. It takes the buffers that are lent to each connection in turn.
    pub fn new(alloc: Global, app: &'a A, settings: &'a Settings) -> Result<Self, AllocError>
        requires usable { AreUsable settings.now }
        ensures stands { IfOk result (λ server. Stands (eyes_of N.Link.Link) A.Run.faults server) }
        ensures begins { IfOk result (λ server. serving server ≡ record {
          app = app.now;
          settings = settings.now;
          open' = [];
          accepted = 0;
          retired = 0;
          checked = None;
          fallen = [];
        }) }
    {
        let recv = vec![in alloc; 0; settings.window.recv_bytes as usize]?;
        let send = vec![in alloc; 0; ROOM]?;
        Ok(Server {
            alloc,
            app,
            settings,
            connections: Connections {
                seats: Vec::new(alloc),
                fallen: Vec::new(alloc),
                accepted: 0,
                retired: 0,
            },
            wants: Vec::new(alloc),
            rooms: Rooms { recv, send },
            checked: None,
        })
    }

    /// How many connections are open.
    pub fn lane_count(&self) -> usize
        ensures { result ≡ length (serving self.now).open' }
    {
        self.connections.seats.len()
    }

    /// The open connection at this place, in the order in which they came.
    pub fn lane(&self, place: usize) -> Option<&Lane<'a, N::Link, A, P::Spill>>
        ensures { option_map (λ lane. lane.now) result ≡ slice_get (serving self.now).open' place }
    {
        match self.connections.seats.get(place) {
            Some(seat) => Some(&seat.lane),
            None => None,
        }
    }

    /// The runs of the connections that ended by a fault of the application, one for each.
    pub fn failed(self) -> Vec<A::Run>
        requires stands { Stands (eyes_of N.Link.Link) A.Run.faults self }
        ensures runs { result.items ≡ (serving self.entry).fallen }
        ensures broke { All (λ run. 0 < A.Run.faults run) result.items }
    {
        let Server { connections, .. } = self;
        connections.into_fallen()
    }
}
