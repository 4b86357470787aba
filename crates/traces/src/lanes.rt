//! Where the lanes of a picture stand, and its rows.
ghost use Rattle.std.specs.Prelude.{◌≡◌};
ghost use Rattle.traces.specs.Columns.{point_at, row_height};

use crate::crossings::Lane;
use crate::points::Point;
use std::alloc::{AllocError, Global};
use std::marker::Model;

/// From the left edge to the first lane: there stand the events' lines.
const MARGIN: usize = 370;

/// From a connection's lane to the next lane.
const CONNECTION_WIDTH: usize = 150;

/// From a server's lane to the next lane.
const SERVER_WIDTH: usize = 170;

/// From the top edge to the first event.
const HEAD: usize = 70;

/// From an event to the next one.
const ROW: usize = 28;

/// Where the lanes stand, from the left: before each server, the connections that are at it.
#[derive(Drop)]
pub struct Lanes {
    servers: Vec<usize>,
    connections: Vec<usize>,
    width: usize,
}

impl Model for Lanes {
    ghost use Rattle.traces.specs.Columns.{Columns};

    ghost Value = { Columns };

    ghost view = { λ l. record { servers = l.servers.items; connections = l.connections.items; width = l.width } };
}

impl Lanes {
    ghost use Rattle.std.specs.Prelude.{◌≡◌};
    ghost use Rattle.traces.specs.Columns.{point};

    /// The lanes of a chain of `count` servers, with a connection at each of these homes.
    pub fn new(alloc: Global, count: usize, homes: &[usize]) -> Result<Lanes, AllocError> {
        let mut servers = Vec::new(alloc);
        let mut connections = vec![in alloc; MARGIN; homes.len()]?;
        let mut width = MARGIN;
        for i in 0..count {
            for (x, home) in connections.iter_mut().zip(homes) {
                if *home == i {
                    *x = width;
                    width = width.saturating_add(CONNECTION_WIDTH);
                }
            }
            servers.push(width)?;
            width = width.saturating_add(SERVER_WIDTH);
        }
        Ok(Lanes {
            servers,
            connections,
            width,
        })
    }

    /// A lane at the row of an event.
    pub fn point(&self, lane: Lane, row: usize) -> Point
        ensures { result ≡ point self.now lane row }
    {
        match lane {
            Lane::Server(i) => point_at(self.servers.as_slice(), i, row),
            Lane::Connection(c) => point_at(self.connections.as_slice(), c, row),
        }
    }

    /// The width of all of them.
    pub fn width(&self) -> usize
        ensures { result ≡ self.now.width }
    {
        self.width
    }
}

// The lane that has this place among some, at a row.
fn point_at(columns: &[usize], place: usize, row: usize) -> Point
    ensures { result ≡ point_at columns.now place row }
{
    Point {
        x: columns.get(place).copied().unwrap_or(MARGIN),
        y: row_height(row),
    }
}

/// From the top edge to the event of this number, from 0 on.
#[tactic(auto, unfolding(crate::specs::Columns::row_height))]
pub fn row_height(row: usize) -> usize
    ensures { result ≡ row_height row }
{
    row.saturating_mul(ROW).saturating_add(HEAD)
}
