//! Scenes: what connections were sent after events, and whether all is quiet.
ghost use Rattle.std.specs.Prelude.{◌≡◌, ◌<◌, length, IfOk};

use crate::making::{Fault, all_hold, holds};
use schedules::read_schedule;
use std::alloc::Global;
use std::test::Fail;
use table::Reply;
use world::{Event, Scene, SceneFault, Transcript, run};

// What happens in a scene.
#[derive(Clone, Copy)]
enum Events {
    // The events that these lines of a schedule spell.
    Lines(&'static [u8]),
    // Events at servers and connections that aren't there.
    OutOfRange,
}

fn spelled_by(alloc: Global, lines: &[u8]) -> Result<Vec<Event>, Fault> {
    let mut text = Vec::from_slice(alloc, b"servers 1\nhomes 0\n")?;
    text.extend_from_slice(lines)?;
    let schedule = read_schedule(alloc, text.as_slice())?;
    Ok(schedule.events)
}

fn out_of_range(alloc: Global) -> Result<Vec<Event>, Fault> {
    let far = usize::MAX;
    Ok(vec![in alloc;
        Event::Begin(far),
        Event::Work(1),
        Event::Hand(far),
        Event::Deliver(far, 0),
        Event::Deliver(0, far),
        Event::Deliver(0, 0),
        Event::Fail(far),
        Event::Tell(0, far),
        Event::Tell(far, 0),
    ]?)
}

fn events_of(alloc: Global, events: Events) -> Result<Vec<Event>, Fault> {
    match events {
        Events::Lines(lines) => spelled_by(alloc, lines),
        Events::OutOfRange => out_of_range(alloc),
    }
}

fn scene(alloc: Global, count: usize, homes: &[usize]) -> Result<Scene, Fault>
    ensures { IfOk result (λ scene. length scene.world.connections ≡ length homes.now) }
{
    Ok(Scene::new(alloc, count, homes)?)
}

fn replay(scene: &mut Scene, events: &[Event]) -> Result<(), Fault>
    ensures { length scene.new.world.connections ≡ length scene.old.world.connections }
{
    for event in events {
        scene.event(event)?;
    }
    Ok(())
}

// What happens, whether the scene is quiet then or isn't, and what a connection was sent until then.
type Row = (Events, bool, usize, &'static [u8]);

fn goes(
    alloc: Global,
    scene: &mut Scene,
    events: Events,
    quiet: bool,
    connection: usize,
    text: &[u8],
) -> Result<bool, Fault>
    requires { connection < length scene.old.world.connections }
    ensures { length scene.new.world.connections ≡ length scene.old.world.connections }
{
    let events = events_of(alloc, events)?;
    replay(scene, events.as_slice())?;
    Ok(scene.is_quiet() == quiet && scene.sent(connection) == text)
}

fn other_row(
    alloc: Global,
    scene: &mut Scene,
    connections: usize,
    rows: &[Row],
) -> Result<Option<usize>, Fault>
    requires { length scene.old.world.connections ≡ connections }
{
    let mut place = 0_usize;
    for row in rows {
        let (events, quiet, connection, text) = *row;
        if connection >= connections {
            return Err(Fault::Refused);
        }
        if !goes(alloc, scene, events, quiet, connection, text)? {
            return Ok(Some(place));
        }
        place = place.wrapping_add(1);
    }
    Ok(None)
}

// The first row that goes otherwise than it says, in a new scene of this many servers.
fn other_of_new(
    alloc: Global,
    count: usize,
    homes: &[usize],
    rows: &[Row],
) -> Result<Option<usize>, Fault> {
    let mut scene = scene(alloc, count, homes)?;
    let other = other_row(alloc, &mut scene, homes.len(), rows);
    drop(scene);
    other
}

// A set goes down a chain of three. Its client is answered after the acknowledgement that comes up, and not before.
static STORED: [Row; 6] = [
    (Events::Lines(b""), true, 0, b""),
    (
        Events::Lines(b"piece 0 set a 5 0 3\\r\\nxyz\\r\\n\nbegin 0\n"),
        false,
        0,
        b"",
    ),
    (
        Events::Lines(b"work 0\ndeliver 0 1\ndeliver 1 2\n"),
        false,
        0,
        b"",
    ),
    (Events::Lines(b"deliver 2 1\nhand 0\n"), false, 0, b""),
    (Events::Lines(b"deliver 1 0\n"), false, 0, b""),
    (Events::Lines(b"hand 0\n"), true, 0, b"STORED\r\n"),
];

#[test]
fn a_set_goes_down_the_chain_and_its_acknowledgement_up(rt: HostRuntime) -> Result<(), Fail> {
    all_hold(other_of_new(rt.alloc(), 3, &[0], &STORED))
}

// A call at a server that fails in it gets no reply, and the server that is left serves its client. A server is told of
// another only once that has failed.
static FAILED: [Row; 4] = [
    (Events::Lines(b"tell 0 1\n"), true, 0, b""),
    (
        Events::Lines(b"piece 0 get a\\r\\n\nbegin 0\nfail 1\nwork 0\nhand 0\n"),
        false,
        0,
        b"",
    ),
    (Events::Lines(b"tell 1 0\ntell 0 1\n"), true, 0, b""),
    (
        Events::Lines(b"piece 1 get a\\r\\n\nbegin 1\nwork 1\nhand 1\n"),
        true,
        1,
        b"END\r\n",
    ),
];

#[test]
fn a_failed_server_is_told_of_and_serves_nobody(rt: HostRuntime) -> Result<(), Fail> {
    all_hold(other_of_new(rt.alloc(), 2, &[1, 0], &FAILED))
}

// All is quiet after events out of range, and the client is served then.
static OUT_OF_RANGE: [Row; 2] = [
    (Events::OutOfRange, true, 0, b""),
    (
        Events::Lines(b"piece 0 get a\\r\\n\nbegin 0\nwork 0\nhand 0\n"),
        true,
        0,
        b"END\r\n",
    ),
];

#[test]
fn events_out_of_range_have_no_effect(rt: HostRuntime) -> Result<(), Fail> {
    all_hold(other_of_new(rt.alloc(), 1, &[0], &OUT_OF_RANGE))
}

// A transcript shows one connection, at server 1, with one call that is answered `NotFound`, in a quiet world.
fn is_one_not_found(transcript: &Transcript) -> bool {
    let [connection] = transcript.connections.as_slice() else {
        return false;
    };
    let [call] = connection.calls.as_slice() else {
        return false;
    };
    transcript.quiet
        && connection.home == 1
        && connection.sent.as_slice() == b"NOT_FOUND\r\n".as_slice()
        && matches!(&call.reply, Some(Reply::NotFound))
}

fn delete_is_not_found(alloc: Global) -> Result<bool, Fault> {
    let lines =
        b"piece 0 delete a\\r\\n\nbegin 0\nwork 0\ndeliver 1 0\ndeliver 0 1\nhand 0\ndeliver 1 0\n";
    let events = spelled_by(alloc, lines)?;
    let shown = run(alloc, 2, &[1], events.as_slice())?;
    let found = is_one_not_found(&shown);
    drop(shown);
    Ok(found)
}

#[test]
fn a_run_over_two_servers(rt: HostRuntime) -> Result<(), Fail> {
    holds(delete_is_not_found(rt.alloc()))
}

// How many servers, a home, how many connections there, and why there is no such scene, if there is none.
type World = (usize, usize, usize, Option<SceneFault>);

static WORLDS: [World; 8] = [
    (1, 0, 64, None),
    (1, 0, 0, None),
    (16, 15, 1, None),
    (1, 0, 65, Some(SceneFault::BadHomes)),
    (1, 1, 1, Some(SceneFault::BadHomes)),
    (16, 16, 1, Some(SceneFault::BadHomes)),
    (0, 0, 0, Some(SceneFault::BadCount)),
    (17, 17, 1, Some(SceneFault::BadCount)),
];

fn is_refused(alloc: Global, world: World) -> Result<bool, Fault> {
    let (count, home, connections, wanted) = world;
    let homes = vec![in alloc; home; connections]?;
    match Scene::new(alloc, count, homes.as_slice()) {
        Ok(scene) => {
            drop(scene);
            Ok(wanted.is_none())
        }
        Err(SceneFault::Memory) => Err(Fault::Memory),
        Err(fault) => Ok(wanted == Some(fault)),
    }
}

fn other_world(alloc: Global, worlds: &[World]) -> Result<Option<usize>, Fault> {
    let mut place = 0_usize;
    for world in worlds {
        if !is_refused(alloc, *world)? {
            return Ok(Some(place));
        }
        place = place.wrapping_add(1);
    }
    Ok(None)
}

#[test]
fn scenes_of_no_world(rt: HostRuntime) -> Result<(), Fail> {
    all_hold(other_world(rt.alloc(), &WORLDS))
}
