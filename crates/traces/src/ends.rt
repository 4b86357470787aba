//! How a run ends: each server and each link, in words.
ghost use Rattle.std.specs.Prelude.{◌≡◌, ◌≤◌, ◌++◌, OnOk, flat_map, length};
ghost use Rattle.traces.specs.Ends.{all_links_below, end_text, knows_text, life_text, link_lines, links_below};
ghost use Rattle.traces.specs.Ends.{links_text, message_line, numbers_text, read_line, server_lines, servers_below};
ghost use Rattle.traces.specs.Ends.{servers_text, standing_line, update_line};

use crate::texts::Text;
use crate::words::{put_call, put_key, put_message, put_view};
use node::{Node, OpenRead, OpenUpdate, Peer, Standing, View};
use std::alloc::AllocError;
use world::Trace;

/// A line for each server, one for each of its open calls, and one for each message that is on its way.
pub fn put_end(text: &mut Text, trace: &Trace) -> Result<(), AllocError>
    ensures { OnOk result (text.new ≡ text.old ++ end_text trace.now.world) }
{
    text.put(b"after the last event\n")?;
    put_servers(text, trace)?;
    put_links(text, trace)
}

#[tactic(auto, unfolding(crate::specs::Ends::servers_text))]
fn put_servers(text: &mut Text, trace: &Trace) -> Result<(), AllocError>
    ensures { OnOk result (text.new ≡ text.old ++ servers_text trace.now.world) }
{
    put_servers_below(text, trace, trace.count())
}

// The servers that are below a count.
#[tactic(auto, unfolding(crate::specs::Ends::servers_below), using(crate::proofs::Growing::one_more))]
fn put_servers_below(text: &mut Text, trace: &Trace, count: usize) -> Result<(), AllocError>
    requires { count ≤ length trace.now.world.servers }
    ensures { OnOk result (text.new ≡ text.old ++ servers_below trace.now.world count) }
{
    for i in 0..count {
        put_server(text, i, trace.lives(i), trace.server(i))?;
    }
    Ok(())
}

#[tactic(auto, unfolding(crate::specs::Ends::server_lines))]
fn put_server(text: &mut Text, i: usize, lives: bool, node: &Node) -> Result<(), AllocError>
    ensures { OnOk result (text.new ≡ text.old ++ server_lines i lives node.now.server) }
{
    put_standing(text, i, lives, node.standing())?;
    put_updates(text, node)?;
    put_reads(text, node)
}

fn put_standing(
    text: &mut Text,
    i: usize,
    lives: bool,
    standing: Standing,
) -> Result<(), AllocError>
    ensures { OnOk result (text.new ≡ text.old ++ standing_line i lives standing) }
{
    let view = standing.view;
    text.numbered(b"  server ", i)?;
    text.put(life(lives))?;
    put_numbers(text, standing)?;
    put_known(text, view)
}

fn life(lives: bool) -> &'static [u8]
    ensures { result.now ≡ life_text lives }
{
    if lives { b" lives" } else { b" has failed" }
}

fn put_numbers(text: &mut Text, standing: Standing) -> Result<(), AllocError>
    ensures { OnOk result (text.new ≡ text.old ++ numbers_text standing) }
{
    text.labelled(b", last ", standing.last)?;
    text.labelled(b", acknowledged ", standing.acked)?;
    text.labelled(b", floor ", standing.floor)
}

fn put_known(text: &mut Text, view: View) -> Result<(), AllocError>
    ensures { OnOk result (text.new ≡ text.old ++ knows_text view) }
{
    text.put(b", knows failed")?;
    put_view(text, view)?;
    text.put(b"\n")
}

fn put_updates(text: &mut Text, node: &Node) -> Result<(), AllocError>
    ensures { OnOk result (text.new ≡ text.old ++ flat_map update_line node.now.server.pend) }
{
    for update in node.open_updates() {
        put_update(text, update)?;
    }
    Ok(())
}

#[tactic(auto, unfolding(crate::specs::Ends::update_line))]
fn put_update(text: &mut Text, update: &OpenUpdate) -> Result<(), AllocError>
    ensures { OnOk result (text.new ≡ text.old ++ update_line update.now) }
{
    text.labelled(b"    open update ", update.id)?;
    text.numbered(b" of connection ", update.port)?;
    text.put(b": ")?;
    put_call(text, &update.call)?;
    text.put(b"\n")
}

fn put_reads(text: &mut Text, node: &Node) -> Result<(), AllocError>
    ensures { OnOk result (text.new ≡ text.old ++ flat_map read_line node.now.server.asks) }
{
    for read in node.open_reads() {
        put_read(text, read)?;
    }
    Ok(())
}

#[tactic(auto, unfolding(crate::specs::Ends::read_line))]
fn put_read(text: &mut Text, read: &OpenRead) -> Result<(), AllocError>
    ensures { OnOk result (text.new ≡ text.old ++ read_line read.now) }
{
    text.labelled(b"    open read ", read.ask)?;
    text.numbered(b" of connection ", read.port)?;
    put_key(text, b": ", &read.key)?;
    text.labelled(b", asked at ", read.lower_bound)?;
    text.put(b"\n")
}

#[tactic(auto, unfolding(crate::specs::Ends::links_text))]
fn put_links(text: &mut Text, trace: &Trace) -> Result<(), AllocError>
    ensures { OnOk result (text.new ≡ text.old ++ links_text trace.now.world) }
{
    let count = trace.count();
    put_all_links_below(text, trace, count, count)
}

// The links from the servers below the second count to those below the first.
#[tactic(auto, unfolding(crate::specs::Ends::all_links_below), using(crate::proofs::Growing::one_more))]
fn put_all_links_below(
    text: &mut Text,
    trace: &Trace,
    count: usize,
    froms: usize,
) -> Result<(), AllocError>
    ensures { OnOk result (text.new ≡ text.old ++ all_links_below trace.now.world count froms) }
{
    for i in 0..froms {
        put_links_below(text, trace, count, i)?;
    }
    Ok(())
}

// The links from server i to the servers below a count.
#[tactic(auto, unfolding(crate::specs::Ends::links_below), using(crate::proofs::Growing::one_more))]
fn put_links_below(text: &mut Text, trace: &Trace, count: usize, i: usize) -> Result<(), AllocError>
    ensures { OnOk result (text.new ≡ text.old ++ links_below trace.now.world count i) }
{
    for j in 0..count {
        put_link(text, trace, i, j, usize::MAX)?;
    }
    Ok(())
}

// The first messages of a link, at most n.
#[tactic(auto, unfolding(crate::specs::Ends::link_lines), using(crate::proofs::Growing::firsts))]
fn put_link(
    text: &mut Text,
    trace: &Trace,
    i: usize,
    j: usize,
    most: usize,
) -> Result<(), AllocError>
    ensures { OnOk result (text.new ≡ text.old ++ link_lines trace.now.world i j most) }
{
    for k in 0..most {
        let Some(message) = trace.message(i, j, k) else {
            return Ok(());
        };
        put_link_message(text, i, j, message)?;
    }
    Ok(())
}

#[tactic(auto, unfolding(crate::specs::Ends::message_line))]
fn put_link_message(text: &mut Text, i: usize, j: usize, message: &Peer) -> Result<(), AllocError>
    ensures { OnOk result (text.new ≡ text.old ++ message_line i j message.now) }
{
    text.numbered(b"  link from server ", i)?;
    text.numbered(b" to server ", j)?;
    text.put(b": ")?;
    put_message(text, message)?;
    text.put(b"\n")
}
