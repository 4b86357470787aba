//! Lines of standard error about connections between the servers of a chain.

use lines::LineSender;
use std::sync::Wait;
use wire::{MASTER, Reason};

/// What to do about a link that doesn't stand any more. It goes on from "unless server I or this one".
const CALL: &str = "is being stopped, one of the two must be called gone";

/// The link from another server to server `id` isn't read any more.
pub(crate) fn tell_from<R: Wait>(rt: &R, line_sender: &LineSender, id: u8, from: u8, reason: &str) {
    line_sender.tell(
        rt,
        format_args!(
            "craq: server {id}: the link from server {from} {reason}; unless server {from} or this one {CALL}"
        ),
    );
}

/// The link from server `id` to another stands still for so many nanoseconds; so many bytes of it aren't confirmed.
pub(crate) fn tell_still<R: Wait>(
    rt: &R,
    line_sender: &LineSender,
    id: u8,
    to: u8,
    still: u64,
    kept: u64,
) {
    let milliseconds = still / 1_000_000;
    line_sender.tell(
        rt,
        format_args!(
            "craq: server {id}: the link to server {to} stands still for {milliseconds} ms, {kept} bytes wait; unless server {to} or this one {CALL}"
        ),
    );
}

/// The link from server `id` to another goes on after so many nanoseconds.
pub(crate) fn tell_goes<R: Wait>(rt: &R, line_sender: &LineSender, id: u8, to: u8, still: u64) {
    let milliseconds = still / 1_000_000;
    line_sender.tell(
        rt,
        format_args!(
            "craq: server {id}: the link to server {to} goes on after {milliseconds} ms, and has lost nothing"
        ),
    );
}

/// The link from server `id` to another keeps so many bytes, and is given up.
pub(crate) fn tell_given_up<R: Wait>(rt: &R, line_sender: &LineSender, id: u8, to: u8, kept: u64) {
    line_sender.tell(
        rt,
        format_args!(
            "craq: server {id}: the link to server {to} is given up, since {kept} bytes wait; unless server {to} or this one {CALL}"
        ),
    );
}

/// The server to which the link of server `id` went was started anew.
pub(crate) fn tell_other_start<R: Wait>(rt: &R, line_sender: &LineSender, id: u8, to: u8) {
    line_sender.tell(
        rt,
        format_args!(
            "craq: server {id}: server {to} was started anew, and this chain goes on without it; it must be called gone"
        ),
    );
}

/// A connection of the master to server `id` isn't read any more.
pub(crate) fn tell_master<R: Wait>(rt: &R, line_sender: &LineSender, id: u8, reason: &str) {
    line_sender.tell(
        rt,
        format_args!("craq: server {id}: the connection of the master {reason}"),
    );
}

/// Something older has connected to server `id`.
pub(crate) fn tell_old<R: Wait>(rt: &R, line_sender: &LineSender, id: u8) {
    line_sender.tell(
        rt,
        format_args!(
            "craq: server {id}: a peer speaks format 1, and this server format 2; its connection was closed"
        ),
    );
}

/// A server, or the master, greeted server `id` and was refused.
pub(crate) fn tell_refused<R: Wait>(
    rt: &R,
    line_sender: &LineSender,
    id: u8,
    opener: u8,
    reason: Reason,
) {
    let words = words_of(reason);
    if opener == MASTER {
        line_sender.tell(
            rt,
            format_args!("craq: server {id}: a connection of a master was refused: {words}"),
        );
    } else {
        line_sender.tell(
            rt,
            format_args!("craq: server {id}: a connection of server {opener} was refused: {words}"),
        );
    }
}

/// Why a connection was refused, and what to do, in words that go on from "server I was refused: ".
pub(crate) fn words_of(reason: Reason) -> &'static str {
    match reason {
        Reason::Servers => {
            "its chain has another number of servers; start all servers with the same --servers"
        }
        Reason::Chain => "it belongs to another chain; start all servers with the same --chain",
        Reason::Taken => {
            "a server of this id has connected already; start each server once, and none again beside the others"
        }
        Reason::Gone => {
            "a server of this id was called gone; don't start it again beside the others"
        }
        Reason::Format => {
            "it speaks an older format, or doesn't introduce itself; start the same version everywhere"
        }
    }
}
