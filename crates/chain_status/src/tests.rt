//! A chain of four, in each form of printing.

use crate::expected::{JSON, METRICS, TABLE};
use crate::{
    CallTimes, Calls, ChainLook, ChainStatus, Histogram, Inbox, LeaseState, Memory, Metrics,
    NoConnection, Refused, ServerAnswer, ServerReport, Usage, Version, answer_by,
};
use std::alloc::{AllocError, Global};
use std::test::Fail;

// Server i of four, a second after its start.
fn report(i: u8) -> ServerReport {
    ServerReport {
        id: i,
        servers: 4,
        version: Version {
            major: 0,
            minor: 1,
            patch: 0,
        },
        start: 77,
        uptime: 1_000_000_000,
        view: 0,
        stalled: 0,
        last: 1200,
        committed: 1190,
        memory: Memory {
            items: 300,
            estimate: 45_000,
            limit: Some(50_000),
        },
        connections: Usage {
            used: 12,
            limit: 1024,
        },
        seats: Usage { used: 3, limit: 64 },
        calls: Calls {
            clean_reads: 2000,
            dirty_reads: 20,
            updates: 1200,
        },
        questions: 21,
        inbox: Inbox {
            length: 2,
            taken: 5000,
        },
        lease: None,
        refused: Refused {
            connections: 4,
            stores: 5,
        },
    }
}

// The look of a start: nobody has done anything yet.
fn earlier(alloc: Global) -> Result<ChainLook, AllocError> {
    let mut look = ChainLook::new(alloc, 1_000_000_000);
    for i in 0..3 {
        let mut before = report(i);
        before.calls = Calls {
            clean_reads: 0,
            dirty_reads: 0,
            updates: 0,
        };
        before.inbox = Inbox {
            length: 0,
            taken: 0,
        };
        if !look.is_full() {
            look.add(answer_by(i, 4, before))?;
        }
    }
    Ok(look)
}

// Two seconds later: server 1 has a lease that is over and more connections than it may, server 2 was called gone and
// has ended, and server 3 is ahead.
fn later(alloc: Global) -> Result<ChainLook, AllocError> {
    let mut head = report(0);
    head.view = 4;
    head.stalled = 12;
    let mut middle = report(1);
    middle.lease = Some(LeaseState { reign: 9, left: 0 });
    middle.connections = Usage {
        used: 1024,
        limit: 1024,
    };
    let mut tail = report(3);
    tail.view = 4;
    tail.last = 1_234_567;
    tail.committed = 1_234_567;
    tail.uptime = 864_000_000_000_000;
    tail.memory.limit = None;
    let mut look = ChainLook::new(alloc, 3_000_000_000);
    let gone = ServerAnswer::NoConnection(NoConnection::Ended);
    for answer in [
        answer_by(0, 4, head),
        answer_by(1, 4, middle),
        gone,
        answer_by(3, 4, tail),
    ] {
        if !look.is_full() {
            look.add(answer)?;
        }
    }
    Ok(look)
}

// A chain of two: server 0 refuses to store, and server 1 is not reached.
fn pair(alloc: Global) -> Result<ChainLook, AllocError> {
    let mut full = report(0);
    full.servers = 2;
    full.memory.estimate = 50_000;
    full.last = u64::MAX;
    full.lease = Some(LeaseState {
        reign: 9,
        left: 4_020_000_000,
    });
    let mut look = ChainLook::new(alloc, 2_000_000_000);
    let away = ServerAnswer::NoConnection(NoConnection::NotReached);
    for answer in [answer_by(0, 2, full), away] {
        if !look.is_full() {
            look.add(answer)?;
        }
    }
    Ok(look)
}

// The addresses of the servers; that of the second one has what JSON escapes.
fn addresses(alloc: Global) -> Result<Vec<String>, AllocError> {
    let mut addresses = Vec::new(alloc);
    for address in [
        "127.0.0.1:12211",
        "a\"b\\c:12212",
        "127.0.0.1:12213",
        "a.host.with.a.long.name.example:12214",
    ] {
        addresses.push(String::from_str(alloc, address)?)?;
    }
    Ok(addresses)
}

// The lines, each with this end.
fn joined(alloc: Global, lines: &[&str], end: &str) -> Result<String, AllocError> {
    let mut text = String::new(alloc);
    for line in lines {
        text.push_str(line)?;
        text.push_str(end)?;
    }
    Ok(text)
}

#[test]
fn prints_a_table(rt: HostRuntime) -> Result<(), Fail> {
    let alloc = rt.alloc();
    let (before, look, addresses) = (earlier(alloc)?, later(alloc)?, addresses(alloc)?);
    let status = ChainStatus::of(alloc, &before, &look, addresses.as_slice())?;
    let table = status.to_table(alloc)?;
    let expected = joined(alloc, TABLE.as_slice(), "\n")?;
    assert_eq!(rt; table.as_str(), expected.as_str());
    assert_eq!(rt; status.standing().exit_status(), 2);
    Ok(())
}

#[test]
fn prints_json(rt: HostRuntime) -> Result<(), Fail> {
    let alloc = rt.alloc();
    let (before, look, addresses) = (earlier(alloc)?, pair(alloc)?, addresses(alloc)?);
    let status = ChainStatus::of(alloc, &before, &look, addresses.as_slice())?;
    let json = status.to_json(alloc)?;
    let expected = joined(alloc, JSON.as_slice(), "")?;
    assert_eq!(rt; json.as_str(), expected.as_str());
    Ok(())
}

#[test]
fn prints_metrics(rt: HostRuntime) -> Result<(), Fail> {
    let alloc = rt.alloc();
    let mut clean_reads = Histogram::new();
    clean_reads.observe(7);
    let mut updates = Histogram::new();
    updates.observe(25_000);
    updates.observe(25_001);
    let mut others = Histogram::new();
    others.observe(6_000_000_000);
    updates.merge(&others);
    let times = CallTimes {
        clean_reads,
        dirty_reads: Histogram::new(),
        updates,
    };
    let mut report = report(1);
    report.view = 4;
    report.lease = Some(LeaseState {
        reign: 9,
        left: 4_020_000_000,
    });
    let metrics = Metrics {
        report: &report,
        times: &times,
    };
    let text = format!(in alloc; "{metrics}")?;
    let expected = joined(alloc, METRICS.as_slice(), "\n")?;
    assert_eq!(rt; text.as_str(), expected.as_str());
    Ok(())
}
