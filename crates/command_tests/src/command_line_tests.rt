//! What words on a command line ask for. Each row is a line of words, which `|` parts.

use command_line::{
    ClusterNumbers, Command, Hosts, MasterNumbers, Print, Serve, ServerNumbers, UsageFault,
    read_command,
};
use std::alloc::{AllocError, Global};
use std::test::Fail;

// The words of a line.
fn words_of(alloc: Global, line: &str) -> Result<Vec<&str>, AllocError> {
    let mut words = Vec::new(alloc);
    for word in line.split('|') {
        words.push(word)?;
    }
    Ok(words)
}

// What a line asks for.
fn read(alloc: Global, line: &str) -> Result<Command, UsageFault> {
    let words = words_of(alloc, line)?;
    read_command(alloc, words.as_slice())
}

fn is_scenario(asked: &Result<Command, UsageFault>, name: &str) -> bool {
    match asked {
        Ok(Command::Print(Print::Scenario { file })) => file.as_str() == name,
        _ => false,
    }
}

// Whether a line asks for the scenario of this file.
fn names_file(alloc: Global, line: &str, name: &str) -> bool {
    let asked = read(alloc, line);
    let named = is_scenario(&asked, name);
    drop(asked);
    named
}

#[test]
fn words_name_a_file(rt: HostRuntime) -> Result<(), Fail> {
    assert!(rt; names_file(rt.alloc(), "craq|scenario|a b", "a b"));
    assert!(rt; names_file(rt.alloc(), "craq|scenario|--|a b", "a b"));
    assert!(rt; names_file(rt.alloc(), "craq|scenario|a b|--", "a b"));
    Ok(())
}

// Whether a line asks for the version.
fn asks_for_version(alloc: Global, line: &str) -> bool {
    let asked = read(alloc, line);
    let named = matches!(&asked, Ok(Command::Print(Print::Version)));
    drop(asked);
    named
}

#[test]
fn words_ask_for_the_version(rt: HostRuntime) -> Result<(), Fail> {
    assert!(rt; asks_for_version(rt.alloc(), "craq|--version"));
    assert!(rt; asks_for_version(rt.alloc(), "craq|-V"));
    assert!(rt; asks_for_version(rt.alloc(), "craq|--version|scenario"));
    Ok(())
}

fn is_usage(asked: &Result<Command, UsageFault>, front: &str, part: &str) -> bool {
    match asked {
        Err(UsageFault::Usage(text)) => text.as_str().starts_with(front)
            && text.as_str().contains(part),
        _ => false,
    }
}

// Whether a line is refused by a text that begins so, and has this part.
fn is_refused(alloc: Global, line: &str, front: &str, part: &str) -> bool {
    let asked = read(alloc, line);
    let refused = is_usage(&asked, front, part);
    drop(asked);
    refused
}

// Lines that are refused, by their place. There are 15.
fn other_words(place: usize) -> &'static str {
    match place {
        0 => "craq",
        1 => "craq|--help",
        2 => "craq|help",
        3 => "craq|scenario",
        4 => "craq|scenario|--help",
        5 => "craq|scenario|a|b",
        6 => "craq|scenario|-x",
        7 => "craq|Scenario|a",
        8 => "craq|cluster|--servers|3",
        9 => "craq|cluster|--port|4000",
        10 => "craq|master|--servers|3",
        11 => "craq|cluster|--servers=3|--port=4000|--chain=a",
        12 => "craq|cluster|--servers=3|--port=4000|--lease=5",
        13 => "craq|master|--servers=3|--peer-port=4000|--lease=5",
        _ => "craq|master|--servers=3|--peer-port=4000|--quiet",
    }
}

#[test]
fn other_words_are_refused(rt: HostRuntime) -> Result<(), Fail> {
    for place in 0..15 {
        assert!(rt;
            is_refused(rt.alloc(), other_words(place), "", "Usage: craq"),
            "line {place}"
        );
    }
    Ok(())
}

// Lines with a number out of its range, by their place. There are 13.
fn numbers_out_of_range(place: usize) -> &'static str {
    match place {
        0 => "craq|cluster|--servers|17|--port|4000",
        1 => "craq|cluster|--servers|3|--port|65521",
        2 => "craq|cluster|--servers=3|--port=4000|--seats=0",
        3 => "craq|cluster|--servers=3|--port=4000|--threads=17",
        4 => "craq|cluster|--servers=3|--port=4000|--connections=65537",
        5 => "craq|cluster|--servers=3|--port=4000|--memory=0",
        6 => "craq|cluster|--servers=3|--port=4000|--memory=1048577",
        7 => "craq|server|--id=0|--servers=3|--port=4000|--peer-port=5000|--lease=0",
        8 => "craq|server|--id=0|--servers=3|--port=4000|--peer-port=5000|--lease=3601",
        9 => "craq|server|--id=0|--servers=3|--port=4000|--peer-port=5000|--link-timeout=9",
        10 => "craq|server|--id=0|--servers=3|--port=4000|--peer-port=5000|--link-timeout=3600001",
        11 => "craq|master|--servers=3|--peer-port=5000|--after=1",
        _ => "craq|master|--servers=3|--peer-port=5000|--after=3600001",
    }
}

#[test]
fn numbers_out_of_range_are_refused(rt: HostRuntime) -> Result<(), Fail> {
    for place in 0..13 {
        assert!(rt;
            is_refused(
                rt.alloc(),
                numbers_out_of_range(place),
                "error: invalid value",
                ""
            ),
            "line {place}"
        );
    }
    Ok(())
}

fn is_cluster(asked: &Result<Command, UsageFault>, wanted: &ClusterNumbers) -> bool {
    match asked {
        Ok(Command::Serve(Serve::Cluster(numbers))) => *numbers == *wanted,
        _ => false,
    }
}

// Whether a line asks for a chain of these numbers.
fn asks_for_chain(alloc: Global, line: &str, wanted: &ClusterNumbers) -> bool {
    let asked = read(alloc, line);
    let given = is_cluster(&asked, wanted);
    drop(asked);
    given
}

#[test]
fn words_give_the_numbers_of_a_chain(rt: HostRuntime) -> Result<(), Fail> {
    let line = "craq|cluster|--servers|3|--port=4000|--serves|9|--memory|64|--threads|2";
    let numbers = ClusterNumbers {
        servers: 3,
        port: 4000,
        seats: 64,
        threads: Some(2),
        connections: 1024,
        serves: 9,
        memory: Some(64),
        quiet: false,
    };
    assert!(rt; asks_for_chain(rt.alloc(), line, &numbers));
    Ok(())
}

// Whether these hosts are the address, the list of hosts, or no list if it is empty, and the chain's name.
fn are_hosts(hosts: &Hosts, address: &str, list: &str, chain: &str) -> bool {
    let is_listed = match &hosts.peers {
        Some(peers) => peers.as_str() == list,
        None => list.is_empty(),
    };
    is_listed && hosts.address.as_str() == address && hosts.chain.as_str() == chain
}

fn is_server(asked: &Result<Command, UsageFault>, wanted: &ServerNumbers) -> bool {
    match asked {
        Ok(Command::Serve(Serve::Server(numbers, hosts))) => {
            *numbers == *wanted && are_hosts(hosts, "127.0.0.1", "a,b,c", "craq")
        }
        _ => false,
    }
}

// Whether a line asks for a server of these numbers, on this machine, with peers on three others.
fn asks_for_server(alloc: Global, line: &str, wanted: &ServerNumbers) -> bool {
    let asked = read(alloc, line);
    let given = is_server(&asked, wanted);
    drop(asked);
    given
}

#[test]
fn words_tell_a_server(rt: HostRuntime) -> Result<(), Fail> {
    let line =
        "craq|server|--id=2|--servers=3|--port=4000|--peer-port|5000|--peers|a,b,c|--connections=9|--lease=5|--quiet";
    let mut numbers = ServerNumbers {
        id: 2,
        servers: 3,
        port: 4000,
        peer_port: 5000,
        seats: 64,
        threads: None,
        connections: 9,
        memory: None,
        lease: Some(5),
        link_timeout: 1_000,
        quiet: true,
    };
    assert!(rt; asks_for_server(rt.alloc(), line, &numbers));
    let line =
        "craq|server|--id=2|--servers=3|--port=4000|--peer-port=5000|--peers=a,b,c|--connections=9|--link-timeout=10";
    numbers.lease = None;
    numbers.link_timeout = 10;
    numbers.quiet = false;
    assert!(rt; asks_for_server(rt.alloc(), line, &numbers));
    Ok(())
}

fn is_master(asked: &Result<Command, UsageFault>, wanted: &MasterNumbers) -> bool {
    match asked {
        Ok(Command::Serve(Serve::Master(numbers, hosts))) => {
            *numbers == *wanted && are_hosts(hosts, "a", "", "b")
        }
        _ => false,
    }
}

// Whether a line asks for a master of these numbers, at the host `a`, of the chain `b`.
fn asks_for_master(alloc: Global, line: &str, wanted: &MasterNumbers) -> bool {
    let asked = read(alloc, line);
    let given = is_master(&asked, wanted);
    drop(asked);
    given
}

#[test]
fn words_tell_a_master(rt: HostRuntime) -> Result<(), Fail> {
    let line = "craq|master|--peer-port=5000|--address|a|--chain|b|--servers|3|--watch|--beat=50";
    let numbers = MasterNumbers {
        servers: 3,
        peer_port: 5000,
        watch: true,
        beat: 50,
        after: 3_000,
    };
    assert!(rt; asks_for_master(rt.alloc(), line, &numbers));
    let line =
        "craq|master|--peer-port=5000|--address|a|--chain|b|--servers|3|--beat=50|--after|90";
    let numbers = MasterNumbers {
        servers: 3,
        peer_port: 5000,
        watch: false,
        beat: 50,
        after: 90,
    };
    assert!(rt; asks_for_master(rt.alloc(), line, &numbers));
    Ok(())
}
