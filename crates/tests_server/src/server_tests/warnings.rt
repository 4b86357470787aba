//! What a server warns of at its start.

use craq_server::warn_of;
use ends::TrackedWriter;
use std::alloc::Global;
use std::net::{Ipv4Addr, SocketAddr, SocketAddrV4};
use std::test::Fail;

// Who listens beyond this machine is warned, and who doesn't is not.
#[test]
fn warned_beyond_this_machine(rt: HostRuntime) -> Result<(), Fail> {
    let alloc = rt.alloc();
    assert!(rt; warning(alloc, Ipv4Addr::LOCALHOST).is_empty());
    assert!(rt;
        warning(alloc, Ipv4Addr::UNSPECIFIED).starts_with(b"craq: warning: others may connect")
    );
    Ok(())
}

fn warning(alloc: Global, address: Ipv4Addr) -> Vec<u8> {
    let mut errors = TrackedWriter::new(Vec::new(alloc));
    warn_of(SocketAddr::V4(SocketAddrV4::new(address, 0)), &mut errors);
    let TrackedWriter { inner, .. } = errors;
    inner
}
