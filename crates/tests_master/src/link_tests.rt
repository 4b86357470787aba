//! Links between servers that stand still: what a master tells of them, and which server it has go.

use master_decisions::{StalledLinks, end_to_go, first_to_go};
use node::View;
use std::test::Fail;

// The servers of a chain of four, as a set.
const ALL: u16 = 15;

// Of a link that stands still by the word of either end the one with the higher id goes, if as many others reach it.
#[test]
fn end_with_the_higher_id_goes(rt: HostRuntime) -> Result<(), Fail> {
    let all = View::from_bits(ALL);
    let mut links = StalledLinks::new();
    assert!(rt; first_to_go(&links, all, all).is_none());
    links.hear(1, 1, 10);
    assert!(rt; first_to_go(&links, all, all) == Some(1));
    assert!(rt; end_to_go(&links, all, all, 1, 0) == 1);
    // Server 0 doesn't answer the master.
    let others = View::from_bits(ALL - 1);
    assert!(rt; first_to_go(&links, all, others) == Some(0));
    drop(links);
    Ok(())
}

// The server that is cut off from all others goes, whatever its id; then nobody.
#[test]
fn server_that_is_cut_off_goes(rt: HostRuntime) -> Result<(), Fail> {
    let all = View::from_bits(ALL);
    let mut links = StalledLinks::new();
    links.hear(0, 14, 10);
    links.hear(3, 1, 20);
    links.hear(2, 1, 30);
    assert!(rt; first_to_go(&links, all, all) == Some(0));
    assert!(rt; end_to_go(&links, all, all, 3, 0) == 0);
    let others = View::from_bits(ALL - 1);
    assert!(rt; first_to_go(&links, others, all).is_none());
    drop(links);
    Ok(())
}

// A link is told once that it stands still, and once that it goes on: once its server answers and says no more of it.
#[test]
fn each_link_is_told_once(rt: HostRuntime) -> Result<(), Fail> {
    let all = View::from_bits(ALL);
    let mut links = StalledLinks::new();
    links.hear(2, 1, 100);
    assert!(rt; !links.is_settled(399, 100));
    assert!(rt; links.is_settled(400, 100));
    let told = links.next(all).ok_or("it stands still")?;
    assert!(rt; told.from == 2 && told.to == 0 && told.stands_still);
    assert!(rt; links.next(all).is_none());
    links.answered(2, 500);
    assert!(rt; links.next(all).is_none());
    links.answered(2, 600);
    let told = links.next(all).ok_or("it goes on")?;
    assert!(rt; told.from == 2 && told.to == 0 && !told.stands_still);
    assert!(rt; links.next(all).is_none());
    drop(links);
    Ok(())
}
