use spm_cache_core::SharedReply;
use spm_cell::{Cell, Wanted};
use spm_key::{Body, Reply};
use std::alloc::Global;

// A cell's course: a flight that fails, and one that lands.
#[test]
fn a_cell_flies_until_it_lands(rt: HostRuntime) {
    let mut cell = Cell::Idle { fails: 0 };
    assert!(rt; cell.want(3, 7) == Wanted::Fetch);
    assert!(rt; cell.want(4, 8) == Wanted::Waiting(3));
    cell.fail();
    assert!(rt; cell == Cell::Idle { fails: 1 });
    assert!(rt; cell.want(4, 9) == Wanted::Fetch);
    cell.land(12);
    assert!(rt; cell.want(5, 13) == Wanted::Have(12));
}

// The status of a reply, read from its second owner when the first is gone.
fn status_shared(alloc: Global, status: u16) -> Option<u16> {
    let body = Body::TooLong;
    let first = SharedReply::new(alloc, Reply { status, body }).ok()?;
    let second = first.share().ok()?;
    drop(first);
    Some(second.reply().status)
}

#[test]
fn a_reply_has_several_owners(rt: HostRuntime) {
    assert_eq!(rt; status_shared(rt.alloc(), 404), Some(404));
}
