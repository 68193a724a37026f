use crate::stage::Stage;
use std::alloc::Global;
use std::process::Abort;

// Plays a script, and compares what happened.
fn assert_happens(rt: &impl Abort, stage: Stage, script: &str, wanted: &str) {
    let mut stage = stage;
    stage.play(rt, script);
    let happened = stage.finish(rt);
    assert_eq!(rt; happened.as_str(), wanted);
}

// Three sessions want one key: the first one's flight fails, and the second lands it for all.
#[test]
fn a_reply_is_shared(rt: HostRuntime) {
    let stage = Stage::new(rt.alloc(), 3, 0).expect(&rt, "memory");
    assert_happens(
        &rt,
        stage,
        "0 ask k => fetch
1 ask k => waiting
0 fail => done
1 ask k => fetch
2 ask k => waiting
1 land 200 => done
2 ask k => have 200
0 ask k => have 200",
        "0 ask k: fetch
0 fail k link
1 ask k: fetch
1 land k 200
2 ask k: have 200
0 ask k: have 200
",
    );
}

// Two workers claim what was hinted, the second hint of it is passed over, and they stop when both sessions have ended.
#[test]
fn hints_are_claimed_in_order(rt: HostRuntime) {
    let stage = Stage::new(rt.alloc(), 2, 2).expect(&rt, "memory");
    assert_happens(
        &rt,
        stage,
        "0 hint a b => done
2 claim => fetch a
0 hint a b => done
3 claim => fetch b
2 claim => nothing
0 end => done
1 end => done
3 claim => closed
2 fail => done
3 lack => done",
        "0 hint 2
2 claim: fetch a
0 hint 2
3 claim: fetch b
0 end
1 end
3 claim: closed
2 fail a link
3 fail b memory
",
    );
}

// A session that was the first to cancel goes on, and the others are told.
#[test]
fn a_cancel_is_told_to_the_others(rt: HostRuntime) {
    let stage = Stage::new(rt.alloc(), 3, 0).expect(&rt, "memory");
    assert_happens(
        &rt,
        stage,
        "2 ask r => fetch
2 land 404 => done
1 cancel => done
0 ask k => cancelled by 1
2 cancel => done
2 ask r => cancelled by 1
1 ask r => have 404
1 ask k => fetch
1 fail => done",
        "2 ask r: fetch
2 land r 404
1 cancel
0 ask k: cancelled by 1
2 cancel
2 ask r: cancelled by 1
1 ask r: have 404
1 ask k: fetch
1 fail k link
",
    );
}

// The largest cache, and a key of 65,536 bytes: every session hints the same keys, and each key is claimed once.
fn plays_the_largest(rt: &impl Abort, alloc: Global) -> Option<usize> {
    let long = "x".repeat(alloc, 65536).ok()?;
    let names = format!(in alloc; "{long} k").ok()?;
    let fetched = format!(in alloc; "fetch {long}").ok()?;
    let mut stage = Stage::new(alloc, 64, 16).ok()?;
    for session in 0..64 {
        stage.expect(rt, session, "hint", names.as_str(), "done");
    }
    stage.expect(rt, 64, "claim", "", fetched.as_str());
    stage.expect(rt, 79, "claim", "", "fetch k");
    stage.expect(rt, 70, "claim", "", "nothing");
    stage.expect(rt, 64, "land", "200", "done");
    stage.expect(rt, 79, "land", "404", "done");
    stage.expect(rt, 63, "ask", long.as_str(), "have 200");
    for session in 0..64 {
        stage.expect(rt, session, "end", "", "done");
    }
    for worker in 64..80 {
        stage.expect(rt, worker, "claim", "", "closed");
    }
    Some(stage.finish(rt).lines().count())
}

#[test]
fn the_largest_cache_works(rt: HostRuntime) {
    assert_eq!(rt; plays_the_largest(&rt, rt.alloc()), Some(64 + 5 + 64 + 16));
}
