//! Scripts on real threads, and their tables.
use controls::{Hold, Holds, Open, Point, Turnstile};
use history::Req;
use script_run::{RunFault, run_script};
use script_text::{read_script, write_table};
use std::alloc::Global;
use std::sync::Wait;
use std::test::Fail;
use std::thread::Threads;

/// The table of a script, as text, or its fault.
fn ran<
    R: Threads + Wait + Copy + Send + Sync + 'static,
    G: Turnstile + Send + Sync + Drop + 'static,
>(
    rt: &R,
    alloc: Global,
    text: &[u8],
    workers: u32,
    turns: u32,
    turnstile: G,
) -> Result<String, Fail> {
    let Ok(script) = read_script(alloc, text) else {
        return Err(Fail::new("the script"));
    };
    match run_script(rt, alloc, &script, workers, turns, turnstile) {
        Ok(table) => match write_table(alloc, &script, &table) {
            Ok(bytes) => Ok(String::from_utf8(bytes)?),
            Err(_) => Err(Fail::new("the table")),
        },
        Err(RunFault::Stuck(label)) => Ok(format!(in alloc; "stuck {label}")?),
        Err(_) => Err(Fail::new("a fault")),
    }
}

#[test]
fn a_chain_through_a_pipe_with_1_2_and_8_workers(rt: HostRuntime) -> Result<(), Fail> {
    let text =
        b"pipe 16\nring 8\non 0\nnop a link\nwrite b 1 abcd link\nread c 0 4\nsubmit\nwait c\n";
    for workers in [1, 2, 8] {
        let table = ran(&rt, rt.alloc(), text, workers, 10_000_000, Open)?;
        assert_eq!(rt; table.as_str(), "a 0\nb 4\nc 4 61626364\n");
    }
    Ok(())
}

#[test]
fn a_cell_is_used_again(rt: HostRuntime) -> Result<(), Fail> {
    let text = b"ring 1\non 0\nnop a\nsubmit\nnop b\nsubmit\nwait b\n";
    let table = ran(&rt, rt.alloc(), text, 2, 10_000_000, Open)?;
    assert_eq!(rt; table.as_str(), "a 0\nb 0\n");
    Ok(())
}

#[test]
fn a_clock_fires_a_link_timeout(rt: HostRuntime) -> Result<(), Fail> {
    let text =
        b"pipe 16\nring 8\non 0\nread r 0 4 link\nlink-timeout t 5\nsubmit\nwait t\non clock\narmed t\ntick 4\ntick 5\n";
    let table = ran(&rt, rt.alloc(), text, 2, 10_000_000, Open)?;
    assert_eq!(rt; table.as_str(), "r -125\nt -62\n");
    Ok(())
}

#[test]
fn a_timeout_counts_two_replies(rt: HostRuntime) -> Result<(), Fail> {
    let text = b"pipe 16\nring 8\non 0\ntimeout t 100 count=2\nnop a\nnop b\nsubmit\nwait t\n";
    for workers in [1, 3] {
        let table = ran(&rt, rt.alloc(), text, workers, 10_000_000, Open)?;
        assert_eq!(rt; table.as_str(), "t 0\na 0\nb 0\n");
    }
    Ok(())
}

#[test]
fn two_rings_meet_at_a_pipe(rt: HostRuntime) -> Result<(), Fail> {
    let text =
        b"pipe 4\nring 2\nring 4 1\non 0\nwrite w 1 abcdefg\nsubmit\nwait w\non 1\nread r 0 3\nsubmit\nwait r\nread s 0 1\nsubmit\nwait s\nwait w\n";
    let table = ran(&rt, rt.alloc(), text, 3, 10_000_000, Open)?;
    assert_eq!(rt; table.as_str(), "w 4\nr 3 616263\ns 1 64\n");
    Ok(())
}

#[test]
fn a_line_that_waits_in_vain_is_stuck(rt: HostRuntime) -> Result<(), Fail> {
    let text = b"pipe 16\nring 8\non 0\nread x 0 4\nsubmit\nwait x\n";
    let told = ran(&rt, rt.alloc(), text, 2, 1000, Open)?;
    assert_eq!(rt; told.as_str(), "stuck x");
    Ok(())
}

/// The table of a script whose cancel c is held until its target r has come to a point, where r is held until c is answered.
fn held<R: Threads + Wait + Copy + Send + Sync + 'static>(
    rt: &R,
    alloc: Global,
    text: &[u8],
    r: Req,
    at: Point,
) -> Result<String, Fail> {
    let c = Req {
        ring: r.ring,
        k: r.k.saturating_add(1),
    };
    let mut holds = Vec::new(alloc);
    holds.push(Hold::new((Point::Begin, c), (at, r)))?;
    holds.push(Hold::new((at, r), (Point::Post, c)))?;
    ran(rt, alloc, text, 2, 10_000_000, Holds { holds })
}

#[test]
fn a_cancel_comes_at_each_point_of_its_target(rt: HostRuntime) -> Result<(), Fail> {
    let text = b"pipe 16\nring 8\non 0\nread r 0 4\ncancel c r\nsubmit\nwait c\n";
    let wanted = [
        (Point::Begin, "r -125\nc 0\n"),
        (Point::Run, "r -125\nc -114\n"),
        (Point::Park, "r -125\nc 0\n"),
    ];
    for (at, table) in wanted {
        let told = held(&rt, rt.alloc(), text, Req { ring: 0, k: 0 }, at)?;
        assert_eq!(rt; told.as_str(), table);
    }
    let text =
        b"pipe 16\nring 8\non 0\nwrite w 1 z\nsubmit\nwait w\nread r 0 4\ncancel c r\nsubmit\nwait c\n";
    let told = held(&rt, rt.alloc(), text, Req { ring: 0, k: 1 }, Point::Post)?;
    assert_eq!(rt; told.as_str(), "w 1\nr 1 7a\nc -2\n");
    Ok(())
}
