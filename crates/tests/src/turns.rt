//! Turns one after another in one thread: what each comes to, and when there is nothing to do.
use crate::batches::Entry;
use crate::stage::play;
use entry::Sqe;
use prep::{
    cancel, cancel_all, close, link_timeout, nop, read, timeout, timeout_count, timeout_remove,
    write,
};
use std::test::Fail;

/// IOSQE_IO_DRAIN, IOSQE_IO_LINK.
const DRAIN: u8 = 2;

const LINK: u8 = 4;

/// IORING_TIMEOUT_ETIME_SUCCESS.
const ETIME_SUCCESS: u32 = 32;

/// -ETIME, -ECANCELED.
const TIMED_OUT: i32 = -62;

const CANCELED: i32 = -125;

/// An entry without a buffer.
fn plain(sqe: Sqe, flags: u8, user_data: u64) -> Entry {
    filled(sqe, flags, user_data, 0, 0)
}

/// An entry with a buffer of this many bytes, from `first` on.
fn filled(sqe: Sqe, flags: u8, user_data: u64, bytes: u8, first: u8) -> Entry {
    Entry {
        sqe,
        flags,
        user_data,
        bytes,
        first,
    }
}

/// A READ of this many bytes, and a WRITE.
fn reads(bytes: u8, flags: u8, user_data: u64, first: u8) -> Entry {
    filled(read(0, u32::from(bytes), 0), flags, user_data, bytes, first)
}

fn writes(bytes: u8, flags: u8, user_data: u64, first: u8) -> Entry {
    filled(
        write(1, u32::from(bytes), 0),
        flags,
        user_data,
        bytes,
        first,
    )
}

#[test]
fn a_poll_turn_does_not_tick_by_itself(rt: HostRuntime) -> Result<(), Fail> {
    let first = [reads(4, LINK, 21, 90), plain(link_timeout(5), 0, 22)];
    let told = play(&rt, &[4], 4, (&first, &[]), "f p1000 l0 l1", 0)?;
    assert_eq!(rt; told.as_str(), "0.0 still ready armed5 on");
    Ok(())
}

#[test]
fn a_parked_read_is_served_after_the_write(rt: HostRuntime) -> Result<(), Fail> {
    let first = [reads(5, 0, 41, 70)];
    let second = [writes(3, 0, 42, 1)];
    let words = "p w f p p w l0 w l0 w o p w w w w p r0";
    let told = play(&rt, &[2, 2], 4, (&first, &second), words, 0)?;
    assert_eq!(rt;
        told.as_str(),
        "idle idle 0.0 moved idle moved ready idle ready idle 1.0 moved moved+1.0 moved+0.0 idle idle idle 3:1:2:3:73:74 on"
    );
    Ok(())
}

/// The WRITE wakes both READs. The number of the second finds no place in the queue.
#[test]
fn a_number_that_finds_no_place_is_served_later(rt: HostRuntime) -> Result<(), Fail> {
    let first = [reads(1, 0, 31, 50), reads(2, 0, 32, 60)];
    let second = [writes(3, 0, 33, 1)];
    let words = "f p w w w o p w w w w p r0 r1";
    let told = play(&rt, &[2, 2], 1, (&first, &second), words, 0)?;
    assert_eq!(rt;
        told.as_str(),
        "0.0 moved moved moved idle 1.0 moved moved+1.0 moved+0.1 moved+0.0 idle idle 1:3 2:1:2 on"
    );
    Ok(())
}

/// Both READs lie with the pipe. The second CLOSE wakes none.
#[test]
fn a_close_wakes_all_that_lie_with_the_pipe(rt: HostRuntime) -> Result<(), Fail> {
    let first = [reads(1, 0, 31, 50), reads(2, 0, 32, 60)];
    let second = [plain(close(1), 0, 33), plain(close(1), 0, 34)];
    let words = "f p w w w o p w w w w w p r0 r1";
    let told = play(&rt, &[2, 2], 4, (&first, &second), words, 0)?;
    assert_eq!(rt;
        told.as_str(),
        "0.0 moved moved moved idle 1.0 moved moved+1.0 moved+1.1 moved+0.0 moved+0.1 idle idle 0:50 0:60:61 on"
    );
    Ok(())
}

/// Both READs lie with the pipe, and the cancel takes them in their order.
#[test]
fn a_cancel_of_all_puts_out_each_that_it_took(rt: HostRuntime) -> Result<(), Fail> {
    let first = [
        reads(3, 0, 21, 60),
        reads(2, 0, 21, 70),
        plain(cancel_all(21), 0, 22),
    ];
    let words = "f p w w w w w w p r0 r1 r2";
    let told = play(&rt, &[4], 4, (&first, &[]), words, 0)?;
    assert_eq!(rt;
        told.as_str(),
        "0.0 moved moved moved moved+0.0+0.1+0.2 idle idle idle idle -125:60:61:62 -125:70:71 2 on"
    );
    Ok(())
}

/// The numbers of three requests take one place of the queue together. The worker's next turns take them one by one, in order.
#[test]
fn requests_that_are_released_together_take_one_place(rt: HostRuntime) -> Result<(), Fail> {
    let first = [
        writes(3, 0, 31, 1),
        reads(1, 0, 32, 50),
        reads(2, 0, 33, 60),
    ];
    let words = "f p w w w w p r0 r1 r2";
    let told = play(&rt, &[4], 1, (&first, &first), words, 0)?;
    assert_eq!(rt;
        told.as_str(),
        "0.0 moved moved+0.0 moved+0.1 moved+0.2 idle idle 3:1:2:3 1:1 2:2:3 on"
    );
    Ok(())
}

#[test]
fn a_timeout_runs_out_once(rt: HostRuntime) -> Result<(), Fail> {
    let first = [plain(timeout(6, 0), 0, 51), plain(timeout(4, 0), 0, 52)];
    let words = "f t1 l0 l1 t4 t5 t2 t9 p w r0 r1";
    let told = play(&rt, &[2], 2, (&first, &[]), words, 8)?;
    assert_eq!(rt;
        told.as_str(),
        "0.0 moved armed7 armed5 moved moved+0.1 still moved+0.0 idle idle -62 -62 past"
    );
    Ok(())
}

/// The clock stands still. The first NOP isn't counted, since it came before.
#[test]
fn a_timeout_is_answered_once_it_has_counted(rt: HostRuntime) -> Result<(), Fail> {
    let first = [
        plain(nop(), 0, 41),
        plain(timeout_count(100, 2, 0), 0, 42),
        plain(nop(), 0, 43),
        plain(nop(), 0, 44),
    ];
    let words = "f p l1 w p w p w p p r1 r3";
    let told = play(&rt, &[4], 4, (&first, &[]), words, 0)?;
    assert_eq!(rt;
        told.as_str(),
        "0.0 moved armed100 moved+0.0 still moved+0.2 still moved+0.3 moved+0.1 idle 0 0 on"
    );
    Ok(())
}

#[test]
fn a_clock_goes_on_once_a_timer_is_armed(rt: HostRuntime) -> Result<(), Fail> {
    let first = [plain(nop(), LINK, 61), plain(timeout(8, 0), 0, 62)];
    let words = "f a1 a1 l1 w a1 l1 a1 a1 r1";
    let told = play(&rt, &[2], 2, (&first, &[]), words, 7)?;
    assert_eq!(rt;
        told.as_str(),
        "0.0 moved still held moved+0.0 moved armed8 moved+0.1 idle -62 past"
    );
    Ok(())
}

/// What is linked is severed, and the number of the READ is dropped.
#[test]
fn a_link_timeout_fires_at_its_target(rt: HostRuntime) -> Result<(), Fail> {
    let first = [
        reads(2, LINK, 71, 30),
        plain(link_timeout(5), LINK, 72),
        plain(nop(), 0, 73),
    ];
    let words = "f p w t4 t5 p p w w r0 r1 r2";
    let told = play(&rt, &[4], 4, (&first, &[]), words, 5)?;
    assert_eq!(rt;
        told.as_str(),
        "0.0 moved moved moved moved+0.0+0.1 moved+0.2 idle idle idle -125:30:31 -62 -125 on"
    );
    Ok(())
}

/// The clock comes to the deadline, but the target has replied.
#[test]
fn a_link_timeout_is_settled_after_its_target(rt: HostRuntime) -> Result<(), Fail> {
    let first = [
        writes(3, LINK, 81, 4),
        plain(link_timeout(5), LINK, 82),
        reads(4, 0, 83, 10),
    ];
    let words = "f p l1 w t5 p w p r0 r1 r2";
    let told = play(&rt, &[4], 4, (&first, &[]), words, 4)?;
    assert_eq!(rt;
        told.as_str(),
        "0.0 moved armed5 moved+0.0 moved+0.1 moved moved+0.2 idle 3:4:5:6 -125 3:4:5:6:13 past"
    );
    Ok(())
}

#[test]
fn a_drain_and_a_chain_go_on_one_by_one(rt: HostRuntime) -> Result<(), Fail> {
    let first = [
        reads(6, 0, 91, 20),
        plain(nop(), DRAIN, 92),
        writes(1, LINK, 93, 8),
        plain(nop(), 0, 94),
    ];
    let second = [writes(4, 0, 95, 40)];
    let words = "f p l0 l1 o p w w w l1 p w l2 p w l3 p w p r0 r2";
    let told = play(&rt, &[4, 2], 8, (&first, &second), words, 0)?;
    assert_eq!(rt;
        told.as_str(),
        "0.0 moved ready held 1.0 moved moved moved+1.0 moved+0.0 held moved moved+0.1 held moved moved+0.2 held moved moved+0.3 idle 4:40:41:42:43:24:25 1:8 on"
    );
    Ok(())
}

#[test]
fn what_follows_a_canceled_member_is_severed(rt: HostRuntime) -> Result<(), Fail> {
    let first = [
        reads(3, LINK, 11, 60),
        writes(2, LINK, 12, 1),
        plain(nop(), 0, 13),
        plain(cancel(11), 0, 14),
    ];
    let words = "f p w w p p r0 r1 r2 r3";
    let told = play(&rt, &[4], 4, (&first, &[]), words, 0)?;
    assert_eq!(rt;
        told.as_str(),
        "0.0 moved moved moved+0.0+0.3 moved+0.1+0.2 idle -125:60:61:62 -125:1:2 -125 0 on"
    );
    Ok(())
}

/// Where the outbox has a place for one answer alone.
#[test]
fn a_timeout_runs_out_on_a_board_of_one_cell(rt: HostRuntime) -> Result<(), Fail> {
    let at_once = [plain(timeout(0, 0), 0, 61)];
    let told = play(&rt, &[1], 1, (&at_once, &[]), "f p p r0", 0)?;
    assert_eq!(rt; told.as_str(), "0.0 moved+0.0 idle -62 on");
    let later = [plain(timeout(3, ETIME_SUCCESS), 0, 62)];
    let words = "f t1 l0 t3 t4 p r0";
    let told = play(&rt, &[1], 1, (&later, &[]), words, 0)?;
    assert_eq!(rt;
        told.as_str(),
        "0.0 moved armed4 moved moved+0.0 idle -62 past"
    );
    let counted = [plain(timeout_count(2, 1, 0), 0, 63)];
    let told = play(&rt, &[1], 1, (&counted, &[]), "f p t2 p r0", 0)?;
    assert_eq!(rt; told.as_str(), "0.0 moved moved+0.0 idle -62 past");
    Ok(())
}

#[test]
fn each_timer_ends_on_a_board_of_two_cells(rt: HostRuntime) -> Result<(), Fail> {
    let fires = [reads(4, LINK, 71, 90), plain(link_timeout(3), 0, 72)];
    let words = "f p l1 t2 t3 p r0 r1";
    let told = play(&rt, &[2], 2, (&fires, &[]), words, 0)?;
    assert_eq!(rt;
        told.as_str(),
        "0.0 moved armed3 moved moved+0.0+0.1 idle -125:90:91:92:93 -62 past"
    );
    let settled = [writes(2, LINK, 73, 1), plain(link_timeout(9), 0, 74)];
    let told = play(&rt, &[2], 2, (&settled, &[]), "f p w p r0 r1", 0)?;
    assert_eq!(rt;
        told.as_str(),
        "0.0 moved moved+0.0 moved+0.1 2:1:2 -125 on"
    );
    let removed = [
        plain(timeout(9, 0), 0, 75),
        plain(timeout_remove(75), 0, 76),
    ];
    let told = play(&rt, &[2], 2, (&removed, &[]), "f p w p p r0 r1", 0)?;
    assert_eq!(rt;
        told.as_str(),
        "0.0 moved moved+0.0+0.1 moved idle -125 0 on"
    );
    let counted = [plain(timeout_count(100, 1, 0), 0, 77), plain(nop(), 0, 78)];
    let told = play(&rt, &[2], 2, (&counted, &[]), "f p w p p r0 r1", 0)?;
    assert_eq!(rt; told.as_str(), "0.0 moved moved+0.1 moved+0.0 idle 0 0 on");
    Ok(())
}
