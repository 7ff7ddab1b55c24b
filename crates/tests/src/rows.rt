//! Rows by the rules of chains, drains and link timeouts, at their limits.
ghost use Rattle.std.specs.Prelude.{◌≡◌, ◌+◌, ◌^◌, ◌<◌, ◌≤◌};
ghost use Rattle.gates.specs.EntryRows.{added};

use entry::Sqe;
use gates::{Asked, Gate, Row, RowFull, Traits};
use std::process::Abort;
use std::test::Fail;

const DRAIN: u8 = 2;

const LINK: u8 = 4;

const HARD: u8 = 8;

fn entry_of(opcode: u8, fd: i32, addr: u64, len: u32, flags: u8) -> Sqe {
    let columns = entry::Fields {
        opcode,
        fd,
        off: 0,
        addr,
        len,
        word: 0,
        splice_fd_in: 0,
    };
    Sqe::of_row(columns, flags, 0)
}

fn nop(flags: u8) -> Sqe {
    entry_of(0, -1, 0, 0, flags)
}

fn read(flags: u8) -> Sqe {
    entry_of(22, 0, 0, 4, flags)
}

fn link_timeout(flags: u8) -> Sqe {
    entry_of(15, -1, 5, 1, flags)
}

fn invalid(flags: u8) -> Sqe {
    entry_of(255, 0, 0, 0, flags)
}

/// Adds an entry, for which there is room.
fn put(rt: &impl Abort, row: &mut Row, sqe: Sqe, last: bool) -> u64
    requires { (row.old.lost ≡ 0) × (added row.old < row.old.size) × (row.old.size ≤ 8) }
    ensures { (row.new.lost ≡ 0) × (added row.new ≡ added row.old + 1) × (row.new.size ≡ row.old.size) }
{
    match row.add(sqe, last) {
        Ok(k) => k,
        Err(RowFull) => panic!(rt; "the row is full"),
    }
}

/// Adds an entry with these traits, for which there is room.
fn put_traits(rt: &impl Abort, row: &mut Row, traits: Traits, last: bool) -> u64
    requires { (row.old.lost ≡ 0) × (added row.old < row.old.size) × (row.old.size ≤ 8) }
    ensures { (row.new.lost ≡ 0) × (added row.new ≡ added row.old + 1) × (row.new.size ≡ row.old.size) }
{
    match row.add_traits(traits, last) {
        Ok(k) => k,
        Err(RowFull) => panic!(rt; "the row is full"),
    }
}

/// Nothing can be added.
fn refuse(rt: &impl Abort, row: &mut Row)
    requires { added row.old < 2 ^ 32 }
    ensures { row.new ≡ row.old }
{
    match row.add(nop(0), true) {
        Ok(_) => panic!(rt; "there was room"),
        Err(RowFull) => {}
    }
}

#[test]
fn a_soft_chain_goes_on_until_a_reply_fails(rt: HostRuntime) -> Result<(), Fail> {
    let mut row = Row::new(rt.alloc(), 4)?;
    let first = put(&rt, &mut row, nop(LINK), false);
    assert_eq!(rt; first, 0);
    put(&rt, &mut row, read(LINK), false);
    put(&rt, &mut row, nop(0), true);
    assert_eq!(rt; row.open(0), Gate::Open);
    assert_eq!(rt; row.open(1), Gate::Shut);
    assert_eq!(rt; row.open(2), Gate::Shut);
    row.replied(0, false);
    assert_eq!(rt; row.open(1), Gate::Open);
    assert_eq!(rt; row.open(2), Gate::Shut);
    row.replied(1, true);
    assert_eq!(rt; row.open(2), Gate::Severed);
    Ok(())
}

#[test]
fn severing_passes_hard_members(rt: HostRuntime) -> Result<(), Fail> {
    let mut row = Row::new(rt.alloc(), 4)?;
    put(&rt, &mut row, read(LINK), false);
    put(&rt, &mut row, nop(HARD), false);
    put(&rt, &mut row, nop(0), false);
    row.replied(0, true);
    assert_eq!(rt; row.open(1), Gate::Severed);
    assert_eq!(rt; row.open(2), Gate::Severed);
    Ok(())
}

#[test]
fn a_hard_link_severs_after_an_invalid_member_alone(rt: HostRuntime) -> Result<(), Fail> {
    let mut row = Row::new(rt.alloc(), 4)?;
    put(&rt, &mut row, read(HARD), false);
    put(&rt, &mut row, nop(0), true);
    put(&rt, &mut row, invalid(HARD), false);
    put(&rt, &mut row, nop(0), true);
    row.replied(0, true);
    row.replied(2, true);
    assert_eq!(rt; row.open(1), Gate::Open);
    assert_eq!(rt; row.open(3), Gate::Severed);
    Ok(())
}

#[test]
fn the_last_entry_of_a_batch_ends_its_chain(rt: HostRuntime) -> Result<(), Fail> {
    let mut row = Row::new(rt.alloc(), 2)?;
    put(&rt, &mut row, read(LINK), true);
    put(&rt, &mut row, nop(0), true);
    assert_eq!(rt; row.open(1), Gate::Open);
    Ok(())
}

#[test]
fn a_member_that_was_cancelled_early_holds_nobody_up(rt: HostRuntime) -> Result<(), Fail> {
    let mut row = Row::new(rt.alloc(), 4)?;
    put(&rt, &mut row, nop(HARD), false);
    put(&rt, &mut row, nop(HARD), false);
    put(&rt, &mut row, nop(HARD), false);
    put(&rt, &mut row, nop(0), true);
    row.replied(1, true);
    assert_eq!(rt; row.open(3), Gate::Shut);
    row.replied(0, false);
    assert_eq!(rt; row.open(2), Gate::Open);
    assert_eq!(rt; row.open(3), Gate::Shut);
    Ok(())
}

#[test]
fn a_drain_waits_for_all_and_holds_back_all(rt: HostRuntime) -> Result<(), Fail> {
    let mut row = Row::new(rt.alloc(), 4)?;
    put(&rt, &mut row, nop(0), true);
    put(&rt, &mut row, nop(0), true);
    put(&rt, &mut row, nop(DRAIN), true);
    put(&rt, &mut row, nop(0), true);
    row.replied(1, false);
    assert_eq!(rt; row.open(0), Gate::Open);
    assert_eq!(rt; row.open(2), Gate::Shut);
    assert_eq!(rt; row.open(3), Gate::Shut);
    row.replied(0, false);
    assert_eq!(rt; row.open(2), Gate::Open);
    assert_eq!(rt; row.open(3), Gate::Shut);
    row.replied(2, true);
    assert_eq!(rt; row.open(3), Gate::Open);
    Ok(())
}

#[test]
fn a_link_timeout_is_open_where_its_target_is(rt: HostRuntime) -> Result<(), Fail> {
    let mut row = Row::new(rt.alloc(), 8)?;
    put(&rt, &mut row, nop(LINK), false);
    put(&rt, &mut row, read(LINK), false);
    put(&rt, &mut row, link_timeout(LINK), false);
    put(&rt, &mut row, link_timeout(0), true);
    put(&rt, &mut row, link_timeout(0), true);
    assert_eq!(rt; row.target_of(1), None);
    assert_eq!(rt; row.target_of(2), Some(1));
    assert_eq!(rt; row.target_of(3), None);
    assert_eq!(rt; row.target_of(4), None);
    assert_eq!(rt; row.open(2), Gate::Shut);
    row.replied(0, false);
    assert_eq!(rt; row.open(1), Gate::Open);
    assert_eq!(rt; row.open(2), Gate::Open);
    assert_eq!(rt; row.open(3), Gate::Shut);
    Ok(())
}

#[test]
fn a_cell_is_free_once_its_chain_has_replied(rt: HostRuntime) -> Result<(), Fail> {
    let mut row = Row::new(rt.alloc(), 2)?;
    put(&rt, &mut row, nop(LINK), false);
    put(&rt, &mut row, nop(0), true);
    refuse(&rt, &mut row);
    row.replied(0, false);
    refuse(&rt, &mut row);
    row.replied(1, false);
    let Ok(third) = row.add(nop(0), true) else {
        panic!(rt; "the row is full")
    };
    assert_eq!(rt; third, 2);
    assert_eq!(rt; row.open(third), Gate::Open);
    Ok(())
}

#[test]
fn a_row_that_trails_names_who_is_to_be_looked_at(rt: HostRuntime) -> Result<(), Fail> {
    let mut row = Row::new(rt.alloc(), 4)?;
    put(&rt, &mut row, nop(LINK), false);
    put(&rt, &mut row, read(LINK), false);
    put(&rt, &mut row, link_timeout(0), true);
    put(&rt, &mut row, nop(DRAIN), true);
    assert_eq!(rt; row.ask(0), Asked::Open);
    assert_eq!(rt; row.ask(1), Asked::Blocked(0, Some(0)));
    assert_eq!(rt; row.ask(2), Asked::Blocked(0, Some(1)));
    assert_eq!(rt; row.ask(3), Asked::Blocked(0, None));
    row.replied(0, false);
    assert_eq!(rt; row.ask(1), Asked::Open);
    assert_eq!(rt; row.ask(2), Asked::OpenWith(1));
    assert_eq!(rt; row.ask(3), Asked::Blocked(1, None));
    row.replied(1, true);
    assert_eq!(rt; row.ask(2), Asked::Severed);
    assert_eq!(rt; row.ask(3), Asked::Blocked(2, None));
    Ok(())
}

#[test]
fn the_chain_of_the_first_request_is_in_the_way(rt: HostRuntime) -> Result<(), Fail> {
    let mut row = Row::new(rt.alloc(), 3)?;
    let linked = Traits::of(&read(LINK));
    let alone = Traits::of(&nop(0));
    assert_eq!(rt; row.in_the_way(), None);
    assert_eq!(rt; row.count(), 0);
    put_traits(&rt, &mut row, linked, false);
    put_traits(&rt, &mut row, alone, true);
    let third = put_traits(&rt, &mut row, alone, true);
    assert_eq!(rt; third, 2);
    assert_eq!(rt; row.in_the_way(), Some(0));
    row.replied(0, false);
    assert_eq!(rt; row.in_the_way(), Some(1));
    row.replied(1, false);
    assert_eq!(rt; row.in_the_way(), None);
    assert_eq!(rt; row.ask(2), Asked::Open);
    assert_eq!(rt; row.add_stand_in(), Ok(3));
    assert_eq!(rt; row.count(), 4);
    assert_eq!(rt; row.in_the_way(), None);
    Ok(())
}

#[test]
fn a_row_whose_first_chain_has_not_replied_is_full(rt: HostRuntime) -> Result<(), Fail> {
    let mut row = Row::new(rt.alloc(), 1)?;
    put(&rt, &mut row, read(0), true);
    assert_eq!(rt; row.add_stand_in(), Err(RowFull));
    assert_eq!(rt; row.add_traits(Traits::of(&nop(0)), true), Err(RowFull));
    Ok(())
}
