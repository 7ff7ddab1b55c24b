//! A small program over clients. Ring 0 submits a WRITE into a pipe and a READ that is linked to it, and ring 1 a TIMEOUT. Their
//! clients wait for the completions, and the runtime is ended.
#![tactic(auto)]

ghost use Rattle.std.specs.Prelude.{◌≡◌, None, map};
ghost use Rattle.runtime.specs.{AreClients};

use anyhow::{Result, bail};
use board::{Completion, Phase, RingShape, Shape};
use controls::{Clock, Open};
use entry::Sqe;
use history::Req;
use prep::{read, timeout, with_flags, with_user_data, write};
use runtime::{Client, Runtime, join_all, start};
use std::alloc::{AllocError, Global};
use std::sync::Wait;
use std::thread::Threads;
use std::{io, str};

/// IOSQE_IO_LINK.
const LINK: u8 = 4;

/// A clock that advances by one tick at each turn of the poller.
#[derive(Clone, Copy)]
struct Ticking;

impl Clock for Ticking {
    ghost asked = { λ _. None };

    ghost stays = { λ _ _ _ _ _ _ _. tt };

    fn ask(&self) -> Option<Req> {
        None
    }

    fn advance(&mut self, now: u32, _phase: Option<Phase>) -> Option<u32> {
        now.checked_add(1)
    }
}

/// Two rings of 4 cells, a pipe of 16 bytes, and two workers.
fn shape_of(alloc: Global) -> Result<Shape, AllocError> {
    let ring = RingShape {
        cells: 4,
        posts: None,
    };
    Ok(Shape {
        rings: Vec::from_elem(alloc, ring, 2)?,
        pipes: Vec::from_elem(alloc, 16u32, 1)?,
        workers: 2,
    })
}

/// Submits the entries, each with its buffer, as one batch.
fn submit(client: &mut Client, batch: Vec<(Sqe, Vec<u8>)>) -> Result<()>
    ensures { client.new.board ≡ client.old.board }
{
    match client.submit_batch(batch) {
        Ok(_first) => Ok(()),
        Err((error, _batch)) => Err(error.into()),
    }
}

/// Submits a WRITE of `hello` into the pipe, and a READ of it that is linked to the WRITE.
fn submit_hello(alloc: Global, client: &mut Client) -> Result<()>
    ensures { client.new.board ≡ client.old.board }
{
    let hello = with_user_data(with_flags(write(1, 5, 0), LINK), 10);
    let answer = with_user_data(read(0, 8, 0), 11);
    let mut batch = Vec::new(alloc);
    batch.push((hello, Vec::from_slice(alloc, b"hello")?))?;
    batch.push((answer, Vec::from_elem(alloc, 0, 8)?))?;
    submit(client, batch)
}

/// Submits a TIMEOUT of 3 ticks.
fn submit_timeout(alloc: Global, client: &mut Client) -> Result<()>
    ensures { client.new.board ≡ client.old.board }
{
    let mut batch = Vec::new(alloc);
    batch.push((with_user_data(timeout(3, 0), 20), Vec::new(alloc)))?;
    submit(client, batch)
}

/// Waits for two completions, and gives them in the order of submission.
fn next_two<R: Wait>(rt: &R, client: &mut Client) -> (Completion, Completion)
    ensures { client.new.board ≡ client.old.board }
{
    let (first, second) = (client.wait(rt), client.wait(rt));
    if first.req.k < second.req.k {
        (first, second)
    } else {
        (second, first)
    }
}

/// Prints a completion, and the bytes that went through the pipe.
fn show<R: Print>(rt: &R, completion: &Completion) -> io::Result<()> {
    let (user_data, res) = (completion.cqe.user_data, completion.cqe.res);
    let count = usize::try_from(res).unwrap_or(0);
    let bytes = completion.buffer.get(..count).unwrap_or(&[]);
    let text = str::from_utf8(bytes).unwrap_or("");
    println!(rt; "{user_data}: {res} {text:?}")
}

/// Submits the requests of both rings, waits for their completions, and prints them.
fn serve<R: Wait + Print>(rt: &R, alloc: Global, zero: &mut Client, one: &mut Client) -> Result<()>
    ensures zero { zero.new.board ≡ zero.old.board }
    ensures one { one.new.board ≡ one.old.board }
{
    submit_hello(alloc, zero)?;
    submit_timeout(alloc, one)?;
    let (write, read) = next_two(rt, zero);
    let timeout = one.wait(rt);
    for completion in [write, read, timeout] {
        show(rt, &completion)?;
    }
    Ok(())
}

/// Serves the first two of these clients, which are those of ring 0 and ring 1.
fn serve_two<R: Wait + Print>(rt: &R, alloc: Global, clients: &mut Vec<Client>) -> Result<()>
    ensures { map (λ c. c.board) clients.new.items ≡ map (λ c. c.board) clients.old.items }
{
    let Some((zero, rest)) = clients.split_first_mut() else {
        bail!("no client is there");
    };
    let Some(one) = rest.first_mut() else {
        bail!("the client of ring 1 is missing");
    };
    serve(rt, alloc, zero, one)
}

/// Ends the runtime of these clients. How many requests were left over.
fn end<R: Threads + Wait>(
    rt: &R,
    alloc: Global,
    runtime: Runtime<Ticking>,
    clients: Vec<Client>,
) -> Result<usize>
    requires { AreClients runtime.board clients.items }
{
    match join_all(rt, alloc, runtime, clients) {
        Ok(report) => Ok(report.lines().len()),
        Err(unjoined) => Err(unjoined.abandon(rt).into()),
    }
}

fn main(rt: HostRuntime) -> Result<()> {
    let alloc = rt.alloc();
    let shape = shape_of(alloc)?;
    let (runtime, mut clients) = start(rt, alloc, &shape, 64, Open, Ticking)?;
    let served = serve_two(&rt, alloc, &mut clients);
    let left = end(&rt, alloc, runtime, clients)?;
    served?;
    println!(rt; "left: {left}")?;
    Ok(())
}
