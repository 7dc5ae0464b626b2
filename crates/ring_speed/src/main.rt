//! Moves numbers from one thread to another through a ring of 256, and checks that they come in
//! order. With an argument it moves as many numbers as that says, and prints how many
//! nanoseconds it took.
//!
//! Stands on `ring_links` (the ring, which is measured) and `anyhow` (errors). Told in docs/threads.md.
#![tactic(auto)]

ghost use Rattle.std.specs.Prelude.{◌≡◌};

use anyhow::bail;
use ring_links::{Full, Head, Ring, Tail, ring};
use std::sync::Wait;
use std::time::Instant;
use std::{env, thread};

const FEW: u64 = 100_000;

// Pushes the numbers below the count, and tries again while the ring is full.
fn send<R: Wait>(rt: &R, ring: &Ring<u64>, mut tail: Tail<u64>, count: u64)
    requires { tail.ring ≡ ring.now }
{
    let mut number = 0;
    for _ in rt.forever() {
        if number == count {
            break;
        }
        match ring.push(&mut tail, number) {
            Ok(()) => number += 1,
            Err(Full { .. }) => thread::yield_now(),
        }
    }
}

// Pops as many numbers, and says whether they came in order.
fn receive<R: Wait>(rt: &R, ring: &Ring<u64>, mut head: Head<u64>, count: u64) -> bool
    requires { head.ring ≡ ring.now }
{
    let mut number = 0;
    for _ in rt.forever() {
        if number == count {
            return true;
        }
        match ring.pop(&mut head) {
            Some(found) if found == number => number += 1,
            Some(_) => return false,
            None => thread::yield_now(),
        }
    }
    unreachable!()
}

fn main(rt: HostRuntime) -> Result<(), anyhow::Error> {
    let asked = match env::args(&rt)?.nth(1) {
        Some(word) => Some(word.as_str().parse::<u64>()?),
        None => None,
    };
    let count = asked.unwrap_or(FEW);
    let (ring, tail, head) = ring(rt.alloc(), 256)?;
    let link = &ring;
    let start = Instant::now(&rt)?;
    let ((), in_order) = thread::join(
        &rt,
        move ||
            requires { tail.ring ≡ link.now }
        { send(&rt, link, tail, count) },
        move || -> bool
            requires { head.ring ≡ link.now }
        { receive(&rt, link, head, count) },
    );
    let taken = start.elapsed(&rt)?;
    if !in_order {
        bail!("the numbers came in another order");
    }
    match asked {
        Some(_) => println!(rt; "{}", taken.as_nanos())?,
        None => println!(rt; "{count} numbers came in order")?,
    }
    Ok(())
}
