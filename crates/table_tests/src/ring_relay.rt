//! Items that go through a ring from one thread to another.
ghost use Rattle.std.specs.Prelude.{◌≡◌, ◌≤◌, [], ◌∷◌, ◌++◌, length, vec_len, vec_capacity, IfOk};

use anyhow::{Result, ensure};
use gate_io::NoMemory;
use ring_links::{Full, Head, Ring, Tail, ring};
use std::alloc::Global;
use std::sync::Wait;
use std::thread;
use std::thread::Threads;

// Pushes an item, and tries again while the ring is full.
fn send<T, R: Wait>(rt: &R, ring: &Ring<T>, tail: &mut Tail<T>, mut item: T)
    requires { tail.old.ring ≡ ring.now }
    ensures ring { tail.new.ring ≡ tail.old.ring }
    ensures pushed { tail.new.pushed ≡ tail.old.pushed ++ item ∷ [] }
{
    for _ in rt.forever() {
        let Err(full) = ring.push(tail, item) else {
            return;
        };
        let Full {
            item: back,
            pushed: _,
            taken: _,
        } = full;
        item = back;
        thread::yield_now();
    }
    unreachable!()
}

// Pops an item, and tries again while there is none.
fn receive<T, R: Wait>(rt: &R, ring: &Ring<T>, head: &mut Head<T>) -> T
    requires { head.old.ring ≡ ring.now }
    ensures ring { head.new.ring ≡ head.old.ring }
    ensures popped { head.new.popped ≡ head.old.popped ++ result ∷ [] }
{
    for _ in rt.forever() {
        if let Some(item) = ring.pop(head) {
            return item;
        }
        thread::yield_now();
    }
    unreachable!()
}

fn send_all<T: Drop, R: Wait>(rt: &R, ring: &Ring<T>, mut tail: Tail<T>, items: Vec<T>) -> Tail<T>
    requires { tail.ring ≡ ring.now }
    ensures ring { result.ring ≡ ring.now }
    ensures pushed { result.pushed ≡ tail.pushed ++ items.items }
{
    for item in items {
        send(rt, ring, &mut tail, item);
    }
    tail
}

// Receives as many items as the vector has room for.
fn receive_all<T, R: Wait>(
    rt: &R,
    ring: &Ring<T>,
    mut head: Head<T>,
    mut items: Vec<T>,
    count: usize,
) -> (Head<T>, Vec<T>)
    requires ring { head.ring ≡ ring.now }
    requires room { (items.items ≡ []) × (count ≤ vec_capacity items) }
    ensures ring { result.0.ring ≡ ring.now }
    ensures popped { result.0.popped ≡ head.popped ++ result.1.items }
    ensures count { vec_len result.1 ≡ count }
{
    for _ in 0..count {
        items.push_reserved(receive(rt, ring, &mut head));
    }
    (head, items)
}

// Sends the items from one thread to another, through a ring with room for four.
fn relay<T: Send + Drop, R: Threads + Wait + Sync>(
    rt: &R,
    alloc: Global,
    items: Vec<T>,
) -> Result<Vec<T>, NoMemory>
    ensures { IfOk result (λ got. got.items ≡ items.items) }
{
    let count = items.len();
    let got = Vec::with_capacity(alloc, count)?;
    let (ring, tail, head) = ring(alloc, 4)?;
    let link = &ring;
    let (mut tail, (mut head, got)) = thread::join(
        rt,
        move || -> Tail<T>
            requires { tail.ring ≡ link.now }
            ensures { (result.ring ≡ link.entry.now) × (result.pushed ≡ tail.pushed ++ items.items) }
        { send_all(rt, link, tail, items) },
        move || -> (Head<T>, Vec<T>)
            requires { (head.ring ≡ link.now) × (got.items ≡ []) × (count ≤ vec_capacity got) }
            ensures { (result.0.ring ≡ link.entry.now) × (result.0.popped ≡ head.popped ++ result.1.items) × (vec_len result.1 ≡ count) }
        { receive_all(rt, link, head, got, count) },
    );
    ring.meet(&mut tail, &mut head);
    Ok(got)
}

// How many items are sent.
const ITEMS: u64 = 10_000;

/// Numbers arrive in order.
pub(crate) fn relay_numbers<R: Threads + Wait + Sync>(rt: &R, alloc: Global) -> Result<()> {
    let mut numbers = Vec::new(alloc);
    for number in 0..ITEMS {
        numbers.push(number)?;
    }
    let got = relay(rt, alloc, numbers)?;
    ensure!(got.len() == 10_000);
    ensure!(
        got.iter()
            .enumerate()
            .all(|(i, number)| i as u64 == *number)
    );
    Ok(())
}

/// Items that own memory arrive in order.
pub(crate) fn relay_boxes<R: Threads + Wait + Sync>(rt: &R, alloc: Global) -> Result<()> {
    let mut boxes = Vec::new(alloc);
    for number in 0..ITEMS {
        boxes.push(Box::new(alloc, number)?)?;
    }
    let got = relay(rt, alloc, boxes)?;
    ensure!(got.len() == 10_000);
    ensure!(
        got.iter()
            .enumerate()
            .all(|(i, number)| i as u64 == **number)
    );
    Ok(())
}
