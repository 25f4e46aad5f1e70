//! The order in which pairs come out of a queue of levels.

use crate::agree::same;
use drain_grid::OutOfMemory;
use drain_maker::LevelQueue;
use std::alloc::Global;
use std::test::Fail;
use worked::memory::owed;

/// The first five that come out.
type FirstFive = [Option<(i16, u32)>; 5];

/// The first five that come out of an empty queue, after these pairs were put in; none if an item is put in twice, or
/// is beyond the cells.
fn come_out(mut queue: LevelQueue, pushed: &[(i16, u32)]) -> Option<FirstFive> {
    for (level, item) in pushed.iter() {
        if (*item as usize) < queue.cells() && !queue.holds(*item) {
            queue.push(*level, *item);
        } else {
            return None;
        }
    }
    Some([
        queue.pop(),
        queue.pop(),
        queue.pop(),
        queue.pop(),
        queue.pop(),
    ])
}

/// The first five that come out of a queue of this number of cells, after these pairs were put in.
fn popped(alloc: Global, cells: u8, pushed: &[(i16, u32)]) -> Result<FirstFive, Fail> {
    let queue = LevelQueue::new(alloc, usize::from(cells))?;
    match come_out(queue, pushed) {
        Some(first) => Ok(first),
        None => Err("an item twice, or beyond the cells".into()),
    }
}

/// The greatest level, and the least.
static ENDS: [(i16, u32); 2] = [(32767, 0), (-32768, 1)];

/// Four pairs, and the order in which they come out.
static FOUR: [(i16, u32); 4] = [(5, 0), (3, 1), (5, 2), (3, 3)];

const IN_ORDER: FirstFive = [Some((3, 1)), Some((3, 3)), Some((5, 0)), Some((5, 2)), None];

#[test]
fn takes_out_by_level_and_then_by_time(rt: HostRuntime) -> Result<(), Fail> {
    let four = popped(rt.alloc(), 4, &FOUR)?;
    same(&rt, "four", four, IN_ORDER);
    let ends = popped(rt.alloc(), 2, &ENDS)?;
    let ordered = [Some((-32768, 1)), Some((32767, 0)), None, None, None];
    same(&rt, "ends", ends, ordered);
    same(&rt, "no cells", popped(rt.alloc(), 0, &[])?, [None; 5]);
    Ok(())
}

/// The contents of a queue of three cells after the item 2 went in, and what comes out.
type Holds = (bool, bool, bool, Option<(i16, u32)>);

/// What comes out after the item 2 went in again, and whether it is in the queue then.
type Last = (Option<(i16, u32)>, Option<(i16, u32)>, bool);

/// The results for a queue of three cells into which the item 2 goes twice.
fn put_in_twice(alloc: Global) -> Result<(Holds, Last), OutOfMemory> {
    let mut queue = LevelQueue::new(alloc, 3)?;
    queue.push(7, 2);
    let held = (queue.holds(2), queue.holds(1), queue.holds(3), queue.pop());
    if !queue.holds(2) {
        queue.push(-7, 2);
    }
    Ok((held, (queue.pop(), queue.pop(), queue.holds(2))))
}

/// An item that came out can go in again, and below the current level.
#[test]
fn takes_items_in_again(rt: HostRuntime) -> Result<(), Fail> {
    let (held, last) = put_in_twice(rt.alloc())?;
    same(&rt, "held", held, (true, false, false, Some((7, 2))));
    same(&rt, "in again", last, (Some((-7, 2)), None, false));
    Ok(())
}

/// What comes out of a queue of four cells.
fn four_popped(alloc: Global) -> Result<Option<FirstFive>, OutOfMemory> {
    let queue = LevelQueue::new(alloc, 4)?;
    Ok(come_out(queue, &FOUR))
}

/// Normally memory is there; `tests/refuse_memory.c` refuses it.
#[test]
fn a_queue_after_refused_memory(rt: HostRuntime) -> Result<(), Fail> {
    let right = Ok(Some(IN_ORDER));
    let first = four_popped(rt.alloc());
    let expected = owed(rt.alloc(), Err(OutOfMemory), right);
    same(&rt, "first", first, expected);
    same(&rt, "again", four_popped(rt.alloc()), right);
    Ok(())
}
