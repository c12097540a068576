//! The feeds of workers.

use crossbeam_channel::{Receiver, Sender};
use std::alloc::{AllocError, Global};
use std::sync::Wait;
use world::Feed;

/// An item in the channel from which workers are fed.
#[derive(Clone, Copy, PartialEq, Eq, Debug)]
pub enum Item {
    /// A message of the outside.
    Feed(Feed),
    /// The worker that takes this gets no more feeds.
    Last,
}

/// The next feed, or `None` if this was the last item or the channel is closed.
pub(crate) fn next_feed(rt: &impl Wait, items: &Receiver<Item>) -> Option<Feed> {
    match items.recv(rt) {
        Ok(Item::Feed(feed)) => Some(feed),
        _ => None,
    }
}

/// A channel with each of the feeds, and after them a last item for each worker.
pub(crate) fn channel_of(
    rt: &impl Wait,
    alloc: Global,
    feeds: &[Feed],
    workers: u8,
) -> Result<(Sender<Item>, Receiver<Item>), AllocError> {
    let (to, items) = crossbeam_channel::unbounded(alloc)?;
    for feed in feeds {
        if to.send(rt, Item::Feed(*feed)).is_err() {
            return Err(AllocError);
        }
    }
    for _ in 0..workers {
        if to.send(rt, Item::Last).is_err() {
            return Err(AllocError);
        }
    }
    Ok((to, items))
}
