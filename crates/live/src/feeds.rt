//! The messages that a scenario hands in.

ghost use Rattle.std.specs.Prelude.{◌≡◌, ◌+◌, IfOk, OnOk, length};
ghost use Rattle.live.specs.Inside.{feed_of, feeds_of, with_feed};

use results::payload_of;
use scenario::{Order, Step};
use std::alloc::{AllocError, Global};
use world::Feed;

/// The message that an order hands in, with this number.
fn feed_of(order: &Order, number: u32) -> Option<Feed>
    ensures { result ≡ feed_of number order.now }
{
    match *order {
        Order::Input { to, word } => Some(Feed {
            number,
            dst: to,
            payload: payload_of(word),
        }),
        Order::Bytes { to, payload } => Some(Feed {
            number,
            dst: to,
            payload,
        }),
        _ => None,
    }
}

/// Appends the message that an order hands in, with the next number. After 2^32 - 1 it answers that memory ran out.
fn push_feed(feeds: &mut Vec<Feed>, order: &Order) -> Result<(), AllocError>
    ensures { OnOk result (feeds.new.items ≡ with_feed feeds.old.items (feed_of (length feeds.old.items + 1) order.now)) }
{
    let Ok(count) = u32::try_from(feeds.len()) else {
        return Err(AllocError);
    };
    let Some(number) = count.checked_add(1) else {
        return Err(AllocError);
    };
    if let Some(feed) = feed_of(order, number) {
        feeds.push(feed)?;
    }
    Ok(())
}

/// The messages that the steps hand in, numbered from 1 in their order.
pub(crate) fn feeds_of(alloc: Global, steps: &[Step]) -> Result<Vec<Feed>, AllocError>
    ensures { IfOk result (λ feeds. feeds.items ≡ feeds_of steps.now) }
{
    let mut feeds = Vec::new(alloc);
    for step in steps {
        push_feed(&mut feeds, &step.order)?;
    }
    Ok(feeds)
}
