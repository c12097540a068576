//! How a run begins.

ghost use Rattle.std.specs.Prelude.{◌≡◌, IfOk, None, map, replicate};
ghost use Rattle.interp.specs.Image.{image_in};
ghost use Rattle.machine.specs.Openings.{AreFew};
ghost use Rattle.world.specs.declared.refusal.Refusal.TheVariants.{Memory};
ghost use Rattle.runner.specs.Orders.{beginning};
ghost use Rattle.runner.specs.Inside.{position_of};

use crate::player::Player;
use interp::Handler;
use limits::PARTIES;
use sessions::{Job, Service};
use std::alloc::{AllocError, Global};
use std::sync::Arc;
use world::Refusal;

/// The error of a refusal that tells that memory ran out.
fn want_of_memory(refusal: Refusal) -> AllocError
    requires { refusal ≡ Memory }
{
    match refusal {
        Refusal::Memory => AllocError,
        _ => unreachable!(),
    }
}

/// A place for the job of each process, at its number. Place 0 stays empty.
fn places(alloc: Global) -> Result<Vec<Option<Job>>, AllocError>
    ensures { IfOk result (λ v. v.items ≡ replicate PARTIES None) }
{
    let mut held = Vec::new(alloc);
    for place in 0..PARTIES {
        held.push(None)?;
    }
    Ok(held)
}

impl Player {
    /// A player before the first order, over 1 to 15 images.
    pub(crate) fn open(alloc: Global, images: Vec<Arc<Handler>>) -> Result<Player, AllocError>
        requires { AreFew (map image_in images.items) }
        ensures { IfOk result (λ player. position_of player ≡ beginning (map image_in images.items)) }
    {
        let session = match Service::open(alloc, images) {
            Ok(session) => session,
            Err(refusal) => return Err(want_of_memory(refusal)),
        };
        let held = places(alloc)?;
        Ok(Player {
            session,
            held,
            inputs: 0,
        })
    }
}
