//! Tasks that a machine handed out, with their handlers.

ghost use Rattle.std.specs.Prelude.{◌≡◌, length, Some};
ghost use Rattle.std.specs.Option.{option_map};
ghost use Rattle.interp.specs.Image.{TheImage, image_in};
ghost use Rattle.replay.specs.Task.{TheTask};
ghost use Rattle.machine.specs.Arrival.{OfJob, answer_of};
ghost use Rattle.machine.specs.declared.arrival.Arrival.TheVariants.{Started};
ghost use Rattle.sessions.specs.Fields.{IsSized, joined};
ghost use Rattle.sessions.specs.Job.{arrival_of};

use crate::job::Job;
use interp::Handler;
use machine::{Arrival, Invocation};
use std::sync::Arc;

// The job that was handed out, if there is one.
pub(crate) fn joined(task: Option<Invocation>, handler: Option<Arc<Handler>>) -> Option<Job>
    requires { IsSized task (option_map image_in handler) }
    ensures { result ≡ joined task (option_map image_in handler) }
{
    Some(Job::new(task?, handler?))
}

// The arrival with the job that it starts.
pub(crate) fn handed(arrival: Arrival<Invocation>, handler: Option<Arc<Handler>>) -> Arrival<Job>
    requires { OfJob (λ task. (image : TheImage) × (option_map image_in handler ≡ Some image) × (length task.state ≡ image.len)) arrival }
    ensures answer { arrival_of result ≡ answer_of arrival }
    ensures job { OfJob (λ job. (arrival ≡ Started job.task) × (option_map image_in handler ≡ Some job.image)) result }
{
    match arrival {
        Arrival::Started(task) => match handler {
            Some(handler) => Arrival::Started(Job::new(task, handler)),
            None => unreachable!(),
        },
        Arrival::Duplicate(key) => Arrival::Duplicate(key),
        Arrival::Early => Arrival::Early,
        Arrival::Shown(ssn) => Arrival::Shown(ssn),
        Arrival::ShownBefore => Arrival::ShownBefore,
        Arrival::Numbered(key) => Arrival::Numbered(key),
        Arrival::Acknowledged => Arrival::Acknowledged,
        Arrival::Stale => Arrival::Stale,
        Arrival::Unreachable => Arrival::Unreachable,
    }
}
