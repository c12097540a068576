//! What holds of nodes and the gateway as hosts call them: their calls are a run of a cluster.
//!
//! A host has each process as a [`process::Member`], one value through all its stages, and the contract
//! of each of its functions says what it leaves. The gateway is a [`gateway::Gateway`]. A process may be
//! killed at any moment, and comes back from the bytes that are stored of it. A host that suspends a
//! process keeps only its bytes: it resumes it at most once, and not if it revives it. Calls of hosts and
//! of the gateway, in any order, with packets that come late, twice or never, are a run of a cluster as
//! long as each process that is alive tells that it is exact ([`hosted_run`]); if one at a time fails, all
//! tell that they are ([`hosted_alone`]). So its promises are promises of this code. Whatever fails, they
//! are a run of the whole rules, by which recoveries may meet ([`hosted_events`]).
//!
//! What comes back is the process that was lost ([`hosted_back`], [`hosted_recovers`]). Whatever fails,
//! what is stored of a process only grows ([`hosted_stays`]), and nobody has anything of a durable one
//! but what is stored of it to be sent ([`hosted_keep`]). Outputs come in order and without a gap, also if
//! the gateway is killed ([`hosted_in_order`], [`hosted_without_gap`]). [`hosts_can_call`],
//! [`hosts_come_back_beside`] and [`hosts_meet`] work out lists of such calls.
#![tactic(auto)]

mod host_laws;

pub use host_laws::{
    hosted_agree, hosted_alone, hosted_back, hosted_back_alone, hosted_events, hosted_in_order,
    hosted_keep, hosted_last, hosted_recovers, hosted_recovers_alone, hosted_run, hosted_run_alone,
    hosted_stay_out, hosted_stays, hosted_without_gap, hosts_can_call, hosts_come_back_beside,
    hosts_meet, loss_is_dropped,
};
