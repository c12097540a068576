//! The gateway and the nodes of a cluster for programs in C and Rust: a static library over
//! [`gateway`] and [`process`].
//!
//! `gateways::exports` and `nodes::exports` have the functions for C. A program holds a gateway or
//! a node by a handle, two words of its own that it makes of zeros, which means closed.
//! `sblog_gateway_open` and `sblog_node_open` open one that received nothing,
//! `sblog_node_open_with` a node with an opening state other than zeros, `sblog_gateway_revive` and
//! `sblog_node_revive` one from what was kept, the other functions are calls of its host, and
//! `sblog_gateway_close` and `sblog_node_close` give all memory back. Code 0 means done, the
//! numbers from 15 on say why not. docs/EMBEDDING.md describes functions and codes.
//! `sblog_packet_label` needs no handle: it tells a host what the bytes of a packet are.
//! `sblog_gateway_receive_all` and `sblog_node_receive_all` do for each packet of a bundle what the
//! single calls do, a node's `sblog_node_work` after each packet included. `sblog_gateway_take_all`
//! and `sblog_node_take_all` give the first packets that wait for one process as a bundle's.
//!
//! Each function owes exactly what the gateway's or the process's call owes. Packets, stores,
//! changes and kept states are the bytes that docs/FORMATS.md describes. Any code except 0 leaves
//! the gateway or the process as it was, with one exception: the code of `sblog_node_tick` that
//! says why the process doesn't go on to its next stage. If a buffer is too short, the number of
//! bytes is written and nothing is taken. What crate `node_laws` promises of hosts' calls holds of
//! a node's functions (`nodes::laws`).
//!
//! ```c
//! sblog_gateway gateway = {0};
//! uint32_t code = sblog_gateway_open(2, 60000, 8, &gateway);
//! code = sblog_gateway_input(&gateway, 1, payload, 8, &ssn);
//! code = sblog_gateway_changes(&gateway, out, sizeof out, &size); /* durable before what follows */
//! while (sblog_gateway_take(&gateway, out, sizeof out, &size, &to) == 0) send_to(to, out, size);
//!
//! sblog_node node = {0};
//! code = sblog_node_open(image, image_len, 1, 2, 60000, 8, 256, 65536, 0, &node);
//! code = sblog_node_receive(&node, packet, packet_len, &fault);
//! while (sblog_node_work(&node) == 0);
//! while (sblog_node_take(&node, out, sizeof out, &size, &to) == 0) send_to(to, out, size);
//! ```
#![tactic(auto)]

mod gateways;
mod nodes;
