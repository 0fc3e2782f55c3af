//! Tests over the loopback network: of TCP connections as ends, their gates, notes and listeners (`tcp_end`, `tcp_notes`, `tcp_listen`,
//! `tcp_reach`), and of the running program's parts: the pool (`pool_run`), the stand-in server (`stub_server`), their key words
//! (`key_source`) and threads (`worker_threads`), and the thread that writes the log (`log_writer`).
#![tactic(auto)]

#[cfg(test)]
mod cancels;
#[cfg(test)]
mod console;
#[cfg(test)]
mod gates;
#[cfg(test)]
mod idle_links;
#[cfg(test)]
mod keys;
#[cfg(test)]
mod limits;
#[cfg(test)]
mod listeners;
#[cfg(test)]
mod logs;
#[cfg(test)]
mod loopback;
#[cfg(test)]
mod pairs;
#[cfg(test)]
mod pools;
#[cfg(test)]
mod reloads;
#[cfg(test)]
mod sights;
#[cfg(test)]
mod stubs;
#[cfg(test)]
mod tcp_ends;
#[cfg(test)]
mod timeouts;
#[cfg(test)]
mod workers;
