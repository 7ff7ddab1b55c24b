//! Tests of what no clause says, by the public calls of the crates from `gates` to `script_run`: that threads run, sleep and come
//! back, what turns come to one after another, and the limits of each crate. They stand apart, so that no crate is proved twice for them.
#![tactic(auto)]

#[cfg(test)]
mod batches;
#[cfg(test)]
mod completion_ring;
#[cfg(test)]
mod doorbell;
#[cfg(test)]
mod endings;
#[cfg(test)]
mod outboxes;
#[cfg(test)]
mod pair;
#[cfg(test)]
mod passes;
#[cfg(test)]
mod ready_queue;
#[cfg(test)]
mod rows;
#[cfg(test)]
mod scripts;
#[cfg(test)]
mod stage;
#[cfg(test)]
mod stream_ends;
#[cfg(test)]
mod threads;
#[cfg(test)]
mod timers;
#[cfg(test)]
mod turns;
#[cfg(test)]
mod turnstiles;
#[cfg(test)]
mod waiters;
