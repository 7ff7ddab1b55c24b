//! The definitions of the one-thread ring, read a second time: a plain slow program that decides from the whole list of
//! events whether one more may come, and tests that compare it with the ring over all short lists.
#![tactic(auto)]

#[cfg(test)]
mod allowed;
#[cfg(test)]
mod alphabet;
#[cfg(test)]
mod answers;
#[cfg(test)]
mod cancel_tests;
#[cfg(test)]
mod comparison;
#[cfg(test)]
mod list;
#[cfg(test)]
mod pipe_tests;
#[cfg(test)]
mod pipes;
#[cfg(test)]
mod plan;
#[cfg(test)]
mod tests;
#[cfg(test)]
mod timer_tests;
