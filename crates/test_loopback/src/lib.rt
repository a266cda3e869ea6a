//! The server's top call over the sockets of the machine.
#![tactic(auto)]

#[cfg(test)]
mod visits;
