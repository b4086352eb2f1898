//! Runs that stop early.
use dvg_log::OwnEntry;
use std::alloc::{Allocator, Global};
use thiserror::Error;

/// A run that stopped because an allocation failed, and for no other cause (which is tested).
#[derive(Error, Drop)]
#[derive_where(Debug, PartialEq, Eq)]
#[derive_where(Clone; A)]
#[error("memory was refused at event {event}")]
pub struct Stopped<A: Allocator = Global> {
    /// The entries of the events before the one at which the run stopped.
    pub entries: Vec<OwnEntry<A>, A>,
    /// The number of the event at which the run stopped, counted from 0. It has no entry.
    pub event: usize,
}
