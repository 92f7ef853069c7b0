//! For tests: what helpers run on.

use std::process::Abort;
use std::rt::Clock;
use std::sync::Wait;
use std::thread::Threads;

/// What a test's runtime has: assertions, memory, a clock and threads.
pub trait Rig: Abort + AllocGlobal + Clock + Threads + Wait + Sync {}

impl<R: Abort + AllocGlobal + Clock + Threads + Wait + Sync> Rig for R {}
