//! Which numbers are to be looked at again. It saves time only, so nothing is promised of it.

use fsmv_base::NoMemory;
use std::alloc::Global;

/// The numbers that wait until another one is known, and the numbers that have become known.
#[derive(Drop)]
pub struct Waiting {
    waiters: Vec<Vec<usize>>,
    gained: Vec<usize>,
}

impl Waiting {
    /// Nothing waits, over numbers below `count`.
    pub fn new(alloc: Global, count: usize) -> Result<Waiting, NoMemory> {
        let mut waiters = Vec::new(alloc);
        for _k in 0..count {
            waiters.push(Vec::new(alloc))?;
        }
        Ok(Waiting {
            waiters,
            gained: Vec::new(alloc),
        })
    }

    /// Notes that `k` waits until `awaited` is known.
    pub fn wait(&mut self, k: usize, awaited: usize) -> Result<(), NoMemory> {
        if awaited < self.waiters.len() {
            self.waiters[awaited].push(k)?;
        }
        Ok(())
    }

    /// Notes that `k` has become known.
    pub fn gain(&mut self, k: usize) -> Result<(), NoMemory> {
        self.gained.push(k)?;
        Ok(())
    }

    /// The numbers that waited for one that has become known, if there is one left.
    pub fn next(&mut self, alloc: Global) -> Option<Vec<usize>> {
        let k = self.gained.pop()?;
        if k < self.waiters.len() {
            return Some(std::mem::replace(&mut self.waiters[k], Vec::new(alloc)));
        }
        Some(Vec::new(alloc))
    }
}
