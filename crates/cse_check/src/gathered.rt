//! What is gathered as long as there is memory.

use std::alloc::{AllocError, Global};

/// Things in the order in which they came. Where memory lacks the rest is given up, and `finish` tells it.
#[derive(Drop)]
pub struct Gathered<T> {
    items: Vec<T>,
    lacks_memory: bool,
}

impl<T: Copy + Drop> Gathered<T> {
    /// Nothing so far.
    pub fn new(alloc: Global) -> Gathered<T> {
        Gathered {
            items: Vec::new(alloc),
            lacks_memory: false,
        }
    }

    /// One more.
    pub fn add(&mut self, item: T) {
        if self.items.push(item).is_err() {
            self.lacks_memory = true;
        }
    }

    /// Those so far.
    pub fn items(&self) -> &[T] {
        &self.items
    }

    /// Memory lacked for something else that belongs to it.
    pub fn give_up(&mut self) {
        self.lacks_memory = true;
    }

    /// All of them, unless memory lacked.
    pub fn finish(self) -> Result<Vec<T>, AllocError> {
        let Gathered {
            items,
            lacks_memory,
        } = self;
        if lacks_memory {
            return Err(AllocError);
        }
        Ok(items)
    }
}
