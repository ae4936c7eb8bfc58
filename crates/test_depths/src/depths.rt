//! Where the depths of values are noted, past the contracts.
use crate::residue::Residue;
use std::array;
use std::cell::Cell;
use std::marker::Model;

/// A number for each residue, at first 0. A contract sees none of them.
#[derive(Drop)]
pub struct Depths {
    cells: [Cell<u16>; 1031],
}

impl Model for Depths {
    ghost Value = { Unit {0} };

    ghost view = { λ _. tt };
}

impl Depths {
    /// A table of zeros.
    pub fn new() -> Self {
        Depths {
            cells: array::from_fn(|_| Cell::new(0)),
        }
    }

    /// The number at a residue.
    pub fn at(&self, index: Residue) -> u16 {
        self.cells[index.word as usize].get()
    }

    /// Puts a number at a residue.
    pub fn note(&self, index: Residue, depth: u16) {
        self.cells[index.word as usize].set(depth);
    }
}
