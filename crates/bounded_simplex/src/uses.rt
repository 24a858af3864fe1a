use std::alloc::Global;
use tableau_rows::Entry;
use wx_base::NoMemory;

/// How many equations of a tableau take each column. It guides the choice of pivots, which is free,
/// so nothing is claimed of the counts.
#[derive(Debug, Drop)]
pub(crate) struct Uses {
    counts: Vec<u32>,
}

impl Uses {
    /// Of no equation, over so many columns.
    pub(crate) fn new(alloc: Global, columns: usize) -> Result<Uses, NoMemory> {
        let mut counts = Vec::with_capacity(alloc, columns)?;
        for _column in 0..columns {
            counts.push(0)?;
        }
        Ok(Uses { counts })
    }

    /// How many equations take a column.
    pub(crate) fn of(&self, column: u32) -> u32 {
        match self.counts.get(column as usize) {
            Some(count) => *count,
            None => 0,
        }
    }

    /// Counts the entries of one more equation.
    pub(crate) fn add(&mut self, entries: &[Entry]) {
        for entry in entries {
            if let Some(count) = self.counts.get_mut(entry.column as usize) {
                *count = count.saturating_add(1);
            }
        }
    }

    // Counts the entries of an equation no more.
    fn remove(&mut self, entries: &[Entry]) {
        for entry in entries {
            if let Some(count) = self.counts.get_mut(entry.column as usize) {
                *count = count.saturating_sub(1);
            }
        }
    }

    /// Counts the entries of an equation in the place of those of another.
    pub(crate) fn change(&mut self, old: &[Entry], new: &[Entry]) {
        self.remove(old);
        self.add(new);
    }
}
