//! The rows of a set, and the row memory that they are held in.
use super::kinds::{Demand, FromFields, Jobs};
use analysis::{MOST_ROWS, Task};
use demand::Left;
use std::alloc::{AllocError, Global};

// Rows with kinds of one type, and row memory for a table of them. Each table gets it as the one before left it.
#[derive(Drop)]
pub(crate) struct Rows<K> {
    pub(crate) tasks: Vec<Option<Task<K>>>,
    pub(crate) memory: Vec<Option<Task<K>>>,
}

// As long as no row has a layer, all stand in `bare` as jobs alone, since these are asked more quickly. From then on
// all stand in `layered`.
#[derive(Drop)]
pub(crate) struct Set {
    pub(crate) bare: Rows<Jobs>,
    pub(crate) layered: Rows<Demand>,
}

impl<K: Copy + Drop> Rows<K> {
    fn new(heap: Global) -> Result<Rows<K>, AllocError> {
        Ok(Rows {
            tasks: Vec::new(heap),
            memory: vec![in heap; None; MOST_ROWS]?,
        })
    }
}

impl Set {
    pub(crate) fn new(heap: Global) -> Result<Set, AllocError> {
        Ok(Set {
            bare: Rows::new(heap)?,
            layered: Rows::new(heap)?,
        })
    }

    pub(crate) fn push(&mut self, task: Task<Demand>) -> Result<(), AllocError> {
        match task.kind {
            Left(Left(kind)) if self.layered.tasks.is_empty() => {
                self.bare.tasks.push(Some(Task {
                    row: task.row,
                    kind,
                }))?;
            }
            _ => {
                self.layer_all()?;
                self.layered.tasks.push(Some(task))?;
            }
        }
        Ok(())
    }

    // Moves the rows to those that may have layers.
    fn layer_all(&mut self) -> Result<(), AllocError> {
        for task in self.bare.tasks.iter().flatten() {
            let kind = Demand::from_jobs(task.kind);
            self.layered.tasks.push(Some(Task {
                row: task.row,
                kind,
            }))?;
        }
        self.bare.tasks.clear();
        Ok(())
    }

    pub(crate) fn is_empty(&self) -> bool {
        self.bare.tasks.is_empty() && self.layered.tasks.is_empty()
    }

    pub(crate) fn clear(&mut self) {
        self.bare.tasks.clear();
        self.layered.tasks.clear();
    }
}
