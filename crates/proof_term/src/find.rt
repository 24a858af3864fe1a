use mix_system::Numbers;
use std::alloc::Global;
use wx_base::{Copied, NoMemory, Sequence};

/// A point that fits and meets the goal that was in work, with the value that the goal's term has there.
#[derive(Debug, Drop)]
pub struct Find {
    /// The place of the portion whose term it is, none for the whole.
    pub portion: Option<u32>,
    pub point: Numbers,
    pub value: u64,
}

/// Finds in the order in which they came.
pub type Finds = Sequence<Find>;

impl Copied for Find {
    fn copy(&self, alloc: Global) -> Result<Find, NoMemory> {
        let point = self.point.copy(alloc)?;
        Ok(Find {
            portion: self.portion,
            point,
            value: self.value,
        })
    }
}
