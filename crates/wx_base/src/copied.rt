use crate::{Copied, NoMemory};
use std::alloc::Global;

impl Copied for i128 {
    fn copy(&self, _: Global) -> Result<i128, NoMemory> {
        Ok(*self)
    }
}

impl Copied for u32 {
    fn copy(&self, _: Global) -> Result<u32, NoMemory> {
        Ok(*self)
    }
}
