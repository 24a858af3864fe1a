use crate::{files, sinks};
use std::alloc::Global;
use wx_base::{MemFiles, MemSink, Name, NoMemory, SureFiles, SureSink};

// Files and sinks in memory, which last from row to row.
#[derive(Drop)]
pub struct Memory {
    failing: MemFiles,
    sure: SureFiles,
    page: MemSink,
    sure_page: SureSink,
}

impl Memory {
    // Of the calls of `failing` the second and the fourth fail. Of the puts on `page` the second takes
    // three bytes, and the third takes all but fails.
    pub fn new(alloc: Global) -> Result<Memory, NoMemory> {
        let failing = [1, 3].to_vec(alloc)?;
        let broken = [(1, 3), (1, 9), (2, 100)].to_vec(alloc)?;
        Ok(Memory {
            failing: MemFiles::new(alloc, pairs(alloc, &["first", "second"])?, failing),
            sure: SureFiles::new(alloc, pairs(alloc, &["first"])?),
            page: MemSink::new(alloc, broken),
            sure_page: SureSink::new(alloc),
        })
    }

    // `None` where the row is of something else.
    pub fn answer(
        &mut self,
        alloc: Global,
        of: &str,
        call: &str,
    ) -> Result<Option<String>, NoMemory> {
        Ok(Some(match of {
            "failing" => files::answer(alloc, &mut self.failing, call)?,
            "sure" => files::answer(alloc, &mut self.sure, call)?,
            "page" => sinks::answer(alloc, &mut self.page, call)?,
            "sure_page" => sinks::answer(alloc, &mut self.sure_page, call)?,
            "kept" => self.kept(alloc, call)?,
            _ => return Ok(None),
        }))
    }

    fn kept(&self, alloc: Global, of: &str) -> Result<String, NoMemory> {
        match of {
            "failing" => files::kept(alloc, self.failing.asked(), self.failing.stored()),
            "sure" => files::kept(alloc, self.sure.asked(), self.sure.stored()),
            "page" => files::text(alloc, self.page.bytes()),
            _ => files::text(alloc, self.sure_page.bytes()),
        }
    }
}

// Contents of one name, one after the other.
fn pairs(alloc: Global, texts: &[&str]) -> Result<Vec<(Name, Vec<u8>)>, NoMemory> {
    let mut pairs = Vec::new(alloc);
    for text in texts {
        pairs.push((Name::new(alloc, b"a")?, text.as_bytes().to_vec(alloc)?))?;
    }
    Ok(pairs)
}
