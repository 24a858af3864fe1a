use flat_lists::FlatLists;
use std::alloc::Global;
use std::test::Fail;
use wx_base::NoMemory;

fn lists(alloc: Global) -> Result<FlatLists<u32>, NoMemory> {
    let mut lists = FlatLists::new(alloc);
    for size in [2, 0, 3] {
        for item in 0..size {
            lists.push(item)?;
        }
        lists.close()?;
    }
    Ok(lists)
}

// The lists one after the other, each with a mark behind it.
fn marked(alloc: Global, lists: &FlatLists<u32>) -> Result<Vec<u32>, NoMemory> {
    let mut all = Vec::new(alloc);
    for at in 0..lists.len() {
        all.extend_from_slice(lists.list(at))?;
        all.push(9)?;
    }
    Ok(all)
}

#[test]
fn lists_come_back_as_they_were_closed(rt: HostRuntime) -> Result<(), Fail> {
    let alloc = rt.alloc();
    let all = marked(alloc, &lists(alloc)?)?;
    assert!(rt; all.as_slice() == [0, 1, 9, 9, 0, 1, 2, 9].as_slice());
    Ok(())
}
