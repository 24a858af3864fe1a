use std::alloc::Global;
use std::cmp::Ordering;
use std::collections::BTreeMap;
use std::test::Fail;
use wx_base::{Arg, Args, Copied, Name, Reserved, Sequence, Words};

fn name(alloc: Global, text: &str) -> Result<Name, Fail> {
    Ok(Name::new(alloc, text.as_bytes())?)
}

#[test]
fn names_are_compared_by_their_bytes(rt: HostRuntime) -> Result<(), Fail> {
    let alloc = rt.alloc();
    let cases = [
        ("entry", "entry", Ordering::Equal),
        ("entr", "entry", Ordering::Less),
        ("entry2", "entry", Ordering::Greater),
        ("Entry", "entry", Ordering::Less),
        ("", "entry", Ordering::Less),
        ("", "", Ordering::Equal),
    ];
    for (one, other, order) in cases {
        let left = Name::from_vec(one.as_bytes().to_vec(alloc)?);
        let right = name(alloc, other)?.copy(alloc)?;
        let same = order == Ordering::Equal;
        assert!(rt;
            left.cmp(&right) == order && left.same(&right) == same && (left == right) == same,
            "{one} {other}"
        );
    }
    Ok(())
}

#[test]
fn lists_keep_their_items(rt: HostRuntime) -> Result<(), Fail> {
    let alloc = rt.alloc();
    let mut words: Words = Sequence::with_capacity(alloc, 2)?;
    let mut places = BTreeMap::new(alloc);
    for (place, word) in ["entry", "end"].iter().enumerate() {
        words.push(name(alloc, word)?)?;
        places.insert(name(alloc, word)?, place)?;
    }
    let copy = words.copy(alloc)?;
    let end = copy.get(1).ok_or("no second word")?;
    assert!(rt; copy.len() == 2 && places.get(end) == Some(&1) && copy.get(2).is_none());
    let mut args: Args = Sequence::new(alloc);
    args.push(Arg {
        width: 8,
        value: 77,
    })?;
    let arg = args.copy(alloc)?.items()[0];
    assert_eq!(rt; (arg.width, arg.value), (8, 77));
    Ok(())
}

#[test]
fn reserved_room_is_used(rt: HostRuntime) -> Result<(), Fail> {
    let mut list = Reserved::with_capacity(rt.alloc(), 3)?;
    for item in [5_u32, 6, 7] {
        if list.spare() > 0 {
            list.push(item);
        }
    }
    let full = list.spare() == 0 && list.items() == [5, 6, 7].as_slice();
    list.truncate(1);
    assert!(rt; full && list.len() == 1 && list.spare() == 2 && list.items() == [5].as_slice());
    Ok(())
}
