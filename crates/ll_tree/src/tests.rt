use crate::push_name;
use std::test::Fail;

#[test]
fn names_are_runs_or_quoted(rt: HostRuntime) -> Result<(), Fail> {
    let mut text = Vec::new(rt.alloc());
    push_name(&mut text, b"-$._9")?;
    push_name(&mut text, b"")?;
    push_name(&mut text, b"a\"\\\x0A\xFF~")?;
    assert_eq!(rt;
        text.as_slice(),
        b"-$._9\"\"\"a\\22\\5C\\0A\\FF~\"".as_slice()
    );
    Ok(())
}
