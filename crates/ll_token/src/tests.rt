use crate::{Token, TokenKind, tokens};
use std::test::Fail;

#[test]
fn four_mebibytes_are_read(rt: HostRuntime) -> Result<(), Fail> {
    let line = b"  %3 = add nsw i32 %\"1\", 7 ; 32\n";
    let mut text = Vec::new(rt.alloc());
    for _ in 0..131072 {
        text.extend_from_slice(line)?;
    }
    let size = text.len();
    let found = if size < 1 << 31 {
        tokens(rt.alloc(), &text, 1)?.ok()
    } else {
        None
    };
    let last = found.as_ref().and_then(|found| found
        .items()
        .last()
        .map(|token| (found.len(), *token)));
    let want = Token {
        kind: TokenKind::Number,
        start: 4194297,
        end: 4194298,
        line: 131072,
    };
    assert!(rt; size == 4194304 && last == Some((1048576, want)));
    Ok(())
}
