use crate::{
    WordTable, attribute_words, call_words, flag_words, header_words, opcode_words,
    predicate_words, terminator_words, valued_call_names, void_call_names,
};

/// Whether each word is found at its own place, and the absent one nowhere.
fn finds_all<const N: usize>(table: &WordTable<N>, absent: &[u8]) -> bool {
    for at in 0..N {
        if table.find(table.word(at)) != Some(at) {
            return false;
        }
    }
    table.find(absent).is_none()
}

#[test]
fn tables_find_their_words(rt: HostRuntime) {
    let all = finds_all(&header_words(), b"define")
        && finds_all(&attribute_words(), b"nonnull")
        && finds_all(&opcode_words(), b"fadd")
        && finds_all(&terminator_words(), b"invoke")
        && finds_all(&flag_words(), b"")
        && finds_all(&predicate_words(), b"e")
        && finds_all(&call_words(), b"musttail")
        && finds_all(&valued_call_names(), b"llvm.abs.")
        && finds_all(&void_call_names(), b"llvm.abs");
    assert!(rt; all);
    assert_eq!(rt; opcode_words().words.len(), 19);
}

#[test]
fn find_gives_the_first_of_equal_rows(rt: HostRuntime) {
    let table: WordTable<3> = WordTable {
        words: &[b"a", b"b", b"b"],
    };
    assert_eq!(rt; table.find(b"b"), Some(1));
    assert_eq!(rt; table.word(2), b"b".as_slice());
}
