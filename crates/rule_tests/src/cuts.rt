//! A text cut off at each of its bytes.
use rule_reader::{ReadFault, read};
use std::alloc::Global;
use std::process::Abort;
use std::test::Fail;

// 22 bytes, of which the last is a newline.
const TEXT: &[u8] = b"profile p {\n  /x r,\n}\n";

// The expected fault of the first `length` bytes.
fn fault_of_cut(length: usize) -> Option<ReadFault> {
    match length {
        // A front of the word `profile` is another word.
        1..=6 => Some(ReadFault::LeftOut {
            offset: 0,
            len: length,
        }),
        0 | 7..=20 => Some(ReadFault::Syntax { offset: length }),
        _ => None,
    }
}

fn expect_cut(rt: &impl Abort, alloc: Global, length: usize) -> Result<(), Fail> {
    let front = TEXT.get(..length).ok_or("a longer text")?;
    match (read(alloc, front), fault_of_cut(length)) {
        (Ok(profile), None) => {
            assert!(rt;
                profile.name() == b"p".as_slice() && profile.rules().len() == 1,
                "{length}"
            );
        }
        (read, wanted) => assert_eq!(rt; read.err(), wanted, "{length}"),
    }
    Ok(())
}

#[test]
fn the_text_of_22_bytes_cut_at_each_length(rt: HostRuntime) -> Result<(), Fail> {
    assert_eq!(rt; TEXT.len(), 22);
    for length in 0..23 {
        expect_cut(&rt, rt.alloc(), length)?;
    }
    Ok(())
}
