//! How many words rows have: 164 for each slot, and then the index, whose length is the least power of two that is at least twice the
//! number of entries.
use crate::rows::row_of;
use std::test::Fail;

#[test]
fn words_of_rows(rt: HostRuntime) -> Result<(), Fail> {
    let rows = [
        (0, 164 + 1),
        (1, 2 * 164 + 2),
        (2, 3 * 164 + 4),
        (3, 4 * 164 + 8),
        (4, 5 * 164 + 8),
        (5, 6 * 164 + 16),
        (16384, 16385 * 164 + 32768),
    ];
    for (capacity, words) in rows {
        let row = row_of(rt.alloc(), capacity, &[])?;
        assert_eq!(rt; row.length(), words, "{capacity}");
    }
    // With the count, which a shared row begins with.
    let row = row_of(rt.alloc(), 1024, &[])?;
    assert_eq!(rt; row.length() + 1, 170_149);
    Ok(())
}
