//! Error numbers as they are printed.
use crate::print::is_printed;
use names::{Errno, NoMemory};
use std::test::Fail;

#[test]
fn errors_by_name_and_number(rt: HostRuntime) -> Result<(), Fail> {
    let alloc = rt.alloc();
    assert!(rt;
        is_printed(alloc, &Errno::ENOENT, "ENOENT 2")?
            && is_printed(alloc, &Errno::ENAMETOOLONG, "ENAMETOOLONG 36")?
            && is_printed(alloc, &NoMemory, "no memory")?
    );
    assert!(rt; Errno::EOVERFLOW.number() == 75 && Errno::ELOOP.name() == "ELOOP");
    Ok(())
}
