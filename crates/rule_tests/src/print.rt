//! Values as they are printed.
use std::alloc::Global;
use std::fmt::Display;
use std::test::Fail;

pub(crate) fn is_printed(alloc: Global, value: &impl Display, text: &str) -> Result<bool, Fail> {
    Ok(value.to_string(alloc)?.as_str() == text)
}
