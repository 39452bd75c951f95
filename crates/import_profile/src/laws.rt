//! The laws of imports. The functions do nothing: each exists for its contract.
