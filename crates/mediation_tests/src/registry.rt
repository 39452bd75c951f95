//! Tests of `profile_registry`.
mod fixtures;
mod news;
mod places;
mod rows;
mod server;
mod threads;
