//! Tests of `table_image`, `image_header` and `image_judge`, and of images that `matcher` loads, and nothing else. A library with tests
//! of its own would be proved twice, once with them; with the tests here, each of these libraries is proved once.
#![tactic(auto)]

#[cfg(test)]
mod altered;
#[cfg(test)]
mod images;
#[cfg(test)]
mod numbers;
#[cfg(test)]
mod versions;
