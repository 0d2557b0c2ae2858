//! Jobs for any keeper of a station's state.
use station_core::Keeper;

/// A job for any keeper. Only one function of a library hands out a station over tables, to a job:
/// each further one costs the check as much as twenty others.
pub trait Job {
    type Out;

    fn run<K: Keeper>(self, keeper: &mut K) -> Self::Out;
}
