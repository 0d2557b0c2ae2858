//! Sinks of rows.
use station_core::Sink;
use std::alloc::Global;

/// A sink that collects its rows, up to a limit.
#[derive(Drop)]
pub struct Taken<Row> {
    pub rows: Vec<Row>,
    most: usize,
}

impl<Row> Taken<Row> {
    pub fn new(alloc: Global, most: usize) -> Taken<Row> {
        Taken {
            rows: Vec::new(alloc),
            most,
        }
    }
}

impl<Row: Drop> Sink<Row> for Taken<Row> {
    ghost takes = { λ before row goes_on after. Unit {0} };

    fn take(&mut self, row: Row) -> bool {
        self.rows.push(row).is_ok() && self.rows.len() < self.most
    }
}

#[derive(Clone, Copy)]
pub struct RowCount {
    pub rows: u64,
}

impl<Row: Drop> Sink<Row> for RowCount {
    ghost takes = { λ before row goes_on after. Unit {0} };

    fn take(&mut self, _: Row) -> bool {
        self.rows = self.rows.saturating_add(1);
        true
    }
}
