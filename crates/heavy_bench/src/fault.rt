//! What stops a measurement.

use thiserror::Error;

/// What stops a measurement.
#[derive(Clone, Copy, Debug, PartialEq, Eq, Error)]
pub enum BenchFault {
    #[error("usage: heavy_bench read|of_items|merge|space_saving|bucket_saving|table|save|load|\
        bytes|scan|number|tally|count K < FILE")]
    Usage,
    #[error("standard input is no stream of records")]
    Records,
    #[error("the call was refused")]
    Refused,
    #[error("the clock cannot be read")]
    Clock,
}
