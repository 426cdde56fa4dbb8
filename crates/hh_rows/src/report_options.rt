//! What a report is asked for by.

use crate::threshold::Share;

/// How the summaries of the pieces are merged. Every tree gives the same report.
#[derive(Debug, Drop)]
pub enum Tree {
    /// One after the other.
    Chain,
    /// By halves.
    Balanced,
    /// As the text says, as `((0 1) 2)`.
    Text(Vec<u8>),
}

/// What a report is of, and how it is made.
#[derive(Debug, Drop)]
pub struct ReportOptions {
    /// The number of counters, 1 to 65,535. They find each key above 1/(k + 1) of the total weight.
    pub k: u64,
    /// The report has the keys above this share of the total weight.
    pub threshold: Share,
    /// The number of workers: 1 to 64.
    pub workers: u64,
    /// The number of pieces that the stream is cut into: 1 to 1,024. Where the summaries are small
    /// and no tree is spelled, workers read more pieces than that.
    pub pieces: u64,
    /// How the summaries of the pieces are merged.
    pub tree: Tree,
    /// The width of the Count-Min table: 1 to 65,536.
    pub width: u64,
    /// The depth of the table: 1 to 16.
    pub depth: u64,
    /// The seed of the table's hash family.
    pub seed: u64,
}
