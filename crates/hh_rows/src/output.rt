//! The forms of rows.

ghost use Rattle.std.specs.Prelude.{◌≡◌};
ghost use Rattle.hh_rows.specs.Outputs.{plain_output, writer_of};

use csv::{QuoteStyle, WriterBuilder};

/// How a row is written.
#[derive(Clone, Copy, Debug, PartialEq, Eq)]
pub enum Form {
    /// Fields between commas, as the `csv` crate writes them.
    Csv,
    /// Fields between tabs, in quotes where CSV has them.
    Tsv,
    /// A JSON object a line, with a member for each field.
    Json,
}

impl Form {
    /// The writer's settings: in JSON a record has one field, the object, and no quotes around it.
    pub(crate) fn writer(self) -> WriterBuilder
        ensures { result ≡ writer_of self }
    {
        match self {
            Form::Csv => WriterBuilder::new(),
            Form::Tsv => *WriterBuilder::new().delimiter(b'\t'),
            Form::Json => *WriterBuilder::new().quote_style(QuoteStyle::Never),
        }
    }
}

/// How rows are written.
#[derive(Clone, Copy, Debug, PartialEq, Eq)]
pub struct Output {
    pub form: Form,
    /// The first row names the columns. In JSON each row does.
    pub has_names: bool,
    /// The digits of a weight after the point: those of the [`Layout`](crate::Layout) by which the
    /// records were read.
    pub decimals: u8,
}

impl Output {
    /// CSV, with no names of columns, and with `decimals` digits of a weight after its point.
    pub fn plain(decimals: u8) -> Output
        ensures { result ≡ plain_output decimals }
    {
        Output {
            form: Form::Csv,
            has_names: false,
            decimals,
        }
    }
}
