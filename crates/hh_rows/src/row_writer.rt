//! Rows that are written one after the other.

ghost use Rattle.std.specs.Prelude.{◌≡◌, ◌++◌, IfOk, OnOk, map};
ghost use Rattle.csv.specs.Writing.{row_text};
ghost use Rattle.hh_rows.specs.Outputs.{no_rows, with_row, writer_of};

use crate::json::object_of;
use crate::output::{Form, Output};
use csv::Writer;
use std::alloc::{AllocError, Global};
use std::marker::Model;

/// The names of columns.
pub type Names = &'static [&'static [u8]];

/// Rows that are written one after the other, in a form, of columns with these names.
#[derive(Drop)]
pub struct RowWriter {
    form: Form,
    names: Names,
    writer: Writer<Vec<u8>>,
}

impl Model for RowWriter {
    ghost use Rattle.std.specs.Prelude.{Some, [], map, unwrap_or};
    ghost use Rattle.csv.specs.Writing.{text_written};
    ghost use Rattle.hh_rows.specs.Outputs.{IsBetweenRows, Written, writer_of};

    ghost Value = { Written };

    ghost view = { λ rows. record {
      form = rows.form;
      names = map (λ name. name.now) rows.names.now;
      text = unwrap_or (text_written (λ text. Some text.items) rows.writer) [];
    } };

    ghost invariant = { λ rows. IsBetweenRows (writer_of rows.form) rows.writer };
}

impl RowWriter {
    /// What writes rows after `text`.
    pub(crate) fn after(text: Vec<u8>, form: Form, names: Names) -> RowWriter
        ensures { result ≡ record {
          form = form;
          names = map (λ name. name.now) names.now;
          text = text.items;
        } }
    {
        RowWriter {
            form,
            names,
            writer: form.writer().from_writer(text),
        }
    }

    /// What writes rows as `output` wants them, and has written that of the `names` alone, where it
    /// is wanted.
    pub fn new(alloc: Global, output: &Output, names: Names) -> Result<RowWriter, AllocError>
        ensures { IfOk result (λ rows. rows
            ≡ no_rows output.now (map (λ name. name.now) names.now)) }
    {
        let mut rows = RowWriter::after(Vec::new(alloc), output.form, names);
        if output.has_names && output.form != Form::Json {
            rows.push(alloc, names)?;
        }
        Ok(rows)
    }

    /// Writes a record of `csv` after the others. If there is no memory for it, all is let go.
    fn put(&mut self, alloc: Global, fields: &[&[u8]]) -> Result<(), AllocError>
        ensures { OnOk result (self.new ≡ record self.old {
          text = self.old.text
              ++ row_text (writer_of self.old.form) (map (λ field. field.now) fields.now);
        }) }
    {
        if self.writer.write_fields(fields).is_ok() {
            return Ok(());
        }
        self.writer = self.form.writer().from_writer(Vec::new(alloc));
        Err(AllocError)
    }

    /// Writes `fields`, as many as there are names, as a row after the others.
    pub fn push(&mut self, alloc: Global, fields: &[&[u8]]) -> Result<(), AllocError>
        ensures { OnOk result (self.new
            ≡ with_row self.old (map (λ field. field.now) fields.now)) }
    {
        match self.form {
            Form::Csv | Form::Tsv => self.put(alloc, fields),
            Form::Json => {
                let object = object_of(alloc, self.names, fields)?;
                self.put(alloc, &[object.as_slice()])
            }
        }
    }

    /// All that was written.
    pub fn into_text(self) -> Result<Vec<u8>, AllocError>
        ensures { IfOk result (λ text. text.items ≡ self.text) }
    {
        match self.writer.into_inner() {
            Ok(text) => Ok(text),
            Err(_) => Err(AllocError),
        }
    }
}
