// Reading the lines of a plan.

ghost use Rattle.text.specs.Reader.{bytes_left, line_number};
ghost use Rattle.plan.specs.Plans.{Planned, rows_in};

use crate::Tables;
use stream::{Fault, Layer, at_line};
use text::{Line, Reader};

// Where a plan says go: the moment, and the line.
#[derive(Clone, Copy)]
pub struct Start {
    pub moment: u64,
    pub line: u64,
}

// Reads stream lines, up to a go line or the end of the text.
pub fn read_plan(reader: &mut Reader, tables: &mut Tables) -> Result<Option<Start>, Fault>
    ensures { Planned (bytes_left reader.old) (line_number reader.old) (rows_in tables.old) result (bytes_left reader.new) (line_number reader.new) (rows_in tables.new) }
{
    while !reader.at_end() {
        let line = reader.line_number();
        let added = match reader.next::<Line>()? {
            Line::Sporadic(row) => tables.add_sporadic(row),
            Line::Raster(row, phase) => tables.add_raster(row, phase),
            Line::Go(moment) => return Ok(Some(Start { moment, line })),
        };
        at_line(added, Layer::Plan, line)?;
    }
    Ok(None)
}
