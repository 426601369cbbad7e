// Reading whole lines from their parts.

ghost use Rattle.std.specs.Prelude.{◌<◌, slice_index_or};
ghost use Rattle.std.proofs.Common.{rules};
ghost use Rattle.text.specs.Lines.{class_letter, row_bytes, render, SmallRow, Valid};
ghost use Rattle.text.specs.Reading.{Reads};

use crate::cursor::{Cursor, head};
use crate::from_line::FromLine;
use crate::line::Line;
use stream::{Class, Fault, Row};

impl<'r, 'a> Cursor<'r, 'a> {
    // Told by its first character, as lines are.
    #[tactic(auto, using(crate::proofs::Grammar::class_ends))]
    fn class(&mut self) -> Result<Class, Fault>
        ensures { Reads class_letter (λ _. Unit {0}) self.old result self.new }
    {
        match head(self.rest) {
            Some('H') => {
                self.word(b"H")?;
                Ok(Class::Critical)
            }
            Some('L') => {
                self.word(b"L")?;
                Ok(Class::Background)
            }
            _ => Err(self.fault()),
        }
    }

    // A row, from its class letter to the bytes that close it, the first of which is no digit.
    fn row(&mut self, close: &[u8]) -> Result<Row, Fault>
        requires { slice_index_or close.now 0 48 < 48 }
        ensures { Reads (row_bytes close.now) SmallRow self.old result self.new }
    {
        let class = self.class()?;
        self.word(b" (")?;
        let budget = self.number(b" ")?;
        let certain = self.number(b") (")?;
        let short = self.number(b" ")?;
        let deadline = self.number(b") ")?;
        let gap = self.number(close)?;
        Ok(Row {
            class,
            budget,
            certain,
            short,
            deadline,
            gap,
        })
    }

    #[tactic(auto, using(crate::proofs::Lining::line_ends))]
    fn line(&mut self) -> Result<Line, Fault>
        ensures { Reads render Valid self.old result self.new }
    {
        self.word(b"(")?;
        match head(self.rest) {
            Some('S') => {
                self.word(b"S ")?;
                Ok(Line::Sporadic(self.row(b")\n")?))
            }
            Some('R') => {
                self.word(b"R ")?;
                let row = self.row(b" ")?;
                let phase = self.number(b")\n")?;
                Ok(Line::Raster(row, phase))
            }
            Some('g') => {
                self.word(b"go ")?;
                Ok(Line::Go(self.number(b")\n")?))
            }
            _ => Err(self.fault()),
        }
    }
}

impl FromLine for Line {
    ghost bytes = { render };

    ghost valid = { Valid };

    ghost some = { λ line. Prim.search rules };

    fn from_line(cursor: &mut Cursor) -> Result<Line, Fault> {
        cursor.line()
    }
}
