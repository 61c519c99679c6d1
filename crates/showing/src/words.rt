// The names and signs of nodes, the first line of a part of the text, and the indent of a level.
ghost use Rattle.std.specs.Prelude.{◌≤◌, ◌<◌};

use crate::Row;
use ast::kinds;
use diagnostics::line::writing_end;
use page::Line;

// The names of the kinds of nodes, as ast.rs has them: a cell of 14 bytes for each kind from 0 on, and the last for all others. Fixed spellings are one flat table, which is
// checked faster, too, than an arm with bytes of its own for each kind.
const NAMES: [u8; 392] = *b"\
    ?             Binary        LogicalAnd    LogicalOr     LogicalNot    Unary         Assign        \
    Variable      Constant      Ref           Identifier    String        Number        Boolean       \
    Nil           FunctionCall  PropertyAccessMap           Function      Lambda        Block         \
    If            WhileLoop     Return        Break         Continue      Import        ?             ";

// The signs of a Binary's operators, as ops.rs counts them: a cell of two bytes each, and the last for all others.
const SIGNS: [u8; 24] = *b"+ - * / % ==!=> >=< <=? ";

// The level from which on the indent grows no more.
pub(crate) const DEEPEST: u32 = 24;

// The word in cell n of a table; the last one's past the table.
fn put_word<const N: usize>(table: &[u8], n: u32, line: &mut Line)
    requires { (0 < N) × (N ≤ 14) }
{
    let (cells, _) = table.as_chunks::<N>();
    if let Some(cell) = cells.get(n as usize).or(cells.last()) {
        line.put_cell(cell);
    }
}

// The sign of a Unary's operator.
fn put_unary(operator: u32, line: &mut Line) {
    match operator {
        0 => line.put_byte(b'-'),
        _ => line.put_byte(b'^'),
    }
}

// The indent of a level, two blanks each.
pub(crate) fn indent(margin: u8, level: u32, line: &mut Line) {
    line.pad(margin as usize + 2 * level.min(DEEPEST) as usize);
}

impl Row<'_, '_> {
    // The name of a row's kind.
    pub(crate) fn put_kind(self, line: &mut Line) {
        put_word::<14>(&NAMES, self.kind(), line);
    }

    // The sign of a row's operator; nothing where it has none.
    pub(crate) fn put_sign(self, line: &mut Line) {
        match self.kind() {
            kinds::BINARY => put_word::<2>(&SIGNS, self.number(3), line),
            kinds::LOGICAL_AND => line.put(b"and"),
            kinds::LOGICAL_OR => line.put(b"or"),
            kinds::LOGICAL_NOT => line.put(b"not"),
            kinds::UNARY => put_unary(self.number(3), line),
            kinds::ASSIGN => line.put_byte(b'='),
            _ => {}
        }
    }

    // The first line of what the row covers.
    pub(crate) fn put_first_line(self, line: &mut Line) {
        let part = self.part();
        let from = self.tree.text.len().min(part.start as usize);
        let upto = writing_end(self.tree.text, from).min(part.end as usize);
        line.put_excerpt(self.tree.text, part.start, upto as u32, 72);
    }
}
