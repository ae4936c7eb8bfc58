//! The rows of the tables.

/// A row of a table.
#[derive(Clone, Copy)]
pub struct Row<'a> {
    /// The name of the field, or of the type of numbers.
    pub field: &'a str,
    /// The number of lanes.
    pub lanes: &'a str,
    pub call: &'a str,
    pub arguments: &'a str,
    pub answer: &'a str,
}

impl<'a> Row<'a> {
    /// The row of a line like `f17 4 add: 1,2,3,4|4,3,2,1 = 5,5,5,5`.
    pub fn read(line: &'a str) -> Option<Row<'a>> {
        let (head, sides) = line.split_once(':')?;
        let (arguments, answer) = sides.split_once('=')?;
        let (field, rest) = head.split_once(' ')?;
        let (lanes, call) = rest.split_once(' ')?;
        Some(Row {
            field,
            lanes,
            call,
            arguments: arguments.trim(),
            answer: answer.trim(),
        })
    }

    /// The arguments at an index, which stand between bars.
    pub fn argument(self, index: usize) -> &'a str {
        self.arguments.split('|').nth(index).unwrap_or("")
    }
}
