/// A row of a divider's table: a number of its field, and what the divider divides by then.
#[derive(Clone, Copy, Debug, PartialEq, Eq)]
pub struct TableRow {
    pub value: u32,
    pub div: u32,
}
