/// How many words a line has after the first one.
#[derive(Clone, Copy, Debug, PartialEq, Eq)]
pub enum Shape {
    /// At least the first number, at most the second.
    Words { least: u32, most: u32 },
    /// This many, and then a value up to the line's end.
    Value { before: u32 },
}
