//! A table: the reply to each entry of a script.

/// The reply and the data of each entry of a script, in the script's order. Data are the bytes that a READ took.
#[derive(PartialEq, Eq, PartialOrd, Ord, Debug, Drop)]
pub struct Table {
    pub lines: Vec<(i32, Vec<u8>)>,
}
