// The rows that are judged.

// Rows and links that are lent, with the table of their edition.
#[derive(Clone, Copy)]
pub struct Rows<'a> {
    pub table: &'a [u8],
    pub nodes: &'a [u32],
    pub links: &'a [u32],
    pub count: u32,
}
