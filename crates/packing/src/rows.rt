// Node rows and link rows, as the passes look at them.
#[derive(Clone, Copy)]
pub struct Rows<'a> {
    pub nodes: &'a [u32],
    pub links: &'a [u32],
}
