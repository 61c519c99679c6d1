// What a call reads. Document 02, L9: 'Guards as a profile.'
#[derive(Clone, Copy)]
pub enum Profile {
    Script,
    Guard,
}
