// What is wrong with a call that is turned away, by the code of the refusal: 4 is for scratch and for the built-in names' rows.
#[derive(Clone, Copy, PartialEq, Eq)]
pub enum Wrong {
    List = 1,
    Text = 2,
    Limit = 3,
    Room = 4,
    Byte = 5,
    Token = 6,
    Eof = 7,
    Outside = 17,
    Names = 18,
    Edition = 21,
}
