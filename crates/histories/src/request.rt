// What a call asks of a medium.

#[derive(Drop, PartialEq, Eq, Debug)]
pub enum Request {
    // lay the bytes over it at a place
    Put { place: u32, bytes: Vec<u8> },
    // put FFH over `count` blocks from `first` on
    Clear { first: u32, count: u32 },
    // fill the call's buffer from a place on
    Take { place: u32 },
    // count what a put would take, and leave the medium as it is
    Plan { place: u32, bytes: Vec<u8> },
}
