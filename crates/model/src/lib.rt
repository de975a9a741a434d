// The numbers of a table, named as the session's format form names them. Definitions and code share this one type.
#![tactic(auto)]

#[derive(Clone, Copy)]
pub struct Geometry {
    pub parts: u32,
    pub page: u32,
    pub pages: u32,
    pub kept: u32,
    pub bits: u32,
    pub hashes: u32,
    pub list: u32,
}

// What a card with a table of some geometry carries, for a number of puts: the bytes of memory and of flash, the most flushes, and the first put at which an earlier key can be lost.
#[derive(Clone, Copy)]
pub struct Card {
    pub memory: u64,
    pub flash: u64,
    pub flushes: u64,
    pub first_lost: u64,
}
