// The last octets of a number, as it is narrowed to what a call of the library takes.
// Kept as one function for each width: they differ in the type, and each is one line.
pub fn one(n: u64) -> u8 {
    (n % 256) as u8
}

pub fn two(n: u64) -> u16 {
    (n % 65536) as u16
}

pub fn four(n: u64) -> u32 {
    (n % 4294967296) as u32
}
