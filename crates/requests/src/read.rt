// What was read at the front of bytes, and the count of its bytes.
#[derive(Clone, Copy, Debug, PartialEq, Eq)]
pub struct Read<T> {
    pub value: T,
    pub len: usize,
}
