//! Why a read or a write was not done.

/// Why a read gives no bytes.
#[derive(Clone, Copy, PartialEq, Eq)]
pub enum ReadRefusal {
    /// The read failed, and the shelf has counted it.
    Failed,
    /// The file is longer than the read allows. So many bytes were seen: one more than the limit.
    TooLong(u64),
    /// There is no file of that name.
    Missing,
    NoMemory,
}

/// Why a write was not done.
#[derive(Clone, Copy, Debug, PartialEq, Eq)]
pub enum WriteRefusal {
    /// The write failed, and the shelf or sink has counted it. It may have done a part.
    Failed,
    /// There is no memory for the bytes, and nothing has changed.
    NoMemory,
}
