//! One entry of a book.

/// What a book keeps of a connection under a key.
#[derive(Drop)]
pub(crate) struct BookEntry<K> {
    /// The key: a number or a session's id.
    pub key: K,
    /// The connection.
    pub conn: u32,
}
