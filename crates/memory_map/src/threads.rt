//! What may cross threads. Each type that has to says so beside itself, and is proved to.

/// May be handed to another thread.
pub trait CrossesThreads: Send {}

/// May be handed to another thread, and be read by several.
pub trait SharedByThreads: Send + Sync {}
