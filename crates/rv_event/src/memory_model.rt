//! The memory models that a log can be judged by.

/// The memory model by which a log is judged. The two differ only in the annotations that an event
/// carries.
#[derive(Clone, Copy, PartialEq, Eq, Debug)]
pub enum MemoryModel {
    /// RISC-V's weak memory ordering (Unprivileged ISA 20191213, chapter 14).
    Rvwmo,
    /// Total store ordering, as this project's own profile of the manual's chapter "Ztso": each
    /// load has an acquire annotation and each store a release annotation; those of an AMO are
    /// RCsc, the others RCpc.
    Ztso,
}
