//! The hook of a telephone.

/// Whether the handset lies on its hook.
#[derive(Clone, Copy, PartialEq, Eq)]
pub enum Hook {
    OnHook,
    OffHook,
}
