//! The two channels.

/// Which channel a record holds: the release's `array::Channel` or `zero::Channel`.
#[derive(Clone, Copy, Debug, PartialEq, Eq)]
pub enum Flavour {
    Zero,
    Array,
}
