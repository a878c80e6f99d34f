//! The profiles of the grammar.

/// Which grammar is meant. The first two differ in the greatest list number and in the read kind of `memory.numa_stat`.
/// That of the kernel has what the second has, rows for files that kernels of today print beside these, and what they
/// print of devices that are gone, and of amounts below 0.
#[derive(Clone, Copy, Debug, PartialEq, Eq)]
pub enum Profile {
    One,
    Two,
    Kernel,
}
