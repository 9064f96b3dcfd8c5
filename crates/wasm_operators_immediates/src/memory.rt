//! The arguments of accesses to memory.

/// How an atomic access is ordered among others (the proposal on shared everything).
#[derive(Clone, Copy, Debug, PartialEq, Eq)]
pub enum Ordering {
    /// Acquire and release.
    AcqRel,
    /// Sequentially consistent.
    SeqCst,
}

/// The ordering that a memory argument names.
#[derive(Clone, Copy, Debug, PartialEq, Eq)]
pub enum MemArgOrdering {
    /// Of a load or a store, or of what waits or notifies.
    Op(Ordering),
    /// Of both halves of a read-modify-write.
    Rmw(Ordering),
}

/// What an access reaches into.
#[derive(Clone, Copy, Debug, PartialEq, Eq, Default)]
pub enum MemArgTarget {
    /// The memory of the argument's index.
    #[default]
    Memory,
    /// An array on the operand stack. No reader gives it.
    Array,
}

/// The argument of a load, a store or another access (WebAssembly 3.0, structure, memory instructions).
#[derive(Clone, Copy, Debug, PartialEq, Eq)]
pub struct MemArg {
    /// The exponent of the alignment, which is `2^align` bytes.
    pub align: u8,
    /// The exponent of the natural alignment of the operator, which is the most that is valid.
    pub max_align: u8,
    /// What is added to the address, in bytes.
    pub offset: u64,
    /// The index of the memory.
    pub memory: u32,
    /// The ordering, where the argument names one.
    pub ordering: Option<MemArgOrdering>,
    /// What the access reaches into.
    pub target: MemArgTarget,
}
