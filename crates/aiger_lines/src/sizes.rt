/// The nine numbers of a header, M I L O A B C J F. A greater one than 2^64 - 1 stands as that.
#[derive(Clone, Copy, Debug, PartialEq, Eq)]
pub struct Header {
    /// The greatest variable.
    pub vars: u64,
    pub inputs: u64,
    pub latches: u64,
    pub outputs: u64,
    pub gates: u64,
    pub bads: u64,
    pub constraints: u64,
    pub justice: u64,
    pub fairness: u64,
}
